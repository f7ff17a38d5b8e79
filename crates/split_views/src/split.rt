//! A split: its start, its changes, and what is asked of its views.
ghost use Rattle.std.specs.Prelude.{◌≡◌, ◌+◌, ◌<◌, ◌≤◌, ℕ, [], ◌∷◌, None, length, map, replicate, slice_set, true, false, IfErr, IfOk, MatchResult, OnErr, OnOk};
ghost use Rattle.std.specs.List.{All};
ghost use Rattle.cell_units.specs.Refusal.{IsAccepted, IsTextRefused};
ghost use Rattle.cell_units.specs.Text.{clean};
ghost use Rattle.display_sheet.specs.Changes.{change_refusal, ops_of};
ghost use Rattle.display_map.specs.Events.{Line, Published, event_limit};
ghost use Rattle.display_map.specs.Prepared.{IsOwed};
ghost use Rattle.display_map.specs.Replay.{is_settled, present_of};
ghost use Rattle.split_views.specs.Views.{AreOfOneText, appended_in, changed, history_of};
ghost use Rattle.split_views.specs.Wrapping.{HasBegun, HasWrapped, IsIdle};

use crate::each;
use crate::wrapping::wrap_all;
use cell_units::{Fault, NoMemory, Steps, TextFault};
use display_map::{Change, DisplayOn, Journal, VersionOn, ViewOn};
use kept_sheet::{JobSheet, Sheet};
use map_sheet::MapSheet;
use std::alloc::Global;
use std::marker::Model;

/// How many views a split may have.
pub const VIEW_LIMIT: u32 = 8;

/// Displays of one text. They are seen as the list of their histories.
pub struct SplitOn<S: Sheet> {
    displays: Vec<DisplayOn<S>>,
    /// Empty, with room for the journal of each display, so that `into_journals` takes no memory.
    journals: Vec<Journal>,
}

impl<S: Sheet> Drop for SplitOn<S> {
    fn drop(self) {
        let SplitOn {
            displays: _,
            journals: _,
        } = self;
    }
}

/// The split of the product.
pub type Split = SplitOn<MapSheet>;

impl<S: Sheet> Model for SplitOn<S> {
    ghost use Rattle.std.specs.Prelude.{List};
    ghost use Rattle.display_map.specs.Replay.{History};

    ghost Value = { List History };

    ghost use Rattle.split_views.specs.Kept.{KeepsSplit};

    ghost view = { λ s. s.displays.items };

    ghost invariant = { λ s. KeepsSplit s.displays.items s.journals };
}

/// So many views of what a display shows.
fn shared<S: Sheet>(alloc: Global, first: DisplayOn<S>, views: u32) -> Result<SplitOn<S>, NoMemory>
    requires { (1 ≤ views) × (views ≤ VIEW_LIMIT) }
    ensures { IfOk result (λ split. split ≡ replicate views first) }
{
    let journals = Vec::with_capacity(alloc, views as usize)?;
    let displays = each::copies(alloc, first, views)?;
    Ok(SplitOn { displays, journals })
}

impl<S: Sheet> SplitOn<S> {
    /// So many views of these bytes, each with an empty journal. They are refused as by `Display::start`.
    pub fn start(
        alloc: Global,
        bytes: &[u8],
        views: u32,
        steps: &mut Steps,
    ) -> Result<SplitOn<S>, TextFault>
        requires { (1 ≤ views) × (views ≤ VIEW_LIMIT) }
        ensures started { MatchResult result
            (λ split. split ≡ replicate views (record { opening = clean bytes.now; events = [] }))
            (IsTextRefused bytes.now) }
        ensures accepted { OnOk result (IsAccepted bytes.now) }
        ensures counted { steps.old ≤ steps.new }
    {
        let first = DisplayOn::start(alloc, bytes, steps)?;
        Ok(shared(alloc, first, views)?)
    }

    /// The views are of one text. It does nothing.
    pub fn of_one_text(&self)
        ensures { AreOfOneText self.now }
    {
        // For the proof: they are of one text, as the type keeps.
        let _ = &self.displays;
    }

    /// How many views there are.
    pub fn views(&self) -> u32
        ensures { result ≡ length self.now }
    {
        self.displays.len() as u32
    }

    /// How many events each journal may still take.
    pub fn room(&self) -> u32
        ensures within { All (λ h. result + length h.events ≤ event_limit) self.now }
        ensures greatest { (n : ℕ) →
            All (λ h. n + length h.events ≤ event_limit) self.now → n ≤ result }
    {
        each::room(&self.displays)
    }

    /// Records in a view that the script line of this number is answered, refused or about to be done. If it is out of
    /// memory nothing changes.
    pub fn note_line(&mut self, alloc: Global, view: u32, number: u64) -> Result<(), NoMemory>
        requires view { view < length self.old }
        requires room { length (history_of self.old view).events + 1 ≤ event_limit }
        ensures noted { OnOk result (self.new ≡ appended_in self.old view (Line number ∷ [])) }
        ensures unchanged { OnErr result (self.new ≡ self.old) }
    {
        self.displays[view as usize].note_line(alloc, number)
    }

    /// Publishes a view as it is, as its last version or not. If it is out of memory nothing changes.
    pub fn publish(
        &mut self,
        alloc: Global,
        view: u32,
        last: bool,
    ) -> Result<VersionOn<S>, NoMemory>
        requires view { view < length self.old }
        requires room { length (history_of self.old view).events + 1 ≤ event_limit }
        ensures published { OnOk result
            (self.new ≡ appended_in self.old view (Published last ∷ [])) }
        ensures version { IfOk result (λ version. version ≡ history_of self.new view) }
        ensures unchanged { OnErr result (self.new ≡ self.old) }
    {
        self.displays[view as usize].publish(alloc, last)
    }

    /// Does the change that the script line of this number asks of a view. An edit is done in every view, and another
    /// change in its own alone. It is refused as by `Display::apply` of this view, but out of memory may come in place
    /// of a refusal. After either all views are as they were.
    pub fn apply(
        &mut self,
        alloc: Global,
        view: u32,
        number: u64,
        change: &Change,
        steps: &mut Steps,
    ) -> Result<(), Fault>
        // The view is there, and each journal has room for the line and for an event of each operation.
        requires view { view < length self.old }
        requires room { All (λ h. length h.events + (length (ops_of change.now) + 1) ≤ event_limit)
            self.old }
        // When it is done, and what is there after it.
        ensures accepted { OnOk result
            (change_refusal (present_of (history_of self.old view)) change.now ≡ None) }
        ensures done { OnOk result (self.new ≡ changed self.old view number change.now) }
        // Why it is refused, and that nothing is changed then.
        ensures refused { IfErr result
            (IsOwed (change_refusal (present_of (history_of self.old view)) change.now)) }
        ensures unchanged { OnErr result (self.new ≡ self.old) }
        // The work.
        ensures counted { steps.old ≤ steps.new }
    {
        if each::is_edit(change) {
            each::apply(alloc, &mut self.displays, number, change, steps)
        } else {
            each::apply_one(
                alloc,
                &mut self.displays[view as usize],
                number,
                change,
                steps,
            )
        }
    }

    /// A view as it is now. It allocates nothing, and fails with `NoMemory` only where the count of holders is full.
    pub fn view(&self, view: u32) -> Result<ViewOn<S>, NoMemory>
        requires { view < length self.now }
        ensures { IfOk result (λ shown. shown ≡ history_of self.now view) }
    {
        self.displays[view as usize].view()
    }

    /// The journals alone, in the order of the views. It allocates nothing.
    pub fn into_journals(self) -> Vec<Journal>
        ensures { result.items ≡ map (λ h. h.events) self }
    {
        let SplitOn { displays, journals } = self;
        each::into_journals(displays, journals)
    }
}

impl<S: JobSheet> SplitOn<S> {
    /// Wraps runs of a view one after another, and publishes it after each. `true` means that every line of the view is
    /// wrapped at its width, and `false` that its journal has no room for the events of one more run.
    pub fn settle(&mut self, alloc: Global, view: u32, steps: &mut Steps) -> Result<bool, NoMemory>
        // The view is there, and no job of it is out.
        requires view { view < length self.old }
        requires idle { IsIdle (history_of self.old view) }
        // Runs of this view are wrapped, and then again no job is out.
        ensures others { self.new ≡ slice_set self.old view (history_of self.new view) }
        ensures wrapped { OnOk result
            (HasWrapped (history_of self.old view) (history_of self.new view)) }
        ensures idle { OnOk result (IsIdle (history_of self.new view)) }
        // What the result says.
        ensures settled { IfOk result (λ all. all ≡ true →
            is_settled (present_of (history_of self.new view)) ≡ true) }
        ensures full { IfOk result (λ all. all ≡ false →
            event_limit < length (history_of self.new view).events + 3) }
        // What is there after it was out of memory.
        ensures begun { OnErr result
            (HasBegun (history_of self.old view) (history_of self.new view)) }
        // The work.
        ensures counted { steps.old ≤ steps.new }
    {
        wrap_all(alloc, &mut self.displays[view as usize], steps)
    }
}
