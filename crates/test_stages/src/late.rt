//! A text of which a run of lines is wrapped late.
ghost use Rattle.std.specs.Prelude.{◌≡◌, ◌≢◌, ◌≤◌, [], Some, map, IfErr, IfOk, IfSome, OnErr, OnOk};
ghost use Rattle.cell_line.specs.Waiting.{IsNextIfAny};
ghost use Rattle.cell_units.specs.Lawful.{IsWidth};
ghost use Rattle.cell_units.specs.Text.{clean};
ghost use Rattle.edit_patch.specs.Leads.{LeadsBy};
ghost use Rattle.text_rope.specs.Edits.{IsReplaceFault};
ghost use Rattle.wrapped_lines.specs.Changed.{IsLandedAt, IsNumberFault};
ghost use Rattle.wrapped_lines.specs.WrappedSource.{lines_of};
ghost use Rattle.test_stages.specs.Places.{IsOutOf, IsOutOf-prop, carried, no_run, taken_from};
ghost use Rattle.test_stages.specs.Staged.{IsReplaced};

use crate::out_run::OutRun;
use crate::text::{Change, StagedText};
use cell_line::Run;
use cell_units::{Fault, NoMemory, Shift, Steps};
use edit_patch::Patch;
use std::alloc::Global;
use text_rope::Rope;

/// A text, and the run of its lines that was taken last. At first that is a run of no lines.
pub struct LateText {
    pub text: StagedText,
    pub out: OutRun<Rope>,
    ghost is_out: { IsOutOf (lines_of text.lines) out } by { IsOutOf-prop (lines_of text.lines) out },
}

impl Drop for LateText {
    fn drop(self) {
        let LateText { text: _, out: _ } = self;
    }
}

impl LateText {
    /// The text, of which no run is taken.
    pub fn new(alloc: Global, text: StagedText) -> Result<LateText, NoMemory>
        ensures text { IfOk result (λ late. late.text ≡ text) }
        ensures out { IfOk result (λ late. late.out ≡ no_run (lines_of text.lines)) }
    {
        let out = OutRun::none(alloc, &text.lines)?;
        Ok(LateText { text, out })
    }

    /// Sets the width at which the lines are to be wrapped, in cells. `BadNumber` where it is neither 0 nor 2 to
    /// 10,000.
    pub fn set_width(&mut self, width: u32) -> Result<(), Fault>
        // A lawful width is set.
        ensures set { let lines = self.old.text.lines in
            OnOk result (self.new.text.lines ≡ record lines { width = width }) }
        ensures accepted { OnOk result (IsWidth width) }
        ensures refused { IfErr result (IsNumberFault (IsWidth width)) }

        // What stays.
        ensures text { self.new.text.rope ≡ self.old.text.rope }
        ensures out { self.new.out ≡ self.old.out }
        ensures unchanged { OnErr result (self.new ≡ self.old) }
    {
        self.text.set_width(width)
    }

    /// Takes the first lines that wait, and cuts them at the width. It gives the run of them, or `None` where no line
    /// waits.
    pub fn take(&mut self, alloc: Global, steps: &mut Steps) -> Result<Option<Run>, NoMemory>
        // The run, which is out then. Where no line waits the one before stays out.
        ensures next { let lines = self.old.text.lines in
            IfOk result (λ run. IsNextIfAny lines.marks lines.width [] run) }
        ensures taken { let lines = self.old.text.lines in
            IfOk result (λ run. IfSome run (λ run. self.new.out ≡ taken_from lines run)) }

        // What stays, and the work.
        ensures text { self.new.text ≡ self.old.text }
        ensures unchanged { OnErr result (self.new ≡ self.old) }
        ensures counted { steps.old ≤ steps.new }
    {
        // For the proof: a text is within its limit.
        let _bytes = self.text.rope.len();
        let Some(out) = OutRun::taken(alloc, &self.text.lines, steps)? else {
            return Ok(None);
        };
        let run = out.run();
        self.out = out;
        Ok(Some(run))
    }

    /// Gives the lines of the run that are still there their cuts, and gives the patch of the rows that were replaced.
    /// Where the width isn't the one at which they were cut, nothing changes.
    pub fn land(&mut self, alloc: Global, steps: &mut Steps) -> Result<Patch, NoMemory>
        // The lines after it.
        ensures landed { self.old.out.width ≡ self.old.text.lines.width → IfOk result (λ rows.
            IsLandedAt self.old.text.lines self.old.out.places self.new.text.lines rows) }
        ensures other_width { self.old.out.width ≢ self.old.text.lines.width →
            IfOk result (λ rows. rows ≡ []) × (self.new.text.lines ≡ self.old.text.lines) }

        // What stays, and the work.
        ensures text { self.new.text.rope ≡ self.old.text.rope }
        ensures out { self.new.out ≡ self.old.out }
        ensures unchanged { OnErr result (self.new ≡ self.old) }
        ensures counted { steps.old ≤ steps.new }
    {
        let Some(landed) = self.out.land(alloc, &self.text.lines, steps)? else {
            return Ok(Patch::none(alloc));
        };
        self.text.lines = landed.lines;
        Ok(landed.rows)
    }

    /// Puts a text in the place of a range, and gives what was replaced. It is refused as the rope refuses it.
    pub fn replace(
        &mut self,
        alloc: Global,
        start: u32,
        end: u32,
        put: &str,
        steps: &mut Steps,
    ) -> Result<Change, Fault>
        // The text with its lines after it, and where the lines of the run are then.
        ensures replaced { let put = clean put.now in
            let old = self.old.text in let new = self.new.text in IfOk result (λ change.
            IsReplaced old.rope old.lines start end put new.rope new.lines
            change.bytes change.run change.rows) }
        ensures moved { let out = self.old.out in IfOk result (λ change.
            self.new.out ≡ record out { places = map (carried change.run) out.places }) }

        // A refusal is that of the rope, and changes nothing.
        ensures refused { IfErr result (IsReplaceFault self.old.text.rope start end (clean put.now)) }
        ensures unchanged { OnErr result (self.new ≡ self.old) }
        ensures counted { steps.old ≤ steps.new }
    {
        let (text, change) = self.text.replaced(alloc, start, end, put, steps)?;
        self.follow(text, change.run);
        Ok(change)
    }

    /// Goes on to a text of which a run of lines was replaced.
    pub(crate) fn follow(&mut self, text: StagedText, run: Shift)
        requires { LeadsBy (lines_of self.old.text.lines) (lines_of text.lines) (Some run) }
        ensures text { self.new.text ≡ text }
        ensures moved { let out = self.old.out in
            self.new.out ≡ record out { places = map (carried run) out.places } }
    {
        self.out.follow(&self.text.lines, &text.lines, run);
        self.text = text;
    }
}
