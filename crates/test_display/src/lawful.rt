//! What a view, a version and a display promise of their history is what laws and plain functions ask.
ghost use Rattle.std.specs.Prelude.{◌≡◌, ℕ, IsTrue, List, None, length, map, slice_range, take, IfOk};
ghost use Rattle.cell_units.specs.declared.place.Bias.TheVariants.{Left};
ghost use Rattle.cell_units.specs.Lawful.{IsAllowed, IsLawful};
ghost use Rattle.cell_units.specs.Operation.{Operation};
ghost use Rattle.cell_line.specs.declared.element.Element.{Element};
ghost use Rattle.wrap_workers.specs.Jobs.{JobParts};
ghost use Rattle.plain_rows.specs.Rows.{rows_of};
ghost use Rattle.plain_rows.specs.Spots.{back, clip, show, spot_le};
ghost use Rattle.display_sheet.specs.Changes.{ChangeParts, operations_in, refusal_of};
ghost use Rattle.display_sheet.specs.LineStep.{GivesFreshMarks, KeepsMarks, SplicesMarks, Touches, line_step};
ghost use Rattle.edit_patch.specs.declared.edit.Edit.{Edit};
ghost use Rattle.display_map.specs.Events.{Did, Event};
ghost use Rattle.display_map.specs.Identity.{HaveSameLines};
ghost use Rattle.display_map.specs.LawfulStates.{ChangeInsertsUtf8, EventsFit};
ghost use Rattle.display_map.specs.LinePatches.{CameByStamp, IsPatchOver};
ghost use Rattle.display_map.specs.Replay.{appended, begun, present_of, replayed, state_of};
ghost use Rattle.display_map.specs.Sending.{GivesCuts, IsOutstanding};

use crate::callers::row_count;
use crate::views::view_of;
use cell_units::{Bias, NoMemory, Spot, Steps, Text};
use display_map::{
    DisplayOn, VersionOn, ViewOn, landing_laws, line_patch_laws, replay_laws, stamp_laws, step_laws,
};
use kept_sheet::Sheet;
use map_sheet::MapSheet;
use plain_rows::{back, clip, show};
use spot_laws::laws::show_laws;
use std::alloc::Global;
use std::process::Abort;
use std::test::Fail;

/// How many rows a view has, from scratch.
fn built_rows<S: Sheet>(alloc: Global, view: &ViewOn<S>) -> Result<usize, NoMemory>
    ensures { IfOk result (λ count. count ≡ length (rows_of (present_of view.now))) }
{
    let plain = view.plain(alloc, &mut Steps::new())?;
    Ok(row_count(alloc, &plain)?)
}

/// The offset that a spot leads back to, the nearest spot that is shown, and where the offset is shown, from scratch.
fn placed<S: Sheet>(
    alloc: Global,
    view: &ViewOn<S>,
    spot: Spot,
) -> Result<(u32, Spot, Spot), NoMemory>
    ensures { let r = present_of view.now in let o = back r spot Left in
        IfOk result (λ found. found ≡ (o, clip r spot Left, show r o Left)) }
{
    // For the proof: what `back` returns is a boundary.
    show_laws();
    let plain = view.plain(alloc, &mut Steps::new())?;
    let offset = back(alloc, &plain, spot, Bias::Left)?;
    let nearest = clip(alloc, &plain, spot, Bias::Left)?;
    let shown = show(alloc, &plain, offset, Bias::Left)?;
    Ok((offset, nearest, shown))
}

/// The text between the offsets that two spots lead back to, the second of them at or after the first.
fn text_between<S: Sheet>(
    alloc: Global,
    view: &ViewOn<S>,
    first: Spot,
    second: Spot,
) -> Result<Text, NoMemory>
    requires { IsTrue (spot_le first second) }
    ensures { let r = present_of view.now in IfOk result (λ text.
        text ≡ slice_range r.text (back r first Left) (back r second Left)) }
{
    // For the proof: the record is lawful, and what `back` returns rises with the spots.
    view.lawful();
    show_laws();
    let mut steps = Steps::new();
    let start = view.back(alloc, first, Bias::Left, &mut steps)?;
    let end = view.back(alloc, second, Bias::Left, &mut steps)?;
    view.slice(alloc, start, end, &mut steps)
}

/// Lines of one stamp have equal elements in the record of a version and in each one before it.
fn same_lines<S: Sheet>(version: &VersionOn<S>)
    ensures { (n : ℕ) → HaveSameLines
        (replayed (begun version.now.opening) (take n version.now.events)).present
        (present_of version.now) }
{
    // For the proof: the history is lawful, and lines of one stamp have equal elements.
    version.lawful();
    stamp_laws();
}

/// From an earlier view of a display to a later one there is a line patch, by which lines came from lines of their
/// stamp.
fn line_patch<S: Sheet>(earlier: &ViewOn<S>, later: &ViewOn<S>)
    ensures { (events : List Event) → later.now ≡ appended earlier.now events →
        (patch : List Edit) × IsPatchOver (state_of earlier.now) events patch
        × CameByStamp patch (present_of earlier.now) (present_of later.now) }
{
    // For the proof: the history is lawful, and its records have line patches between them.
    let _ = &earlier;
    later.lawful();
    line_patch_laws();
}

/// The operations of a change that a display doesn't refuse are allowed, each in the record that it finds.
fn fitting_changes<S: Sheet>(display: &DisplayOn<S>)
    ensures { (change : ChangeParts) → ChangeInsertsUtf8 change →
        refusal_of (present_of display.now) change ≡ None →
        EventsFit (state_of display.now) (map Did (operations_in change)) }
{
    // For the proof: the history is lawful, and an operation that isn't refused is allowed.
    display.lawful();
    replay_laws();
}

/// A job that is out has the cuts of exactly the lines that its landing marks.
fn landing_cuts<S: Sheet>(display: &DisplayOn<S>)
    ensures { (job : JobParts (List (List Element))) → IsOutstanding display.now job →
        GivesCuts (state_of display.now) job }
{
    // For the proof: the history is lawful, and the cuts of a job are those of the lines that it marks.
    display.lawful();
    landing_laws();
}

/// An operation that is allowed in a display's record leaves a lawful one. It hands on the mark of each untouched line,
/// in order, and the touched lines get fresh ones.
fn next_steps<S: Sheet>(display: &DisplayOn<S>)
    ensures lawful { (operation : Operation) → IsAllowed operation (present_of display.now) →
        IsLawful (line_step operation (present_of display.now)) }
    ensures handed_on { (operation : Operation) → IsAllowed operation (present_of display.now) →
        KeepsMarks operation (present_of display.now) }
    ensures fresh { (operation : Operation) → IsAllowed operation (present_of display.now) →
        GivesFreshMarks operation (present_of display.now) }
    ensures splices { (operation : Operation) → IsAllowed operation (present_of display.now) →
        (a b a' b' : ℕ) → Touches operation (present_of display.now) a b a' b' →
        SplicesMarks operation (present_of display.now) a b a' b' }
{
    // For the proof: the record is lawful, and of such a one an operation steps so.
    display.lawful();
    step_laws();
}

/// Asserts what they read of two lines.
fn assert_read<S: Sheet>(rt: &impl Abort, alloc: Global) -> Result<(), Fail> {
    let view = view_of::<S>(alloc, b"abc\ndefg")?;
    assert_eq!(rt; built_rows(alloc, &view)?, 2);
    let spot = Spot { row: 1, col: 9 };
    let end = Spot { row: 1, col: 4 };
    assert_eq!(rt; placed(alloc, &view, spot)?, (8, end, end));
    let first = Spot { row: 0, col: 2 };
    let text = text_between(alloc, &view, first, spot)?;
    assert_eq!(rt; text.as_str(), "c\ndefg");
    Ok(())
}

#[test]
fn plain_functions_read_a_view(rt: HostRuntime) -> Result<(), Fail> {
    assert_read::<MapSheet>(&rt, rt.alloc())
}

/// Publishes a display.
fn published<S: Sheet>(
    rt: &impl Abort,
    alloc: Global,
    display: &mut DisplayOn<S>,
) -> Result<VersionOn<S>, NoMemory> {
    assert!(rt; display.room() > 0);
    display.publish(alloc, false)
}

/// Asks the laws of a display that was published twice, and of both versions.
fn ask_laws<S: Sheet>(rt: &impl Abort, alloc: Global) -> Result<(), Fail> {
    let mut display = DisplayOn::<S>::start(alloc, b"abc", &mut Steps::new())?;
    let earlier = published(rt, alloc, &mut display)?;
    let later = published(rt, alloc, &mut display)?;
    same_lines(&later);
    line_patch(earlier.view(), later.view());
    fitting_changes(&display);
    landing_cuts(&display);
    next_steps(&display);
    assert_eq!(rt; (earlier.number(), later.number()), (0, 1));
    Ok(())
}

#[test]
fn laws_hold_of_a_display(rt: HostRuntime) -> Result<(), Fail> {
    ask_laws::<MapSheet>(&rt, rt.alloc())
}
