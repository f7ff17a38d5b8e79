//! Where a line is cut, so that its rows fit a width: two walks along it, which keep no element.
ghost use Rattle.std.specs.Prelude.{◌≡◌, ◌<◌, ◌≤◌, ◌++◌, drop, length, IfNone, IfOk, IfSome, OnOk};
ghost use Rattle.cell_line.specs.Lines.{LineFitsU32};
ghost use Rattle.cell_units.specs.Lawful.{IsWidth};
ghost use Rattle.cell_line.specs.Wrapping.{cuts_of, lead_of, next_start_of, row_starts};
ghost use Rattle.cell_line.specs.inside.Marks.{left_of, IsLead};

use crate::filling::{Row, begin, fill, overflows};
use crate::mark::{Lead, Walk};
use crate::wrapping::Cuts;
use cell_units::NoMemory;
use smallvec::SmallVec;
use std::alloc::Global;

/// Where the row after the first begins. None comes only where no row follows.
fn first_end(mut walk: Walk, lead: u32, room: u32) -> Option<u32>
    // The line's count of elements and its cells fit u32, and something follows the `lead` blanks at its start.
    requires fits { LineFitsU32 (left_of walk) }
    requires lead { lead ≡ lead_of (left_of walk) }
    requires some { lead < length (left_of walk) }

    // Where the row after the first begins, and none only where the first takes the whole line.
    ensures some { IfSome result (λ end. end ≡ next_start_of (left_of walk.entry) room 0) }
    ensures none { IfNone result (length (left_of walk.entry) ≤ next_start_of (left_of walk.entry) room 0) }
{
    let mut row = Row::at(0);
    let mut at = 0;
    let mut parts = false;
    'line: while let Some(mark) = walk.next_mark() {
        row = row.asked(lead, at, parts, mark);
        if overflows(room, lead, at, row.cells, mark) {
            return Some(row.end(at));
        }
        row = row.with(mark);
        parts = mark.parts_after();
        at += 1;
        let letters = walk.pass_letters(row.letters_room(room, at, parts));
        row = row.with_letters(letters);
        at += letters;
    }
    None
}

/// Passes over so many elements.
pub(crate) fn skip(walk: &mut Walk, count: u32)
    requires { count ≤ length (left_of walk.old) }
    ensures { left_of walk.new ≡ drop count (left_of walk.old) }
{
    let mut left = count;
    'elements: while left > 0 {
        let _ = walk.next_mark();
        left -= 1;
        left -= walk.pass_letters(left);
    }
}

/// Adds the starts of the rows from the one on that begins with the element of this number.
fn push_starts(
    starts: &mut Cuts,
    mut walk: Walk,
    lead: u32,
    room: u32,
    from: u32,
) -> Result<(), NoMemory>
    // The line's count of elements and its cells fit u32, and something follows the `lead` blanks at its start.
    requires fits { LineFitsU32 (left_of walk) }
    requires lead { lead ≡ lead_of (left_of walk) }
    requires some { lead < length (left_of walk) }

    // A place in the line or at its end.
    requires within { from ≤ length (left_of walk) }

    // The starts of all rows from that place on are added.
    ensures { OnOk result (starts.new.items ≡ starts.old.items ++ row_starts (left_of walk.entry) room (length (left_of walk.entry)) from) }
{
    skip(&mut walk, from);
    let mut row = Row::at(from);
    let mut at = from;
    let mut parts = false;
    'line: while let Some(mark) = walk.next_mark() {
        begin(starts, row.start, at)?;
        let asked = row.asked(lead, at, parts, mark);
        row = fill(starts, asked, room, lead, at, mark)?;
        parts = mark.parts_after();
        at += 1;
        let letters = walk.pass_letters(row.letters_room(room, at, parts));
        row = row.with_letters(letters);
        at += letters;
    }
    Ok(())
}

/// The cuts of the line that both walks are to walk, and that these blanks lead.
pub(crate) fn cuts_of_walks(
    alloc: Global,
    lead: Lead,
    first: Walk,
    later: Walk,
    width: u32,
) -> Result<Cuts, NoMemory>
    // Two walks along one line that these blanks lead, whose count of elements and cells fit u32.
    requires fits { LineFitsU32 (left_of first) }
    requires lead { IsLead (left_of first) lead }
    requires same { left_of later ≡ left_of first }

    // A lawful width.
    requires lawful { IsWidth width }

    // The places where the line is cut at that width.
    ensures { IfOk result (λ cuts. cuts.items ≡ cuts_of (left_of first.entry) width) }
{
    let mut cuts = SmallVec::new(alloc);
    if width == 0 || lead.alone {
        return Ok(cuts);
    }
    let count = lead.count as u32;
    let Some(end) = first_end(first, count, width) else {
        return Ok(cuts);
    };
    let room = width - lead.indent(width);
    push_starts(&mut cuts, later, count, room, end)?;
    Ok(cuts)
}
