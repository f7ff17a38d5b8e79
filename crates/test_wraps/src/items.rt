//! How many items a wrap map keeps, of lines as they are wrapped.
ghost use Rattle.std.specs.Prelude.{◌≡◌};
ghost use Rattle.cell_line.specs.Lines.{FitsU32};
ghost use Rattle.wrapped_lines.specs.WrappedSource.{HaveRoom};

use crate::read::marks;
use cell_line::{Lines, Run};
use cell_units::{NoMemory, Steps};
use edit_patch::Patch;
use std::alloc::Global;
use test_stages::{StagedText, wraps};
use wrap_map::{MarkRun, WrapMap};

/// How many items a map keeps whose lines are wrapped as these are. It is made anew, and lines of each mark land on it.
pub(crate) fn items(alloc: Global, text: &StagedText) -> Result<u32, NoMemory> {
    // For the proof: a text is within its limit.
    let _bytes = text.rope.len();
    let marks = marks(alloc, text.lines.rows())?;
    items_at(alloc, text.lines.lines(), marks.as_slice())
}

/// The same of lines that are wrapped at these marks.
fn items_at<N: Lines>(alloc: Global, lines: &N, marks: &[MarkRun]) -> Result<u32, NoMemory>
    requires fits { FitsU32 (N.elements_by_line lines.now) }
    requires room { HaveRoom (N.elements_by_line lines.now) }
{
    let mut map = WrapMap::new(alloc, lines.share()?, 0, &mut Steps::new())?;
    wrap_at(alloc, &mut map, lines, marks)?;
    Ok(map.items())
}

/// Wraps lines at these marks.
fn wrap_at<N: Lines>(
    alloc: Global,
    map: &mut WrapMap<N>,
    lines: &N,
    marks: &[MarkRun],
) -> Result<(), NoMemory>
    requires lines { map.old.standing.lines ≡ N.elements_by_line lines.now }
    requires fits { FitsU32 (N.elements_by_line lines.now) }
    requires room { HaveRoom (N.elements_by_line lines.now) }
{
    for run in marks {
        wrap_run(alloc, map, lines, *run)?;
    }
    Ok(())
}

/// Wraps the lines of one mark, where there are such lines and such a width.
fn wrap_run<N: Lines>(
    alloc: Global,
    map: &mut WrapMap<N>,
    lines: &N,
    marks: MarkRun,
) -> Result<(), NoMemory>
    requires lines { map.old.standing.lines ≡ N.elements_by_line lines.now }
    requires fits { FitsU32 (N.elements_by_line lines.now) }
    requires room { HaveRoom (N.elements_by_line lines.now) }
    ensures { map.new.standing.lines ≡ map.old.standing.lines }
{
    let MarkRun { first, last, width } = marks;
    if first > last || last >= lines.lines() || map.set_width(width).is_err() {
        return Ok(());
    }
    let run = Run {
        first,
        count: last - first + 1,
    };
    let wraps = wraps(alloc, lines, run, width)?;
    let (since, steps) = (Patch::none(alloc), &mut Steps::new());
    map.land(alloc, lines, &since, run, width, wraps.as_slice(), steps)?;
    Ok(())
}
