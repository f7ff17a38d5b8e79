//! Edits of a display, with what takes them back.
use cell_units::{Fault, NoMemory, Steps, Text};
use display_map::{Change, Display, Splice};
use std::alloc::Global;
use std::process::Abort;
use undo_line::{UndoLine, inverse};

/// A range of bytes, and the text that replaces it.
pub(crate) type Range<'a> = (u32, u32, &'a str);

/// A batch of replacements.
pub(crate) fn splices(alloc: Global, ranges: &[Range]) -> Result<Vec<Splice>, NoMemory> {
    let mut splices = Vec::new(alloc);
    for (start, end, text) in ranges {
        splices.push(Splice {
            start: *start,
            end: *end,
            text: Text::from_str(alloc, text)?,
        })?;
    }
    Ok(splices)
}

/// A batch that is equal to a lent one.
fn copied(alloc: Global, batch: &[Splice]) -> Result<Vec<Splice>, NoMemory> {
    let mut copy = Vec::new(alloc);
    for splice in batch {
        copy.push(splice.copy(alloc)?)?;
    }
    Ok(copy)
}

/// Does a batch, and returns what takes it back.
pub(crate) fn done(
    rt: &impl Abort,
    alloc: Global,
    display: &mut Display,
    batch: Vec<Splice>,
) -> Result<Vec<Splice>, Fault> {
    assert!(rt; batch.len() <= 2000);
    assert!(rt; display.room() >= 2000);
    let view = display.view()?;
    let change = Change::Edit(batch);
    display.apply(alloc, &change, &mut Steps::new())?;
    let Change::Edit(batch) = &change else {
        return Err(Fault::NoMemory);
    };
    Ok(inverse(alloc, &view, batch, &mut Steps::new())?)
}

/// Does an edit.
pub(crate) fn edit(
    rt: &impl Abort,
    alloc: Global,
    display: &mut Display,
    line: &mut UndoLine,
    ranges: &[Range],
) -> Result<(), Fault> {
    let batch = splices(alloc, ranges)?;
    let back = done(rt, alloc, display, batch)?;
    line.ready()?;
    line.edited(back);
    Ok(())
}

/// Takes the last edit back, and returns whether there was one.
pub(crate) fn undo(
    rt: &impl Abort,
    alloc: Global,
    display: &mut Display,
    line: &mut UndoLine,
) -> Result<bool, Fault> {
    line.ready()?;
    let Some(batch) = line.last_done() else {
        return Ok(false);
    };
    let batch = copied(alloc, batch)?;
    line.undone(done(rt, alloc, display, batch)?);
    Ok(true)
}

/// Does the edit again that was taken back last, and returns whether there was one.
pub(crate) fn redo(
    rt: &impl Abort,
    alloc: Global,
    display: &mut Display,
    line: &mut UndoLine,
) -> Result<bool, Fault> {
    line.ready()?;
    let Some(batch) = line.last_undone() else {
        return Ok(false);
    };
    let batch = copied(alloc, batch)?;
    line.redone(done(rt, alloc, display, batch)?);
    Ok(true)
}

/// The batch has these ranges and texts.
pub(crate) fn assert_batch(rt: &impl Abort, batch: &[Splice], ranges: &[Range]) {
    assert_eq!(rt; batch.len(), ranges.len());
    for (splice, (start, end, text)) in batch.iter().zip(ranges) {
        assert_eq!(rt; (splice.start, splice.end), (*start, *end));
        assert_eq!(rt; splice.text.as_str(), *text);
    }
}

/// The display's text is this one.
pub(crate) fn assert_text(
    rt: &impl Abort,
    alloc: Global,
    display: &Display,
    text: &str,
) -> Result<(), NoMemory> {
    let plain = display.view()?.plain(alloc, &mut Steps::new())?;
    assert_eq!(rt; plain.text.as_str(), text);
    Ok(())
}
