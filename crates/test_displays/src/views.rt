//! A view of a text after operations, and the lines of a block.
ghost use Rattle.std.specs.Prelude.{◌≡◌, map, IfOk};
ghost use Rattle.cell_units.specs.Text.{clean};

use crate::displays::{apply, land, send};
use cell_units::{Fault, NoMemory, Steps, Text};
use display_map::{Change, Display, Op, View, job_laws};
use std::alloc::Global;

/// Wraps the first run of lines that wait, if any do.
fn wrap(alloc: Global, display: &mut Display) -> Result<(), NoMemory>
    ensures { display.new.opening ≡ display.old.opening }
{
    // For the proof: a job that was sent is out.
    job_laws();
    let Some(job) = send(alloc, display)? else {
        return Ok(());
    };
    land(alloc, display, job)?;
    Ok(())
}

/// Does the operations, and wraps the first run of lines.
fn prepare(alloc: Global, display: &mut Display, ops: Vec<Op>) -> Result<(), Fault>
    ensures { display.new.opening ≡ display.old.opening }
{
    for op in ops {
        apply(alloc, display, &Change::One(op))?;
    }
    wrap(alloc, display)?;
    Ok(())
}

/// A view of a text after the operations, with all of its lines wrapped. They are at most 128. A text that is too long
/// counts as out of memory.
pub fn view_of(alloc: Global, text: &str, ops: Vec<Op>) -> Result<View, Fault>
    ensures { IfOk result (λ view. view.opening ≡ clean text.now) }
{
    let Ok(mut display) = Display::start(alloc, text.as_bytes(), &mut Steps::new()) else {
        return Err(Fault::NoMemory);
    };
    prepare(alloc, &mut display, ops)?;
    Ok(display.view()?)
}

/// Lines of a block.
pub fn lines(alloc: Global, texts: &[&str]) -> Result<Vec<Text>, NoMemory>
    ensures { IfOk result (λ lines. lines.items ≡ map (λ text. text.now) texts.now) }
{
    let mut lines = Vec::new(alloc);
    for text in texts {
        lines.push(Text::from_str(alloc, text)?)?;
    }
    Ok(lines)
}
