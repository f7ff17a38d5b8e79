//! All that is seen of a view, written out.
use crate::draws::bias;
use cell_units::{Bias, NoMemory, Point, Refusal, Side, Spot, Steps};
use display_map::{Kind, ViewOn};
use generated_input::Generator;
use kept_sheet::Sheet;
use plain_rows::Plain;
use std::alloc::Global;

/// Appends a line.
fn push_line(seen: &mut String, line: &String) -> Result<(), NoMemory> {
    seen.push_str(line.as_str())?;
    seen.push('\n')?;
    Ok(())
}

/// What became of a change.
pub(crate) fn write_outcome(
    alloc: Global,
    seen: &mut String,
    refusal: Option<Refusal>,
) -> Result<(), NoMemory> {
    let number = refusal.map_or(0, Refusal::number);
    push_line(seen, &format!(in alloc; "change {}", number)?)
}

/// The letter of a kind of row.
fn letter(kind: Kind) -> &'static str {
    match kind {
        Kind::Head => "t",
        Kind::More => "w",
        Kind::Block => "b",
    }
}

/// Every row: one by one, and all of them at once.
fn write_rows<S: Sheet>(
    alloc: Global,
    seen: &mut String,
    view: &ViewOn<S>,
) -> Result<(), NoMemory> {
    let count = view.row_count();
    push_line(seen, &format!(in alloc; "rows {}", count)?)?;
    for row in view.rows(alloc, 0, count, &mut Steps::new())? {
        push_line(
            seen,
            &format!(in alloc; "{}|{}", letter(row.kind), row.text.as_str())?,
        )?;
    }
    for number in 0..=count.min(40) {
        let Some(row) = view.row(alloc, number, &mut Steps::new())? else {
            push_line(seen, &format!(in alloc; "no row {}", number)?)?;
            continue;
        };
        push_line(
            seen,
            &format!(in alloc; "{} {}|{}", number, letter(row.kind), row.text.as_str())?,
        )?;
    }
    Ok(())
}

/// The runs of lines that are wrapped.
fn write_marks<S: Sheet>(
    alloc: Global,
    seen: &mut String,
    view: &ViewOn<S>,
) -> Result<(), NoMemory> {
    for run in view.marks(alloc, &mut Steps::new())? {
        push_line(
            seen,
            &format!(in alloc; "mark {}-{}@{}", run.first, run.last, run.width)?,
        )?;
    }
    Ok(())
}

/// Where an offset is shown, or that it can't be.
fn write_shown<S: Sheet>(
    alloc: Global,
    seen: &mut String,
    view: &ViewOn<S>,
    offset: u32,
    bias: Bias,
) -> Result<(), NoMemory> {
    match view.show(alloc, offset, bias, &mut Steps::new()) {
        Ok(spot) => push_line(
            seen,
            &format!(in alloc; "{} at {} {}", offset, spot.row, spot.col)?,
        ),
        Err(_) => push_line(seen, &format!(in alloc; "{} nowhere", offset)?),
    }
}

/// The nearest valid spot, and its offset.
fn write_nearest<S: Sheet>(
    alloc: Global,
    seen: &mut String,
    view: &ViewOn<S>,
    spot: Spot,
    bias: Bias,
) -> Result<(), NoMemory> {
    let nearest = view.clip(alloc, spot, bias, &mut Steps::new())?;
    let offset = view.back(alloc, spot, bias, &mut Steps::new())?;
    push_line(
        seen,
        &format!(in alloc; "near {} {} of {}", nearest.row, nearest.col, offset)?,
    )
}

/// Some offsets, spots and points, each asked in both directions.
fn write_places<S: Sheet>(
    alloc: Global,
    seen: &mut String,
    view: &ViewOn<S>,
    generator: &mut Generator,
) -> Result<(), NoMemory> {
    let rows = view.row_count().saturating_add(2);
    for _ in 0..6 {
        let bias = bias(generator);
        let spot = Spot {
            row: generator.below(rows),
            col: generator.below(50),
        };
        write_nearest(alloc, seen, view, spot, bias)?;
        write_shown(alloc, seen, view, generator.below(500), bias)?;
        let point = Point {
            row: generator.below(16),
            column: generator.below(50),
        };
        let offset = view.offset_of(point, bias, &mut Steps::new());
        write_shown(alloc, seen, view, offset, bias)?;
    }
    Ok(())
}

/// The entries of a record.
fn write_entries(alloc: Global, seen: &mut String, plain: &Plain) -> Result<(), NoMemory> {
    for inlay in &plain.inlays {
        let side = if inlay.bias == Bias::Left {
            "left"
        } else {
            "right"
        };
        let text = inlay.text.as_str();
        push_line(
            seen,
            &format!(in alloc; "inlay {} {} {} {}", inlay.id, inlay.offset, side, text)?,
        )?;
    }
    for fold in &plain.folds {
        push_line(
            seen,
            &format!(in alloc; "fold {} {} {}", fold.id, fold.start, fold.end)?,
        )?;
    }
    for block in &plain.blocks {
        let side = if block.side == Side::Above {
            "above"
        } else {
            "below"
        };
        push_line(
            seen,
            &format!(in alloc; "block {} {} {}", block.id, side, block.offset)?,
        )?;
        for line in &block.lines {
            push_line(seen, &format!(in alloc; "  {}", line.as_str())?)?;
        }
    }
    Ok(())
}

/// The record as plain lists.
fn write_record<S: Sheet>(
    alloc: Global,
    seen: &mut String,
    view: &ViewOn<S>,
) -> Result<(), NoMemory> {
    let plain = view.plain(alloc, &mut Steps::new())?;
    push_line(seen, &format!(in alloc; "text {}", plain.text.as_str())?)?;
    push_line(
        seen,
        &format!(in alloc; "tab {} width {}", plain.tab, plain.width)?,
    )?;
    for mark in &plain.marks {
        push_line(seen, &format!(in alloc; "at {}", *mark)?)?;
    }
    write_entries(alloc, seen, &plain)
}

/// All of it.
pub(crate) fn write_view<S: Sheet>(
    alloc: Global,
    seen: &mut String,
    view: &ViewOn<S>,
    generator: &mut Generator,
) -> Result<(), NoMemory> {
    write_rows(alloc, seen, view)?;
    write_marks(alloc, seen, view)?;
    write_places(alloc, seen, view, generator)?;
    write_record(alloc, seen, view)
}
