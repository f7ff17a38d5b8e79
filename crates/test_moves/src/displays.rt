//! Operations on displays, and what the tests ask of their views.
use cell_units::{Bias, Motion, NoMemory, Side, Spot, Steps, Text};
use display_map::{Op, View};
use std::alloc::Global;
use std::process::Abort;
use test_displays::lines;
use view_moves::{RowSpan, Selection, select, step};

/// A spot's row and column, and a goal.
pub(crate) type Place = (u32, u32, u32);

/// A row, and its columns from the first to the last that are covered.
pub(crate) type Span = (u32, u32, u32);

/// The operation that shows a text at an offset, after what is before it.
pub(crate) fn inlay(alloc: Global, offset: u32, text: &str) -> Result<Op, NoMemory> {
    inlay_at(alloc, 1, offset, text)
}

/// The same, with its id.
pub(crate) fn inlay_at(alloc: Global, id: u32, offset: u32, text: &str) -> Result<Op, NoMemory> {
    Ok(Op::Inlay {
        id,
        offset,
        bias: Bias::Right,
        text: Text::from_str(alloc, text)?,
    })
}

/// The operation that puts lines above or below a row of the text.
pub(crate) fn block(
    alloc: Global,
    id: u32,
    side: Side,
    row: u32,
    texts: &[&str],
) -> Result<Op, NoMemory> {
    Ok(Op::Block {
        id,
        side,
        row,
        lines: lines(alloc, texts)?,
    })
}

/// Where a motion leads.
fn moved(alloc: Global, view: &View, from: Place, motion: Motion) -> Result<Place, NoMemory> {
    let (row, col, goal) = from;
    let caret = step(
        alloc,
        view,
        Spot { row, col },
        goal,
        motion,
        &mut Steps::new(),
    )?;
    Ok((caret.spot.row, caret.spot.col, caret.goal))
}

/// Each motion leads from its first place to its second.
pub(crate) fn assert_moves(
    rt: &impl Abort,
    alloc: Global,
    view: &View,
    moves: &[(Place, Motion, Place)],
) -> Result<(), NoMemory> {
    for (from, motion, to) in moves {
        let found = moved(alloc, view, *from, *motion)?;
        assert_eq!(rt; found, *to);
    }
    Ok(())
}

/// What is selected between two spots.
fn selected(
    alloc: Global,
    view: &View,
    one: (u32, u32),
    other: (u32, u32),
) -> Result<Selection, NoMemory> {
    let from = Spot {
        row: one.0,
        col: one.1,
    };
    let to = Spot {
        row: other.0,
        col: other.1,
    };
    select(alloc, view, from, to, &mut Steps::new())
}

/// The selection has this range and these spans.
fn assert_selected(rt: &impl Abort, selection: &Selection, range: (u32, u32), spans: &[Span]) {
    assert_eq!(rt; (selection.start, selection.end), range);
    assert_eq!(rt; selection.spans.len(), spans.len());
    for (at, (row, from, to)) in spans.iter().enumerate() {
        let span = RowSpan {
            row: *row,
            from: *from,
            to: *to,
        };
        assert_eq!(rt; selection.spans.get(at).copied(), Some(span));
    }
}

/// Between two spots, in both orders, this range and these spans are selected.
pub(crate) fn assert_selection(
    rt: &impl Abort,
    alloc: Global,
    view: &View,
    ends: [(u32, u32); 2],
    range: (u32, u32),
    spans: &[Span],
) -> Result<(), NoMemory> {
    let [one, other] = ends;
    let forth = selected(alloc, view, one, other)?;
    assert_selected(rt, &forth, range, spans);
    let back = selected(alloc, view, other, one)?;
    assert_selected(rt, &back, range, spans);
    Ok(())
}
