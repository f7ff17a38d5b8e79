//! Changes drawn at random, most of which a display accepts.
use cell_units::{Bias, NoMemory, Point, Side, Steps, Text};
use display_map::{Op, Splice, ViewOn};
use generated_input::Generator;
use kept_sheet::Sheet;
use std::alloc::Global;

/// Ids are drawn below this, so that many are in use.
const ID_COUNT: u32 = 6;

/// A bias.
pub(crate) fn bias(generator: &mut Generator) -> Bias {
    if generator.below(2) == 0 {
        Bias::Left
    } else {
        Bias::Right
    }
}

/// A boundary of the text, mostly near its start. Once in eight times it is any offset, which may be past the end or within a
/// character.
fn offset<S: Sheet>(view: &ViewOn<S>, generator: &mut Generator) -> u32 {
    if generator.below(8) == 0 {
        return generator.below(400);
    }
    let point = Point {
        row: generator.below(14),
        column: generator.below(40),
    };
    let bias = bias(generator);
    view.offset_of(point, bias, &mut Steps::new())
}

/// A range: mostly in order, and within a few rows.
fn range<S: Sheet>(view: &ViewOn<S>, generator: &mut Generator) -> (u32, u32) {
    let row = generator.below(14);
    let from = Point {
        row,
        column: generator.below(40),
    };
    let to = Point {
        row: row.saturating_add(generator.below(3)),
        column: generator.below(40),
    };
    let start = view.offset_of(from, Bias::Left, &mut Steps::new());
    let end = view.offset_of(to, Bias::Right, &mut Steps::new());
    if generator.below(12) == 0 {
        (end, start)
    } else {
        (start.min(end), end.max(start))
    }
}

/// A text that is put in, with line ends of all kinds, tabs, wide characters, and characters that join their neighbors.
fn words(generator: &mut Generator) -> &'static str {
    match generator.below(16) {
        0 => "\n",
        1 => "\ta",
        2 => "two words",
        3 => "\u{6f22}\u{5b57}",
        4 => "e\u{301}",
        5 => "\u{301}",
        6 => "\u{1f1e9}",
        7 => "\u{1f1ea}\u{1f1eb}",
        8 => "a\r\nb\rc",
        9 => "one\n\tfew\nwords of a line that is wrapped at most widths\n",
        10 => "\u{200d}\u{1f469}",
        11 => " ",
        12 => "a_word_that_is_longer_than_a_narrow_row",
        13 => "x",
        _ => "",
    }
}

/// A batch of one to three replacements, mostly in order and apart.
pub(crate) fn splices<S: Sheet>(
    alloc: Global,
    view: &ViewOn<S>,
    generator: &mut Generator,
) -> Result<Vec<Splice>, NoMemory> {
    let mut splices = Vec::new(alloc);
    let mut from = 0;
    for _ in 0..=generator.below(3) {
        let (start, end) = range(view, generator);
        let text = Text::from_str(alloc, words(generator))?;
        if start >= from || generator.below(8) == 0 {
            splices.push(Splice { start, end, text })?;
            from = end;
        }
    }
    Ok(splices)
}

/// The lines of a block: one to three, of which few have a line end.
fn lines(alloc: Global, generator: &mut Generator) -> Result<Vec<Text>, NoMemory> {
    let mut lines = Vec::new(alloc);
    for _ in 0..=generator.below(3) {
        let text = if generator.below(4) == 0 {
            words(generator)
        } else {
            "a line of a block"
        };
        lines.push(Text::from_str(alloc, text)?)?;
    }
    Ok(lines)
}

/// An inlay at some offset.
fn inlay<S: Sheet>(
    alloc: Global,
    view: &ViewOn<S>,
    generator: &mut Generator,
) -> Result<Op, NoMemory> {
    Ok(Op::Inlay {
        id: generator.below(ID_COUNT),
        offset: offset(view, generator),
        bias: bias(generator),
        text: Text::from_str(alloc, words(generator))?,
    })
}

/// A fold of some range.
fn fold<S: Sheet>(view: &ViewOn<S>, generator: &mut Generator) -> Op {
    let id = generator.below(ID_COUNT);
    let (start, end) = range(view, generator);
    Op::Fold { id, start, end }
}

/// A block at some row.
fn block(alloc: Global, generator: &mut Generator) -> Result<Op, NoMemory> {
    let side = if generator.below(2) == 0 {
        Side::Above
    } else {
        Side::Below
    };
    Ok(Op::Block {
        id: generator.below(ID_COUNT),
        side,
        row: generator.below(16),
        lines: lines(alloc, generator)?,
    })
}

/// A width: mostly narrow, seldom none, few that are refused.
fn width(generator: &mut Generator) -> u32 {
    match generator.below(8) {
        0 => 0,
        1 => 1,
        2 => 80,
        3 => 10_001,
        narrow => narrow.saturating_mul(4),
    }
}

/// An operation that isn't a replacement.
pub(crate) fn operation<S: Sheet>(
    alloc: Global,
    view: &ViewOn<S>,
    generator: &mut Generator,
) -> Result<Op, NoMemory> {
    let id = generator.below(ID_COUNT);
    Ok(match generator.below(12) {
        0 | 1 => inlay(alloc, view, generator)?,
        2 => Op::Uninlay { id },
        3..=5 => fold(view, generator),
        6 => Op::Unfold { id },
        7 | 8 => block(alloc, generator)?,
        9 => Op::Unblock { id },
        10 => Op::Tab {
            size: generator.below(18),
        },
        _ => Op::Width {
            cells: width(generator),
        },
    })
}
