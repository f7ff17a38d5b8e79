//! Changes drawn at random, most of which a display accepts.
use cell_units::{Bias, NoMemory, Point, Side, Steps, Text};
use display_map::{Change, Op, Splice, View};
use generated_input::Generator;
use std::alloc::Global;

/// Ids are drawn below this, so that many are in use.
const ID_COUNT: u32 = 5;

/// A boundary of the text.
fn offset(view: &View, generator: &mut Generator) -> u32 {
    let point = Point {
        row: generator.below(9),
        column: generator.below(20),
    };
    view.offset_of(point, Bias::Left, &mut Steps::new())
}

/// A range between two boundaries, in order.
fn range(view: &View, generator: &mut Generator) -> (u32, u32) {
    let one = offset(view, generator);
    let other = offset(view, generator);
    (one.min(other), one.max(other))
}

/// A text that is put in.
fn words(generator: &mut Generator) -> &'static str {
    match generator.below(8) {
        0 => "\n",
        1 => "\ta",
        2 => "two words",
        3 => "\u{6f22}\u{5b57}",
        4 => "one\nfew\n",
        5 => "a_word_that_is_longer_than_a_row",
        6 => "x",
        _ => "",
    }
}

fn side(generator: &mut Generator) -> Side {
    if generator.below(2) == 0 {
        Side::Above
    } else {
        Side::Below
    }
}

fn splice(
    alloc: Global,
    (start, end): (u32, u32),
    generator: &mut Generator,
) -> Result<Splice, NoMemory> {
    Ok(Splice {
        start,
        end,
        text: Text::from_str(alloc, words(generator))?,
    })
}

/// Two replacements, the first of which lies before the second.
fn batch(alloc: Global, view: &View, generator: &mut Generator) -> Result<Change, NoMemory> {
    let (start, end) = range(view, generator);
    let mut splices = Vec::new(alloc);
    splices.push(splice(alloc, (start, start), generator)?)?;
    splices.push(splice(alloc, (end, end), generator)?)?;
    Ok(Change::Edit(splices))
}

/// A block of one line or two.
fn block(alloc: Global, generator: &mut Generator) -> Result<Op, NoMemory> {
    let mut lines = Vec::new(alloc);
    lines.push(Text::from_str(alloc, "a line of a block")?)?;
    if generator.below(2) == 0 {
        lines.push(Text::from_str(alloc, "\tone more")?)?;
    }
    Ok(Op::Block {
        id: generator.below(ID_COUNT),
        side: side(generator),
        row: generator.below(7),
        lines,
    })
}

/// An operation that isn't a replacement.
fn operation(alloc: Global, view: &View, generator: &mut Generator) -> Result<Op, NoMemory> {
    let id = generator.below(ID_COUNT);
    Ok(match generator.below(11) {
        0 | 1 => Op::Inlay {
            id,
            offset: offset(view, generator),
            bias: Bias::Right,
            text: Text::from_str(alloc, words(generator))?,
        },
        2 => Op::Uninlay { id },
        3 | 4 => {
            let (start, end) = range(view, generator);
            Op::Fold { id, start, end }
        }
        5 => Op::Unfold { id },
        6 | 7 => block(alloc, generator)?,
        8 => Op::Unblock { id },
        9 => Op::Tab {
            size: generator.below(9),
        },
        _ => Op::Width {
            cells: generator.below(30),
        },
    })
}

/// A change.
pub(crate) fn drawn(
    alloc: Global,
    view: &View,
    generator: &mut Generator,
) -> Result<Change, NoMemory> {
    match generator.below(4) {
        0 => batch(alloc, view, generator),
        1 => {
            let range = range(view, generator);
            Ok(Change::One(Op::Replace(splice(alloc, range, generator)?)))
        }
        _ => Ok(Change::One(operation(alloc, view, generator)?)),
    }
}
