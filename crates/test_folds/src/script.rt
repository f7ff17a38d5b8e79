//! What is done to a text under inlays and folds and asked of it, step by step, and what comes of it, in words.
use crate::laid::Laid;
use cell_units::{Bias, Fault, Layer, NoMemory, Piece, PieceKind, Steps};
use fold_map::FoldSnapshot;
use folded_text::Shown;
use std::alloc::Global;
use std::test::Fail;
use test_support::looks;
use test_support::steps::{self, Played};
use test_support::told::{accepted, edited, number, pair, replaced};

/// A change, or a question.
#[derive(Clone, Copy)]
pub(crate) enum Step<'a> {
    /// Folds a range by an id.
    Fold(u32, u32, u32),
    /// Folds one byte of each so many, from the first on. There are so many such folds, whose ids rise.
    FoldEach(u32, u32),
    /// The same with folds of so many bytes, the third number.
    FoldChain(u32, u32, u32),
    /// Takes the fold of an id off.
    Unfold(u32),
    /// Adds the inlay of an id at an offset, with a bias and a text.
    Insert(u32, u32, Bias, &'a str),
    /// Takes the inlay of an id away.
    Remove(u32),
    /// Puts a text in the place of a range, and shows what is there then.
    Edit(u32, u32, &'a str),
    /// Shows what is there, and says what of it is new.
    Sync,
    /// Shows what is there.
    Show,
    /// Whether the last change opened or made no more nodes than this.
    TookAtMost(u64),
    /// The fold at a place among them.
    Get(u32),
    Length,
    Lines,
    /// The pieces of a line.
    Line(u32),
    /// The same, each with what it is and the offsets that it covers.
    Pieces(u32),
    Start(u32),
    Span(u32),
    Places(u32),
    Point(u32),
    Back(u32, Bias),
}

/// Takes the steps one by one over a text without inlays and folds. It gives their answers, with `; ` between them.
pub(crate) fn play(alloc: Global, text: &str, steps: &[Step]) -> Result<String, Fail> {
    Ok(steps::play(Laid::new(alloc, text)?, steps)?)
}

/// The same, and then other steps over an equal text with equal maps, and others again over the first ones. It gives
/// the answers of the last two, with ` / ` between them.
pub(crate) fn play_apart(
    alloc: Global,
    text: &str,
    before: &[Step],
    apart: &[Step],
    behind: &[Step],
) -> Result<String, Fail> {
    let laid = Laid::new(alloc, text)?;
    Ok(steps::play_apart(laid, before, apart, behind)?)
}

impl<'a> Played<Step<'a>> for Laid {
    type Seen = Shown;

    fn alloc(&self) -> Global {
        self.alloc
    }

    fn share(&self) -> Result<Laid, NoMemory> {
        self.share_all()
    }

    fn take_step(&mut self, step: &Step<'a>) -> Result<String, NoMemory> {
        let alloc = self.alloc;
        match step {
            Step::Fold(id, start, end) => accepted(alloc, self.fold(*id, *start, *end)),
            Step::FoldEach(count, apart) => accepted(alloc, self.fold_each(*count, *apart, 1)),
            Step::FoldChain(count, apart, bytes) => {
                accepted(alloc, self.fold_each(*count, *apart, *bytes))
            }
            Step::Unfold(id) => accepted(alloc, self.unfold(*id)),
            Step::Insert(id, offset, bias, text) => {
                accepted(alloc, self.insert(*id, *offset, *bias, text))
            }
            Step::Remove(id) => accepted(alloc, self.remove(*id)),
            Step::Edit(start, end, text) => edited(alloc, self.edit(*start, *end, text)),
            Step::Sync => replaced(alloc, self.sync()?),
            Step::Show => {
                self.sync()?;
                Ok(String::from_str(alloc, "shown")?)
            }
            Step::TookAtMost(most) => yes_or_no(alloc, self.nodes()? <= *most),
            _ => look(alloc, &self.shown, step),
        }
    }

    fn seen(&self) -> Result<Shown, NoMemory> {
        self.shown.share()
    }

    fn share_seen(seen: &Shown) -> Result<Shown, NoMemory> {
        seen.share()
    }

    fn look(alloc: Global, seen: &Shown, step: &Step<'a>) -> Result<String, NoMemory> {
        look(alloc, seen, step)
    }
}

impl Laid {
    /// Folds so many bytes of each stretch of so many, up to the first fold that is refused.
    fn fold_each(&mut self, count: u32, apart: u32, bytes: u32) -> Result<(), Fault> {
        for id in 0..count {
            let start = id.wrapping_mul(apart);
            self.fold(id, start, start.wrapping_add(bytes))?;
        }
        Ok(())
    }
}

/// The answer to a question. That its layer may go to another thread is proved here, over any lower layer.
fn look<L: Layer>(alloc: Global, layer: &FoldSnapshot<L>, step: &Step) -> Result<String, NoMemory> {
    match step {
        Step::Get(at) => listed(alloc, layer, *at),
        _ => told(alloc, layer, step),
    }
}

/// The id and the range of the fold at a place among them, or `none`.
fn listed<L: Layer>(alloc: Global, layer: &FoldSnapshot<L>, at: u32) -> Result<String, NoMemory> {
    match layer.get(at, &mut Steps::new()) {
        Some(fold) => Ok(format!(in alloc; "{} of {}..{}", fold.id, fold.start, fold.end)?),
        None => number(alloc, None),
    }
}

/// The same of any layer.
fn told<L: Layer>(alloc: Global, layer: &L, step: &Step) -> Result<String, NoMemory> {
    match step {
        Step::Length => number(alloc, Some(layer.length())),
        Step::Lines => number(alloc, Some(layer.lines())),
        Step::Line(line) => looks::line_told(alloc, layer, *line),
        Step::Pieces(line) => pieces(alloc, looks::pieces(alloc, layer, *line)?),
        Step::Start(line) => number(alloc, looks::line_begin(layer, *line)),
        Step::Span(line) => pair(alloc, looks::span(layer, *line)),
        Step::Places(offset) => pair(alloc, looks::places(layer, *offset)),
        Step::Point(place) => pair(alloc, looks::point(layer, *place)),
        Step::Back(place, bias) => number(alloc, layer.back(*place, *bias)),
        _ => number(alloc, None),
    }
}

/// What each piece is, its text and the offsets that it covers, or `none`.
fn pieces(alloc: Global, pieces: Option<Vec<Piece>>) -> Result<String, NoMemory> {
    let mut all = String::new(alloc);
    let Some(pieces) = pieces else {
        return number(alloc, None);
    };
    for piece in pieces {
        if all.len() > 0 {
            all.push(' ')?;
        }
        let told = told_piece(alloc, &piece)?;
        all.push_str(told.as_str())?;
    }
    Ok(all)
}

/// What a piece is, an inlay with its id, its text and the offsets that it covers.
fn told_piece(alloc: Global, piece: &Piece) -> Result<String, NoMemory> {
    let text = piece.text.as_str();
    let (start, end) = (piece.start, piece.end);
    Ok(match piece.kind {
        PieceKind::Buffer => format!(in alloc; "buffer {text} {start}..{end}")?,
        PieceKind::Inlay(id) => format!(in alloc; "inlay {id} {text} {start}..{end}")?,
        PieceKind::Placeholder => format!(in alloc; "placeholder {text} {start}..{end}")?,
    })
}

/// `yes` or `no`.
fn yes_or_no(alloc: Global, answer: bool) -> Result<String, NoMemory> {
    Ok(String::from_str(alloc, if answer { "yes" } else { "no" })?)
}
