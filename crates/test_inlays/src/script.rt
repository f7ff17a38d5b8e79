//! What is done to a text under inlays and asked of it, step by step, and what comes of it, in words.
use crate::laid::Laid;
use cell_units::{Bias, Fault, Layer, NoMemory, Steps};
use inlay_map::InlaySnapshot;
use std::alloc::Global;
use std::test::Fail;
use test_support::looks;
use test_support::steps::{self, Played};
use test_support::told::{accepted, edited, number, pair, replaced};

/// A change, or a question.
#[derive(Clone, Copy)]
pub(crate) enum Step<'a> {
    /// Adds the inlay of an id at an offset, with a bias and a text.
    Insert(u32, u32, Bias, &'a str),
    /// The same, Left, with a text of so many letters.
    InsertLetters(u32, u32, usize),
    /// Adds `<`, Left, at each of so many offsets from 0 on, whose ids are these.
    InsertEach(u32),
    /// Takes the inlay of an id away.
    Remove(u32),
    /// Puts a text in the place of a range, and shows what is there then.
    Edit(u32, u32, &'a str),
    Sync,
    /// The inlay at a place among them.
    Get(u32),
    Length,
    Lines,
    Line(u32),
    Span(u32),
    Places(u32),
    Point(u32),
    Back(u32, Bias),
}

/// Takes the steps one by one over a text without inlays. It gives their answers, with `; ` between them.
pub(crate) fn play(alloc: Global, text: &str, steps: &[Step]) -> Result<String, Fail> {
    Ok(steps::play(Laid::new(alloc, text)?, steps)?)
}

/// The same, and then other steps over an equal map, and others again over the first one. It gives the answers of the
/// last two, with ` / ` between them.
pub(crate) fn play_apart(
    alloc: Global,
    text: &str,
    before: &[Step],
    apart: &[Step],
    behind: &[Step],
) -> Result<String, Fail> {
    let laid = Laid::new(alloc, text)?;
    Ok(steps::play_apart(laid, before, apart, behind)?)
}

impl<'a> Played<Step<'a>> for Laid {
    type Seen = InlaySnapshot;

    fn alloc(&self) -> Global {
        self.alloc
    }

    fn share(&self) -> Result<Laid, NoMemory> {
        self.share_all()
    }

    fn take_step(&mut self, step: &Step<'a>) -> Result<String, NoMemory> {
        let alloc = self.alloc;
        match step {
            Step::Insert(id, offset, bias, text) => {
                accepted(alloc, self.insert(*id, *offset, *bias, text))
            }
            Step::InsertLetters(id, offset, count) => {
                let text = "a".repeat(alloc, *count)?;
                accepted(alloc, self.insert(*id, *offset, Bias::Left, text.as_str()))
            }
            Step::InsertEach(count) => accepted(alloc, self.insert_each(*count)),
            Step::Remove(id) => accepted(alloc, self.remove(*id)),
            Step::Edit(start, end, text) => edited(alloc, self.edit(*start, *end, text)),
            Step::Sync => replaced(alloc, self.sync()?),
            Step::Get(at) => listed(alloc, &self.layer, *at),
            _ => look(alloc, &self.layer, step),
        }
    }

    fn seen(&self) -> Result<InlaySnapshot, NoMemory> {
        Layer::share(&self.layer)
    }

    fn share_seen(seen: &InlaySnapshot) -> Result<InlaySnapshot, NoMemory> {
        Layer::share(seen)
    }

    fn look(alloc: Global, seen: &InlaySnapshot, step: &Step<'a>) -> Result<String, NoMemory> {
        look(alloc, seen, step)
    }
}

impl Laid {
    /// Adds an inlay at each of so many offsets, up to the first that is refused.
    fn insert_each(&mut self, count: u32) -> Result<(), Fault> {
        for id in 0..count {
            self.insert(id, id, Bias::Left, "<")?;
        }
        Ok(())
    }
}

/// The id, offset, bias and text of the inlay at a place among them, or `none`.
fn listed(alloc: Global, layer: &InlaySnapshot, at: u32) -> Result<String, NoMemory> {
    let Some((offset, bias, id, text)) = layer.get(at, &mut Steps::new()) else {
        return number(alloc, None);
    };
    let side = match bias {
        Bias::Left => "left",
        Bias::Right => "right",
    };
    Ok(format!(in alloc; "{id} at {offset} {side} {text}")?)
}

/// The answer to a question.
fn look<L: Layer>(alloc: Global, layer: &L, step: &Step) -> Result<String, NoMemory> {
    match step {
        Step::Length => number(alloc, Some(layer.length())),
        Step::Lines => number(alloc, Some(layer.lines())),
        Step::Line(line) => looks::line_told(alloc, layer, *line),
        Step::Span(line) => pair(alloc, looks::span(layer, *line)),
        Step::Places(offset) => pair(alloc, looks::places(layer, *offset)),
        Step::Point(place) => pair(alloc, looks::point(layer, *place)),
        Step::Back(place, bias) => number(alloc, layer.back(*place, *bias)),
        _ => number(alloc, None),
    }
}
