//! Random changes of a map, each beside the same change of plain lists.
use crate::laid::Laid;
use cell_units::{Layer, NoMemory};
use generated_input::Generator;
use std::alloc::Global;
use std::test::Fail;
use test_support::checks::{has_places, has_points, leads, leads_back};
use test_support::inlaid::{IDS, InlaidText, ShownByte};
use test_support::lists::{answers, count_of};
use test_support::looks;
use test_support::steps::{History, first_difference};
use test_support::told::Stretch;
use test_support::words::{GIVEN_COUNT, cleaned, drawn_bias, drawn_range, given};

/// The line at the start of these bytes: its text with a bar after each piece, and how many bytes it has.
fn first_line(alloc: Global, all: &[ShownByte]) -> Result<(Vec<u8>, u32), NoMemory> {
    let mut pieces = Vec::new(alloc);
    let mut count: u32 = 0;
    let mut last: Option<ShownByte> = None;
    for shown in all {
        if shown.ends_line() {
            break;
        }
        if let Some(last) = last
            && !last.is_of_one_piece_with(*shown)
        {
            pieces.push(b'|')?;
        }
        pieces.push(shown.byte)?;
        count = count.wrapping_add(1);
        last = Some(*shown);
    }
    if last.is_some() {
        pieces.push(b'|')?;
    }
    Ok((pieces, count))
}

/// Whether each line begins where the one before has ended, has the pieces that are written out, and spans the rows of
/// its ends.
fn has_lines<L: Layer>(
    alloc: Global,
    layer: &L,
    plain: &InlaidText,
    all: &[ShownByte],
) -> Result<bool, NoMemory> {
    let mut start: u32 = 0;
    for line in 0..layer.lines() {
        let rest = all.get(start as usize..).unwrap_or(&[]);
        let (pieces, count) = first_line(alloc, rest)?;
        let end = start.wrapping_add(count);
        let span = (plain.row_of_place(start), plain.row_of_place(end));
        if looks::line_begin(layer, line) != Some(start)
            || looks::span(layer, line) != Some(span)
            || looks::line_told(alloc, layer, line)?.as_bytes() != pieces.as_slice()
        {
            return Ok(false);
        }
        start = end.wrapping_add(1);
    }
    Ok(true)
}

/// Whether a layer shows what is written out, wherever it is asked.
fn agrees<L: Layer>(
    alloc: Global,
    layer: &L,
    plain: &InlaidText,
    all: &[ShownByte],
) -> Result<bool, NoMemory> {
    let placed = plain.placed()?;
    Ok(
        has_places(layer, plain.len(), &placed)
            && leads_back(layer, &placed)
            && has_points(layer, all)
            && has_lines(alloc, layer, plain, all)?,
    )
}

/// A text under a map and the same by plain lists, changed together.
#[derive(Drop)]
struct Inlaid {
    laid: Laid,
    plain: InlaidText,
    shown: Vec<ShownByte>,
    generator: Generator,
}

impl Inlaid {
    /// An empty text.
    fn new(alloc: Global, seed: u64) -> Result<Inlaid, Fail> {
        let plain = InlaidText::new(alloc)?;
        let shown = plain.written_out()?;
        Ok(Inlaid {
            laid: Laid::new(alloc, "")?,
            plain,
            shown,
            generator: Generator::new(seed),
        })
    }

    fn insert(&mut self) -> bool {
        let id = self.generator.below(IDS);
        let offset = self.generator.below(self.plain.len().saturating_add(2));
        let bias = drawn_bias(&mut self.generator);
        let word = self.generator.below(GIVEN_COUNT);
        let answer = self.laid.insert(id, offset, bias, given(word));
        answers(answer, self.plain.insert(id, offset, bias, word))
    }

    fn remove(&mut self) -> bool {
        let id = self.generator.below(IDS);
        answers(self.laid.remove(id), self.plain.remove(id))
    }

    /// Replaces a short range, which may be backwards or past the end.
    fn edit(&mut self) -> Result<bool, NoMemory> {
        let (start, end) = drawn_range(&mut self.generator, self.plain.len(), 5);
        let word = self.generator.below(GIVEN_COUNT);
        let refusal = self.plain.edit(start, end, word)?;
        let count = count_of(cleaned(word).len());
        match self.laid.edit(start, end, given(word)) {
            Ok(answer) => {
                let shows = self.shows_both(answer, Some((start, end, count)))?;
                Ok(refusal.is_none() && shows)
            }
            Err(fault) => Ok(answers(Err(fault), refusal)),
        }
    }

    /// Whether a snapshot shows what is written out, and the replacement leads to it from what was shown before the
    /// edit, if there was one.
    fn shows_both(&mut self, answer: Stretch, edit: Stretch) -> Result<bool, NoMemory> {
        let shown = self.plain.written_out()?;
        let laid = &self.laid;
        let agree = leads(&self.shown, &shown, answer, edit)
            && agrees(laid.alloc, &laid.layer, &self.plain, &shown)?;
        self.shown = shown;
        Ok(agree)
    }
}

impl History for Inlaid {
    fn turns_alike(&mut self) -> Result<bool, NoMemory> {
        match self.generator.below(10) {
            0 | 1 | 2 => Ok(self.insert()),
            3 => Ok(self.remove()),
            4 | 5 => {
                let answer = self.laid.sync()?;
                self.shows_both(answer, None)
            }
            _ => self.edit(),
        }
    }
}

/// Takes so many turns over an empty text. It gives the first after which the map and the lists don't agree.
fn differ_at(alloc: Global, seed: u64, turns: u32) -> Result<Option<u32>, Fail> {
    Ok(first_difference(Inlaid::new(alloc, seed)?, turns)?)
}

/// After each of 300 random changes, refused ones among them, a map agrees with the text that is written out.
#[test]
fn random_changes_show_the_text_written_out(rt: HostRuntime) -> Result<(), Fail> {
    assert_eq!(rt; differ_at(rt.alloc(), 7, 300)?, None);
    Ok(())
}
