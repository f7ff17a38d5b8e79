//! Random changes of a text under its maps, each beside the same change of plain lists.
use crate::checks::{Change, Shown, agrees, answers_change};
use crate::laid::Laid;
use crate::plain::PlainText;
use cell_units::NoMemory;
use generated_input::Generator;
use std::alloc::Global;
use std::test::Fail;
use test_support::checks::leads;
use test_support::inlaid::IDS;
use test_support::lists::{answers, count_of};
use test_support::steps::{History, first_difference};
use test_support::told::Stretch;
use test_support::words::{GIVEN_COUNT, cleaned, drawn_bias, drawn_range, given};

/// A text under its maps and the same by plain lists, changed together.
#[derive(Drop)]
struct Folded {
    laid: Laid,
    plain: PlainText,
    shown: Shown,
    /// The changes since the last snapshot: how many there were, and the last one.
    changes: u32,
    last: Change,
    generator: Generator,
}

impl Folded {
    /// An empty text.
    fn new(alloc: Global, seed: u64) -> Result<Folded, Fail> {
        let plain = PlainText::new(alloc)?;
        let shown = Shown::of(&plain)?;
        Ok(Folded {
            laid: Laid::new(alloc, "")?,
            plain,
            shown,
            changes: 0,
            last: Change::at_row(0),
            generator: Generator::new(seed),
        })
    }

    /// Notes a change that was accepted.
    fn note(&mut self, change: Change) {
        self.changes = self.changes.wrapping_add(1);
        self.last = change;
    }

    fn insert(&mut self) -> bool {
        let id = self.generator.below(IDS);
        let offset = self
            .generator
            .below(self.plain.inlaid.len().saturating_add(2));
        let bias = drawn_bias(&mut self.generator);
        let word = self.generator.below(GIVEN_COUNT);
        let refusal = self.plain.inlaid.insert(id, offset, bias, word);
        if refusal.is_none() {
            let change = Change::at_row(self.plain.inlaid.row(offset));
            self.note(change);
        }
        answers(self.laid.insert(id, offset, bias, given(word)), refusal)
    }

    fn remove(&mut self) -> bool {
        let id = self.generator.below(IDS);
        if let Some(offset) = self.plain.inlaid.offset_of(id) {
            let change = Change::at_row(self.plain.inlaid.row(offset));
            self.note(change);
        }
        let refusal = self.plain.inlaid.remove(id);
        answers(self.laid.remove(id), refusal)
    }

    /// Folds a range, which may be empty, backwards or past the end.
    fn fold(&mut self) -> bool {
        let id = self.generator.below(IDS);
        let start = self
            .generator
            .below(self.plain.inlaid.len().saturating_add(2));
        let end = start.wrapping_add(self.generator.below(12)).wrapping_sub(2);
        let refusal = self.plain.fold(id, start, end);
        if refusal.is_none() {
            let change = Change::of_fold(&self.plain, start, end);
            self.note(change);
        }
        answers(self.laid.fold(id, start, end), refusal)
    }

    fn unfold(&mut self) -> bool {
        let id = self.generator.below(IDS);
        if let Some(fold) = self.plain.fold_of(id) {
            let change = Change::of_fold(&self.plain, fold.start, fold.end);
            self.note(change);
        }
        let refusal = self.plain.unfold(id);
        answers(self.laid.unfold(id), refusal)
    }

    /// Replaces a short range, which may be backwards or past the end.
    fn edit(&mut self) -> Result<bool, NoMemory> {
        let (start, end) = drawn_range(&mut self.generator, self.plain.inlaid.len(), 5);
        let word = self.generator.below(GIVEN_COUNT);
        let before = (self.plain.inlaid.row(start), self.plain.inlaid.row(end));
        let refusal = self.plain.edit(start, end, word)?;
        let count = count_of(cleaned(word).len());
        match self.laid.edit(start, end, given(word)) {
            Ok(answer) => {
                let come = start.wrapping_add(count);
                let after = (self.plain.inlaid.row(start), self.plain.inlaid.row(come));
                self.note(Change {
                    before,
                    after,
                    fold: None,
                });
                Ok(refusal.is_none() && self.shows_both(answer, Some((start, end, count)))?)
            }
            Err(fault) => Ok(answers(Err(fault), refusal)),
        }
    }

    /// Whether a snapshot shows what is written out, and the replacement leads to it from what was shown before. Where
    /// there was one change, it is that of the change; where there was none, there is none.
    fn shows_both(&mut self, answer: Stretch, edit: Stretch) -> Result<bool, NoMemory> {
        let shown = Shown::of(&self.plain)?;
        let is_exact = match self.changes {
            0 => answer.is_none(),
            1 => answers_change(&self.plain, &self.shown, &shown, answer, self.last),
            _ => true,
        };
        let agree = is_exact
            && leads(self.shown.bytes(), shown.bytes(), answer, edit)
            && agrees(self.laid.alloc, &self.laid.shown, &self.plain, &shown)?;
        self.shown = shown;
        self.changes = 0;
        Ok(agree)
    }
}

impl History for Folded {
    fn turns_alike(&mut self) -> Result<bool, NoMemory> {
        match self.generator.below(20) {
            0..=3 => Ok(self.insert()),
            4 | 5 => Ok(self.remove()),
            6..=9 => Ok(self.fold()),
            10 | 11 => Ok(self.unfold()),
            12 | 13 => {
                let answer = self.laid.sync()?;
                self.shows_both(answer, None)
            }
            _ => self.edit(),
        }
    }
}

/// Takes so many turns over an empty text. It gives the first after which the maps and the lists don't agree.
fn differ_at(alloc: Global, seed: u64, turns: u32) -> Result<Option<u32>, Fail> {
    Ok(first_difference(Folded::new(alloc, seed)?, turns)?)
}

/// After each of 2,000 random changes in four histories, refused ones among them, the maps agree with the text that is
/// written out.
#[test]
fn random_changes_show_the_text_written_out(rt: HostRuntime) -> Result<(), Fail> {
    for seed in 1..5 {
        assert_eq!(rt; differ_at(rt.alloc(), seed, 500)?, None);
    }
    Ok(())
}
