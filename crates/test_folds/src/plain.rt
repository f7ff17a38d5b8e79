//! What has to be shown, by plain lists: the text with the inlays and the folds written out, and where its offsets are
//! in it.
use cell_units::{Bias, NoMemory, Refusal};
use std::alloc::Global;
use test_support::inlaid::{IDS, InlaidText, Origin, Placed, ShownByte, removed, write};
use test_support::lists::{count_of, moved};
use test_support::words::cleaned;

/// What is shown in the place of what a fold hides.
const PLACEHOLDER: &str = "⋯";

/// A fold, or folds that overlap as one.
#[derive(Clone, Copy, PartialEq, Eq)]
pub(crate) struct PlainFold {
    pub start: u32,
    pub end: u32,
}

impl PlainFold {
    /// Whether each starts before the other ends.
    fn overlaps(self, other: PlainFold) -> bool {
        self.start < other.end && other.start < self.end
    }

    /// Both as one.
    fn joined_with(self, other: PlainFold) -> PlainFold {
        PlainFold {
            start: self.start.min(other.start),
            end: self.end.max(other.end),
        }
    }

    /// Whether the offset is strictly inside.
    fn hides(self, offset: u32) -> bool {
        self.start < offset && offset < self.end
    }
}

/// What is shown, of each place of the text with its inlays where that is or `None` where it is hidden, and the joined
/// folds.
#[derive(Drop)]
pub(crate) struct WrittenOut {
    pub bytes: Vec<ShownByte>,
    pub above: Vec<Option<u32>>,
    pub joined: Vec<PlainFold>,
}

impl WrittenOut {
    /// Writes nothing more, up to the next place.
    fn hide(&mut self) -> Result<(), NoMemory> {
        self.above.push(None)?;
        Ok(())
    }

    /// Where what is written next is.
    fn mark(&mut self) -> Result<(), NoMemory> {
        let place = u32::try_from(self.bytes.len()).unwrap_or(u32::MAX);
        self.above.push(Some(place))?;
        Ok(())
    }

    /// The place of the text with its inlays that is shown at this place.
    pub(crate) fn below(&self, place: u32) -> Option<u32> {
        let mut below: u32 = 0;
        for above in &self.above {
            if *above == Some(place) {
                return Some(below);
            }
            below = below.wrapping_add(1);
        }
        None
    }

    /// The joined fold that hides an offset, which is strictly inside it.
    fn around(&self, offset: u32) -> Option<PlainFold> {
        for fold in &self.joined {
            if fold.hides(offset) {
                return Some(*fold);
            }
        }
        None
    }
}

/// A display line: the places of its start and its end, and the first and the last row in it.
#[derive(Clone, Copy)]
pub(crate) struct PlainLine {
    pub start: u32,
    pub end: u32,
    pub first: u32,
    pub last: u32,
}

/// A text, with its inlays and its folds by their ids.
#[derive(Drop)]
pub(crate) struct PlainText {
    alloc: Global,
    pub inlaid: InlaidText,
    folds: Vec<Option<PlainFold>>,
}

impl PlainText {
    /// An empty text without inlays and folds.
    pub(crate) fn new(alloc: Global) -> Result<PlainText, NoMemory> {
        let mut folds = Vec::new(alloc);
        for _ in 0..IDS {
            folds.push(None)?;
        }
        Ok(PlainText {
            alloc,
            inlaid: InlaidText::new(alloc)?,
            folds,
        })
    }

    /// The first offset of the row of an offset.
    pub(crate) fn row_start(&self, offset: u32) -> u32 {
        let mut start: u32 = 0;
        let mut behind: u32 = 0;
        for byte in self.inlaid.bytes() {
            behind = behind.wrapping_add(1);
            if *byte == b'\n' && behind <= offset {
                start = behind;
            }
        }
        start
    }

    /// The end of the row of an offset.
    pub(crate) fn row_end(&self, offset: u32) -> u32 {
        let mut end: u32 = 0;
        for byte in self.inlaid.bytes() {
            if *byte == b'\n' && end >= offset {
                return end;
            }
            end = end.wrapping_add(1);
        }
        end
    }

    /// The fold of an id.
    pub(crate) fn fold_of(&self, id: u32) -> Option<PlainFold> {
        self.folds.get(id as usize).copied().flatten()
    }

    /// The folds that overlap in a chain with one, as one.
    fn chained(&self, fold: PlainFold) -> PlainFold {
        let mut all = fold;
        for _ in 0..IDS {
            for id in 0..IDS {
                if let Some(other) = self.fold_of(id)
                    && other.overlaps(all)
                {
                    all = all.joined_with(other);
                }
            }
        }
        all
    }

    /// The joined folds.
    fn joined(&self) -> Result<Vec<PlainFold>, NoMemory> {
        let mut all: Vec<PlainFold> = Vec::new(self.alloc);
        for id in 0..IDS {
            if let Some(fold) = self.fold_of(id) {
                let joined = self.chained(fold);
                if !all.iter().any(|other| *other == joined) {
                    all.push(joined)?;
                }
            }
        }
        Ok(all)
    }

    /// The joined fold that hides a place of the text with its inlays, and whether it is the first that this one hides.
    fn hidden_at(&self, joined: &[PlainFold], place: u32) -> Option<(PlainFold, bool)> {
        for fold in joined {
            let start = self.inlaid.place(fold.start, Bias::Right);
            let end = self.inlaid.place(fold.end, Bias::Left);
            if start <= place && place < end {
                return Some((*fold, start == place));
            }
        }
        None
    }

    /// The text with its inlays and a placeholder for what each joined fold hides of them.
    pub(crate) fn written_out(&self) -> Result<WrittenOut, NoMemory> {
        let joined = self.joined()?;
        let mut all = WrittenOut {
            bytes: Vec::new(self.alloc),
            above: Vec::new(self.alloc),
            joined: Vec::new(self.alloc),
        };
        let mut place = 0;
        for shown in self.inlaid.written_out()? {
            match self.hidden_at(&joined, place) {
                None => {
                    all.mark()?;
                    all.bytes.push(shown)?;
                }
                Some((fold, true)) => {
                    all.mark()?;
                    write(PLACEHOLDER, fold.start, Origin::Placeholder, &mut all.bytes)?;
                }
                Some((_, false)) => all.hide()?,
            }
            place = place.wrapping_add(1);
        }
        all.mark()?;
        all.joined = joined;
        Ok(all)
    }

    /// The place at which an offset is shown: before the placeholder that hides it (Left) or after it, if one does.
    pub(crate) fn place(&self, all: &WrittenOut, offset: u32, bias: Bias) -> u32 {
        let below = match (all.around(offset), bias) {
            (None, _) => self.inlaid.place(offset, bias),
            (Some(fold), Bias::Left) => self.inlaid.place(fold.start, Bias::Right),
            (Some(fold), Bias::Right) => self.inlaid.place(fold.end, Bias::Left),
        };
        all.above
            .get(below as usize)
            .copied()
            .flatten()
            .unwrap_or(u32::MAX)
    }

    /// The boundaries, each with its two places.
    pub(crate) fn placed(&self, all: &WrittenOut) -> Result<Vec<Placed>, NoMemory> {
        let mut placed = self.inlaid.placed()?;
        for one in &mut placed {
            *one = Placed {
                offset: one.offset,
                left: self.place(all, one.offset, Bias::Left),
                right: self.place(all, one.offset, Bias::Right),
                is_hidden: all.around(one.offset).is_some(),
            };
        }
        Ok(placed)
    }
}

/// The lines.
impl PlainText {
    /// The row of a place. That at which a placeholder begins is in the first row that it hides, and that at which it
    /// ends in the last.
    fn row_of_shown(&self, all: &WrittenOut, place: u32) -> u32 {
        match all.below(place) {
            Some(below) => self.inlaid.row_of_place(below),
            None => u32::MAX,
        }
    }

    /// The display line from one place to another.
    fn line(&self, all: &WrittenOut, start: u32, end: u32) -> PlainLine {
        PlainLine {
            start,
            end,
            first: self.row_of_shown(all, start),
            last: self.row_of_shown(all, end),
        }
    }

    /// The display lines: what is shown, cut at each line feed.
    pub(crate) fn lines(&self, all: &WrittenOut) -> Result<Vec<PlainLine>, NoMemory> {
        let mut lines = Vec::new(self.alloc);
        let mut start = 0;
        let mut place: u32 = 0;
        for shown in &all.bytes {
            if shown.ends_line() {
                lines.push(self.line(all, start, place))?;
                start = place.wrapping_add(1);
            }
            place = place.wrapping_add(1);
        }
        lines.push(self.line(all, start, place))?;
        Ok(lines)
    }
}

/// The changes.
impl PlainText {
    /// Folds a range, or returns why not.
    pub(crate) fn fold(&mut self, id: u32, start: u32, end: u32) -> Option<Refusal> {
        let is_range = start < end
            && self.inlaid.is_boundary(start)
            && self.inlaid.is_boundary(end);
        let Some(slot) = self.folds.get_mut(id as usize) else {
            return Some(Refusal::BadNumber);
        };
        if slot.is_some() {
            return Some(Refusal::IdInUse);
        }
        if !is_range {
            return Some(Refusal::BadRange);
        }
        *slot = Some(PlainFold { start, end });
        None
    }

    /// Takes a fold off, or returns why not.
    pub(crate) fn unfold(&mut self, id: u32) -> Option<Refusal> {
        removed(self.folds.get_mut(id as usize))
    }

    /// Puts a text in the place of a range and moves what is in it, or returns why not.
    pub(crate) fn edit(
        &mut self,
        start: u32,
        end: u32,
        word: u32,
    ) -> Result<Option<Refusal>, NoMemory> {
        let refusal = self.inlaid.edit(start, end, word)?;
        if refusal.is_some() {
            return Ok(refusal);
        }
        let come = count_of(cleaned(word).len());
        for slot in &mut self.folds {
            if let Some(fold) = *slot {
                let first = moved(fold.start, Bias::Right, start, end, come);
                let last = moved(fold.end, Bias::Left, start, end, come);
                *slot = folded(first, last);
            }
        }
        Ok(None)
    }
}

/// The fold from one offset to another, unless it would be empty.
fn folded(start: u32, end: u32) -> Option<PlainFold> {
    if start < end {
        Some(PlainFold { start, end })
    } else {
        None
    }
}
