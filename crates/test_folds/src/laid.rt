//! A text under inlays and folds, which is changed and shown.
use cell_units::{Bias, Fault, NoMemory, Steps};
use folded_text::{FoldedText, Shown};
use std::alloc::Global;
use std::test::Fail;
use test_support::told::{Stretch, numbers};
use text_rope::Rope;

/// A text with its maps, and what is shown of it.
#[derive(Drop)]
pub(crate) struct Laid {
    pub alloc: Global,
    text: FoldedText,
    pub shown: Shown,
    /// How many nodes the last change opened or made.
    steps: Steps,
}

impl Laid {
    /// The text without inlays and folds.
    pub(crate) fn new(alloc: Global, text: &str) -> Result<Laid, Fail> {
        let mut steps = Steps::new();
        let rope = Rope::from_bytes(alloc, text.as_bytes(), &mut steps)?;
        let mut text = FoldedText::new(alloc, rope, &mut steps)?;
        let (shown, _) = text.show(alloc, &mut steps)?;
        Ok(Laid {
            alloc,
            text,
            shown,
            steps,
        })
    }

    /// An equal one.
    pub(crate) fn share_all(&self) -> Result<Laid, NoMemory> {
        let text = self.text.share()?;
        let shown = self.shown.share()?;
        Ok(Laid {
            alloc: self.alloc,
            text,
            shown,
            steps: Steps::new(),
        })
    }

    /// Adds an inlay, which is shown from the next snapshot on.
    pub(crate) fn insert(
        &mut self,
        id: u32,
        offset: u32,
        bias: Bias,
        text: &str,
    ) -> Result<(), Fault> {
        self.steps = Steps::new();
        self.text
            .insert(self.alloc, id, offset, bias, text, &mut self.steps)
    }

    /// Takes an inlay away. It is shown up to the next snapshot.
    pub(crate) fn remove(&mut self, id: u32) -> Result<(), Fault> {
        self.steps = Steps::new();
        self.text.remove(self.alloc, id, &mut self.steps)
    }

    /// Folds a range, which is hidden from the next snapshot on.
    pub(crate) fn fold(&mut self, id: u32, start: u32, end: u32) -> Result<(), Fault> {
        self.steps = Steps::new();
        self.text.fold(self.alloc, id, start, end, &mut self.steps)
    }

    /// Takes a fold off. What it hides is hidden up to the next snapshot.
    pub(crate) fn unfold(&mut self, id: u32) -> Result<(), Fault> {
        self.steps = Steps::new();
        self.text.unfold(self.alloc, id, &mut self.steps)
    }

    /// Shows what is there.
    pub(crate) fn sync(&mut self) -> Result<Stretch, NoMemory> {
        self.steps = Steps::new();
        let (shown, answer) = self.text.show(self.alloc, &mut self.steps)?;
        self.shown = shown;
        Ok(numbers(answer))
    }

    /// Puts a text in the place of a range, and shows what is there then.
    pub(crate) fn edit(&mut self, start: u32, end: u32, text: &str) -> Result<Stretch, Fault> {
        self.steps = Steps::new();
        let (shown, answer) = self
            .text
            .replace(self.alloc, start, end, text, &mut self.steps)?;
        self.shown = shown;
        Ok(numbers(answer))
    }

    /// How many nodes the last change opened or made.
    pub(crate) fn nodes(&self) -> Result<u64, NoMemory> {
        counted(self.alloc, &self.steps)
    }
}

/// The number that a counter has, which it only prints.
fn counted(alloc: Global, steps: &Steps) -> Result<u64, NoMemory> {
    let told = format!(in alloc; "{steps:?}")?;
    let mut count: u64 = 0;
    for byte in told.as_bytes() {
        if byte.is_ascii_digit() {
            count = count.wrapping_mul(10).wrapping_add((byte & 0x0f) as u64);
        }
    }
    Ok(count)
}
