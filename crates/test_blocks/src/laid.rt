//! A text with blocks between its rows, which is changed and shown.
use crate::seen::Seen;
use cell_line::Run;
use cell_units::{Fault, NoMemory, Side, Steps, Text};
use std::alloc::Global;
use std::marker::Model;
use std::test::Fail;
use test_stages::BlockedText;
use text_rope::Rope;

/// A text with its blocks, of which a run of lines may be out, and what was shown last of it. Proofs see nothing of it:
/// whoever changes it owes nothing.
pub(crate) struct Laid {
    pub alloc: Global,
    blocked: BlockedText,
    seen: Seen,
}

impl Drop for Laid {
    fn drop(self) {
        let Laid {
            alloc: _,
            blocked: _,
            seen: _,
        } = self;
    }
}

impl Model for Laid {
    ghost Value = { Unit {0} };

    ghost view = { λ _. tt };
}

impl Laid {
    /// The text without blocks, of which each line is in one row.
    pub(crate) fn new(alloc: Global, text: &str) -> Result<Laid, Fail> {
        let mut steps = Steps::new();
        let rope = Rope::from_bytes(alloc, text.as_bytes(), &mut steps)?;
        let mut blocked = BlockedText::new(alloc, rope, &mut steps)?;
        blocked.set_width(0)?;
        Ok(Laid::shown(alloc, blocked)?)
    }

    /// A text as it is shown.
    fn shown(alloc: Global, blocked: BlockedText) -> Result<Laid, NoMemory> {
        let seen = Seen::of(alloc, &blocked)?;
        Ok(Laid {
            alloc,
            blocked,
            seen,
        })
    }

    /// An equal one, of which no run is out.
    pub(crate) fn share_all(&self) -> Result<Laid, NoMemory> {
        let seen = self.seen.share()?;
        let blocked = self.blocked.share(self.alloc)?;
        Ok(Laid {
            alloc: self.alloc,
            blocked,
            seen,
        })
    }

    /// What was shown last.
    pub(crate) fn seen_now(&self) -> Result<Seen, NoMemory> {
        self.seen.share()
    }

    /// The number of blocks.
    pub(crate) fn len(&self) -> u32 {
        self.blocked.blocks.len()
    }

    /// The offset, id and lines of a block, by its place among those of a side, if there is one.
    pub(crate) fn block_at(&self, side: Side, at: u32) -> Option<(u32, u32, &[Text])> {
        self.blocked.blocks.block(side, at, &mut Steps::new())
    }

    /// Adds a block, of which what was shown last has nothing.
    pub(crate) fn insert(
        &mut self,
        id: u32,
        side: Side,
        offset: u32,
        lines: &[Text],
    ) -> Result<(), Fault> {
        self.blocked
            .insert(self.alloc, id, side, offset, lines, &mut Steps::new())
    }

    /// Takes a block out, which what was shown last still has.
    pub(crate) fn remove(&mut self, id: u32) -> Result<(), Fault> {
        self.blocked.remove(self.alloc, id, &mut Steps::new())
    }

    /// Shows the blocks that are there now.
    pub(crate) fn show(&mut self) -> Result<(), NoMemory> {
        self.blocked.show(self.alloc, &mut Steps::new())?;
        self.see()
    }

    /// Goes on to what is there now.
    fn see(&mut self) -> Result<(), NoMemory> {
        self.seen = Seen::of(self.alloc, &self.blocked)?;
        Ok(())
    }

    /// Sets the width at which lines are to be wrapped.
    pub(crate) fn set_width(&mut self, width: u32) -> Result<(), Fault> {
        self.blocked.set_width(width)
    }

    /// Takes the first lines that wait, and cuts them. It says which these are.
    pub(crate) fn take(&mut self) -> Result<Option<Run>, NoMemory> {
        self.blocked.take(self.alloc, &mut Steps::new())
    }

    /// Lands what was taken last, and shows what is there then.
    pub(crate) fn land(&mut self) -> Result<(), NoMemory> {
        self.blocked.land(self.alloc, &mut Steps::new())?;
        self.see()
    }

    /// Wraps the first lines that wait, and shows what is there then. It says which these are.
    pub(crate) fn wrap_next(&mut self) -> Result<Option<Run>, NoMemory> {
        let run = self.take()?;
        if run.is_some() {
            self.land()?;
        }
        Ok(run)
    }

    /// Puts a text in the place of a range, and shows what is there then.
    pub(crate) fn edit(&mut self, start: u32, end: u32, text: &str) -> Result<(), Fault> {
        let _change = self
            .blocked
            .replace(self.alloc, start, end, text, &mut Steps::new())?;
        self.see()?;
        Ok(())
    }
}
