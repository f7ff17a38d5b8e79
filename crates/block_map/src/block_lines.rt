//! The lines of a block, shared by the copies of the block.
ghost use Rattle.std.specs.Prelude.{◌≡◌, ◌<◌, [], Some, length, slice_get, IfOk};
ghost use Rattle.std.specs.List.{All};
ghost use Rattle.std.specs.Str.{IsUtf8};

use cell_units::{NoMemory, Text};
use std::alloc::Global;
use std::marker::Model;
use std::sync::Arc;
use sum_core::Load;

/// The lines of a block, which all copies share. Contracts see them as a list of texts.
pub(crate) struct BlockLines {
    lines: Arc<Vec<Text>>,
}

impl Drop for BlockLines {
    fn drop(self) {
        let BlockLines { lines: _ } = self;
    }
}

impl Model for BlockLines {
    ghost use Rattle.std.specs.Prelude.{ℕ, List};
    ghost use Rattle.std.specs.Arc.{arc_value};

    ghost Value = { List (List ℕ) };

    ghost view = { λ b. (arc_value b.lines).items };
}

impl BlockLines {
    /// No lines: those of a block of which nothing is shown.
    pub(crate) fn none(alloc: Global) -> Result<BlockLines, NoMemory>
        ensures { IfOk result (λ lines. lines ≡ []) }
    {
        Ok(BlockLines {
            lines: Arc::new(alloc, Vec::new(alloc))?,
        })
    }

    /// The lines, copied.
    pub(crate) fn new(alloc: Global, lines: &[Text]) -> Result<BlockLines, NoMemory>
        ensures copied { IfOk result (λ copied. copied ≡ lines.now) }
        ensures utf8 { IfOk result (λ copied. All IsUtf8 copied) }
    {
        let mut copied = Vec::with_capacity(alloc, lines.len())?;
        for line in lines {
            copied.push(Text::from_str(alloc, line.as_str())?)?;
        }
        Ok(BlockLines {
            lines: Arc::new(alloc, copied)?,
        })
    }

    /// The number of lines.
    pub(crate) fn len(&self) -> usize
        ensures { result ≡ length self.now }
    {
        self.lines.len()
    }

    /// Their texts.
    pub(crate) fn texts(&self) -> &[Text]
        ensures { result.now ≡ self.now }
    {
        self.lines.as_slice()
    }

    /// The text of a line.
    pub(crate) fn get(&self, line: usize) -> &Text
        requires { line < length self.now }
        ensures { slice_get self.now line ≡ Some result.now }
    {
        &self.lines[line]
    }
}

impl Load for BlockLines {
    fn copy(&self, _alloc: Global) -> Result<BlockLines, NoMemory> {
        Ok(BlockLines {
            lines: Arc::try_clone(&self.lines)?,
        })
    }
}
