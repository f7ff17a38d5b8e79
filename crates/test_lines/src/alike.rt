//! A list of lines that are all alike.
ghost use Rattle.std.specs.Prelude.{◌≡◌, ◌<◌, ◌^◌, IfOk, length};
ghost use Rattle.cell_line.specs.Elements.{total_cells};
ghost use Rattle.cell_line.specs.Worked.{line_of};

use cell_line::{Element, Lines, elements, line_laws};
use cell_units::{NoMemory, Piece, PieceKind, Text};
use std::alloc::Global;

/// So many lines of one text, at tab size 4.
#[derive(Drop)]
pub struct Alike {
    pub text: &'static str,
    pub count: u32,
    ghost short: { length text.now < 1000 },
}

/// The elements of a short line of one piece, at tab size 4.
pub fn short_line(alloc: Global, text: &str) -> Result<Vec<Element>, NoMemory>
    requires { length text.now < 1000 }
    ensures value { IfOk result (λ line. line.items ≡ line_of text.now) }
    ensures cells { IfOk result (λ line. total_cells line.items < 2 ^ 32) }
    ensures count { IfOk result (λ line. length line.items < 2 ^ 32) }
{
    // For the proof: the cells of a line of so few bytes fit u32.
    line_laws();
    let mut pieces = Vec::new(alloc);
    pieces.push(Piece {
        kind: PieceKind::Buffer,
        text: Text::from_str(alloc, text)?,
        start: 0,
        end: 0,
    })?;
    let line = elements(alloc, pieces.as_slice(), 4)?;
    Ok(line)
}

impl Lines for Alike {
    ghost use Rattle.std.specs.Prelude.{replicate};

    ghost elements_by_line = { λ a. replicate a.count (line_of a.text.now) };

    fn lines(&self) -> u32 {
        self.count
    }

    fn elements(&self, alloc: Global, _line: u32) -> Result<Vec<Element>, NoMemory> {
        short_line(alloc, self.text)
    }

    fn share(&self) -> Result<Alike, NoMemory> {
        Ok(Alike {
            text: self.text,
            count: self.count,
        })
    }
}
