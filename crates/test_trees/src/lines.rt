//! Lines that are very long.
ghost use Rattle.std.specs.Prelude.{◌≡◌, ◌<◌, length, IfOk};
ghost use Rattle.cell_line.specs.Elements.{bytes_in};
ghost use Rattle.cell_units.specs.Lawful.{IsWidth};

use cell_line::{Cuts, cuts_of_pieces, line_laws};
use cell_units::{NoMemory, Piece, PieceKind, Text};
use std::alloc::Global;
use std::test::Fail;

/// The piece of a text of less than 300,000 bytes.
fn long_piece(alloc: Global, text: &str) -> Result<Vec<Piece>, NoMemory>
    requires { length text.now < 300000 }
    ensures { IfOk result (λ pieces. bytes_in pieces.items < 300000) }
{
    let mut pieces = Vec::new(alloc);
    pieces.push(Piece {
        kind: PieceKind::Buffer,
        text: Text::from_str(alloc, text)?,
        start: 0,
        end: 0,
    })?;
    Ok(pieces)
}

/// The cuts of its line at tab size 4.
fn wrapped(alloc: Global, text: &str, width: u32) -> Result<Cuts, NoMemory>
    requires long { length text.now < 300000 }
    requires lawful { IsWidth width }
{
    // For the proof: the cells of a line of so few bytes fit u32.
    line_laws();
    let pieces = long_piece(alloc, text)?;
    let cuts = cuts_of_pieces(alloc, pieces.as_slice(), 4, width)?;
    Ok(cuts)
}

/// Whether the text is cut so often at 80 cells, after every so many elements.
fn is_cut(alloc: Global, text: &str, cuts: usize, elements: u32) -> Result<bool, NoMemory> {
    if text.len() >= 300_000 {
        return Ok(false);
    }
    let found = wrapped(alloc, text, 80)?;
    Ok(found.as_slice().len() == cuts && are_at_each(found.as_slice(), elements))
}

/// Whether there is a cut after every so many elements.
fn are_at_each(cuts: &[u32], elements: u32) -> bool {
    let mut place = 0u32;
    for &cut in cuts {
        place = place.saturating_add(elements);
        if cut != place {
            return false;
        }
    }
    true
}

/// 200,000 letters with no blank between fill 2,500 rows of 80 cells. Of words of two letters 27 fill a row, and the
/// blank after the last one hangs. So 80,000 such words fill 2,962 rows, and 26 words are left.
#[test]
fn lines_of_200_000_bytes_are_cut_at_each_row(rt: HostRuntime) -> Result<(), Fail> {
    let alloc = rt.alloc();
    let letters = "a".repeat(alloc, 200_000)?;
    assert!(rt; is_cut(alloc, letters.as_str(), 2499, 80)?);
    let words = "aa ".repeat(alloc, 80_000)?;
    assert!(rt; is_cut(alloc, words.as_str(), 2962, 81)?);
    Ok(())
}
