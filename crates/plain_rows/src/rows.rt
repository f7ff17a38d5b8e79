//! The rows of a record, built from scratch: text rows, and the rows of blocks.
ghost use Rattle.std.specs.Prelude.{◌≡◌, ◌≤◌, ◌<◌, ◌+◌, ◌++◌, [], length, if◌then◌else◌, IfOk, OnOk};
ghost use Rattle.cell_units.specs.Lawful.{IsLawful, IsTab, IsWidth};
ghost use Rattle.cell_line.specs.Elements.{bytes_in, elements_of};
ghost use Rattle.plain_rows.specs.Plain.{block_of, record_of, row_pairs};
ghost use Rattle.plain_rows.specs.Rows.{block_rows, blocks_at, head_and_more, is_on, rows_of, text_rows};
ghost use Rattle.plain_rows.specs.inside.BuiltRows.{AreBefore, AreStanding, is_upto, shown_limit};

use crate::folded_lines::FoldedLines;
use crate::plain::{Plain, PlainBlock};
use cell_line::{cuts_of_pieces, line_laws, row_texts_of_pieces};
use cell_units::limits::LAID_LIMIT;
use cell_units::{NoMemory, Piece, Side, Text};
use std::alloc::Global;

/// A row of a built list: the letter of its kind, and its text.
type BuiltRow = (u8, Text);

/// Appends the rows of a block.
fn push_block(alloc: Global, rows: &mut Vec<BuiltRow>, block: &PlainBlock) -> Result<(), NoMemory>
    ensures { OnOk result (rows.new.items
        ≡ rows.old.items ++ row_pairs (block_rows (block_of block.now))) }
{
    for line in &block.lines {
        rows.push((b'b', Text::from_str(alloc, line.as_str())?))?;
    }
    Ok(())
}

/// Appends the rows of a block, if it is on the side.
fn push_block_on(
    alloc: Global,
    rows: &mut Vec<BuiltRow>,
    block: &PlainBlock,
    side: Side,
) -> Result<(), NoMemory>
    ensures { OnOk result (rows.new.items ≡ rows.old.items
        ++ (if is_on side block.now.side then row_pairs (block_rows (block_of block.now)) else [])) }
{
    if block.side != side {
        return Ok(());
    }
    push_block(alloc, rows, block)
}

/// Whether there is a block of this number and it is on the other side, or is at the line or before it.
fn is_upto(plain: &Plain, lines: &[u32], side: Side, number: usize, line: u32) -> bool
    requires { AreStanding plain.now lines.now }
    ensures { result ≡ is_upto (record_of plain.now) side number line }
{
    number < lines.len() && (plain.blocks[number].side != side || lines[number] <= line)
}

/// Appends the rows of the blocks of one side that are at the line, from the block of the number `from` on. `lines` has
/// of each block its line. Returns the number of the block after them.
fn push_blocks(
    alloc: Global,
    rows: &mut Vec<BuiltRow>,
    plain: &Plain,
    lines: &[u32],
    side: Side,
    from: usize,
    line: u32,
) -> Result<usize, NoMemory>
    // `lines` has the line of each block. Blocks of the side before `from` are before this line, and no others are.
    requires lawful { IsLawful (record_of plain.now) }
    requires lines { AreStanding plain.now lines.now }
    requires before { AreBefore (record_of plain.now) side from line }

    // The blocks of this line have their rows, and those before the result are before the next one.
    ensures rows { OnOk result (rows.new.items
        ≡ rows.old.items ++ row_pairs (blocks_at (record_of plain.now) side line)) }
    ensures before { IfOk result (λ behind. AreBefore (record_of plain.now) side behind (line + 1)) }
{
    let blocks = plain.blocks.as_slice();
    let mut next = from;
    'walk: while is_upto(plain, lines, side, next, line) {
        push_block_on(alloc, rows, &blocks[next], side)?;
        next += 1;
    }
    Ok(next)
}

/// Appends the rows of one line that have these texts: the first is the head, and the others go on.
fn push_line(rows: &mut Vec<BuiltRow>, texts: Vec<Text>) -> Result<(), NoMemory>
    ensures { OnOk result (rows.new.items ≡ rows.old.items ++ row_pairs (head_and_more texts.items)) }
{
    let mut kind = b't';
    for text in texts {
        rows.push((kind, text))?;
        kind = b'w';
    }
    Ok(())
}

/// Appends the text rows of the line that the pieces make.
fn push_texts(
    alloc: Global,
    rows: &mut Vec<BuiltRow>,
    pieces: &[Piece],
    tab: u32,
    width: u32,
) -> Result<(), NoMemory>
    requires tab { IsTab tab }
    requires width { IsWidth width }
    requires size { bytes_in pieces.now ≤ shown_limit }
    ensures { OnOk result (rows.new.items
        ≡ rows.old.items ++ row_pairs (text_rows (elements_of pieces.now tab) width)) }
{
    // For the proof: the cells of a line of so few bytes fit u32.
    line_laws();
    let cuts = cuts_of_pieces(alloc, pieces, tab, width)?;
    let texts = row_texts_of_pieces(alloc, pieces, tab, width, &cuts, 0, u32::MAX)?;
    push_line(rows, texts)
}

/// All rows in order (*Rows*), each as the letter of its kind and its text. The letter is `t` for a line's first text
/// row, `w` for one that goes on and `b` for a block's.
pub fn build(alloc: Global, plain: &Plain) -> Result<Vec<(u8, Text)>, NoMemory>
    requires lawful { IsLawful (record_of plain.now) }
    requires size { length plain.now.text ≤ LAID_LIMIT }
    ensures { IfOk result (λ rows. rows.items ≡ row_pairs (rows_of (record_of plain.now))) }
{
    let source = plain.source();
    let folded = FoldedLines::new(alloc, &source)?;
    let stands = folded.block_lines(alloc, plain.text.as_str(), plain.blocks.as_slice())?;
    let stands = stands.as_slice();
    let marks = plain.marks.as_slice();
    let mut rows = Vec::new(alloc);
    let mut above = 0;
    let mut below = 0;
    for line in 0..folded.lines() {
        above = push_blocks(alloc, &mut rows, plain, stands, Side::Above, above, line)?;
        let pieces = folded.pieces(alloc, &source, line)?;
        let width = marks[line as usize];
        push_texts(alloc, &mut rows, pieces.as_slice(), plain.tab, width)?;
        below = push_blocks(alloc, &mut rows, plain, stands, Side::Below, below, line)?;
    }
    Ok(rows)
}
