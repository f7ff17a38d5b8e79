//! Lines whose elements and cuts are known.
ghost use Rattle.std.specs.Prelude.{◌≡◌, ◌<◌, length, IfOk};
ghost use Rattle.cell_line.specs.Elements.{bytes_in};
ghost use Rattle.cell_units.specs.Lawful.{IsWidth};

use crate::alike::{Alike, short_line};
use cell_line::laws::worked_rows;
use cell_line::{
    Cuts, Element, Lines, cuts, cuts_of_pieces, indent, line_laws, row_texts_of_pieces,
};
use cell_units::{NoMemory, Piece, PieceKind, Text};
use std::alloc::Global;

/// The cuts and the indent of a short text at tab size 4.
fn cut(alloc: Global, text: &str, width: u32) -> Result<(Cuts, u32), NoMemory>
    requires short { length text.now < 1000 }
    requires lawful { IsWidth width }
{
    let line = short_line(alloc, text)?;
    let depth = indent(line.as_slice(), width);
    Ok((cuts(alloc, line.as_slice(), width)?, depth))
}

/// The piece of a short text.
fn short_piece(alloc: Global, text: &str) -> Result<Vec<Piece>, NoMemory>
    requires { length text.now < 1000 }
    ensures { IfOk result (λ pieces. bytes_in pieces.items < 1000) }
{
    let mut pieces = Vec::new(alloc);
    pieces.push(Piece {
        kind: PieceKind::Buffer,
        text: Text::from_str(alloc, text)?,
        start: 0,
        end: 0,
    })?;
    Ok(pieces)
}

/// The cuts of a short text at tab size 4, without its elements.
fn wrapped(alloc: Global, text: &str, width: u32) -> Result<Cuts, NoMemory>
    requires short { length text.now < 1000 }
    requires lawful { IsWidth width }
{
    // For the proof: the cells of a line of so few bytes fit u32.
    line_laws();
    let pieces = short_piece(alloc, text)?;
    let cuts = cuts_of_pieces(alloc, pieces.as_slice(), 4, width)?;
    Ok(cuts)
}

#[test]
fn lines_are_cut_at_the_width(rt: HostRuntime) {
    worked_rows();
    let table: [(&str, u32, &[u32], u32); 18] = [
        ("hello world", 5, &[6], 0),
        ("\tfoo bar baz", 10, &[5, 9], 4),
        ("abcdefgh", 3, &[3, 6], 0),
        ("ab漢字cd", 4, &[3], 0),
        ("    fooooooooo", 8, &[8, 12], 4),
        ("x😀y", 2, &[1, 2], 0),
        ("hello world", 0, &[], 0),
        ("", 5, &[], 0),
        ("        ", 5, &[], 0),
        ("        x", 5, &[5], 0),
        ("a      b", 2, &[7], 0),
        ("a\u{200b}\u{200b}b\u{200b}c", 2, &[5], 0),
        ("a\u{301}\u{301}bc", 2, &[2], 0),
        ("\u{200b}\u{301}a b", 2, &[4], 0),
        ("ae\u{301}\tbc", 5, &[3], 0),
        ("ab漢c", 3, &[2], 0),
        ("🇫🇷🇩🇪a", 3, &[1], 0),
        ("x👩\u{200d}👧y", 2, &[1, 2], 0),
    ];
    for (text, width, want, depth) in table {
        assert!(rt; text.len() < 1000 && (width == 0 || (2 <= width && width <= 10000)));
        match cut(rt.alloc(), text, width) {
            Ok((cuts, got)) => {
                assert_eq!(rt; cuts.as_slice(), want, "{text:?} at {width}");
                assert_eq!(rt; got, depth, "{text:?} at {width}");
            }
            Err(NoMemory) => panic!(rt; "out of memory"),
        }
        match wrapped(rt.alloc(), text, width) {
            Ok(cuts) => assert_eq!(rt; cuts.as_slice(), want, "{text:?} wrapped at {width}"),
            Err(NoMemory) => panic!(rt; "out of memory"),
        }
    }
}

#[test]
fn characters_take_their_cells(rt: HostRuntime) {
    let table: [(&str, &[u32]); 7] = [
        ("\tab", &[4, 1, 1]),
        ("a\u{200b}b", &[1, 0, 1]),
        ("e\u{301}x", &[1, 1]),
        ("x😀y", &[1, 2, 1]),
        ("ab\tc\t", &[1, 1, 2, 1, 3]),
        ("漢字", &[2, 2]),
        ("\u{22ef}", &[1]),
    ];
    for (text, want) in table {
        assert!(rt; text.len() < 1000);
        match short_line(rt.alloc(), text) {
            Ok(line) => {
                assert_eq!(rt; line.len(), want.len(), "{text:?}");
                for (element, cells) in line.iter().zip(want) {
                    assert_eq!(rt; element.cells, *cells, "{text:?}");
                }
            }
            Err(NoMemory) => panic!(rt; "out of memory"),
        }
    }
}

/// The texts of the rows of a short text at tab size 4.
fn shown_rows(alloc: Global, text: &str, width: u32) -> Result<Vec<Text>, NoMemory>
    requires short { length text.now < 1000 }
    requires lawful { IsWidth width }
{
    line_laws();
    let pieces = short_piece(alloc, text)?;
    let cuts = cuts_of_pieces(alloc, pieces.as_slice(), 4, width)?;
    let rows = row_texts_of_pieces(alloc, pieces.as_slice(), 4, width, &cuts, 0, 100)?;
    Ok(rows)
}

#[test]
fn rows_show_their_part_of_a_line(rt: HostRuntime) {
    let table: [(&str, u32, &[&str]); 4] = [
        (
            "e\u{301}x 🇫🇷\u{200b}ab\tc",
            4,
            &["e\u{301}x ", "🇫🇷\u{200b}ab ", "c"],
        ),
        ("ae\u{301}\tbc", 5, &["ae\u{301}  ", "bc"]),
        ("\te\u{301}漢 b", 8, &["    e\u{301}漢 ", "    b"]),
        ("ab漢字cd", 4, &["ab漢", "字cd"]),
    ];
    for (text, width, want) in table {
        assert!(rt; text.len() < 1000 && 2 <= width && width <= 10000);
        match shown_rows(rt.alloc(), text, width) {
            Ok(rows) => {
                assert_eq!(rt; rows.len(), want.len(), "{text:?} at {width}");
                for (row, text) in rows.iter().zip(want) {
                    assert_eq!(rt; row.as_str(), *text);
                }
            }
            Err(NoMemory) => panic!(rt; "out of memory"),
        }
    }
}

/// A line of so many letters with a tab after them.
fn letters_and_tab(alloc: Global, letters: usize) -> Result<String, NoMemory> {
    let mut text = "a".repeat(alloc, letters)?;
    text.push('\t')?;
    Ok(text)
}

#[test]
fn a_tab_behind_256_cells_takes_one(rt: HostRuntime) {
    for (letters, cells) in [(254, 2), (255, 1), (256, 1)] {
        match letters_and_tab(rt.alloc(), letters) {
            Ok(text) => {
                assert!(rt; text.len() < 1000);
                match short_line(rt.alloc(), text.as_str()) {
                    Ok(line) => {
                        assert_eq!(rt; line.len(), letters + 1);
                        assert_eq!(rt; line.as_slice().last().map(|tab| tab.cells), Some(cells));
                    }
                    Err(NoMemory) => panic!(rt; "out of memory"),
                }
            }
            Err(NoMemory) => panic!(rt; "out of memory"),
        }
    }
}

/// How many elements each line has.
fn element_counts<N: Lines>(alloc: Global, lines: &N) -> Result<Vec<usize>, NoMemory> {
    let mut counts = Vec::new(alloc);
    for line in 0..lines.lines() {
        counts.push(lines.elements(alloc, line)?.len())?;
    }
    Ok(counts)
}

#[test]
fn a_share_has_the_same_lines(rt: HostRuntime) {
    let lines = Alike {
        text: "aaa bbb",
        count: 3,
    };
    match lines.share() {
        Ok(shared) => {
            for lines in [&lines, &shared] {
                match element_counts(rt.alloc(), lines) {
                    Ok(counts) => assert_eq!(rt; counts.as_slice(), [7, 7, 7].as_slice()),
                    Err(NoMemory) => panic!(rt; "out of memory"),
                }
            }
        }
        Err(NoMemory) => panic!(rt; "one holder too many"),
    }
}
