//! Quiet characters beside marks, joiners, flags and Hangul: the clusters, their cells, and the rows.
ghost use Rattle.std.specs.Prelude.{◌<◌, length, IfOk};
ghost use Rattle.cell_line.specs.Elements.{bytes_in};
ghost use Rattle.cell_units.specs.Lawful.{IsWidth};

use crate::alike::short_line;
use cell_line::{Cuts, cuts_of_pieces, line_laws, row_texts_of_pieces};
use cell_units::{NoMemory, Piece, PieceKind, Text};
use std::alloc::Global;

#[test]
fn quiet_characters_stay_with_what_joins_them(rt: HostRuntime) {
    let table: [(&str, &[(&str, u32)]); 14] = [
        ("漢\u{301}字", &[("漢\u{301}", 2), ("字", 2)]),
        (
            "か\u{3099}き\u{3099}く",
            &[("か\u{3099}", 2), ("き\u{3099}", 2), ("く", 2)],
        ),
        ("カ\u{309a}キ", &[("カ\u{309a}", 2), ("キ", 2)]),
        ("é\u{301}é", &[("é\u{301}", 1), ("é", 1)]),
        ("я\u{483}я", &[("я\u{483}", 1), ("я", 1)]),
        ("漢\u{200d}字", &[("漢\u{200d}", 2), ("字", 2)]),
        ("é👩\u{200d}👧é", &[("é", 1), ("👩\u{200d}👧", 2), ("é", 1)]),
        ("字🇫🇷🇩🇪字", &[("字", 2), ("🇫🇷", 2), ("🇩🇪", 2), ("字", 2)]),
        ("字한글字", &[("字", 2), ("한", 2), ("글", 2), ("字", 2)]),
        ("字한\u{302e}字", &[("字", 2), ("한\u{302e}", 2), ("字", 2)]),
        ("\u{3000}、", &[("\u{3000}", 2), ("、", 2)]),
        (
            "ñ\tü a",
            &[("ñ", 1), ("\t", 3), ("ü", 1), (" ", 1), ("a", 1)],
        ),
        ("a漢\u{e0100}b", &[("a", 1), ("漢\u{e0100}", 2), ("b", 1)]),
        ("Ａｂ漢z", &[("Ａ", 2), ("ｂ", 2), ("漢", 2), ("z", 1)]),
    ];
    for (text, want) in table {
        assert!(rt; text.len() < 1000);
        match short_line(rt.alloc(), text) {
            Ok(line) => {
                assert_eq!(rt; line.len(), want.len(), "{text:?}");
                for (element, (cluster, cells)) in line.iter().zip(want) {
                    assert_eq!(rt; element.text.as_str(), *cluster, "{text:?}");
                    assert_eq!(rt; element.cells, *cells, "{text:?}");
                }
            }
            Err(NoMemory) => panic!(rt; "out of memory"),
        }
    }
}

/// The cuts of a short text at tab size 4, and the texts of its rows.
fn wrapped(alloc: Global, text: &str, width: u32) -> Result<(Cuts, Vec<Text>), NoMemory>
    requires short { length text.now < 1000 }
    requires lawful { IsWidth width }
{
    // For the proof: the cells of a line of so few bytes fit u32.
    line_laws();
    let pieces = short_piece(alloc, text)?;
    let cuts = cuts_of_pieces(alloc, pieces.as_slice(), 4, width)?;
    let rows = row_texts_of_pieces(alloc, pieces.as_slice(), 4, width, &cuts, 0, 100)?;
    Ok((cuts, rows))
}

/// The piece of a short text.
fn short_piece(alloc: Global, text: &str) -> Result<Vec<Piece>, NoMemory>
    requires { length text.now < 1000 }
    ensures { IfOk result (λ pieces. bytes_in pieces.items < 1000) }
{
    let mut pieces = Vec::new(alloc);
    pieces.push(Piece {
        kind: PieceKind::Buffer,
        text: Text::from_str(alloc, text)?,
        start: 0,
        end: 0,
    })?;
    Ok(pieces)
}

#[test]
fn wide_lines_are_cut_between_their_clusters(rt: HostRuntime) {
    let table: [(&str, u32, &[u32], &[&str]); 7] = [
        ("漢字仮名", 4, &[2], &["漢字", "仮名"]),
        ("é漢é字", 3, &[2], &["é漢", "é字"]),
        ("漢 字 漢", 4, &[2, 4], &["漢 ", "字 ", "漢"]),
        ("éé\u{301}éé", 2, &[2], &["éé\u{301}", "éé"]),
        ("漢か\u{3099}é字", 5, &[3], &["漢か\u{3099}é", "字"]),
        ("字한글字", 4, &[2], &["字한", "글字"]),
        ("漢🇫🇷🇩🇪字", 6, &[3], &["漢🇫🇷🇩🇪", "字"]),
    ];
    for (text, width, want, rows) in table {
        assert!(rt; text.len() < 1000 && 2 <= width && width <= 10000);
        match wrapped(rt.alloc(), text, width) {
            Ok((cuts, texts)) => {
                assert_eq!(rt; cuts.as_slice(), want, "{text:?} at {width}");
                assert_eq!(rt; texts.len(), rows.len(), "{text:?} at {width}");
                for (text, row) in texts.iter().zip(rows) {
                    assert_eq!(rt; text.as_str(), *row);
                }
            }
            Err(NoMemory) => panic!(rt; "out of memory"),
        }
    }
}
