//! What is asked of rows with blocks between them, in words.
use crate::seen::Seen;
use block_map::{Kind, Shown};
use cell_units::{NoMemory, Text};
use std::alloc::Global;
use test_support::told::{number, pair};

/// The letter that is printed for a row of the kind.
pub(crate) fn letter_of(kind: Kind) -> char {
    match kind {
        Kind::Head => 't',
        Kind::More => 'w',
        Kind::Block => 'b',
    }
}

/// A row by its letter and its text.
fn told(alloc: Global, row: &Shown) -> Result<String, NoMemory> {
    let letter = letter_of(row.kind);
    Ok(format!(in alloc; "{letter}|{}", row.text.as_str())?)
}

/// The row of a number, or `none`.
pub(crate) fn row(seen: &Seen, row: u32) -> Result<String, NoMemory> {
    match seen.row(row)? {
        Some(row) => told(seen.alloc(), &row),
        None => number(seen.alloc(), None),
    }
}

/// The rows from one on, as many as there are up to a count, or `none`.
pub(crate) fn rows(seen: &Seen, first: u32, count: u32) -> Result<String, NoMemory> {
    all_told(seen.alloc(), seen.rows(first, count)?)
}

/// Rows with `, ` between them, or `none`.
fn all_told(alloc: Global, rows: Vec<Shown>) -> Result<String, NoMemory> {
    let mut all = String::new(alloc);
    for row in rows {
        if all.len() > 0 {
            all.push_str(", ")?;
        }
        let told = told(alloc, &row)?;
        all.push_str(told.as_str())?;
    }
    if all.len() == 0 {
        return number(alloc, None);
    }
    Ok(all)
}

/// The line and the text row in it that are at a row, or `none`.
pub(crate) fn text_at(seen: &Seen, row: u32) -> Result<String, NoMemory> {
    pair(seen.alloc(), seen.text_at(row))
}

/// These lines as texts.
pub(crate) fn texts(alloc: Global, lines: &[&str]) -> Result<Vec<Text>, NoMemory> {
    let mut texts = Vec::new(alloc);
    for line in lines {
        texts.push(Text::from_str(alloc, line)?)?;
    }
    Ok(texts)
}
