//! What a host sees of each row of a view, and which rows look the same as before.
use cell_units::{NoMemory, Steps};
use display_map::{Kind, View};
use std::alloc::Global;
use std::process::Abort;
use std::test::Fail;
use view_changes::RowChange;
use view_pieces::pieces_of_row;

/// The kind of a row, and of each of its pieces the kind, the cells and the text.
fn look(alloc: Global, view: &View, row: u32) -> Result<String, Fail> {
    let shown = view.row(alloc, row, &mut Steps::new())?.ok_or("no row")?;
    let letter = match shown.kind {
        Kind::Head => "t",
        Kind::More => "w",
        Kind::Block => "b",
    };
    let mut look = String::from_str(alloc, letter)?;
    let pieces = pieces_of_row(alloc, view, row, &mut Steps::new())?.ok_or("no pieces")?;
    for piece in &pieces {
        let one = format!(in alloc; "{:?} {} {}", piece.kind, piece.cells, piece.text.as_str())?;
        look.push_str(one.as_str())?;
    }
    Ok(look)
}

/// What is seen of each row.
pub(crate) fn looks(alloc: Global, view: &View) -> Result<Vec<String>, Fail> {
    let mut looks = Vec::new(alloc);
    for row in 0..view.row_count() {
        looks.push(look(alloc, view, row)?)?;
    }
    Ok(looks)
}

/// The rows before the replaced ones look the same, and so do those after them.
pub(crate) fn assert_true(rt: &impl Abort, before: &[String], after: &[String], rows: RowChange) {
    let from = rows.from as usize;
    let to = rows.to as usize;
    let end = from + rows.count as usize;
    assert!(rt; from <= to);
    assert!(rt; to <= before.len());
    assert!(rt; end <= after.len());
    assert_eq!(rt; before.len() - to, after.len() - end);
    for (old, new) in before[..from].iter().zip(&after[..from]) {
        assert_eq!(rt; old.as_str(), new.as_str());
    }
    for (old, new) in before[to..].iter().zip(&after[end..]) {
        assert_eq!(rt; old.as_str(), new.as_str());
    }
}
