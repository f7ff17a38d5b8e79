//! What is compared of a layer and the same by plain lists.
use crate::inlaid::{Placed, ShownByte};
use crate::lists::moved;
use crate::looks;
use crate::told::Stretch;
use cell_units::{Bias, Layer};

/// The byte with its offset moved by a replacement of the text, if there was one.
fn moved_byte(shown: ShownByte, edit: Stretch) -> ShownByte {
    let Some((start, end, count)) = edit else {
        return shown;
    };
    ShownByte {
        offset: moved(shown.offset, Bias::Right, start, end, count),
        ..shown
    }
}

/// Whether all before a replacement is the same in both, and all after it the same, moved. None leads from bytes to the
/// same.
pub fn leads(old: &[ShownByte], new: &[ShownByte], answer: Stretch, edit: Stretch) -> bool {
    let (start, end, count) = answer.unwrap_or((0, 0, 0));
    let come = start.wrapping_add(count) as usize;
    let behind = old.len().saturating_sub(end as usize);
    for at in 0..start as usize {
        if old.get(at) != new.get(at) {
            return false;
        }
    }
    for at in 0..behind {
        let shown = old.get(at.wrapping_add(end as usize)).copied();
        if shown.map(|s| moved_byte(s, edit)) != new.get(at.wrapping_add(come)).copied() {
            return false;
        }
    }
    new.len() == behind.wrapping_add(come)
}

/// Whether each boundary has the places that are reckoned, and no other offset has one, nor one past the end.
pub fn has_places<L: Layer>(layer: &L, length: u32, placed: &[Placed]) -> bool {
    let mut found: usize = 0;
    for offset in 0..length.saturating_add(2) {
        if looks::places(layer, offset).is_some() {
            found = found.wrapping_add(1);
        }
    }
    for one in placed {
        if looks::places(layer, one.offset) != Some((one.left, one.right)) {
            return false;
        }
    }
    found == placed.len()
}

/// The least and the greatest of these boundaries that have the place and aren't hidden.
fn boundaries_of(all: &[Placed], place: u32) -> (Option<u32>, Option<u32>) {
    let mut least = None;
    let mut greatest = None;
    for placed in all {
        if !placed.is_hidden && (placed.left == place || placed.right == place) {
            least = least.or(Some(placed.offset));
            greatest = Some(placed.offset);
        }
    }
    (least, greatest)
}

/// Whether each place leads back to the boundaries that have it, and one past the end to none.
pub fn leads_back<L: Layer>(layer: &L, placed: &[Placed]) -> bool {
    for place in 0..layer.length().saturating_add(2) {
        let (least, greatest) = boundaries_of(placed, place);
        if layer.back(place, Bias::Left) != least || layer.back(place, Bias::Right) != greatest {
            return false;
        }
    }
    true
}

/// Whether each place is on the line and after the bytes that are counted.
pub fn has_points<L: Layer>(layer: &L, all: &[ShownByte]) -> bool {
    let mut place: u32 = 0;
    let mut line: u32 = 0;
    let mut column: u32 = 0;
    for shown in all {
        if looks::point(layer, place) != Some((line, column)) {
            return false;
        }
        place = place.wrapping_add(1);
        column = column.wrapping_add(1);
        if shown.ends_line() {
            line = line.wrapping_add(1);
            column = 0;
        }
    }
    layer.length() == place
        && layer.lines() == line.wrapping_add(1)
        && looks::point(layer, place) == Some((line, column))
}
