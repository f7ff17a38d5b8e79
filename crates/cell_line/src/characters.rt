//! Characters that are clusters by themselves beside their like.
ghost use Rattle.std.specs.Prelude.{◌≡◌, ◌<◌, true, length, drop, slice_index, encode_utf8, IfSome};
ghost use Rattle.cell_line.specs.inside.Simple.{is_simple, StartsSimple};
ghost use Rattle.cell_line.specs.inside.Quiet.{has_one_cell, has_two_cells, is_alone, quiet_cells, IsSeam, StartsAlone};

/// Whether the byte is printable ASCII or a tab.
#[inline]
pub(crate) fn is_simple(byte: u8) -> bool
    ensures { result ≡ is_simple byte }
{
    byte == 9 || (32 <= byte && byte <= 126)
}

/// Whether the text begins with a simple byte that the clusters part from what follows it.
#[inline]
pub(crate) fn starts_simple(bytes: &[u8]) -> bool
    ensures { result ≡ true → StartsSimple bytes.now }
{
    match bytes {
        [] => false,
        [only] => is_simple(*only),
        [first, second, ..] => is_simple(*first) && is_simple(*second),
    }
}

/// Whether it is an ideograph, kana or their punctuation.
#[inline]
fn has_two_cells(c: u32) -> bool
    ensures { result ≡ has_two_cells c }
{
    (0x3000 <= c && c <= 0x3029)
        || (0x3041 <= c && c <= 0x3096)
        || (0x309b <= c && c <= 0x30ff)
        || (0x3400 <= c && c <= 0x9fff)
        || (0xff01 <= c && c <= 0xff60)
}

/// Whether it is printable ASCII, Latin, Greek or Cyrillic.
#[inline]
fn has_one_cell(c: u32) -> bool
    ensures { result ≡ has_one_cell c }
{
    (0x20 <= c && c <= 0x7e)
        || (0xaf <= c && c <= 0x2ff)
        || (0x370 <= c && c <= 0x482)
        || (0x48a <= c && c <= 0x52f)
        || (0x1e00 <= c && c <= 0x1fff)
}

/// The cells of a quiet character, and 0 for any other.
#[inline]
pub(crate) fn quiet_cells(c: char) -> u32
    ensures { result ≡ quiet_cells c }
{
    if has_two_cells(c as u32) {
        2
    } else if has_one_cell(c as u32) {
        1
    } else {
        0
    }
}

/// Whether it is a quiet character or a tab.
#[inline]
pub(crate) fn is_alone(c: char) -> bool
    ensures { result ≡ is_alone c }
{
    c == '\t' || quiet_cells(c) > 0
}

/// The character with which the text begins, if the clusters part it from what follows it, which comes beside it.
#[inline]
pub(crate) fn start_alone<'a>(text: &'a str) -> Option<(char, &'a str)>
    ensures { IfSome result (λ start. StartsAlone text.now start.0 start.1.now) }
{
    let mut chars = text.chars();
    let first = chars.next()?;
    let rest = chars.as_str();
    if !is_alone(first) {
        return None;
    }
    match chars.next() {
        Some(second) if !is_alone(second) => None,
        _ => Some((first, rest)),
    }
}

/// The first place where the clusters part: between two characters that are alone, or the end.
pub(crate) fn next_seam(text: &str) -> usize
    requires { 0 < length text.now }
    ensures { IsSeam text.now result }
{
    let mut chars = text.chars();
    let mut at = 0;
    let mut parts = false;
    'characters: while let Some(c) = chars.next() {
        let alone = is_alone(c);
        if parts && alone {
            return at;
        }
        parts = alone;
        at += c.len_utf8();
    }
    text.len()
}
