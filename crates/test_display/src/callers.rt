//! The callers that the pages of the crates show.
ghost use Rattle.std.specs.Prelude.{◌≡◌, ◌≤◌, [], ◌∷◌, IsTrue, codes, length, string_bytes, IfOk};
ghost use Rattle.std.specs.Result.{MatchResult};
ghost use Rattle.cell_units.specs.declared.place.Bias.TheVariants.{Right};
ghost use Rattle.cell_units.specs.declared.limits.TheConstants.{LAID_LIMIT, TEXT_LIMIT};
ghost use Rattle.cell_units.specs.Lawful.{IsLawful};
ghost use Rattle.cell_units.specs.Refusal.{IsTextRefused};
ghost use Rattle.cell_units.specs.Text.{IsBoundary, clean};
ghost use Rattle.plain_rows.specs.Plain.{record_of};
ghost use Rattle.plain_rows.specs.Rows.{rows_of};
ghost use Rattle.plain_rows.specs.Spots.{spot_le};

use crate::plain::typed;
use cell_units::{Bias, Fault, NoMemory, Spot, TextFault, cleaned, read_text};
use display_map::{Op, Shown};
use display_sheet::operate::operate;
use display_sheet::{Buffer, Sheet};
use plain_rows::{Plain, build, show};
use spot_laws::laws::show_laws;
use std::alloc::Global;
use std::sync::Arc;
use std::test::Fail;

/// A text as it is opened: its bytes are judged, and its line breaks made line feeds.
fn opened(alloc: Global, bytes: &[u8]) -> Result<String, TextFault>
    ensures { MatchResult result (λ text. string_bytes text ≡ clean bytes.now) (IsTextRefused bytes.now) }
{
    Ok(cleaned(alloc, read_text(bytes)?)?)
}

#[test]
fn a_text_is_opened_or_refused(rt: HostRuntime) -> Result<(), Fail> {
    let text = opened(rt.alloc(), b"abc\r\nd")?;
    assert_eq!(rt; text.as_str(), "abc\nd");
    let fault = opened(rt.alloc(), b"abc\xff").err();
    assert_eq!(rt; fault, Some(TextFault::NotUtf8 { at: 3 }));
    Ok(())
}

/// How many rows a record has.
pub(crate) fn row_count(alloc: Global, plain: &Plain) -> Result<usize, NoMemory>
    requires lawful { IsLawful (record_of plain.now) }
    requires size { length plain.now.text ≤ LAID_LIMIT }
    ensures { IfOk result (λ count. count ≡ length (rows_of (record_of plain.now))) }
{
    Ok(build(alloc, plain)?.len())
}

#[test]
fn a_short_line_is_one_row(rt: HostRuntime) -> Result<(), Fail> {
    let plain = typed(rt.alloc())?;
    assert_eq!(rt; row_count(rt.alloc(), &plain)?, 1);
    Ok(())
}

/// Where two boundaries of a record are shown: the first is shown no later than the second.
fn shown_in_order(
    alloc: Global,
    plain: &Plain,
    first: u32,
    second: u32,
) -> Result<(Spot, Spot), NoMemory>
    // The record is lawful and short enough to be laid, and the offsets are boundaries of its text, in order.
    requires lawful { IsLawful (record_of plain.now) }
    requires size { length plain.now.text ≤ LAID_LIMIT }
    requires order { first ≤ second }
    requires boundaries { IsBoundary plain.now.text first × IsBoundary plain.now.text second }

    // The order of spots is by row, and in one row by column.
    ensures { IfOk result (λ spots. IsTrue (spot_le spots.0 spots.1)) }
{
    show_laws();
    let shown = show(alloc, plain, first, Bias::Left)?;
    Ok((shown, show(alloc, plain, second, Bias::Left)?))
}

/// After the name is an inlay of five cells, so byte 9 is shown in column 14.
#[test]
fn offsets_are_shown_in_order(rt: HostRuntime) -> Result<(), Fail> {
    let alloc = rt.alloc();
    let plain = typed(alloc)?;
    let (name, end) = shown_in_order(alloc, &plain, 5, 9)?;
    assert_eq!(rt; name, Spot { row: 0, col: 5 });
    assert_eq!(rt; end, Spot { row: 0, col: 14 });
    Ok(())
}

/// The first rows of a sheet of which the bytes 8 to 13 are folded, or why they aren't.
fn folded(alloc: Global, sheet: &Sheet) -> Result<Vec<Shown>, Fault> {
    let fold = Op::Fold {
        id: 1,
        start: 8,
        end: 13,
    };
    let spliced = operate(alloc, sheet, &fold)?;
    Ok(spliced.sheet.rows(alloc, 0, 10)?)
}

/// A sheet of a text that was just opened.
fn opened_sheet(alloc: Global, text: &str) -> Result<Sheet, NoMemory>
    requires { length text.now ≤ TEXT_LIMIT }
{
    let buffer = Arc::new(alloc, Buffer::new(alloc, cleaned(alloc, text)?)?)?;
    Sheet::opened(alloc, buffer)
}

/// A function of three lines, of which the second is folded into the first with the brace after it.
#[test]
fn a_fold_joins_lines(rt: HostRuntime) -> Result<(), Fail> {
    let alloc = rt.alloc();
    let sheet = opened_sheet(alloc, "fn f() {\n  a\n}\n")?;
    let rows = folded(alloc, &sheet)?;
    assert_eq!(rt; rows.len(), 2);
    assert_eq!(rt; rows[0].text.as_str(), "fn f() {⋯}");
    Ok(())
}
