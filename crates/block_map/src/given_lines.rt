//! Lines as they are given for a block.
ghost use Rattle.std.specs.Prelude.{◌≡◌};
ghost use Rattle.std.specs.List.{list_any};
ghost use Rattle.block_map.specs.Maps.{are_block_lines, is_line_end, is_long_line};

use cell_units::Text;
use cell_units::limits::{BLOCK_LINE_LIMIT, BLOCK_LINES_LIMIT};

/// Whether a text has a line end.
fn has_line_end(line: &str) -> bool
    ensures { result ≡ list_any is_line_end line.now }
{
    line.as_bytes()
        .iter()
        .any(|byte| *byte == b'\n' || *byte == b'\r')
}

/// Whether one of the lines has a line end.
fn has_broken_line(lines: &[Text]) -> bool
    ensures { result ≡ list_any (list_any is_line_end) lines.now }
{
    lines.iter().any(|line| has_line_end(line.as_str()))
}

/// Whether lines may be those of a block: they are some, not too many, and none has a line end.
pub(crate) fn are_block_lines(lines: &[Text]) -> bool
    ensures { result ≡ are_block_lines lines.now }
{
    lines.len() > 0 && lines.len() <= BLOCK_LINES_LIMIT && !has_broken_line(lines)
}

/// Whether a line is longer than one of a block may be.
pub(crate) fn has_long_line(lines: &[Text]) -> bool
    ensures { result ≡ list_any is_long_line lines.now }
{
    lines
        .iter()
        .any(|line| line.as_str().len() > BLOCK_LINE_LIMIT)
}
