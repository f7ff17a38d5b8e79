//! Lines that are skipped.
ghost use Rattle.std.specs.Prelude.{◌≡◌};
ghost use Rattle.edit_script.specs.Verdict.{is_blank, is_blank_byte};

/// The greatest length of a line, in bytes.
pub const LINE_LIMIT: usize = 1_048_576;

/// Whether a line is blank, so that it is skipped. A blank line is within the limit of 1,048,576 bytes, and has only
/// spaces, tabs and carriage returns.
pub fn skipped(line: &[u8]) -> bool
    ensures { result ≡ is_blank line.now }
{
    line.len() <= LINE_LIMIT && line.iter().all(|&b| is_blank_byte(b))
}

fn is_blank_byte(b: u8) -> bool
    ensures { result ≡ is_blank_byte b }
{
    matches!(b, b' ' | b'\t' | b'\r')
}
