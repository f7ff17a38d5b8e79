//! Lines of a script for several views.
ghost use Rattle.std.specs.Prelude.{◌≡◌, ◌≤◌, IfSome};
ghost use Rattle.split_script.specs.Lines.{line_of, own_line, split_line, view_line};

use edit_script::skipped;

/// What a line of a script for several views is.
#[derive(Clone, Copy, Debug, PartialEq, Eq)]
pub enum SplitLine<'a> {
    /// It is skipped.
    Skipped,
    /// A view reads these bytes as a line of its own script.
    Own { view: u32, line: &'a [u8] },
    Undo,
    Redo,
    /// It is of no view, and neither an undo nor a redo.
    Astray,
}

/// The bytes for a view, which make a line unless they are blank.
fn own_line(view: u32, line: &[u8]) -> SplitLine<'_>
    ensures { line_of result ≡ own_line view line.now }
{
    if skipped(line) {
        return SplitLine::Skipped;
    }
    SplitLine::Own { view, line }
}

/// The line of the view whose digit it begins with.
fn view_line(views: u32, line: &[u8]) -> SplitLine<'_>
    requires { views ≤ 10 }
    ensures { line_of result ≡ view_line views line.now }
{
    if let [digit, b' ', bytes @ ..] = line {
        let view = u32::from(digit.wrapping_sub(b'0'));
        if b'0' <= *digit && view < views {
            return own_line(view, bytes);
        }
    }
    SplitLine::Astray
}

/// What a line of a script for so many views is. A line of view `k` is the digit `k`, one space, and bytes that the view
/// reads as a line of its own. `undo` and `redo` are lines of no view. Blank lines are skipped, and so are those of a
/// view whose bytes are blank.
pub fn split_line(views: u32, line: &[u8]) -> SplitLine<'_>
    requires { views ≤ 10 }
    ensures { line_of result ≡ split_line views line.now }
{
    if skipped(line) {
        return SplitLine::Skipped;
    }
    match line {
        b"undo" => SplitLine::Undo,
        b"redo" => SplitLine::Redo,
        _ => view_line(views, line),
    }
}
