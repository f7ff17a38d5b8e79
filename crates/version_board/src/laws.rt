//! Laws of rows and of boards. These functions do nothing.
ghost use Rattle.std.specs.Prelude.{◌≡◌, ◌<◌, Bool, false, List, [], ◌∷◌, length};
ghost use Rattle.display_map.specs.Events.{Event, Published};
ghost use Rattle.display_map.specs.Versions.{Version};
ghost use Rattle.display_map.specs.Replay.{History, appended, versions_of, ends};
ghost use Rattle.version_board.specs.Known.{AgreeOnRow};
ghost use Rattle.version_board.specs.Rows.{Follows, IsFirst, IsRowTo};

use crate::reader::Reader;
use crate::writer::Writer;

/// What a display publishes first may open a row, what it publishes next may follow, and it is the last version as the
/// display says. A journal is longer than that of the version before, and a row has as many versions as the journal of
/// its newest.
pub fn row_laws()
    ensures opens { (h : History) (last : Bool) →
        versions_of h.events ≡ 0 → IsFirst (appended h (Published last ∷ [])) }
    ensures follows { (v : Version) (more : List Event) (last : Bool) →
        ends v.events ≡ false → versions_of more ≡ 0 →
        Follows v (appended (appended v more) (Published last ∷ [])) }
    ensures last { (h : History) (last : Bool) →
        ends (appended h (Published last ∷ [])).events ≡ last }
    ensures longer { (v w : Version) → Follows v w → length v.events < length w.events }
    ensures number { (row : List Version) (v : Version) →
        IsRowTo row v → length row ≡ versions_of v.events }
{}

/// A board has one row: of what a reader knows of it and what the writer published one begins the other.
pub fn one_row(writer: &Writer, reader: &Reader)
    requires { reader.now.board ≡ writer.now.board }
    ensures { AgreeOnRow reader.now writer.now }
{
    reader.kept.compare(&writer.newest);
}

/// The same of what two readers know.
pub fn one_row_of_readers(one: &Reader, other: &Reader)
    requires { other.now.board ≡ one.now.board }
    ensures { AgreeOnRow one.now other.now }
{
    one.kept.compare(&other.kept);
}
