//! What is summed over the stretches of a map.
ghost use Rattle.std.specs.Prelude.{◌≡◌};
ghost use Rattle.wrap_map.specs.inside.Extents.{joined_ends, switch_between};

use sum_core::{Count, Measure, Summary};

/// The marks of the first and of the last of some lines.
#[derive(Clone, Copy)]
pub struct Ends {
    pub first: u32,
    pub last: u32,
}

/// So many lines and rows, how often the mark changes between neighbouring stretches, and the marks at both ends. With
/// the changes a mark other than a given one is found by one seek. Where a stretch has the given one, the next change
/// leaves it.
#[derive(Clone, Copy)]
pub struct Extent {
    pub lines: u32,
    pub rows: u32,
    pub switches: u32,
    pub ends: Option<Ends>,
}

/// How often the mark changes between the two, once or not at all.
pub(crate) fn switch_between(before: Option<Ends>, after: Option<Ends>) -> u32
    ensures { result ≡ switch_between before after }
{
    match (before, after) {
        (Some(before), Some(after)) => { if before.last == after.first { 0 } else { 1 } }
        _ => 0,
    }
}

/// The marks at the ends of both together.
fn joined_ends(before: Option<Ends>, after: Option<Ends>) -> Option<Ends>
    ensures { result ≡ joined_ends before after }
{
    match (before, after) {
        (Some(before), Some(after)) => Some(Ends {
            first: before.first,
            last: after.last,
        }),
        (Some(before), None) => Some(before),
        (None, after) => after,
    }
}

impl Extent {
    ghost use Rattle.std.specs.Prelude.{◌≡◌};
    ghost use Rattle.wrap_map.specs.inside.Extents.{are_at};

    /// Whether lines with this sum are all wrapped at the width.
    pub(crate) fn is_at(self, width: u32) -> bool
        ensures { result ≡ are_at width self.switches self.ends }
    {
        match self.ends {
            None => true,
            Some(ends) => self.switches == 0 && ends.first == width,
        }
    }
}

impl Summary for Extent {
    ghost use Rattle.wrap_map.specs.inside.Extents.{no_extent, joined_extents, ExtentFits, extent_laws};

    ghost empty = { no_extent };

    ghost joined = { joined_extents };

    ghost fits = { ExtentFits };

    ghost laws = { extent_laws };

    fn zero() -> Extent {
        Extent {
            lines: 0,
            rows: 0,
            switches: 0,
            ends: None,
        }
    }

    fn plus(self, other: Extent) -> Extent {
        Extent {
            lines: self.lines + other.lines,
            rows: self.rows + other.rows,
            switches: self.switches + other.switches + switch_between(self.ends, other.ends),
            ends: joined_ends(self.ends, other.ends),
        }
    }
}

/// The measure of lines.
pub struct ByLines;

impl Measure<Extent> for ByLines {
    ghost use Rattle.wrap_map.specs.inside.Extents.{lines_measure};

    ghost number = { λ s. s.lines };

    ghost measure_laws = { lines_measure };

    fn of(sum: Extent) -> u32 {
        sum.lines
    }
}

impl Count<Extent> for ByLines {
    ghost use Rattle.wrap_map.specs.inside.Extents.{lines_count};

    ghost count_laws = { lines_count };
}

/// The measure of rows.
pub struct ByRows;

impl Measure<Extent> for ByRows {
    ghost use Rattle.wrap_map.specs.inside.Extents.{rows_measure};

    ghost number = { λ s. s.rows };

    ghost measure_laws = { rows_measure };

    fn of(sum: Extent) -> u32 {
        sum.rows
    }
}

impl Count<Extent> for ByRows {
    ghost use Rattle.wrap_map.specs.inside.Extents.{rows_count};

    ghost count_laws = { rows_count };
}

/// The measure of changes of the mark.
pub struct BySwitches;

impl Measure<Extent> for BySwitches {
    ghost use Rattle.wrap_map.specs.inside.Extents.{switches_measure};

    ghost number = { λ s. s.switches };

    ghost measure_laws = { switches_measure };

    fn of(sum: Extent) -> u32 {
        sum.switches
    }
}
