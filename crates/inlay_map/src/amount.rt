//! How much of a text there is.
ghost use Rattle.std.specs.Prelude.{◌≡◌, ◌<◌, ◌^◌, count_by, length};
ghost use Rattle.cell_units.specs.Text.{is_feed};

use sum_core::{Count, Measure, Summary};

/// How many bytes a text has, and how many line feeds.
#[derive(Clone, Copy, Debug, PartialEq, Eq)]
pub(crate) struct Amount {
    pub bytes: u32,
    pub feeds: u32,
}

impl Summary for Amount {
    ghost use Rattle.inlay_map.specs.Amounts.{nothing, together, AmountFits, amount_laws};

    ghost empty = { nothing };

    ghost joined = { together };

    ghost fits = { AmountFits };

    ghost laws = { amount_laws };

    fn zero() -> Amount {
        Amount { bytes: 0, feeds: 0 }
    }

    fn plus(self, other: Amount) -> Amount {
        Amount {
            bytes: self.bytes + other.bytes,
            feeds: self.feeds + other.feeds,
        }
    }
}

/// The number of bytes.
pub(crate) struct ByBytes;

impl Measure<Amount> for ByBytes {
    ghost use Rattle.inlay_map.specs.Amounts.{bytes_of, bytes_measure};

    ghost number = { bytes_of };

    ghost measure_laws = { bytes_measure };

    fn of(sum: Amount) -> u32 {
        sum.bytes
    }
}

impl Count<Amount> for ByBytes {
    ghost use Rattle.inlay_map.specs.Amounts.{bytes_count};

    ghost count_laws = { bytes_count };
}

/// The number of line feeds.
pub(crate) struct ByFeeds;

impl Measure<Amount> for ByFeeds {
    ghost use Rattle.inlay_map.specs.Amounts.{feeds_of, feeds_measure};

    ghost number = { feeds_of };

    ghost measure_laws = { feeds_measure };

    fn of(sum: Amount) -> u32 {
        sum.feeds
    }
}

impl Count<Amount> for ByFeeds {
    ghost use Rattle.inlay_map.specs.Amounts.{feeds_count};

    ghost count_laws = { feeds_count };
}

/// How many line feeds there are among bytes.
pub(crate) fn feeds_in(bytes: &[u8]) -> u32
    requires { length bytes.now < 2 ^ 32 }
    ensures { result ≡ count_by is_feed bytes.now }
{
    bytes.iter().filter(|byte| **byte == b'\n').count() as u32
}
