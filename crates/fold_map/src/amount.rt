//! How much of a layer there is.
use sum_core::{Count, Measure, Summary};

/// How many bytes of the buffer a stretch of a layer has. And how many bytes and line feeds of the layer's text.
#[derive(Clone, Copy, Debug, PartialEq, Eq)]
pub(crate) struct Amount {
    pub buffer: u32,
    pub bytes: u32,
    pub feeds: u32,
}

impl Summary for Amount {
    ghost use Rattle.fold_map.specs.Amounts.{nothing, together, AmountFits, amount_laws};

    ghost empty = { nothing };

    ghost joined = { together };

    ghost fits = { AmountFits };

    ghost laws = { amount_laws };

    fn zero() -> Amount {
        Amount {
            buffer: 0,
            bytes: 0,
            feeds: 0,
        }
    }

    fn plus(self, other: Amount) -> Amount {
        Amount {
            buffer: self.buffer + other.buffer,
            bytes: self.bytes + other.bytes,
            feeds: self.feeds + other.feeds,
        }
    }
}

/// The number of bytes of the buffer.
pub(crate) struct ByBuffer;

impl Measure<Amount> for ByBuffer {
    ghost use Rattle.fold_map.specs.Amounts.{buffer_of, buffer_measure};

    ghost number = { buffer_of };

    ghost measure_laws = { buffer_measure };

    fn of(sum: Amount) -> u32 {
        sum.buffer
    }
}

impl Count<Amount> for ByBuffer {
    ghost use Rattle.fold_map.specs.Amounts.{buffer_count};

    ghost count_laws = { buffer_count };
}

/// The number of bytes of the layer's text.
pub(crate) struct ByBytes;

impl Measure<Amount> for ByBytes {
    ghost use Rattle.fold_map.specs.Amounts.{bytes_of, bytes_measure};

    ghost number = { bytes_of };

    ghost measure_laws = { bytes_measure };

    fn of(sum: Amount) -> u32 {
        sum.bytes
    }
}

impl Count<Amount> for ByBytes {
    ghost use Rattle.fold_map.specs.Amounts.{bytes_count};

    ghost count_laws = { bytes_count };
}

/// The number of line feeds of the layer's text.
pub(crate) struct ByFeeds;

impl Measure<Amount> for ByFeeds {
    ghost use Rattle.fold_map.specs.Amounts.{feeds_of, feeds_measure};

    ghost number = { feeds_of };

    ghost measure_laws = { feeds_measure };

    fn of(sum: Amount) -> u32 {
        sum.feeds
    }
}

impl Count<Amount> for ByFeeds {
    ghost use Rattle.fold_map.specs.Amounts.{feeds_count};

    ghost count_laws = { feeds_count };
}
