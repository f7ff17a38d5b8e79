//! The simplest measure of what a splice covers: its bytes alone.
use sum_core::{Count, Measure, Summary};

/// A number of bytes.
#[derive(Clone, Copy)]
pub struct Bytes {
    pub bytes: u32,
}

impl Summary for Bytes {
    ghost use Rattle.splice_tree.specs.Bytes.{no_bytes, more_bytes, BytesFit, bytes_laws};

    ghost empty = { no_bytes };

    ghost joined = { more_bytes };

    ghost fits = { BytesFit };

    ghost laws = { bytes_laws };

    fn zero() -> Bytes {
        Bytes { bytes: 0 }
    }

    fn plus(self, other: Bytes) -> Bytes {
        Bytes {
            bytes: self.bytes + other.bytes,
        }
    }
}

/// The measure of bytes.
pub struct ByBytes;

impl Measure<Bytes> for ByBytes {
    ghost use Rattle.splice_tree.specs.Bytes.{bytes_of, bytes_measure};

    ghost number = { bytes_of };

    ghost measure_laws = { bytes_measure };

    fn of(sum: Bytes) -> u32 {
        sum.bytes
    }
}

impl Count<Bytes> for ByBytes {
    ghost use Rattle.splice_tree.specs.Bytes.{bytes_count};

    ghost count_laws = { bytes_count };
}
