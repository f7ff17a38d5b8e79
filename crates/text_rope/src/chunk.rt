//! The chunks that a rope keeps, and what is summed over them.
ghost use Rattle.std.specs.Prelude.{◌≡◌, ◌+◌, ◌^◌, ◌<◌, ◌≤◌, ◌++◌, length, count_by, min, IfOk};
ghost use Rattle.std.specs.List.{All, concat};
ghost use Rattle.cell_units.specs.Text.{is_feed};
ghost use Rattle.text_rope.specs.Chunks.{AreChunks, IsChunk, least};

use cell_units::{NoMemory, Text};
use std::alloc::Global;
use std::marker::Model;
use sum_core::{Dimension, Item, Summary};

/// The most bytes in a chunk.
pub(crate) const CHUNK_BYTES: usize = 128;

/// The fewest bytes in a chunk that isn't alone.
pub(crate) const LEAST_BYTES: usize = 60;

/// How many bytes a part of a text has, how many line feeds are among them, and of how many chunks the part is made.
/// Of two parts that begin at one place the longer is the greater.
#[derive(Clone, Copy, Debug, PartialEq, Eq, PartialOrd, Ord)]
pub struct TextSize {
    pub bytes: u32,
    pub feeds: u32,
    pub chunks: u32,
}

impl Summary for TextSize {
    ghost use Rattle.std.specs.Prelude.{ℕ, ◌+◌, ◌<◌, ◌^◌};
    ghost use Rattle.text_rope.specs.Sizes.{size_laws};

    ghost empty = { record { bytes = 0; feeds = 0; chunks = 0 } };

    ghost joined = { λ a b. record { bytes = a.bytes + b.bytes; feeds = a.feeds + b.feeds; chunks = a.chunks + b.chunks } };

    ghost fits = { λ s. (s.bytes < 2 ^ 32) × (s.feeds < 2 ^ 32) × (s.chunks < 2 ^ 32) };

    ghost laws = { size_laws };

    fn zero() -> TextSize {
        TextSize {
            bytes: 0,
            feeds: 0,
            chunks: 0,
        }
    }

    fn plus(self, other: TextSize) -> TextSize {
        TextSize {
            bytes: self.bytes + other.bytes,
            feeds: self.feeds + other.feeds,
            chunks: self.chunks + other.chunks,
        }
    }
}

/// Places in a text are sought by their bytes, and are found with the line feeds and the chunks before them.
impl Dimension<TextSize> for TextSize {
    ghost use Rattle.text_rope.specs.Sizes.{SizeFits, joined_size};
    ghost use Rattle.text_rope.specs.Orders.{size_dimension};

    ghost measure = { λ s. s };

    ghost joined_with = { joined_size };

    ghost fits_with = { λ a b. SizeFits (joined_size a b) };

    ghost dimension_laws = { size_dimension };

    fn of(sum: TextSize) -> TextSize {
        sum
    }

    fn plus(self, other: TextSize) -> TextSize {
        TextSize {
            bytes: self.bytes + other.bytes,
            feeds: self.feeds + other.feeds,
            chunks: self.chunks + other.chunks,
        }
    }
}

/// Some characters of a text, at least one and at most 128 bytes of them.
#[derive(Drop)]
pub struct Chunk {
    text: Text,
    size: TextSize,
}

impl Model for Chunk {
    ghost use Rattle.std.specs.Prelude.{◌≡◌, ℕ, List, length};
    ghost use Rattle.text_rope.specs.Sizes.{size_of};

    ghost Value = { List ℕ };

    ghost view = { λ c. c.text };

    ghost invariant = { λ c. c.size ≡ size_of c.text };
}

impl Chunk {
    ghost use Rattle.std.specs.Prelude.{◌≡◌, ◌^◌, ◌<◌, length, count_by, IfOk};

    /// A chunk of this text.
    pub(crate) fn new(alloc: Global, text: &str) -> Result<Chunk, NoMemory>
        requires { length text.now < 2 ^ 32 }
        ensures { IfOk result (λ c. c ≡ text.now) }
    {
        let size = TextSize {
            bytes: text.len() as u32,
            feeds: count_feeds(text.as_bytes()),
            chunks: 1,
        };
        Ok(Chunk {
            text: Text::from_str(alloc, text)?,
            size,
        })
    }

    /// The text of the chunk.
    pub(crate) fn as_str(&self) -> &str
        ensures { result.now ≡ self.now }
    {
        self.text.as_str()
    }
}

impl Item for Chunk {
    ghost use Rattle.text_rope.specs.Sizes.{size_of};

    type Sum = TextSize;

    ghost summary = { size_of };

    fn sum(&self) -> TextSize {
        self.size
    }

    fn copy(&self, alloc: Global) -> Result<Chunk, NoMemory> {
        Ok(Chunk {
            text: Text::from_str(alloc, self.text.as_str())?,
            size: self.size,
        })
    }
}

/// How many line feeds are among the bytes.
pub(crate) fn count_feeds(bytes: &[u8]) -> u32
    requires { length bytes.now < 2 ^ 32 }
    ensures { result ≡ count_by is_feed bytes.now }
{
    let mut feeds = 0;
    for byte in bytes {
        if *byte == b'\n' {
            feeds += 1;
        }
    }
    feeds
}

/// How many of this many bytes go into the next chunk: all that it can hold, but no more than half of what it can't.
fn share_of(len: usize) -> usize
    ensures most { result ≤ CHUNK_BYTES }
    ensures all { len ≤ CHUNK_BYTES → result ≡ len }
    ensures least { CHUNK_BYTES < len → 64 ≤ result }
    ensures rest { CHUNK_BYTES < len → result + 64 ≤ len }
{
    if len <= CHUNK_BYTES {
        len
    } else {
        CHUNK_BYTES.min(len / 2)
    }
}

/// The prefix of a text that goes into one chunk, and the rest. Neither is short unless the text is.
fn cut(text: &str) -> (&str, &str)
    // There is text to cut.
    requires { 0 < length text.now }

    // The text in two parts: a chunk, and a shorter rest.
    ensures whole { result.0.now ++ result.1.now ≡ text.now }
    ensures chunk { IsChunk result.0.now }
    ensures shorter { length result.1.now < length text.now }

    // The prefix has at least 60 bytes or the whole text, and the rest at least 60 or none.
    ensures front { min least (length text.now) ≤ length result.0.now }
    ensures rest { 0 < length result.1.now → least ≤ length result.1.now }
{
    text.split_at(text.floor_char_boundary(share_of(text.len())))
}

/// The text cut into chunks, none of which is short unless the text is.
pub(crate) fn chunks_of(alloc: Global, text: &str) -> Result<Vec<Chunk>, NoMemory>
    ensures text { IfOk result (λ v. concat v.items ≡ text.now) }
    ensures chunks { IfOk result (λ v. AreChunks v.items) }
    ensures filled { IfOk result (λ v. All (λ c. min least (length text.now) ≤ length c) v.items) }
{
    let mut chunks = Vec::new(alloc);
    let mut rest = text;
    while !rest.is_empty() {
        let (head, tail) = cut(rest);
        chunks.push(Chunk::new(alloc, head)?)?;
        rest = tail;
    }
    Ok(chunks)
}
