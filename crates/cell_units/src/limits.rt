//! The limits of a record and of what is asked of it.
ghost use Rattle.std.specs.Prelude.{◌≡◌};

/// The most bytes in a text.
pub const TEXT_LIMIT: usize = 33_554_432;

/// The most bytes in a text that is kept or laid out, which is twice the limit of a text. Within a batch of
/// replacements one text may be longer, since the text after all of it is judged.
pub const LAID_LIMIT: usize = 67_108_864;

/// The most inlays, the most folds and the most blocks in a record.
pub const ENTRY_LIMIT: usize = 65_536;

/// The most bytes in an inlay's text.
pub const INLAY_LIMIT: usize = 1_024;

/// The most lines in a block.
pub const BLOCK_LINES_LIMIT: usize = 256;

/// The most bytes in a line of a block.
pub const BLOCK_LINE_LIMIT: usize = 1_024;

/// The greatest tab size, in cells. The least is 1.
pub const TAB_LIMIT: u32 = 16;

/// The least width at which a line is cut, in cells. At width 0 none is.
pub const LEAST_WIDTH: u32 = 2;

/// The greatest width, in cells.
pub const WIDTH_LIMIT: u32 = 10_000;

/// The most lines in a run that is sent to be wrapped.
pub const RUN_LIMIT: usize = 128;

/// The limits as numbers. It does nothing.
pub fn limit_laws()
    ensures texts { (TEXT_LIMIT ≡ 33554432) × (LAID_LIMIT ≡ 67108864) }
    ensures entries { (ENTRY_LIMIT ≡ 65536) × (INLAY_LIMIT ≡ 1024) }
    ensures blocks { (BLOCK_LINES_LIMIT ≡ 256) × (BLOCK_LINE_LIMIT ≡ 1024) }
    ensures numbers { (TAB_LIMIT ≡ 16) × (LEAST_WIDTH ≡ 2) × (WIDTH_LIMIT ≡ 10000) × (RUN_LIMIT ≡ 128) }
{}
