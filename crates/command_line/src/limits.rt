//! How many threads and views the words may ask for.

/// The fewest workers.
pub const WORKERS_LEAST: u32 = 1;

/// The most workers.
pub const WORKERS_MOST: u32 = 16;

/// The workers where the words don't say.
pub const WORKERS_DEFAULT: u32 = 1;

/// The most watchers. The fewest are none.
pub const WATCHERS_MOST: u32 = 8;

/// The watchers where the words don't say.
pub const WATCHERS_DEFAULT: u32 = 0;

/// The greatest number from which a text and a script are made.
pub const SEED_MOST: u32 = 4_294_967_295;

/// The fewest views, where the words ask for views.
pub const VIEWS_LEAST: u32 = 1;

/// The most views.
pub const VIEWS_MOST: u32 = 8;
