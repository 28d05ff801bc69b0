//! The limits of cells.

/// The most words that a cell takes.
pub const MOST_WORDS_OF_A_CELL: u32 = 8;

/// The most words that an array and all before it take.
pub const MOST_WORDS: u64 = 1_048_576;

/// How many cells a run adds to.
pub const CELLS: u32 = 8;

/// The most rounds that a caller makes in a run.
pub const MOST_ROUNDS: u32 = 10_000;
