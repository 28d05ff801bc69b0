//! The sizes that a table may have.

/// The most passes that one desk has.
pub const MOST_PASSES: u32 = 32;

/// The most words that one desk guards.
pub const MOST_WORDS: u64 = 1_048_576;

/// The number of the last call that a pass may begin.
pub const LAST_CALL: u32 = 4_294_967_295;
