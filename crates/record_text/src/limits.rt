//! The ranges of sizes and numbers.

/// The fewest blocks of a store. A record takes two.
pub const LEAST_BLOCKS: u32 = 2;

/// The most blocks of a store.
pub const MOST_BLOCKS: u32 = 16_384;

/// The greatest identifier. The least is 1.
pub const GREATEST_ID: u32 = 4_294_967_295;

/// The greatest rank. The least is 1.
pub const GREATEST_RANK: u32 = 4_294_967_295;

/// The greatest data of a record. The least is 0.
pub const GREATEST_DATA: u64 = 1_000_000_000_000_000_000;

/// The most identifiers that an operation lists. The fewest is 1.
pub const MOST_LISTED: u32 = 16;

/// The most operations of a script: as many as of one on books.
pub const MOST_OPERATIONS: usize = books_model::limits::MOST_OPERATIONS;
