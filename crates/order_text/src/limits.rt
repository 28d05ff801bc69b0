//! The ranges of sizes and numbers. Those of instruments, prices, quantities and operations are those of books_model.

/// The fewest blocks of a book. A resting order takes two.
pub const LEAST_BLOCKS: u32 = 2;

/// The most blocks of a book.
pub const MOST_BLOCKS: u32 = 16_384;

/// The greatest order number. The least is 1.
pub const GREATEST_ORDER: u32 = 4_294_967_295;
