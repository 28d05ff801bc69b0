//! How much an input may have, and how many workers may run it.

/// The most bytes that are read as an input, or as an input and a text behind it.
pub const MOST_INPUT_BYTES: usize = 8_388_608;

/// The most callers of an input.
pub const MOST_CALLERS: usize = 1_024;

/// The most scripts of an input.
pub const MOST_SCRIPTS: usize = 65_536;

/// The most letters of a caller's name.
pub const LONGEST_NAME: usize = 16;

/// The most blocks of a text of version 1.
pub const MOST_BLOCKS_OF_ONE: u32 = 16_384;

/// The most cash of an account's line in a text of version 1.
pub const GREATEST_CASH_OF_ONE: u64 = 1_000_000_000_000_000;

/// The greatest amount of an operation in a text of version 1.
pub const GREATEST_AMOUNT_OF_ONE: u64 = 1_000_000_000_000_000;

/// The most workers.
pub const MOST_WORKERS: u32 = 32;
