//! The ranges of sizes and numbers. Each range begins with 1, but that of cash, which begins with 0.

/// The most blocks that books have. An account, a position and a price take one each.
pub const MOST_BLOCKS: u32 = 65_536;

/// The most instruments that books have.
pub const MOST_INSTRUMENTS: u32 = 64;

/// The most margin calls that a queue holds.
pub const MOST_RING: u32 = 1_024;

/// The greatest account number.
pub const GREATEST_ACCOUNT: u32 = 4_294_967_295;

/// The most cash of an account.
pub const GREATEST_CASH: u64 = 1_000_000_000_000_000_000;

/// The greatest amount of an operation.
pub const GREATEST_AMOUNT: u64 = 1_000_000_000_000_000_000;

/// The greatest price.
pub const GREATEST_PRICE: u64 = 1_000_000_000;

/// The greatest quantity of an operation, and of a position.
pub const GREATEST_QUANTITY: u64 = 1_000_000;

/// The greatest margin rate, in percent.
pub const GREATEST_RATE: u64 = 100;

/// The greatest shortfall of a margin call.
pub const GREATEST_SHORTFALL: u64 = 64_000_000_000_000_000;

/// The most operations of a script.
pub const MOST_OPERATIONS: usize = 64;

/// The most alternatives of a script.
pub const MOST_ALTERNATIVES: usize = 64;
