//! The counts that sources and sinks keep.

/// The last value of a count, where it stands still.
pub const LAST_COUNT: u64 = 18_446_744_073_709_551_615;
