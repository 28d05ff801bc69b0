//! What a journal may say, and how long closing books are.

use books_model::limits::{MOST_BLOCKS, MOST_RING};
use script_reader::limits::MOST_WORKERS;

/// The numbers of restarts in a journal are below this: no script is restarted as often as there are workers, of whom there
/// are at most so many.
pub const RESTARTS_BELOW: u32 = MOST_WORKERS;

/// The most lines of closing books and of the line behind them: a header, a line for each block and each margin call, and
/// `finish`.
pub const MOST_CLOSING_LINES: u32 = MOST_BLOCKS + MOST_RING + 2;
