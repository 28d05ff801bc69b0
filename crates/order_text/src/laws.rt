//! Laws of the language, each the contract of a function that does nothing.

ghost use Rattle.std.specs.Prelude.{◌≡◌};
ghost use Rattle.order_text.specs.Laws.{EmptyIsApart, FiveReasons, OperationsKeepApart, OperationsKeepBooks, PrintedByNumber, RangesAreThoseOfLines, RefusedChangesNoOrder, ScriptsKeepApart};

use crate::limits::{GREATEST_ORDER, LEAST_BLOCKS, MOST_BLOCKS};
use crate::words::COMMA;
use books_model::limits::{GREATEST_PRICE, GREATEST_QUANTITY, MOST_INSTRUMENTS, MOST_OPERATIONS};

/// The limits of the language, in digits, and the byte in front of a trade, which is that of ASCII: whatever cites them by
/// name means these numbers.
pub fn limits_in_digits()
    ensures least_blocks { LEAST_BLOCKS ≡ 2 }
    ensures blocks { MOST_BLOCKS ≡ 16_384 }
    ensures order { GREATEST_ORDER ≡ 4_294_967_295 }
    ensures instruments { MOST_INSTRUMENTS ≡ 64 }
    ensures price { GREATEST_PRICE ≡ 1_000_000_000 }
    ensures quantity { GREATEST_QUANTITY ≡ 1_000_000 }
    ensures operations { MOST_OPERATIONS ≡ 64 }
    ensures comma { COMMA ≡ 44 }
{}

/// A script that is declined or finds no room changes nothing.
pub fn refused_changes_nothing()
    ensures { RefusedChangesNoOrder }
{}

/// In every book that can be reached the best buy price of an instrument is below its best sell price, if both are
/// there: they are so in the empty book, and stay so after each operation and each script.
pub fn best_prices_apart()
    ensures empty { EmptyIsApart }
    ensures books { OperationsKeepBooks }
    ensures operations { OperationsKeepApart }
    ensures scripts { ScriptsKeepApart }
{}

/// The ranges of an operation's numbers are those of its line, in every text.
pub fn ranges_are_those_of_lines()
    ensures { RangesAreThoseOfLines }
{}

/// A fault of a text has one of five reasons: `end`, `header`, `word`, `number`, `limit`.
pub fn five_reasons()
    ensures { FiveReasons }
{}

/// The orders that rest after scripts of an input are printed by rising number.
pub fn orders_are_printed_by_number()
    ensures { PrintedByNumber }
{}
