//! Laws of the language, each the contract of a function that does nothing.

ghost use Rattle.std.specs.Prelude.{◌≡◌};
ghost use Rattle.record_text.specs.Laws.{FiveReasons, IndexHasEach, PrintedByRank, RangesAreThoseOfLines, RefusedChangesNoRecord, RoomIsKept};

use crate::limits::{
    GREATEST_DATA, GREATEST_ID, GREATEST_RANK, LEAST_BLOCKS, MOST_BLOCKS, MOST_LISTED,
    MOST_OPERATIONS,
};
use crate::words::COMMA;

/// The limits of the language, in digits, and the byte that separates identifiers, which is that of ASCII: whatever cites
/// them by name means these numbers.
pub fn limits_in_digits()
    ensures least_blocks { LEAST_BLOCKS ≡ 2 }
    ensures blocks { MOST_BLOCKS ≡ 16_384 }
    ensures id { GREATEST_ID ≡ 4_294_967_295 }
    ensures rank { GREATEST_RANK ≡ 4_294_967_295 }
    ensures data { GREATEST_DATA ≡ 1_000_000_000_000_000_000 }
    ensures listed { MOST_LISTED ≡ 16 }
    ensures operations { MOST_OPERATIONS ≡ 64 }
    ensures comma { COMMA ≡ 44 }
{}

/// The index has a record's place exactly if the record has that rank.
pub fn index_has_each()
    ensures { IndexHasEach }
{}

/// A script that is declined or finds no blocks changes nothing.
pub fn refused_changes_nothing()
    ensures { RefusedChangesNoRecord }
{}

/// Records that have their blocks have them after every script.
pub fn room_is_kept()
    ensures { RoomIsKept }
{}

/// The ranges of an operation's numbers are those of its line, in every text.
pub fn ranges_are_those_of_lines()
    ensures { RangesAreThoseOfLines }
{}

/// A fault of a text has one of five reasons: `end`, `header`, `word`, `number`, `limit`.
pub fn five_reasons()
    ensures { FiveReasons }
{}

/// The records of a store are printed by rank and then by identifier.
pub fn records_are_printed_by_rank()
    ensures { PrintedByRank }
{}
