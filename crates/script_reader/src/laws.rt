//! What follows of texts, each law the contract of a function that does nothing.

ghost use Rattle.std.specs.Prelude.{◌≡◌};
ghost use Rattle.script_reader.specs.Statements.{EachInputIsWithinTwo, FrontOrFaulty, OneFault, OneFaultIn, OneFront, OneInput};
ghost use Rattle.script_reader.specs.Statements.{OneTextIn, TextOrFaultyIn, ValidOrFaulty};

use crate::language::Language;
use crate::limits::{
    GREATEST_AMOUNT_OF_ONE, GREATEST_CASH_OF_ONE, LONGEST_NAME, MOST_BLOCKS_OF_ONE, MOST_CALLERS,
    MOST_INPUT_BYTES, MOST_SCRIPTS, MOST_WORKERS,
};
use crate::text::words::{LINE_FEED, MOST_WORDS, SPACE};

/// The limits of a text, and of a line's words, in digits, and the bytes that separate words and lines, which are those of
/// ASCII.
pub fn limits_are_those_of_the_language()
    ensures bytes { MOST_INPUT_BYTES ≡ 8_388_608 }
    ensures callers { MOST_CALLERS ≡ 1_024 }
    ensures scripts { MOST_SCRIPTS ≡ 65_536 }
    ensures name { LONGEST_NAME ≡ 16 }
    ensures workers { MOST_WORKERS ≡ 32 }
    ensures blocks { MOST_BLOCKS_OF_ONE ≡ 16_384 }
    ensures cash { GREATEST_CASH_OF_ONE ≡ 1_000_000_000_000_000 }
    ensures amount { GREATEST_AMOUNT_OF_ONE ≡ 1_000_000_000_000_000 }
    ensures words { MOST_WORDS ≡ 8 }
    ensures space { SPACE ≡ 32 }
    ensures line_feed { LINE_FEED ≡ 10 }
{}

/// Each input is in the ranges of version 2.
pub fn each_input_is_within_two()
    ensures { EachInputIsWithinTwo }
{}

/// A text is of one input at most.
pub fn one_input()
    ensures { OneInput }
{}

/// A text has one first fault at most.
pub fn one_fault()
    ensures { OneFault }
{}

/// A text is of an input, or has a first fault, and never both.
pub fn valid_or_faulty()
    ensures { ValidOrFaulty }
{}

/// A text is of one input and what follows it at most.
pub fn one_front()
    ensures { OneFront }
{}

/// A text begins with that of an input, or has a first fault up to its line `finish`, and never both.
pub fn front_or_faulty()
    ensures { FrontOrFaulty }
{}

/// A text of a language is of one list of sizes and one list of callers at most.
pub fn one_text_in<L: Language>()
    ensures { OneTextIn L.language }
{}

/// A text has one first fault at most as one of a language.
pub fn one_fault_in<L: Language>()
    ensures { OneFaultIn L.language }
{}

/// A text is one of a language, or has a first fault as one, and never both.
pub fn text_or_faulty_in<L: Language>()
    ensures { TextOrFaultyIn L.language }
{}
