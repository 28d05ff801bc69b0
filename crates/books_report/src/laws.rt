//! What follows of outputs, each law the contract of a function that does nothing.

ghost use Rattle.std.specs.Prelude.{◌≡◌};
ghost use Rattle.books_report.specs.Statements.{ClosingBooksOpen, OneWrongLine, OutputOrWrong};

use crate::limits::RESTARTS_BELOW;
use books_model::laws::{books_stay_in_range, scripts_go_by_instruments, scripts_keep_sizes};
use script_reader::laws::each_input_is_within_two;
use script_reader::limits::MOST_WORKERS;

/// The closing books of an output open a new input: their lines, `scripts`, any scripts that the opening books could be
/// given, and `finish` are the text of an input that opens with them. It is a text of version 2.
pub fn closing_books_open()
    ensures { ClosingBooksOpen }
{
    // By the laws of the language.
    books_stay_in_range();
    scripts_keep_sizes();
    scripts_go_by_instruments();
    // And by that of texts.
    each_input_is_within_two();
}

/// A text is an output of an input or has a first wrong line, and never both.
pub fn output_or_wrong()
    ensures { OutputOrWrong }
{}

/// A text has one first wrong line at most.
pub fn one_wrong_line()
    ensures { OneWrongLine }
{}

/// The limit of restarts in a journal is the number of the most workers.
pub fn restarts_are_below_the_workers()
    ensures { RESTARTS_BELOW ≡ MOST_WORKERS }
{}
