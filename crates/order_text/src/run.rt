//! The plain interpreter: one script at a time, on a book in memory.

ghost use Rattle.std.specs.Prelude.{◌≡◌, ◌≤◌, length, IfOk, OnOk, OnErr};
ghost use Rattle.order_text.specs.Interpreter.{order_outcome_of};

use crate::book::Book;
use crate::reply::OrderReply;
use crate::script::OrderScript;
use books_model::limits::MOST_OPERATIONS;
use books_report::stores;
use io_ends::OutOfMemory;
use std::alloc::Global;

/// Runs a script. It runs on a copy of the book, which takes the book's place if the script is done; so the book is
/// as it was after a refusal, and out of memory.
pub fn run_plain(
    alloc: Global,
    script: &OrderScript,
    book: &mut Book,
) -> Result<OrderReply, OutOfMemory>
    requires few { length script.now ≤ MOST_OPERATIONS }
    ensures reply { IfOk result (λ reply. reply ≡ (order_outcome_of script.now book.old).0) }
    ensures book { OnOk result (book.new ≡ (order_outcome_of script.now book.old).1) }
    ensures err { OnErr result (book.new ≡ book.old) }
{
    stores::run_plain(alloc, script, book)
}
