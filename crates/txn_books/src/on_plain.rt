//! Scripts on words in a plain list.

ghost use Rattle.std.specs.Prelude.{◌≡◌, false, IfOk, OnOk, OnErr, length};
ghost use Rattle.history_model.specs.Fitting.{IsGood};
ghost use Rattle.books_model.specs.Books.{ClearingBooks};
ghost use Rattle.books_model.specs.Interpreter.{outcome_of};
ghost use Rattle.txn_books.specs.Layout.{words_of};
ghost use Rattle.txn_books.specs.Standing.{Stands, IsGoodFor};
ghost use Rattle.txn_books.specs.Meaning.{IsScriptIn, is_done};

use crate::job::ScriptJob;
use crate::shape::BooksShape;
use books_model::{Reply, Script};
use io_ends::OutOfMemory;
use std::alloc::Global;
use txn_words::Verdict;

/// Runs a script on words that stand for books, and leaves words that stand for the books after it. It works on a copy,
/// and the words are what they were if the script is refused.
pub fn run_on_plain(
    alloc: Global,
    shape: &BooksShape,
    script: &Script,
    words: &mut Vec<u64>,
) -> Result<Reply, OutOfMemory>
    requires good { IsGood (words_of shape.now) (IsGoodFor shape.now) words.old.items }
    requires range { IsScriptIn shape.now script.now }
    ensures reply { IfOk result (λ reply. (books : ClearingBooks)
        → Stands shape.now words.old.items books → reply ≡ (outcome_of script.now books).0) }
    ensures words { OnOk result ((books : ClearingBooks) → Stands shape.now words.old.items books
        → Stands shape.now words.new.items (outcome_of script.now books).1) }
    ensures refused { IfOk result (λ reply. is_done reply ≡ false → words.new ≡ words.old) }
    ensures count { length words.new.items ≡ length words.old.items }
    ensures err { OnErr result (words.new ≡ words.old) }
{
    let job = ScriptJob::new(alloc, *shape, script, 0);
    let copy = Vec::from_slice(alloc, words)?;
    let (verdict, plain) = txn_words::run_on_plain(alloc, *shape, copy, &job)?;
    match verdict {
        Verdict::Keep(reply) => {
            *words = plain.into_words();
            Ok(reply)
        }
        Verdict::Revert(reply) => Ok(reply),
    }
}
