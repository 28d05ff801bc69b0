//! Scripts on words in a plain list.

ghost use Rattle.std.specs.Prelude.{◌≡◌, false, length, IfOk, OnOk, OnErr};
ghost use Rattle.history_model.specs.Fitting.{IsGood};
ghost use Rattle.books_report.specs.Stores.Interpreter.{outcome_of};
ghost use Rattle.txn_stores.specs.Standing.{is_done};

use crate::job::StoreJob;
use crate::store::Store;
use books_report::stores::{OperationList, StoreReply};
use io_ends::OutOfMemory;
use std::alloc::Global;
use txn_words::Verdict;

/// Runs a script on words that stand for a state, and leaves words that stand for the state after it. It works on a
/// copy, and the words are what they were if the script is refused.
pub fn run_on_plain<S: Store>(
    alloc: Global,
    shape: &S,
    script: &OperationList<S::Op>,
    words: &mut Vec<u64>,
) -> Result<StoreReply<S::Value>, OutOfMemory>
    requires good { IsGood (S.word_count shape.now) (S.good shape.now) words.old.items }
    requires range { S.is_script shape.now script.now }
    ensures reply { IfOk result (λ reply. (state : _) → S.stands shape.now words.old.items state
        → reply ≡ (outcome_of (S.step shape.now) script.now state).0) }
    ensures words { OnOk result ((state : _) → S.stands shape.now words.old.items state
        → S.stands shape.now words.new.items (outcome_of (S.step shape.now) script.now state).1) }
    ensures refused { IfOk result (λ reply. is_done reply ≡ false → words.new ≡ words.old) }
    ensures count { length words.new.items ≡ length words.old.items }
    ensures err { OnErr result (words.new ≡ words.old) }
{
    let job = StoreJob::new(alloc, *shape, script, 0);
    let copy = Vec::from_slice(alloc, words)?;
    let (verdict, plain) = txn_words::run_on_plain(alloc, *shape, copy, &job)?;
    match verdict {
        Verdict::Keep(reply) => {
            *words = plain.into_words();
            Ok(reply)
        }
        Verdict::Revert(reply) => Ok(reply),
    }
}
