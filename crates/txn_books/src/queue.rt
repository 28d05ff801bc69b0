//! The queue of margin calls of books on words.

ghost use Rattle.std.specs.Prelude.{◌==◌, IfOk, OnOk, drop, length, slice_get};
ghost use Rattle.books_model.specs.Books.{put_call};
ghost use Rattle.books_model.specs.Ranges.{IsCall};
ghost use Rattle.txn_words.specs.Calls.{IsReady, GoesOn, InEachState, LeadsTo};
ghost use Rattle.txn_books.specs.Standing.{IsGoodFor, Stands};
ghost use Rattle.txn_words.specs.Access.{ChangesWithRoom, TellsAndChanges};

use crate::shape::BooksShape;
use txn_words::{Stop, Words};

/// Puts a margin call behind the others. False: the queue holds its capacity, and nothing changed.
pub fn queue_call<W: Words>(
    w: &mut W,
    shape: &BooksShape,
    account: u32,
    shortfall: u64,
) -> Result<bool, Stop>
    requires ready { IsReady W.Words w.old }
    requires stands { InEachState W.Words W.Shape.Shape w.old (IsGoodFor shape.now) }
    requires call { IsCall (account, shortfall) }
    ensures queued { IfOk result (λ had_room. LeadsTo W.Words W.Shape.Shape w.old w.new
        (ChangesWithRoom (Stands shape.now) (λ books. length books.calls == books.ring)
        (λ books. put_call books account shortfall) had_room)) }
    ensures stands { OnOk result (InEachState W.Words W.Shape.Shape w.new (IsGoodFor shape.now)) }
    ensures goes_on { GoesOn W.Words w.old w.new result }
{
    shape.queue().push(w, (u64::from(account), shortfall))
}

/// Takes the front of the queue, an account and its shortfall, if there is one.
pub fn take_front<W: Words>(w: &mut W, shape: &BooksShape) -> Result<Option<(u32, u64)>, Stop>
    requires ready { IsReady W.Words w.old }
    requires stands { InEachState W.Words W.Shape.Shape w.old (IsGoodFor shape.now) }
    ensures taken { IfOk result (λ answer. LeadsTo W.Words W.Shape.Shape w.old w.new
        (TellsAndChanges (Stands shape.now) (λ books. slice_get books.calls 0)
        (λ books. record books { calls = drop 1 books.calls }) answer)) }
    ensures stands { OnOk result (InEachState W.Words W.Shape.Shape w.new (IsGoodFor shape.now)) }
    ensures goes_on { GoesOn W.Words w.old w.new result }
{
    match shape.queue().pop(w)? {
        None => Ok(None),
        Some((account, shortfall)) => Ok(Some((account as u32, shortfall))),
    }
}
