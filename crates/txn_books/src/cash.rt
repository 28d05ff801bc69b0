//! The accounts of books on words, and their cash.

ghost use Rattle.std.specs.Prelude.{◌≡◌, ◌≤◌, false, None, IfOk, IfSome, OnOk};
ghost use Rattle.std.specs.FinMap as map;
ghost use Rattle.books_model.specs.declared.limits.TheConstants.{GREATEST_CASH};
ghost use Rattle.books_model.specs.Books.{put_cash};
ghost use Rattle.books_model.specs.Interpreter.{is_full, holds_any, cash_between};
ghost use Rattle.books_model.specs.Ranges.{IsAccountNumber};
ghost use Rattle.txn_words.specs.Calls.{IsReady, GoesOn, InEachState, LeadsTo, ReadsOnly, WritesOnly};
ghost use Rattle.txn_tree_map.specs.Stored.{HasKeyIn, IsValueOf, KeepsBlocks, value_in};
ghost use Rattle.txn_books.specs.Layout.{tree_of};
ghost use Rattle.txn_books.specs.Standing.{IsGoodFor, Stands};
ghost use Rattle.txn_words.specs.Access.{OfModel, Tells, Changes, ChangesWithRoom};

use crate::room::has_room;
use crate::shape::BooksShape;
use txn_tree_map::Stored;
use txn_words::{Stop, Words};

/// The cash of an account, if it is there.
pub fn cash<W: Words>(w: &mut W, shape: &BooksShape, account: u32) -> Result<Option<u64>, Stop>
    requires ready { IsReady W.Words w.old }
    requires stands { InEachState W.Words W.Shape.Shape w.old (IsGoodFor shape.now) }
    ensures told { IfOk result (λ answer. LeadsTo W.Words W.Shape.Shape w.old w.new
        (Tells (Stands shape.now) (λ books. map.get books.accounts account) answer)) }
    ensures range { IfOk result (λ answer. IfSome answer (λ cash. cash ≤ GREATEST_CASH)) }
    ensures stands { OnOk result (InEachState W.Words W.Shape.Shape w.new (IsGoodFor shape.now)) }
    ensures goes_on { GoesOn W.Words w.old w.new result }
{
    shape.tree().get(w, u64::from(account))
}

/// The cash of an account, if it is there, with the block of the tree where it stands.
pub fn balance<W: Words>(
    w: &mut W,
    shape: &BooksShape,
    account: u32,
) -> Result<Option<Stored>, Stop>
    requires ready { IsReady W.Words w.old }
    requires stands { InEachState W.Words W.Shape.Shape w.old (IsGoodFor shape.now) }
    ensures told { IfOk result (λ answer. LeadsTo W.Words W.Shape.Shape w.old w.new
        (Tells (Stands shape.now) (λ books. map.get books.accounts account) (value_in answer))) }
    ensures held { IfOk result (λ answer. IfSome answer (λ stored.
        InEachState W.Words W.Shape.Shape w.new
        (HasKeyIn (tree_of shape.now) account stored.block))) }
    ensures range { IfOk result (λ answer. IfSome answer
        (λ stored. stored.value ≤ GREATEST_CASH)) }
    ensures stands { OnOk result (InEachState W.Words W.Shape.Shape w.new (IsGoodFor shape.now)) }
    ensures goes_on { GoesOn W.Words w.old w.new result }
{
    shape.tree().stored(w, u64::from(account))
}

/// Gives an account other cash than it has, in the block where it stands: nothing is searched for.
pub fn set_balance<W: Words>(
    w: &mut W,
    shape: &BooksShape,
    account: u32,
    block: u32,
    amount: u64,
) -> Result<(), Stop>
    requires ready { IsReady W.Words w.old }
    requires stands { InEachState W.Words W.Shape.Shape w.old (IsGoodFor shape.now) }
    requires held { InEachState W.Words W.Shape.Shape w.old
        (HasKeyIn (tree_of shape.now) account block) }
    requires range { amount ≤ GREATEST_CASH }
    ensures changed { OnOk result (LeadsTo W.Words W.Shape.Shape w.old w.new
        (Changes (Stands shape.now) (λ books. put_cash books account amount))) }
    // The word of the cash alone is written, and at most that is read; each account stands where it stood.
    ensures frame { OnOk result
        (WritesOnly W.Words w.old w.new (IsValueOf (tree_of shape.now) block)) }
    ensures reads { OnOk result
        (ReadsOnly W.Words w.old w.new (IsValueOf (tree_of shape.now) block)) }
    ensures blocks { OnOk result (LeadsTo W.Words W.Shape.Shape w.old w.new
        (KeepsBlocks (tree_of shape.now))) }
    ensures stands { OnOk result (InEachState W.Words W.Shape.Shape w.new (IsGoodFor shape.now)) }
    ensures goes_on { GoesOn W.Words w.old w.new result }
{
    shape
        .tree()
        .set_stored(w, u64::from(account), block, amount)?;
    Ok(())
}

/// Opens an account without cash. False: no block was left for it, and nothing changed.
pub fn open_account<W: Words>(w: &mut W, shape: &BooksShape, account: u32) -> Result<bool, Stop>
    requires ready { IsReady W.Words w.old }
    requires stands { InEachState W.Words W.Shape.Shape w.old (IsGoodFor shape.now) }
    requires account { IsAccountNumber account }
    requires absent { InEachState W.Words W.Shape.Shape w.old
        (OfModel (Stands shape.now) (λ books. map.get books.accounts account ≡ None)) }
    ensures opened { IfOk result (λ had_room. LeadsTo W.Words W.Shape.Shape w.old w.new
        (ChangesWithRoom (Stands shape.now) is_full (λ books. put_cash books account 0) had_room)) }
    ensures stands { OnOk result (InEachState W.Words W.Shape.Shape w.new (IsGoodFor shape.now)) }
    ensures goes_on { GoesOn W.Words w.old w.new result }
{
    let put = shape.tree().insert(w, u64::from(account), 0)?;
    Ok(has_room(put))
}

/// Takes an account out that holds no position.
pub fn remove_account<W: Words>(w: &mut W, shape: &BooksShape, account: u32) -> Result<(), Stop>
    requires ready { IsReady W.Words w.old }
    requires stands { InEachState W.Words W.Shape.Shape w.old (IsGoodFor shape.now) }
    requires nothing { InEachState W.Words W.Shape.Shape w.old
        (OfModel (Stands shape.now) (λ books. holds_any books account ≡ false)) }
    ensures changed { OnOk result
        (LeadsTo W.Words W.Shape.Shape w.old w.new (Changes (Stands shape.now)
        (λ books. record books { accounts = map.remove books.accounts account }))) }
    ensures stands { OnOk result (InEachState W.Words W.Shape.Shape w.new (IsGoodFor shape.now)) }
    ensures goes_on { GoesOn W.Words w.old w.new result }
{
    shape.tree().remove(w, u64::from(account))?;
    Ok(())
}

/// The cash of all accounts from one number to another, both included: 0 if `low` is above `high`.
pub fn cash_between<W: Words>(
    w: &mut W,
    shape: &BooksShape,
    low: u32,
    high: u32,
) -> Result<u128, Stop>
    requires ready { IsReady W.Words w.old }
    requires stands { InEachState W.Words W.Shape.Shape w.old (IsGoodFor shape.now) }
    ensures told { IfOk result (λ answer. LeadsTo W.Words W.Shape.Shape w.old w.new
        (Tells (Stands shape.now) (λ books. cash_between books low high) answer)) }
    ensures stands { OnOk result (InEachState W.Words W.Shape.Shape w.new (IsGoodFor shape.now)) }
    ensures goes_on { GoesOn W.Words w.old w.new result }
{
    shape.tree().sum_range(w, u64::from(low), u64::from(high))
}
