//! The positions of books on words, and what an account holds.

ghost use Rattle.std.specs.Prelude.{◌≤◌, ◌*◌, IsSome, IfOk, IfSome, OnOk};
ghost use Rattle.std.specs.FinMap as map;
ghost use Rattle.books_model.specs.declared.limits.TheConstants.{GREATEST_PRICE, GREATEST_QUANTITY, GREATEST_SHORTFALL};
ghost use Rattle.books_model.specs.Books.{position_of, price_of};
ghost use Rattle.books_model.specs.Interpreter.{holds_any, put_position, worth_of};
ghost use Rattle.books_model.specs.Ranges.{IsAccountNumber, IsWithin};
ghost use Rattle.txn_words.specs.Calls.{IsReady, GoesOn, InEachState, LeadsTo};
ghost use Rattle.txn_tree_map.specs.Stored.{KeepsBlocks};
ghost use Rattle.txn_books.specs.Layout.{tree_of};
ghost use Rattle.txn_books.specs.Standing.{IsGoodFor, Stands};
ghost use Rattle.txn_words.specs.Access.{OfModel, Tells, ChangesWithRoom};
ghost use Rattle.txn_books.specs.Access.{lacks_position_room};

use crate::layout::position_key;
use crate::price::price;
use crate::room::has_room;
use crate::shape::BooksShape;
use txn_words::{Stop, Words};

/// How much an account holds of an instrument, if it has a position.
pub fn quantity<W: Words>(
    w: &mut W,
    shape: &BooksShape,
    account: u32,
    instrument: u32,
) -> Result<Option<u64>, Stop>
    requires ready { IsReady W.Words w.old }
    requires stands { InEachState W.Words W.Shape.Shape w.old (IsGoodFor shape.now) }
    requires account { IsAccountNumber account }
    requires instrument { IsWithin 1 shape.now.instruments instrument }
    ensures told { IfOk result (λ answer. LeadsTo W.Words W.Shape.Shape w.old w.new
        (Tells (Stands shape.now) (λ books. map.get books.positions (account, instrument))
        answer)) }
    ensures range { IfOk result (λ answer. IfSome answer (IsWithin 1 GREATEST_QUANTITY)) }
    ensures stands { OnOk result (InEachState W.Words W.Shape.Shape w.new (IsGoodFor shape.now)) }
    ensures goes_on { GoesOn W.Words w.old w.new result }
{
    shape.chains().get(w, position_key(account, instrument))
}

/// Gives an account other holdings of an instrument: no position if they are 0. False: it had no position, no block
/// was left for one, and nothing changed.
pub fn set_quantity<W: Words>(
    w: &mut W,
    shape: &BooksShape,
    account: u32,
    instrument: u32,
    quantity: u64,
) -> Result<bool, Stop>
    requires ready { IsReady W.Words w.old }
    requires stands { InEachState W.Words W.Shape.Shape w.old (IsGoodFor shape.now) }
    requires account { InEachState W.Words W.Shape.Shape w.old
        (OfModel (Stands shape.now) (λ books. IsSome (map.get books.accounts account))) }
    requires price { InEachState W.Words W.Shape.Shape w.old
        (OfModel (Stands shape.now) (λ books. IsSome (map.get books.prices instrument))) }
    requires range { quantity ≤ GREATEST_QUANTITY }
    ensures held { IfOk result (λ had_room. LeadsTo W.Words W.Shape.Shape w.old w.new
        (ChangesWithRoom (Stands shape.now) (lacks_position_room account instrument quantity)
        (λ books. put_position books account instrument quantity) had_room)) }
    // Each account stands in the block where it stood.
    ensures blocks { OnOk result (LeadsTo W.Words W.Shape.Shape w.old w.new
        (KeepsBlocks (tree_of shape.now))) }
    ensures stands { OnOk result (InEachState W.Words W.Shape.Shape w.new (IsGoodFor shape.now)) }
    ensures goes_on { GoesOn W.Words w.old w.new result }
{
    let key = position_key(account, instrument);
    if quantity == 0 {
        shape.chains().remove(w, key)?;
        return Ok(true);
    }
    let put = shape.chains().insert(w, key, quantity)?;
    Ok(has_room(put))
}

/// Whether an account holds a position.
pub fn holds_any<W: Words>(w: &mut W, shape: &BooksShape, account: u32) -> Result<bool, Stop>
    requires ready { IsReady W.Words w.old }
    requires stands { InEachState W.Words W.Shape.Shape w.old (IsGoodFor shape.now) }
    requires account { IsAccountNumber account }
    ensures told { IfOk result (λ answer. LeadsTo W.Words W.Shape.Shape w.old w.new
        (Tells (Stands shape.now) (λ books. holds_any books account) answer)) }
    ensures stands { OnOk result (InEachState W.Words W.Shape.Shape w.new (IsGoodFor shape.now)) }
    ensures goes_on { GoesOn W.Words w.old w.new result }
{
    for instrument in 1..shape.instruments + 1 {
        if quantity(w, shape, account, instrument)?.is_some() {
            return Ok(true);
        }
    }
    Ok(false)
}

// What an account's position of one instrument is worth. The price is looked up only if there is a position.
fn worth_in<W: Words>(
    w: &mut W,
    shape: &BooksShape,
    account: u32,
    instrument: u32,
) -> Result<u64, Stop>
    requires ready { IsReady W.Words w.old }
    requires stands { InEachState W.Words W.Shape.Shape w.old (IsGoodFor shape.now) }
    requires account { IsAccountNumber account }
    requires instrument { IsWithin 1 shape.now.instruments instrument }
    ensures told { IfOk result
        (λ answer. LeadsTo W.Words W.Shape.Shape w.old w.new (Tells (Stands shape.now)
        (λ books. position_of books account instrument * price_of books instrument) answer)) }
    ensures range { IfOk result (λ answer. answer ≤ GREATEST_QUANTITY * GREATEST_PRICE) }
    ensures stands { OnOk result (InEachState W.Words W.Shape.Shape w.new (IsGoodFor shape.now)) }
    ensures goes_on { GoesOn W.Words w.old w.new result }
{
    let Some(held) = quantity(w, shape, account, instrument)? else {
        return Ok(0);
    };
    let each = price(w, shape, instrument)?.unwrap_or(0);
    Ok(held * each)
}

/// What an account's positions are worth at the prices of the books.
pub fn worth<W: Words>(w: &mut W, shape: &BooksShape, account: u32) -> Result<u64, Stop>
    requires ready { IsReady W.Words w.old }
    requires stands { InEachState W.Words W.Shape.Shape w.old (IsGoodFor shape.now) }
    requires account { IsAccountNumber account }
    ensures told { IfOk result (λ answer. LeadsTo W.Words W.Shape.Shape w.old w.new
        (Tells (Stands shape.now) (λ books. worth_of books account) answer)) }
    ensures range { IfOk result (λ answer. answer ≤ GREATEST_SHORTFALL) }
    ensures stands { OnOk result (InEachState W.Words W.Shape.Shape w.new (IsGoodFor shape.now)) }
    ensures goes_on { GoesOn W.Words w.old w.new result }
{
    let mut total = 0;
    for instrument in 1..shape.instruments + 1 {
        total += worth_in(w, shape, account, instrument)?;
    }
    Ok(total)
}
