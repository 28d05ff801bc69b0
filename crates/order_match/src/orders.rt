//! The operations on resting orders, each on words that stand for a book.

ghost use Rattle.std.specs.Prelude.{◌≡◌, IfOk, OnOk};
ghost use Rattle.books_model.specs.Ranges.{IsWithin};
ghost use Rattle.order_text.specs.Orders.{OrderBook};
ghost use Rattle.txn_words.specs.Access.{Tells, TellsAndChanges};
ghost use Rattle.txn_words.specs.Calls.{IsReady, GoesOn, InEachState, LeadsTo};
ghost use Rattle.order_match.specs.Standing.{IsGoodFor, Stands};
ghost use Rattle.order_match.specs.Access.{best_on, quantity_at, without_order};

use crate::layout::{HALF, Side};
use crate::parts::{cut_on, cut_place, first_on};
use crate::shape::OrderShape;
use txn_words::{Stop, Words};

/// The best price of a side: of buys the highest, and of sells the lowest. It is 0 if no order rests.
pub fn best_price<W: Words>(w: &mut W, shape: &OrderShape, side: &Side) -> Result<u64, Stop>
    requires ready { IsReady W.Words w.old }
    requires stands { InEachState W.Words W.Shape.Shape w.old (IsGoodFor shape.now) }
    requires side { IsWithin 1 shape.now.instruments side.now.instrument }
    ensures told { IfOk result (λ price. LeadsTo W.Words W.Shape.Shape w.old w.new
        (Tells (Stands shape.now)
        (λ book. best_on side.now.instrument side.now.buys book.orders) price)) }
    ensures stands { OnOk result (InEachState W.Words W.Shape.Shape w.new (IsGoodFor shape.now)) }
    ensures goes_on { GoesOn W.Words w.old w.new result }
{
    match first_on(w, shape, side)? {
        Some((key, _)) => Ok(side.price(key)),
        None => Ok(0),
    }
}

/// Takes a resting order out, and answers its quantity. None: no order with this number rests, and nothing changed.
pub fn cancel_order<W: Words>(
    w: &mut W,
    shape: &OrderShape,
    number: u32,
) -> Result<Option<u64>, Stop>
    requires ready { IsReady W.Words w.old }
    requires stands { InEachState W.Words W.Shape.Shape w.old (IsGoodFor shape.now) }
    ensures cancelled { IfOk result (λ answer. LeadsTo W.Words W.Shape.Shape w.old w.new
        (TellsAndChanges (Stands shape.now) (λ book. quantity_at number book.orders)
        (without_order number) answer)) }
    ensures stands { OnOk result (InEachState W.Words W.Shape.Shape w.new (IsGoodFor shape.now)) }
    ensures goes_on { GoesOn W.Words w.old w.new result }
{
    let Some(place) = cut_place(w, shape, number)? else {
        return Ok(None);
    };
    let side = Side::at(place);
    let key = side.key(place % HALF, number);
    let quantity = cut_on(w, shape, &side, key)?.unwrap_or(0);
    Ok(Some(quantity))
}
