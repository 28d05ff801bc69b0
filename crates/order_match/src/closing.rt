//! All resting orders, by their numbers.

ghost use Rattle.std.specs.Prelude.{◌≡◌, ◌++◌, IfOk, OnOk};
ghost use Rattle.history_model.specs.Fitting.{IsGood};
ghost use Rattle.order_text.specs.Orders.{OrderBook, order_at};
ghost use Rattle.txn_words.specs.Access.{Tells};
ghost use Rattle.txn_words.specs.Calls.{IsReady, GoesOn, InEachState, LeadsTo};
ghost use Rattle.order_match.specs.Layout.{words_of};
ghost use Rattle.order_match.specs.Standing.{IsGoodFor, Stands};
ghost use Rattle.order_match.specs.Inner.Listing.{found_order};
ghost use Rattle.txn_stores.specs.Standing.{HandsOn};

use crate::layout::{HALF, Side};
use crate::parts::{last_number, place_of, quantity_on};
use crate::shape::OrderShape;
use io_ends::OutOfMemory;
use order_text::Resting;
use std::alloc::Global;
use txn_stores::ReadOnly;
use txn_words::{Stop, Words};

/// The last order number that was given. It is 0 if none was.
pub fn last_given<W: Words>(w: &mut W, shape: &OrderShape) -> Result<u32, Stop>
    requires ready { IsReady W.Words w.old }
    requires stands { InEachState W.Words W.Shape.Shape w.old (IsGoodFor shape.now) }
    ensures told { IfOk result (λ last. LeadsTo W.Words W.Shape.Shape w.old w.new
        (Tells (Stands shape.now) (λ book. book.last) last)) }
    ensures stands { OnOk result (InEachState W.Words W.Shape.Shape w.new (IsGoodFor shape.now)) }
    ensures goes_on { GoesOn W.Words w.old w.new result }
{
    let last = last_number(w, shape)?;
    Ok(last as u32)
}

/// The resting order with a number, if there is one.
pub fn resting_order<W: Words>(
    w: &mut W,
    shape: &OrderShape,
    number: u32,
) -> Result<Option<Resting>, Stop>
    requires ready { IsReady W.Words w.old }
    requires stands { InEachState W.Words W.Shape.Shape w.old (IsGoodFor shape.now) }
    ensures told { IfOk result (λ answer. LeadsTo W.Words W.Shape.Shape w.old w.new
        (Tells (Stands shape.now) (λ book. order_at number book.orders) answer)) }
    ensures stands { OnOk result (InEachState W.Words W.Shape.Shape w.new (IsGoodFor shape.now)) }
    ensures goes_on { GoesOn W.Words w.old w.new result }
{
    let Some(place) = place_of(w, shape, number)? else {
        return Ok(None);
    };
    let side = Side::at(place);
    let price = place % HALF;
    let quantity = quantity_on(w, shape, &side, side.key(price, number))?;
    Ok(Some(Resting {
        number,
        instrument: side.instrument,
        buys: side.buys,
        price,
        quantity: quantity.unwrap_or(0),
    }))
}

// The order that was found, if one was.
fn add_found(all: &mut Vec<Resting>, found: Option<Resting>) -> Result<(), OutOfMemory>
    ensures { OnOk result (all.new.items ≡ all.old.items ++ found_order found) }
{
    let Some(order) = found else {
        return Ok(());
    };
    all.push(order)?;
    Ok(())
}

/// All resting orders, by rising number. It looks each number up that was given.
pub fn all_orders<W: Words>(
    alloc: Global,
    w: &mut W,
    shape: &OrderShape,
) -> Result<Vec<Resting>, Stop>
    requires ready { IsReady W.Words w.old }
    requires stands { InEachState W.Words W.Shape.Shape w.old (IsGoodFor shape.now) }
    ensures told { IfOk result (λ all. LeadsTo W.Words W.Shape.Shape w.old w.new
        (Tells (Stands shape.now) (λ book. book.orders) all.items)) }
    ensures stands { OnOk result (InEachState W.Words W.Shape.Shape w.new (IsGoodFor shape.now)) }
    ensures hands_on { HandsOn W.Words w.old w.new result }
{
    let mut all = Vec::new(alloc);
    let last = last_given(w, shape)?;
    for before in 0..last {
        let found = resting_order(w, shape, before + 1)?;
        add_found(&mut all, found)?;
    }
    Ok(all)
}

/// The orders of the book for which words of this size stand, by rising number. As words stand for one book at most,
/// there are no others.
pub fn orders_of_words(
    alloc: Global,
    shape: &OrderShape,
    words: &[u64],
) -> Result<Vec<Resting>, OutOfMemory>
    requires good { IsGood (words_of shape.now) (IsGoodFor shape.now) words.now }
    ensures { IfOk result (λ all. (book : OrderBook) → Stands shape.now words.now book
        → all.items ≡ book.orders) }
{
    let mut reader = ReadOnly::new(*shape, words);
    match all_orders(alloc, &mut reader, shape) {
        Ok(all) => Ok(all),
        Err(Stop::Memory) => Err(OutOfMemory),
        Err(Stop::Yield) => unreachable!(),
    }
}
