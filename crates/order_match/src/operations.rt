//! The operations of scripts, each on words that stand for a book.
//!
//! What each comes to is the interpreter's: `specs/Operating` says what that means, from state to state. An operation
//! that finds no room may have written words before it answers; whoever runs it undoes that.

ghost use Rattle.std.specs.Prelude.{IfOk, OnOk};
ghost use Rattle.books_model.specs.Ranges.{IsWithin};
ghost use Rattle.order_text.specs.declared.script.OrderOp.{OrderOp};
ghost use Rattle.order_text.specs.Ranges.{IsLimitOrder};
ghost use Rattle.txn_words.specs.Calls.{IsReady, GoesOn, InEachState, LeadsTo};
ghost use Rattle.order_match.specs.Standing.{IsGoodFor};
ghost use Rattle.order_match.specs.Operating.{EntersOrder, MeetsStep};
ghost use Rattle.txn_stores.specs.Standing.{HandsOn, UnlessFull};

use crate::layout::Side;
use crate::orders::{best_price, cancel_order};
use crate::parts::set_last_number;
use crate::shape::OrderShape;
use crate::trading::{next_number, rest_order, trade_down};
use order_text::{OrderValue, Resting};
use std::alloc::Global;
use txn_stores::Outcome;
use txn_words::{Stop, Words};

// The next order trades, and what is left of it rests. Its number is asked for once it has traded: so orders of several
// instruments trade side by side, and wait for each other's numbers alone.
pub(crate) fn enter<W: Words>(
    alloc: Global,
    w: &mut W,
    shape: &OrderShape,
    buys: bool,
    instrument: u32,
    price: u64,
    quantity: u64,
) -> Result<Outcome<OrderValue>, Stop>
    requires ready { IsReady W.Words w.old }
    requires stands { InEachState W.Words W.Shape.Shape w.old (IsGoodFor shape.now) }
    requires limits { IsLimitOrder shape.now.instruments instrument price quantity }
    ensures enters { IfOk result (λ outcome. LeadsTo W.Words W.Shape.Shape w.old w.new
        (EntersOrder shape.now buys instrument price quantity outcome)) }
    ensures stands { IfOk result (λ outcome. UnlessFull outcome
        (InEachState W.Words W.Shape.Shape w.new (IsGoodFor shape.now))) }
    ensures hands_on { HandsOn W.Words w.old w.new result }
{
    let order = Resting {
        // None yet, and trades do not depend on it.
        number: 0,
        instrument,
        buys,
        price,
        quantity,
    };
    let (trades, left) = trade_down(alloc, w, shape, &order)?;
    let Some(number) = next_number(w, shape)? else {
        return Ok(Outcome::Full);
    };
    let rest = Resting {
        number,
        quantity: left,
        ..order
    };
    if rest_order(w, shape, &rest)? {
        set_last_number(w, shape, u64::from(number))?;
        Ok(Outcome::Gives(OrderValue::Entered(number, trades)))
    } else {
        Ok(Outcome::Full)
    }
}

// Takes a resting order out.
pub(crate) fn cancel<W: Words>(
    w: &mut W,
    shape: &OrderShape,
    number: u32,
) -> Result<Outcome<OrderValue>, Stop>
    requires ready { IsReady W.Words w.old }
    requires stands { InEachState W.Words W.Shape.Shape w.old (IsGoodFor shape.now) }
    ensures step { IfOk result (λ outcome. LeadsTo W.Words W.Shape.Shape w.old w.new
        (MeetsStep shape.now (OrderOp.Cancel number) outcome)) }
    ensures stands { IfOk result (λ outcome. UnlessFull outcome
        (InEachState W.Words W.Shape.Shape w.new (IsGoodFor shape.now))) }
    ensures hands_on { HandsOn W.Words w.old w.new result }
{
    match cancel_order(w, shape, number)? {
        Some(quantity) => Ok(Outcome::Gives(OrderValue::Cancelled(quantity))),
        None => Ok(Outcome::Absent),
    }
}

// Tells the best prices of an instrument.
pub(crate) fn best<W: Words>(
    w: &mut W,
    shape: &OrderShape,
    instrument: u32,
) -> Result<Outcome<OrderValue>, Stop>
    requires ready { IsReady W.Words w.old }
    requires stands { InEachState W.Words W.Shape.Shape w.old (IsGoodFor shape.now) }
    requires instrument { IsWithin 1 shape.now.instruments instrument }
    ensures step { IfOk result (λ outcome. LeadsTo W.Words W.Shape.Shape w.old w.new
        (MeetsStep shape.now (OrderOp.Best instrument) outcome)) }
    ensures stands { IfOk result (λ outcome. UnlessFull outcome
        (InEachState W.Words W.Shape.Shape w.new (IsGoodFor shape.now))) }
    ensures hands_on { HandsOn W.Words w.old w.new result }
{
    let buys = Side {
        instrument,
        buys: true,
    };
    let buy = best_price(w, shape, &buys)?;
    let sell = best_price(w, shape, &buys.other())?;
    Ok(Outcome::Gives(OrderValue::Prices(buy, sell)))
}
