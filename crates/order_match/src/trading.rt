//! An order that enters: it trades with those of the other side, and what is left of it rests.

ghost use Rattle.std.specs.Prelude.{◌≡◌, ◌<◌, Some, IfOk, IfSome, OnOk, min};
ghost use Rattle.books_model.specs.Ranges.{IsWithin};
ghost use Rattle.order_text.specs.Matching.{allows, partners, trade_with};
ghost use Rattle.order_text.specs.Orders.{order_at};
ghost use Rattle.order_text.specs.Ranges.{IsRestingOrder};
ghost use Rattle.txn_words.specs.Access.{Changes, OfModel, Tells};
ghost use Rattle.txn_words.specs.Calls.{IsReady, GoesOn, InEachState, LeadsTo};
ghost use Rattle.order_match.specs.Standing.{HasSomeParts, IsGoodFor, Stands};
ghost use Rattle.order_match.specs.declared.layout.TheConstants.{LAST_AT};
ghost use Rattle.order_match.specs.Access.{first_of};
ghost use Rattle.order_match.specs.Holding.{WritesFirst};
ghost use Rattle.order_match.specs.Trading.{MatchesOrder, PutsOrder, RestsOrder, after_trade, next_number};
ghost use Rattle.txn_stores.specs.Standing.{HandsOn};

use crate::layout::{HALF, Side, number_of};
use crate::parts::{cut_on, cut_place, first_on, hold_last_number, last_number, put_on, put_place};
use crate::shape::OrderShape;
use order_text::limits::GREATEST_ORDER;
use order_text::{Resting, Trade, Trades};
use std::alloc::Global;
use txn_alloc::Put;
use txn_words::{Stop, Words};

// Whether an order trades at this price.
fn allows(order: &Resting, price: u64) -> bool
    ensures { result ≡ allows order.now price }
{
    if order.buys {
        price <= order.price
    } else {
        order.price <= price
    }
}

/// The number of the next order. None: the last one was the greatest. Its lock is held to write then.
pub fn next_number<W: Words>(w: &mut W, shape: &OrderShape) -> Result<Option<u32>, Stop>
    requires ready { IsReady W.Words w.old }
    requires stands { InEachState W.Words W.Shape.Shape w.old (IsGoodFor shape.now) }
    ensures told { IfOk result (λ answer. LeadsTo W.Words W.Shape.Shape w.old w.new
        (Tells (Stands shape.now) (λ book. next_number book.last) answer)) }
    ensures writes { OnOk result (WritesFirst W.Words LAST_AT w.old w.new) }
    ensures stands { OnOk result (InEachState W.Words W.Shape.Shape w.new (IsGoodFor shape.now)) }
    ensures goes_on { GoesOn W.Words w.old w.new result }
{
    hold_last_number(w, shape)?;
    let last = last_number(w, shape)?;
    if last < u64::from(GREATEST_ORDER) {
        Ok(Some(last as u32 + 1))
    } else {
        Ok(None)
    }
}

/// The resting order that an order trades with first. None: there is nobody, or at no price that it allows.
pub fn first_partner<W: Words>(
    w: &mut W,
    shape: &OrderShape,
    order: &Resting,
) -> Result<Option<Resting>, Stop>
    requires ready { IsReady W.Words w.old }
    requires stands { InEachState W.Words W.Shape.Shape w.old (IsGoodFor shape.now) }
    requires instrument { IsWithin 1 shape.now.instruments order.now.instrument }
    ensures told { IfOk result (λ answer. LeadsTo W.Words W.Shape.Shape w.old w.new
        (Tells (Stands shape.now) (λ book. first_of (partners order.now book.orders)) answer)) }
    ensures range { IfOk result
        (λ answer. IfSome answer (IsRestingOrder shape.now.instruments)) }
    ensures stands { OnOk result (InEachState W.Words W.Shape.Shape w.new (IsGoodFor shape.now)) }
    ensures goes_on { GoesOn W.Words w.old w.new result }
{
    let side = Side::of(order).other();
    let Some((key, quantity)) = first_on(w, shape, &side)? else {
        return Ok(None);
    };
    let price = side.price(key);
    if allows(order, price) {
        Ok(Some(Resting {
            number: number_of(key),
            instrument: side.instrument,
            buys: side.buys,
            price,
            quantity,
        }))
    } else {
        Ok(None)
    }
}

// A resting order trades with one of which so much is left, and answers how much. One that is filled goes, from its
// side's tree and from the chains.
fn fill<W: Words>(w: &mut W, shape: &OrderShape, partner: &Resting, left: u64) -> Result<u64, Stop>
    requires ready { IsReady W.Words w.old }
    requires stands { InEachState W.Words W.Shape.Shape w.old (IsGoodFor shape.now) }
    requires range { IsRestingOrder shape.now.instruments partner.now }
    requires rests { InEachState W.Words W.Shape.Shape w.old (OfModel (Stands shape.now)
        (λ book. order_at partner.now.number book.orders ≡ Some partner.now)) }
    ensures amount { IfOk result (λ traded. traded ≡ min partner.now.quantity left) }
    ensures filled { OnOk result (LeadsTo W.Words W.Shape.Shape w.old w.new
        (Changes (Stands shape.now) (after_trade (trade_with left partner.now)))) }
    ensures stands { OnOk result (InEachState W.Words W.Shape.Shape w.new (IsGoodFor shape.now)) }
    ensures goes_on { GoesOn W.Words w.old w.new result }
{
    let side = Side::of(partner);
    let key = side.key(partner.price, partner.number);
    if partner.quantity <= left {
        cut_on(w, shape, &side, key)?;
        cut_place(w, shape, partner.number)?;
        return Ok(partner.quantity);
    }
    put_on(w, shape, &side, key, partner.quantity - left)?;
    Ok(left)
}

/// An order trades down its partners, as long as something is left of it. Answers its trades, and what is left then.
pub fn trade_down<W: Words>(
    alloc: Global,
    w: &mut W,
    shape: &OrderShape,
    order: &Resting,
) -> Result<(Trades, u64), Stop>
    requires ready { IsReady W.Words w.old }
    requires stands { InEachState W.Words W.Shape.Shape w.old (IsGoodFor shape.now) }
    requires instrument { IsWithin 1 shape.now.instruments order.now.instrument }
    ensures traded { IfOk result (λ traded. LeadsTo W.Words W.Shape.Shape w.old w.new
        (MatchesOrder shape.now order.now traded.0 traded.1)) }
    ensures stands { OnOk result (InEachState W.Words W.Shape.Shape w.new (IsGoodFor shape.now)) }
    ensures hands_on { HandsOn W.Words w.old w.new result }
{
    let mut trades = Trades::new(alloc);
    let mut left = order.quantity;
    while left > 0 {
        let Some(partner) = first_partner(w, shape, order)? else {
            return Ok((trades, left));
        };
        let traded = fill(w, shape, &partner, left)?;
        trades.push(Trade {
            order: partner.number,
            price: partner.price,
            quantity: traded,
        })?;
        left -= traded;
    }
    Ok((trades, left))
}

// An order joins those that rest. False: no two blocks are left for it.
fn put_order<W: Words>(w: &mut W, shape: &OrderShape, order: &Resting) -> Result<bool, Stop>
    requires ready { IsReady W.Words w.old }
    requires stands { InEachState W.Words W.Shape.Shape w.old (IsGoodFor shape.now) }
    requires instrument { IsWithin 1 shape.now.instruments order.now.instrument }
    requires price { order.now.price < HALF }
    requires new { InEachState W.Words W.Shape.Shape w.old (OfModel (Stands shape.now)
        (λ book. book.last < order.now.number)) }
    ensures put { IfOk result (λ had_room. LeadsTo W.Words W.Shape.Shape w.old w.new
        (PutsOrder shape.now order.now had_room)) }
    ensures parts { OnOk result (InEachState W.Words W.Shape.Shape w.new (HasSomeParts shape.now)) }
    ensures goes_on { GoesOn W.Words w.old w.new result }
{
    let side = Side::of(order);
    let key = side.key(order.price, order.number);
    if let Put::Full = put_on(w, shape, &side, key, order.quantity)? {
        return Ok(false);
    }
    let place = side.place(order.price);
    match put_place(w, shape, order.number, place)? {
        Put::Full => Ok(false),
        Put::New | Put::Old(_) => Ok(true),
    }
}

/// What is left of an order rests, if anything is. False: no two blocks are left for it; the words stand for nothing
/// then, and whoever asked undoes what was written. The last order number stays what it was.
pub fn rest_order<W: Words>(w: &mut W, shape: &OrderShape, order: &Resting) -> Result<bool, Stop>
    requires ready { IsReady W.Words w.old }
    requires stands { InEachState W.Words W.Shape.Shape w.old (IsGoodFor shape.now) }
    requires instrument { IsWithin 1 shape.now.instruments order.now.instrument }
    requires price { order.now.price < HALF }
    requires new { InEachState W.Words W.Shape.Shape w.old (OfModel (Stands shape.now)
        (λ book. book.last < order.now.number)) }
    ensures rested { IfOk result (λ had_room. LeadsTo W.Words W.Shape.Shape w.old w.new
        (RestsOrder shape.now order.now had_room)) }
    ensures parts { OnOk result (InEachState W.Words W.Shape.Shape w.new (HasSomeParts shape.now)) }
    ensures goes_on { GoesOn W.Words w.old w.new result }
{
    if order.quantity == 0 {
        return Ok(true);
    }
    put_order(w, shape, order)
}
