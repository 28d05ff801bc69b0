//! Matching: an incoming order, the orders that rest, and what comes of them.

ghost use Rattle.std.specs.Prelude.{◌≡◌, ◌-◌, ◌==◌, IfOk, filter, find};
ghost use Rattle.std.specs.List.Sorted.{IsStrictlySortedBy};
ghost use Rattle.order_text.specs.Matching.{after_trades, match_of, may_trade, orders_after, partners, traded_by, trades_down, volume};
ghost use Rattle.order_text.specs.Orders.{by_number};

use crate::order::{Resting, serving};
use crate::reply::{Trade, Trades};
use io_ends::OutOfMemory;
use std::alloc::Global;

// What an incoming order comes to: its trades, what is left of it, and the other orders that rest then.
#[derive(Drop)]
pub(crate) struct Match {
    pub(crate) trades: Trades,
    pub(crate) left: u64,
    pub(crate) orders: Vec<Resting>,
}

// The resting orders that trade with an incoming one.
fn candidates(
    alloc: Global,
    order: &Resting,
    orders: &Vec<Resting>,
) -> Result<Vec<Resting>, OutOfMemory>
    ensures { IfOk result
        (λ found. found.items ≡ filter (may_trade order.now) orders.now.items) }
{
    let found = orders
        .iter()
        .copied()
        .filter(|resting| order.may_trade(resting))
        .collect(alloc)?;
    Ok(found)
}

// The same, as they are served.
fn partners(
    alloc: Global,
    order: &Resting,
    orders: &Vec<Resting>,
) -> Result<Vec<Resting>, OutOfMemory>
    requires rising { IsStrictlySortedBy by_number orders.now.items }
    ensures { IfOk result (λ served. served.items ≡ partners order.now orders.now.items) }
{
    let mut served = candidates(alloc, order, orders)?;
    let buys = !order.buys;
    served.sort_by(|first, second| serving(buys, first, second))?;
    Ok(served)
}

// The trades of an incoming order down its partners, as long as something is left, and what is left then.
fn trade(
    alloc: Global,
    order: &Resting,
    served: &Vec<Resting>,
) -> Result<(Trades, u64), OutOfMemory>
    ensures trades { IfOk result
        (λ traded. traded.0 ≡ trades_down order.now.quantity served.now.items) }
    ensures left { IfOk result (λ traded. traded.1 ≡ order.now.quantity - volume traded.0) }
{
    let mut trades = Trades::new(alloc);
    let mut left = order.quantity;
    for partner in served {
        if left == 0 {
            break;
        }
        let traded = partner.quantity.min(left);
        trades.push(Trade {
            order: partner.number,
            price: partner.price,
            quantity: traded,
        })?;
        left -= traded;
    }
    Ok((trades, left))
}

// The trade of the order with this number, if it traded.
fn trade_of(number: u32, trades: &Trades) -> Option<Trade>
    ensures { result ≡ find (λ t. t.order == number) trades.now }
{
    trades.iter().copied().find(|trade| trade.order == number)
}

// How much it traded.
fn traded_by(number: u32, trades: &Trades) -> u64
    ensures { result ≡ traded_by number trades.now }
{
    match trade_of(number, trades) {
        Some(trade) => trade.quantity,
        None => 0,
    }
}

// A resting order after these trades.
fn after_trades(trades: &Trades, order: &Resting) -> Resting
    ensures { result ≡ after_trades trades.now order.now }
{
    Resting {
        quantity: order
            .quantity
            .saturating_sub(traded_by(order.number, trades)),
        ..*order
    }
}

// The resting orders after these trades: who is filled goes.
fn orders_after(
    alloc: Global,
    trades: &Trades,
    orders: &Vec<Resting>,
) -> Result<Vec<Resting>, OutOfMemory>
    ensures { IfOk result (λ left. left.items ≡ orders_after trades.now orders.now.items) }
{
    let left = orders
        .iter()
        .map(|order| after_trades(trades, order))
        .filter(|order| 0 < order.quantity)
        .collect(alloc)?;
    Ok(left)
}

// What an incoming order comes to.
pub(crate) fn match_order(
    alloc: Global,
    order: &Resting,
    orders: &Vec<Resting>,
) -> Result<Match, OutOfMemory>
    requires rising { IsStrictlySortedBy by_number orders.now.items }
    ensures trades { IfOk result
        (λ matched. matched.trades ≡ (match_of order.now orders.now.items).trades) }
    ensures left { IfOk result
        (λ matched. matched.left ≡ (match_of order.now orders.now.items).left) }
    ensures orders { IfOk result
        (λ matched. matched.orders.items ≡ (match_of order.now orders.now.items).orders) }
{
    let served = partners(alloc, order, orders)?;
    let (trades, left) = trade(alloc, order, &served)?;
    let orders = orders_after(alloc, &trades, orders)?;
    Ok(Match {
        trades,
        left,
        orders,
    })
}
