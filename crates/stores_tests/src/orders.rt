//! Scripts as jobs on words and in the plain interpreter, side by side: the same rows through both, with replies
//! computed by hand.

ghost use Rattle.std.specs.Prelude.{IfOk, OnOk};
ghost use Rattle.std.specs.Bool.{OnTrue};
ghost use Rattle.history_model.specs.Fitting.{IsGood};
ghost use Rattle.order_text.specs.Ranges.{IsLimitOrder, IsOrderOp, IsOrderScript};
ghost use Rattle.order_match.specs.Layout.{words_of};
ghost use Rattle.order_match.specs.Standing.{IsGoodFor};

use books_model::limits::{GREATEST_PRICE, GREATEST_QUANTITY, MOST_OPERATIONS};
use io_ends::OutOfMemory;
use order_match::lay::empty_words;
use order_match::shape::OrderShape;
use order_text::limits::GREATEST_ORDER;
use order_text::{
    Book, OrderOp, OrderReply, OrderScript, OrderValue, OrderValues, Trade, Trades, run_plain,
};
use std::alloc::Global;
use std::process::Abort;
use txn_stores::run_on_plain;

// What an operation is to tell.
#[derive(Clone, Copy)]
enum Want<'a> {
    Entered(u32, &'a [(u32, u64, u64)]),
    Cancelled(u64),
    Prices(u64, u64),
}

// What a script is to reply.
#[derive(Clone, Copy)]
enum WantReply<'a> {
    Done(&'a [Want<'a>]),
    Declined(u32),
    Full(u32),
}

// Whether these are the trades: with which orders, at what prices, and how much.
fn are_trades(trades: &Trades, wanted: &[(u32, u64, u64)]) -> bool {
    if trades.len() != wanted.len() {
        return false;
    }
    for place in 0..wanted.len() {
        let (order, price, quantity) = wanted[place];
        let trade = Trade {
            order,
            price,
            quantity,
        };
        if trades.at(place) != trade {
            return false;
        }
    }
    true
}

// Whether this is the value.
fn is_value(value: &OrderValue, wanted: Want<'_>) -> bool {
    match (value, wanted) {
        (OrderValue::Entered(number, trades), Want::Entered(n, wanted)) => {
            *number == n && are_trades(trades, wanted)
        }
        (OrderValue::Cancelled(quantity), Want::Cancelled(wanted)) => *quantity == wanted,
        (OrderValue::Prices(buy, sell), Want::Prices(b, s)) => *buy == b && *sell == s,
        _ => false,
    }
}

// Whether these are the values.
fn are_values(values: &OrderValues, wanted: &[Want<'_>]) -> bool {
    if values.len() != wanted.len() {
        return false;
    }
    for place in 0..wanted.len() {
        if !is_value(values.at(place), wanted[place]) {
            return false;
        }
    }
    true
}

// Whether this is the reply.
fn is_reply(reply: &OrderReply, wanted: WantReply<'_>) -> bool {
    match (reply, wanted) {
        (OrderReply::Done(values), WantReply::Done(wanted)) => are_values(values, wanted),
        (OrderReply::Declined(number), WantReply::Declined(wanted))
        | (OrderReply::Full(number), WantReply::Full(wanted)) => *number == wanted,
        _ => false,
    }
}

// Whether these are the numbers of an order on so many instruments.
fn is_limit_order(instruments: u32, instrument: u32, price: u64, quantity: u64) -> bool
    ensures { OnTrue result (IsLimitOrder instruments instrument price quantity) }
{
    instrument > 0
        && instrument <= instruments
        && price > 0
        && price <= GREATEST_PRICE
        && quantity > 0
        && quantity <= GREATEST_QUANTITY
}

// Whether the numbers of an operation are in their ranges.
fn is_in_range(instruments: u32, op: OrderOp) -> bool
    ensures { OnTrue result (IsOrderOp instruments op) }
{
    match op {
        OrderOp::Buy(instrument, price, quantity) | OrderOp::Sell(instrument, price, quantity) => {
            is_limit_order(instruments, instrument, price, quantity)
        }
        OrderOp::Cancel(number) => number > 0 && number <= GREATEST_ORDER,
        OrderOp::Best(instrument) => instrument > 0 && instrument <= instruments,
    }
}

// A script of these operations.
fn script_of(
    rt: &impl Abort,
    alloc: Global,
    instruments: u32,
    operations: &[OrderOp],
) -> Result<OrderScript, OutOfMemory>
    ensures { IfOk result (IsOrderScript instruments) }
{
    assert!(rt; operations.len() <= MOST_OPERATIONS);
    let mut script = OrderScript::new(alloc);
    for operation in operations {
        let fits = is_in_range(instruments, *operation);
        assert!(rt; fits);
        script.push(*operation)?;
    }
    Ok(script)
}

// Whether words and the plain interpreter both reply so.
fn both_reply(
    rt: &impl Abort,
    alloc: Global,
    shape: &OrderShape,
    words: &mut Vec<u64>,
    book: &mut Book,
    row: (&[OrderOp], WantReply<'_>),
) -> Result<bool, OutOfMemory>
    requires good { IsGood (words_of shape.now) (IsGoodFor shape.now) words.old.items }
    ensures good { OnOk result (IsGood (words_of shape.now) (IsGoodFor shape.now) words.new.items) }
{
    let script = script_of(rt, alloc, shape.instruments, row.0)?;
    let reply = run_on_plain(alloc, shape, &script, words)?;
    let beside = run_plain(alloc, &script, book)?;
    Ok(is_reply(&reply, row.1) && is_reply(&beside, row.1))
}

// Two instruments, whose orders never meet. Orders trade by price and then by arrival, in part at both ends; one
// empties the other side and rests; prices are the least and the greatest; an order is taken out; and three orders fill
// the book, in which room is judged after the trades.
const ROWS: &[(&[OrderOp], WantReply<'_>)] = &[
    (&[], WantReply::Done(&[])),
    (
        &[OrderOp::Best(1), OrderOp::Cancel(1)],
        WantReply::Declined(2),
    ),
    // Sells at 10, 9 and 9 again: the lowest price first, and of one price the first that came.
    (
        &[
            OrderOp::Sell(1, 10, 5),
            OrderOp::Sell(1, 9, 2),
            OrderOp::Sell(1, 9, 4),
        ],
        WantReply::Done(&[
            Want::Entered(1, &[]),
            Want::Entered(2, &[]),
            Want::Entered(3, &[]),
        ]),
    ),
    (
        &[OrderOp::Buy(1, 10, 7), OrderOp::Best(1), OrderOp::Best(2)],
        WantReply::Done(&[
            Want::Entered(4, &[(2, 9, 2), (3, 9, 4), (1, 10, 1)]),
            Want::Prices(0, 10),
            Want::Prices(0, 0),
        ]),
    ),
    // What is left of a buy that empties the other side rests; orders of another instrument do not trade with it.
    (
        &[
            OrderOp::Buy(1, 12, 6),
            OrderOp::Sell(2, GREATEST_PRICE, GREATEST_QUANTITY),
            OrderOp::Buy(2, 1, 1),
            OrderOp::Best(1),
            OrderOp::Best(2),
        ],
        WantReply::Done(&[
            Want::Entered(5, &[(1, 10, 4)]),
            Want::Entered(6, &[]),
            Want::Entered(7, &[]),
            Want::Prices(12, 0),
            Want::Prices(1, GREATEST_PRICE),
        ]),
    ),
    // Three orders have six of seven blocks, and one is no room for an order more.
    (
        &[OrderOp::Sell(1, 13, 1), OrderOp::Best(1)],
        WantReply::Full(1),
    ),
    // But an order that is filled needs none, and one that fills another has its room.
    (
        &[
            OrderOp::Sell(1, 12, 1),
            OrderOp::Sell(1, 11, 3),
            OrderOp::Best(1),
        ],
        WantReply::Done(&[
            Want::Entered(8, &[(5, 12, 1)]),
            Want::Entered(9, &[(5, 12, 1)]),
            Want::Prices(0, 11),
        ]),
    ),
    // A refused script takes no number and changes nothing.
    (
        &[
            OrderOp::Cancel(9),
            OrderOp::Sell(1, 1, 1),
            OrderOp::Cancel(9),
        ],
        WantReply::Declined(3),
    ),
    // The highest price of buys first.
    (
        &[
            OrderOp::Cancel(9),
            OrderOp::Buy(2, 3, 5),
            OrderOp::Sell(2, 1, 6),
            OrderOp::Best(2),
            OrderOp::Cancel(6),
        ],
        WantReply::Done(&[
            Want::Cancelled(2),
            Want::Entered(10, &[]),
            Want::Entered(11, &[(10, 3, 5), (7, 1, 1)]),
            Want::Prices(0, GREATEST_PRICE),
            Want::Cancelled(GREATEST_QUANTITY),
        ]),
    ),
];

// The number of the first row to which words and the plain interpreter do not both reply so.
fn first_wrong(
    rt: &impl Abort,
    alloc: Global,
    shape: &OrderShape,
    words: &mut Vec<u64>,
    book: &mut Book,
) -> Result<Option<usize>, OutOfMemory>
    requires good { IsGood (words_of shape.now) (IsGoodFor shape.now) words.old.items }
{
    for (number, row) in ROWS.iter().enumerate() {
        if !both_reply(rt, alloc, shape, words, book, *row)? {
            return Ok(Some(number));
        }
    }
    Ok(None)
}

// The same, from no order on.
fn first_wrong_anew(rt: &impl Abort, alloc: Global) -> Result<Option<usize>, OutOfMemory> {
    let shape = OrderShape {
        blocks: 7,
        instruments: 2,
    };
    let mut words = empty_words(alloc, &shape)?;
    let mut book = Book::new(alloc, 7);
    first_wrong(rt, alloc, &shape, &mut words, &mut book)
}

#[test]
fn scripts_reply_by_hand_on_words_too(rt: HostRuntime) {
    let wrong = first_wrong_anew(&rt, rt.alloc());
    assert!(rt; matches!(wrong, Ok(None)));
}
