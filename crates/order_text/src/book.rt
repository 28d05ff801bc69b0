//! A limit order book in memory.

ghost use Rattle.std.specs.Prelude.{◌≡◌, ◌≤◌, ◌+◌, ◌*◌, ◌++◌, ◌&&◌, nat_lt, IfOk};
ghost use Rattle.std.specs.Slice.Iter.{iter_rest};
ghost use Rattle.books_report.specs.Stores.Steps.{step_with};
ghost use Rattle.order_text.specs.Interpreter.{enter_next, incoming, order_step_of};
ghost use Rattle.order_text.specs.Matching.{rest_of};
ghost use Rattle.order_text.specs.Orders.{all_but, best_buy, best_sell, empty_book, order_at};
ghost use Rattle.order_text.specs.Ranges.{IsBlockCount};

use crate::limits::{GREATEST_ORDER, MOST_BLOCKS};
use crate::matching::match_order;
use crate::order::Resting;
use crate::reply::OrderValue;
use crate::script::OrderOp;
use books_report::stores::{Outcome, PlainStore};
use io_ends::OutOfMemory;
use std::alloc::Global;
use std::marker::Model;
use std::slice;

/// A limit order book: how many blocks it has, two for each resting order, the last order number, and the resting
/// orders by rising number.
#[derive(Debug, Drop)]
pub struct Book {
    alloc: Global,
    blocks: u32,
    last: u32,
    orders: Vec<Resting>,
}

impl Model for Book {
    ghost use Rattle.order_text.specs.Orders.{OrderBook};
    ghost use Rattle.order_text.specs.Ranges.{HasRoom};

    ghost Value = { OrderBook };

    ghost view = { λ b. record { blocks = b.blocks; last = b.last; orders = b.orders.items } };

    ghost invariant = { λ b.
        HasRoom (record { blocks = b.blocks; last = b.last; orders = b.orders.items }) };
}

// All orders but the one with this number.
fn take_out(orders: &mut Vec<Resting>, number: u32)
    ensures { orders.new.items ≡ all_but number orders.old.items }
{
    orders.retain(|order| order.number != number);
}

// Whether something is left of an order and no blocks are for it, beside so many resting orders.
fn lacks_blocks(blocks: u32, left: u64, resting: usize) -> bool
    requires few { 2 * resting ≤ MOST_BLOCKS }
    ensures { result ≡ nat_lt 0 left && nat_lt blocks (2 * resting + 2) }
{
    left > 0 && 2 * resting + 2 > blocks as usize
}

// The orders, and behind them what is left of one.
fn with_rest(
    mut orders: Vec<Resting>,
    order: &Resting,
    left: u64,
) -> Result<Vec<Resting>, OutOfMemory>
    ensures { IfOk result (λ all. all.items ≡ orders.items ++ rest_of order.now left) }
{
    if left > 0 {
        orders.push(Resting {
            quantity: left,
            ..*order
        })?;
    }
    Ok(orders)
}

impl Book {
    /// A book in which no order rests or ever rested. It takes no memory.
    pub fn new(alloc: Global, blocks: u32) -> Book
        requires { IsBlockCount blocks }
        ensures { result ≡ empty_book blocks }
    {
        Book {
            alloc,
            blocks,
            last: 0,
            orders: Vec::new(alloc),
        }
    }

    /// How many blocks there are.
    pub fn blocks(&self) -> u32
        ensures { result ≡ self.now.blocks }
    {
        self.blocks
    }

    /// The last order number that was given.
    pub fn last(&self) -> u32
        ensures { result ≡ self.now.last }
    {
        self.last
    }

    /// The resting orders by rising number.
    pub fn iter(&self) -> slice::Iter<'_, Resting>
        ensures { iter_rest result ≡ self.now.orders }
    {
        self.orders.iter()
    }

    /// An equal book.
    pub fn copy(&self) -> Result<Book, OutOfMemory>
        ensures { IfOk result (λ copy. copy ≡ self.now) }
    {
        Ok(Book {
            alloc: self.alloc,
            blocks: self.blocks,
            last: self.last,
            orders: self.orders.clone()?,
        })
    }

    // The highest price of the resting buys of an instrument, 0 if there is none.
    fn best_buy(&self, instrument: u32) -> u64
        ensures { result ≡ best_buy instrument self.now.orders }
    {
        let highest = self
            .orders
            .iter()
            .filter(|order| order.is_on(instrument, true))
            .map(|order| order.price)
            .max();
        highest.unwrap_or(0)
    }

    // The lowest price of the resting sells of an instrument, 0 if there is none.
    fn best_sell(&self, instrument: u32) -> u64
        ensures { result ≡ best_sell instrument self.now.orders }
    {
        let lowest = self
            .orders
            .iter()
            .filter(|order| order.is_on(instrument, false))
            .map(|order| order.price)
            .min();
        lowest.unwrap_or(0)
    }

    // The next order trades, and what is left of it rests. If there is no room, the book that is left is no matter.
    fn enter(
        &mut self,
        buys: bool,
        instrument: u32,
        price: u64,
        quantity: u64,
    ) -> Result<Outcome<OrderValue>, OutOfMemory>
        ensures step { IfOk result (λ outcome.
            enter_next self.old (incoming self.old buys instrument price quantity)
            ≡ step_with outcome self.new) }
    {
        if self.last == GREATEST_ORDER {
            return Ok(Outcome::Full);
        }
        let order = Resting {
            number: self.last + 1,
            instrument,
            buys,
            price,
            quantity,
        };
        let matched = match_order(self.alloc, &order, &self.orders)?;
        if lacks_blocks(self.blocks, matched.left, matched.orders.len()) {
            return Ok(Outcome::Full);
        }
        self.orders = with_rest(matched.orders, &order, matched.left)?;
        self.last = order.number;
        Ok(Outcome::Gives(OrderValue::Entered(order.number, matched.trades)))
    }

    // The resting order with this number, if it is there.
    fn order_at(&self, number: u32) -> Option<Resting>
        ensures { result ≡ order_at number self.now.orders }
    {
        self.orders
            .iter()
            .copied()
            .find(|order| order.number == number)
    }

    // Takes a resting order out, if it is there.
    fn cancel(&mut self, number: u32) -> Outcome<OrderValue>
        ensures step { order_step_of (OrderOp.Cancel number) self.old ≡ step_with result self.new }
    {
        match self.order_at(number) {
            Some(order) => {
                take_out(&mut self.orders, number);
                Outcome::Gives(OrderValue::Cancelled(order.quantity))
            }
            None => Outcome::Absent,
        }
    }
}

impl PlainStore for Book {
    ghost use Rattle.order_text.specs.Interpreter.{order_step_of};
    ghost use Rattle.order_text.specs.Orders.{OrderBook};

    type Op = OrderOp;

    type Value = OrderValue;

    ghost Fixed = { Unit {0} };

    ghost State = { OrderBook };

    ghost fixed = { λ _. tt };

    ghost state = { λ book. book };

    ghost step = { λ _. order_step_of };

    fn copy(&self) -> Result<Book, OutOfMemory> {
        Book::copy(self)
    }

    fn run(&mut self, operation: OrderOp) -> Result<Outcome<OrderValue>, OutOfMemory> {
        match operation {
            OrderOp::Buy(instrument, price, quantity) => {
                self.enter(true, instrument, price, quantity)
            }
            OrderOp::Sell(instrument, price, quantity) => {
                self.enter(false, instrument, price, quantity)
            }
            OrderOp::Cancel(number) => Ok(self.cancel(number)),
            OrderOp::Best(instrument) => Ok(Outcome::Gives(OrderValue::Prices(
                self.best_buy(instrument),
                self.best_sell(instrument),
            ))),
        }
    }
}
