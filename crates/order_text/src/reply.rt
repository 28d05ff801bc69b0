//! What a script on a limit order book replies.

ghost use Rattle.std.specs.Prelude.{◌≡◌, ◌<◌, ◌↔◌, [], ◌∷◌, ◌++◌, length, IsTrue, Some, OnOk, OnErr, slice_get};
ghost use Rattle.std.specs.Slice.Iter.{iter_rest};

use books_report::stores::{StoreReply, StoreValues};
use io_ends::OutOfMemory;
use std::alloc::Global;
use std::marker::Model;
use std::slice;

/// A trade with the resting order that has this number, at its price.
#[derive(Clone, Copy, Debug, PartialEq, Eq)]
pub struct Trade {
    pub order: u32,
    pub price: u64,
    pub quantity: u64,
}

/// Trades in order.
#[derive(Debug, Drop)]
pub struct Trades {
    trades: Vec<Trade>,
}

impl Model for Trades {
    ghost use Rattle.std.specs.Prelude.{List};
    ghost use Rattle.order_text.specs.declared.reply.Trade.{Trade};

    ghost Value = { List Trade };

    ghost view = { λ t. t.trades.items };
}

impl Trades {
    /// No trade. It takes no memory.
    pub fn new(alloc: Global) -> Trades
        ensures { result ≡ [] }
    {
        Trades {
            trades: Vec::new(alloc),
        }
    }

    /// Adds a trade at the end.
    pub fn push(&mut self, trade: Trade) -> Result<(), OutOfMemory>
        ensures ok { OnOk result (self.new ≡ self.old ++ trade ∷ []) }
        ensures err { OnErr result (self.new ≡ self.old) }
    {
        self.trades.push(trade)?;
        Ok(())
    }

    /// How many trades there are.
    pub fn len(&self) -> usize
        ensures { result ≡ length self.now }
    {
        self.trades.len()
    }

    /// Whether there is no trade.
    pub fn is_empty(&self) -> bool
        ensures { IsTrue result ↔ (self.now ≡ []) }
    {
        self.trades.is_empty()
    }

    /// The trades in order.
    pub fn iter(&self) -> slice::Iter<'_, Trade>
        ensures { iter_rest result ≡ self.now }
    {
        self.trades.iter()
    }

    /// The trade at a place, from 0.
    pub fn at(&self, i: usize) -> Trade
        requires { i < length self.now }
        ensures { slice_get self.now i ≡ Some result }
    {
        self.trades[i]
    }
}

/// What an operation tells.
#[derive(Debug, Drop)]
pub enum OrderValue {
    /// An order has entered under this number, and traded so with resting orders.
    Entered(u32, Trades),
    /// A resting order with this quantity is gone.
    Cancelled(u64),
    /// The highest price of a resting buy and the lowest of a resting sell, each 0 if there is none.
    Prices(u64, u64),
}

/// The values of operations, in order.
pub type OrderValues = StoreValues<OrderValue>;

/// What a script replies: if it is declined an order does not rest, and if it is full there is no number or there are no
/// blocks for an order.
pub type OrderReply = StoreReply<OrderValue>;
