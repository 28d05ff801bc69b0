//! Scripts: operations on a limit order book, in order.

use books_report::stores::OperationList;

/// An operation on a limit order book. Instruments and orders go by their numbers.
#[derive(Clone, Copy, Debug, PartialEq, Eq)]
pub enum OrderOp {
    /// Buys so much of an instrument at this price at most.
    Buy(u32, u64, u64),
    /// Sells so much of an instrument at this price at least.
    Sell(u32, u64, u64),
    /// The resting order with this number goes.
    Cancel(u32),
    /// Tells the best prices of an instrument.
    Best(u32),
}

/// Operations that are run in order, all or none.
pub type OrderScript = OperationList<OrderOp>;
