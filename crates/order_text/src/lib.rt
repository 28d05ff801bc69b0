//! The language of a limit order book: orders to buy and to sell, matched by price and then by arrival, their
//! sequential interpreter, and texts.
//!
//! `specs/Matching` says whom an order trades with and what rests then, by filtering and sorting alone, and
//! `specs/Interpreter` what a script replies and which book it leaves. `run_plain` is a body for it in memory, with
//! which others are compared. `read_orders` reads the text of an input, and `orders_text` makes that of an output.
#![tactic(auto)]

pub mod book;
pub mod input;
pub mod language;
pub mod laws;
pub mod limits;
mod matching;
pub mod order;
pub mod reader;
pub mod reply;
pub mod report;
pub mod run;
pub mod script;
pub mod words;

pub use book::Book;
pub use input::OrderInput;
pub use language::Orders;
pub use order::Resting;
pub use reader::read_orders;
pub use reply::{OrderReply, OrderValue, OrderValues, Trade, Trades};
pub use report::orders_text;
pub use run::run_plain;
pub use script::{OrderOp, OrderScript};
