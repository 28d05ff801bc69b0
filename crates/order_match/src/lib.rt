//! A limit order book on words: one list of words holds the last order number, the place of each resting order by its
//! number, and for each side of each instrument a tree of quantities in the order in which orders are served.
//!
//! `OrderShape` has the size of a book, and its methods say where each part lies. Which word lists stand for which
//! books is `Stands` in `specs/Standing`; `laws` has what follows of it, and that a tree's order is that of serving.
//!
//! `parts` has a call for each thing that is looked up or changed in one of the parts, whatever they hold. `orders` has
//! the operations on resting orders, `trading` what an order that enters does, and `store` what makes of them a `Store` of
//! txn_stores, which runs all scripts of an input by workers on threads (`run_orders`).
#![tactic(auto)]

pub mod closing;
pub mod laws;
pub mod lay;
pub mod layout;
mod operations;
pub mod orders;
pub mod parts;
pub mod run;
pub mod shape;
pub mod store;
pub mod trading;

pub use closing::{all_orders, orders_of_words, resting_order};
pub use lay::empty_words;
pub use layout::Side;
pub use orders::{best_price, cancel_order};
pub use run::{OrderDay, OrderDone, OrderJob, run_orders};
pub use shape::OrderShape;
pub use trading::{first_partner, next_number, rest_order, trade_down};
pub use txn_stores::run_on_plain;
