//! Threads over one shared table: the table is opened, each of its passes is lent to a client on a thread of its own,
//! and the table is closed.
//!
//! Who writes a program over the memory writes jobs (`txn_words::Job`) and a [`Client`], which runs them with the pass
//! that it is lent, and calls [`run_clients`]. Who has more to do with the desk opens and closes it, and calls [`lend`].
#![tactic(auto)]

pub mod client;
pub mod run;
pub(crate) mod seat;

pub use client::Client;
pub use run::{Ended, lend, run_clients};
