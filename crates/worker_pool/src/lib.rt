//! The workers of a day: they share its callers by stealing, and each caller is run once.
//!
//! `run_callers` runs all scripts of an input, with a thread for each pass of a table. Each worker owns a deque, and the
//! callers are dealt to the deques in turn before any worker starts. A worker takes callers from its own deque, and if
//! that is empty it steals them from the others. `IsDealt` in `specs/Inner/Deals` says what holds of a deque between any
//! two steps of any workers. What no worker took is run at the end by the calling thread.
#![tactic(auto)]

mod client;
mod dealing;
pub mod done;
mod ends;
mod finish;
pub mod heap;
pub mod laws;
mod queue;
mod rule;
pub mod run;
mod work;
mod worker;

pub use done::{DayEnd, Done};
pub use rule::ALL_PARTS;
pub use run::run_callers;
