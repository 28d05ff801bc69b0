//! Stores on words: whatever a store holds, its scripts are run as transactions, and its day is told.
//!
//! A `Store` says what its words stand for, what one operation does on them, and what its inputs and its output are.
//! `StoreJob` is a script of it as a job, and `run_store` runs all scripts of an input on threads: `specs/Days` says what
//! that comes to. `ReadOnly` reads the words of a store without a copy.
//!
//! For proofs, `proofs/` has calls one after another on words that stand for a model (`Turning`), the words of an empty
//! store (`Emptied`), and how a day comes of jobs that were run in order (`Days`).
#![tactic(auto)]

pub mod job;
pub mod laws;
mod lists;
pub mod on_plain;
pub mod read_only;
pub mod read_trace;
pub mod run;
pub mod store;

pub use books_report::stores::Outcome;
pub use job::StoreJob;
pub use on_plain::run_on_plain;
pub use read_only::ReadOnly;
pub use run::{StoreDay, lines_of, replies_of, run_store};
pub use store::Store;
