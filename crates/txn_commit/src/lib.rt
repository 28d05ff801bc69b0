//! Transactions on the shared table: a job is run until an attempt of it need not give way, and then gets its entry.
//!
//! Strict two-phase locking with in-place writes and an undo log, after 2PLSF (Ramalhete, Correia, Felber, PPoPP 2023).
//! `GetsEntry` in `specs/Transactions` says what a transaction comes to. [`run_jobs`] runs lists of jobs on threads.
#![tactic(auto)]

pub mod attempt;
pub mod jobs;
pub mod laws;
pub mod list_run;
mod list_worker;
pub mod lists;
pub mod ordered;
pub mod release;
pub mod rollback;
pub mod transaction;

pub use attempt::{Attempt, Halt, Start, UNDO_ROOM};
pub use jobs::{JobsEnd, RunStop, run_jobs};
pub use list_run::run_lists;
pub use lists::{Done, Lists, ListsEnd};
pub use ordered::{arrange, run_in_order};
pub use transaction::{Receipt, run_job, transact};
