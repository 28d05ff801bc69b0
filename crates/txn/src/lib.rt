//! All that a program over the memory names, in one crate: jobs, lists of them and clients on threads, and collections.
//!
//! `Prelude` of `specs/` passes on what the contracts of such a program cite, and `Common` of `proofs/` what its proofs do.
//! `CALLING.md` has a caller that is proved.
#![tactic(auto)]

pub use history_model::Shape;
pub use io_ends::OutOfMemory;
pub use txn_alloc::{Arena, Block, BlockMap, Found, MapShape, Put};
pub use txn_commit::{Done, JobsEnd, Receipt, RunStop, run_job, run_jobs, transact};
pub use txn_hash_map::ChainMap;
pub use txn_ring::Ring;
pub use txn_threads::{Client, Ended, run_clients};
pub use txn_tree_map::TreeMap;
pub use txn_words::{Job, Mark, Plain, Stop, Verdict, Words, run_on_plain, some_fits};
pub use word_table::{Closed, Desk, LAST_CALL, MOST_PASSES, MOST_WORDS, Note, Pass};
pub use worker_gate::{Gate, OpenGate, Point, Stage};
