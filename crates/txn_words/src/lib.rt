//! Words that a transaction reads and writes, transactions as jobs over any such words, and words in a plain list.
//!
//! `Words` is what code above sees of the memory, whatever is beneath: a plain list here, a shared table
//! elsewhere. `Job` is a transaction over any words. `Plain` is the plain list: beside each job it shows what
//! the job means, and `run_on_plain` runs it there. `specs/Calls` has what a call on words asks and leaves, for the
//! contracts of collections.
#![tactic(auto)]

pub mod job;
pub mod laws;
pub mod on_plain;
pub mod plain;
pub mod words;

pub use job::{Job, Verdict, some_fits};
pub use on_plain::run_on_plain;
pub use plain::Plain;
pub use words::{Mark, Stop, Words};
