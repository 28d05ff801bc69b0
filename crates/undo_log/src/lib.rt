//! The undo log of a transaction: the values that words had before it wrote them, newest last.
//!
//! Written back newest first, the log restores the words as they were before the first write, as in 2PLSF
//! (Ramalhete, Correia, Felber, PPoPP 2023). Contracts see a log as the list of its pairs, oldest first, beside
//! `spare`, the number of pairs that it still takes without memory.
#![tactic(auto)]

pub mod log;

pub use log::UndoLog;
