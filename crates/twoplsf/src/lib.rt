//! The clearing house as a library: each command, over any words and streams, and what its answer is proved to be.
//!
//! `run_program` is all that the program calls.
#![tactic(auto)]

pub mod agreement;
pub mod answer;
pub mod cells;
pub mod check;
pub mod command;
pub mod day;
pub mod making;
pub mod orders;
mod printing;
pub mod program;
pub mod reading;
pub mod records;
pub mod run_command;
pub mod serve;
pub mod status;
pub mod sums;
pub mod surely;
pub mod words;
