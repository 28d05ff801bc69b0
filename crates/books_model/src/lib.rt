//! Clearing books, the language of scripts over them, and the sequential interpreter.
#![tactic(auto)]

pub mod books;
mod draft;
pub mod laws;
pub mod limits;
mod operations;
mod overlay;
pub mod reply;
pub mod run;
pub mod script;

pub use books::Books;
pub use reply::{Decline, Reply, Value, Values};
pub use run::run_plain;
pub use script::{Op, Ops, Part, Script};
