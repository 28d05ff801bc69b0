//! Inputs that a seed gives: a whole day's books and scripts to try things on.
#![tactic(auto)]

mod books;
mod generator;
pub mod laws;
pub mod limits;
pub mod made;
mod operations;
mod scripts;

pub use made::make_input;
