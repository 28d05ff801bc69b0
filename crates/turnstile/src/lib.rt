//! The smallest program over the memory: one word, one job, threads, one clause. To be copied.
//!
//! A room has a limit. Visitors on threads of their own try to enter; however they come, no more than the limit are inside.
#![tactic(auto)]

pub mod enter;
pub mod visitors;

pub use enter::{Enter, Room};
pub use visitors::{Visitor, open_room};

#[cfg(test)]
mod tests;
