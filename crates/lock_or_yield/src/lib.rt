//! Asking for the lock of a word: one turn at a time, each of which is granted, waits or gives way, or turn after turn
//! until one is granted or gives way.
//!
//! A turn asks the table once. If it meets another seat, the call takes part in the conflict clock: it draws a
//! timestamp if it has none, shows it, and looks at the timestamp of the seat that it met. The call gives way to an
//! earlier one, as in 2PLSF (Ramalhete, Correia, Felber, PPoPP 2023), and else asks again. `Asks` in `specs/Asking`
//! says what all of these calls leave as it was.
#![tactic(auto)]

pub mod turn;
pub mod want;

pub use turn::{Intent, Tried, try_read, try_write};
pub use want::{Got, go_on, want_read, want_write};
