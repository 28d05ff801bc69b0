//! Cells of a type of one's own in transactional words: each value in one or several words, which are read, written and
//! swapped together.
//!
//! `Coded` says how the values of a type are spelled in words. A `CellArray` is so many cells behind one another, on any
//! words of a transaction; a job that reads and writes by its calls sees whole values alone. `specs/Cells` has which
//! values the cells have, and `specs/Typed` what calls do to them; `laws` has that any calls, one after another, do to the
//! values what their typed events say.
#![tactic(auto)]

pub(crate) mod adding;
pub mod array;
pub mod coded;
pub mod laws;
pub mod limits;
pub mod numbers;
pub mod pair;
pub(crate) mod rounds;
pub mod run;
pub mod typed;

pub use array::{CellArray, CellsShape};
pub use coded::Coded;
pub use limits::{CELLS, MOST_ROUNDS};
pub use pair::Pair;
pub use run::run_cells;
pub use typed::TypedEvent;
