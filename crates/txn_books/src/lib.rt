//! Clearing books on words: one list of words holds the tree of accounts, the chains of prices and positions, the
//! queue of margin calls and the free blocks.
//!
//! `BooksShape` has the sizes of books, and its methods say where each part lies. Which word lists stand for which
//! books is `Stands` in `specs/Standing`; `laws` has what an operation on the words concludes when it changes one part.
//!
//! `cash`, `price`, `quantity` and `queue` have a call for each thing that an operation looks up or changes. Their
//! contracts say by `specs/Access` of txn_words what it answers and does, whatever books the words stand for. `operations` has the
//! operations of scripts, and `specs/Operating` says what they come to. `ScriptJob` is a script as a job over any words
//! of a shape, and `specs/Meaning` says what it means.
#![tactic(auto)]

pub mod building;
pub mod cash;
pub mod job;
pub mod laws;
pub mod lay;
pub mod layout;
mod listing;
pub mod on_plain;
pub mod operations;
pub mod price;
pub mod quantity;
pub mod queue;
pub mod read;
mod room;
pub mod shape;
mod trading;

pub use building::build;
pub use job::ScriptJob;
pub use lay::empty_words;
pub use on_plain::run_on_plain;
pub use operations::{Outcome, run_operation};
pub use read::read_books;
pub use shape::BooksShape;
