//! Stores whose scripts are lists of operations: their scripts and replies, and the text of a journal.
//!
//! A store says what its operations and its values are. What all of them share stands here: `specs/Stores` has the
//! interpreter of such scripts and the output, of any store.

pub mod outcome;
pub mod plain;
pub mod reply;
pub mod script;
pub mod text;

pub use outcome::Outcome;
pub use plain::{PlainStore, run_plain};
pub use reply::{StoreReply, StoreValues};
pub use script::OperationList;
pub use text::{ToldValue, write_journal, write_reply};
