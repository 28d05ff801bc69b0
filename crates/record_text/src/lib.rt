//! The language of a record store: operations on records with an index by rank, their sequential interpreter, and texts.
//!
//! A record has an identifier, a rank and data. `specs/Interpreter` says what a script replies and which records it leaves,
//! over a finite map alone; `run_plain` is a body for it in memory, with which others are compared. `read_records` reads
//! the text of an input, and `records_text` makes that of an output.
#![tactic(auto)]

pub mod input;
pub mod language;
pub mod laws;
pub mod limits;
pub mod reader;
pub mod reply;
pub mod report;
pub mod run;
pub mod script;
pub mod store;
pub mod words;

pub use input::RecordInput;
pub use language::Records;
pub use reader::read_records;
pub use reply::{Ids, RecordReply, RecordValue, RecordValues};
pub use report::records_text;
pub use run::run_plain;
pub use script::{RecordOp, RecordScript};
pub use store::Store;
