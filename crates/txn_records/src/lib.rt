//! A record store on words: one list of words holds a tree of ranks by identifier, an index of data by rank, and the
//! free blocks of both.
//!
//! `RecordShape` has the size of a store, and its methods say where each part lies. Which word lists stand for which
//! records is `Stands` in `specs/Standing`; `laws` has what follows of it.
//!
//! `trees` has a call for each thing that is looked up or changed in one of the two trees, whatever they hold.
//! `records` and `listing` have the operations on records, and `store` what makes of them a `Store` of txn_stores, which
//! runs all scripts of an input by workers on threads (`run_records`).
#![tactic(auto)]

pub mod closing;
pub mod laws;
pub mod lay;
pub mod layout;
pub mod listing;
mod operations;
pub mod records;
pub mod run;
pub mod shape;
pub mod store;
pub mod trees;

pub use closing::{all_records, records_of_words};
pub use lay::empty_words;
pub use listing::ids_from;
pub use records::{drop_record, put_record, record_of};
pub use run::{RecordDay, RecordDone, RecordJob, run_records};
pub use shape::RecordShape;
pub use txn_stores::run_on_plain;
