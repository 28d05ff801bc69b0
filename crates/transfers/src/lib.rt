//! The larger example: jobs of several kinds on one vault, lists of them on threads, and jobs of a counter.
//!
//! `Vault` says which word lists are good: those with a certain sum. `Transfer` moves an amount from one word to another,
//! `Audit` tells the sum, and `Look` tells one word; `Request` is a job of any of these kinds. [`run_transfers`] runs lists
//! of them: the words that they leave have the sum of those that they began with, and each audit told it, whatever the
//! threads did when.
//!
//! `Increment` is a counter's job, and `increment_plain` shows what its proof gives on a plain list. `AddAll` has a loop,
//! `AddPairOr` goes back to a mark if what it tried does not come out, and `add_to` is a call on any words, as a
//! collection on words has them. `PutIfAbsent` is a job on a map.
#![tactic(auto)]

pub mod add_all;
pub mod adding;
pub mod audit;
pub mod increment;
pub mod look;
pub mod on_plain;
pub mod pair_or;
pub mod put;
pub mod request;
pub mod run;
pub mod transfer;
pub mod vault;

pub use add_all::AddAll;
pub use adding::add_to;
pub use audit::Audit;
pub use increment::{CounterShape, Increment};
pub use look::Look;
pub use on_plain::{Counted, increment_plain};
pub use pair_or::AddPairOr;
pub use put::{PutAnswer, PutIfAbsent};
pub use request::{Answer, Request};
pub use run::run_transfers;
pub use transfer::Transfer;
pub use vault::Vault;
