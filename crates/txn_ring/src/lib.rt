//! A queue with a bounded number of items, on any words.
//!
//! A `Ring` says where its words lie. `push`, `pop` and `len` see the queue as one list, front first; how the items go
//! round the ring's places stands in `specs/Queues` alone. `laws` has what a collection beside it concludes of them.
#![tactic(auto)]

pub mod laws;
pub mod ring;

pub use ring::Ring;
