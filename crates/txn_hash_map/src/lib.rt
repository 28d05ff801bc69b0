//! A map from keys to values on any words: a hashed chain of blocks for each of 256 buckets.
//!
//! A `ChainMap` says where its buckets lie and which arena its blocks are of. `get`, `insert` and `remove` see the
//! map as a finite map from keys to values, with the set of the blocks that it uses and the set of those that are
//! free; how the chains go through the blocks stands in `specs/Chains` alone. `lay_empty` lays it with no entry. `laws` has
//! what a collection above concludes of them.
#![tactic(auto)]

mod find;
mod front;
mod get;
mod insert;
pub mod laws;
mod lay;
pub mod map;
mod remove;

pub use map::ChainMap;
