//! Blocks of four words in any words: taken, given back, and exact about when none is left.
//!
//! An `Arena` says where its blocks lie and where the lists of its free blocks begin, each block in the list of its
//! number modulo sixteen. `take_near`, `take` and `give` see the free blocks as a set; how the lists go through them
//! stands in `specs/FreeLists` alone. `laws` has what a collection above concludes of them, and `specs/Blocks` in how
//! many parts of an arena a block is. `lay_all_free` lays them all, and `MapShape` is the shape of words with a map on such
//! blocks.
#![tactic(auto)]

pub mod arena;
pub mod found;
pub mod free;
pub mod laws;
pub mod lay;
pub mod put;
pub mod shape;
pub mod spread;

pub use arena::{Arena, Block};
pub use found::Found;
pub use free::{give, take, take_near};
pub use lay::{lay_all_free, lay_free};
pub use put::Put;
pub use shape::{BlockMap, MapShape};
