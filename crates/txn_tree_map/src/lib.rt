//! A map from keys to values on any words, in the order of its keys: a treap of blocks.
//!
//! A `TreeMap` says which word names the block on top and which arena its blocks are of. `get`, `insert`, `remove`,
//! `sum_range` and `first_from` see the map as a finite map from keys to values, with the set of the blocks that it uses and the
//! set of those that are free; how the tree goes through the blocks stands in `specs/Trees` alone. `lay_empty` lays it with no
//! entry. `laws` has what a collection above concludes of them.
//!
//! # The tree
//!
//! Each block has a key, its value, and the names of its left and of its right subtree. Keys rise from left to
//! right, and the priority of each node is above those below it (Seidel and Aragon, "Randomized search trees",
//! 1996). A key's priority is made of the key, and different keys have different priorities, so a set of keys has
//! one tree, whatever was put in and taken out before.
//!
//! ```text
//!           (4 90)              keys      1  3  4  6  7
//!          /      \             rise from left to right,
//!      (1 70)    (7 80)         priorities 70 20 90 40 80
//!          \      /             fall from the root downwards
//!       (3 20) (6 40)
//! ```
//!
//! # Ways down
//!
//! All calls work in loops and keep no stack. A search is a path from the root to a place, the word where the next
//! name stands; `specs/Paths` has it as the list of its steps, each with the subtree that it leaves aside. What hangs
//! at the place may be taken off and another tree hung there by one write:
//!
//! ```text
//!     path: left of 7, right of 4           before        after
//!     place: the left word of 7's block     1 3 4  [6]  7
//! ```
//!
//! `insert` goes down to the key's seat, past all nodes of higher priority, parts what hangs there around the key
//! and hangs the new node above the two parts. `remove` joins the two subtrees of the key's node and hangs them where
//! it hung. Both come to what rotations along the path come to, since the tree of given keys is one.
#![tactic(auto)]

mod find;
mod first;
mod get;
mod hang;
mod in_place;
mod insert;
mod join;
pub mod laws;
mod lay;
pub mod map;
mod next;
mod remove;
mod seat;
mod spine;
mod split;
mod sum;
mod walk;

pub use in_place::Stored;
pub use map::TreeMap;
pub use spine::Spine;
