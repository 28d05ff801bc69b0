//! Tests of the public calls on plain words: those of txn_words, txn_alloc, txn_ring, txn_hash_map, txn_tree_map and
//! txn_books. They rest on what those promise, and do not prove them again. What the program runs on its own words is
//! shown by rows.
#![tactic(auto)]

#[cfg(test)]
mod blocks;
#[cfg(test)]
mod built;
#[cfg(test)]
mod maps;
#[cfg(test)]
mod paths;
#[cfg(test)]
mod ring;
#[cfg(test)]
mod scripts;
#[cfg(test)]
mod tree;
