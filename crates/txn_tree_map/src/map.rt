//! Where a tree map lies, and the order of its priorities.

ghost use Rattle.std.specs.Prelude.{◌≡◌, ◌^◌, ◌<◌};
ghost use Rattle.txn_tree_map.specs.Trees.{priority_of, tree_part};

use txn_alloc::spread::spread;
use txn_alloc::{Arena, BlockMap};

/// A map from keys to values on words: a treap of the arena's blocks.
#[derive(Clone, Copy, Debug, PartialEq, Eq)]
pub struct TreeMap {
    /// The word that names the block on top.
    pub root: u64,
    /// Whose blocks the tree is built of. Other collections may take blocks of it too.
    pub arena: Arena,
}

impl BlockMap for TreeMap {
    ghost part = { λ map. tree_part map };
}

/// The priority of a key. The greater is higher.
pub(crate) fn priority(key: u64) -> u64
    ensures value { result ≡ priority_of key }
    // A number of 64 bits, which callers' proofs know of no field of a struct.
    ensures small { key < 2 ^ 64 }
{
    spread(key)
}
