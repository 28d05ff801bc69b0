//! Where a chained map lies.

ghost use Rattle.txn_hash_map.specs.Chains.{chain_part};

use txn_alloc::{Arena, BlockMap};

/// How many buckets a map has. Their words are as many, from `ChainMap::buckets` on.
pub const BUCKETS: u64 = 256;

/// A map from keys to values on words. Each bucket's word heads a chain of the arena's blocks.
#[derive(Clone, Copy, Debug, PartialEq, Eq)]
pub struct ChainMap {
    /// The first of the buckets' words.
    pub buckets: u64,
    /// Whose blocks the chains are built of. Other collections may take blocks of it too.
    pub arena: Arena,
}

impl BlockMap for ChainMap {
    ghost part = { λ map. chain_part map };
}
