//! Laying an empty map.

ghost use Rattle.std.specs.Prelude.{◌⊎◌};
ghost use Rattle.std.specs.FinSet as set;
ghost use Rattle.std.specs.FinMap as entry_map;
ghost use Rattle.txn_words.specs.Frames.{KeepsOthers};
ghost use Rattle.txn_alloc.specs.EntryMaps.{HoldsApart, HasMapApart};
ghost use Rattle.txn_alloc.specs.Laying.{all_blocks, HasAllRising, IsWrittenByLaying};
ghost use Rattle.txn_hash_map.specs.Chains.{IsBucket, IsLaid, chain_part};

use crate::map::{BUCKETS, ChainMap};
use txn_alloc::lay::clear;
use txn_alloc::lay_all_free;

impl ChainMap {
    /// Lays the map with no entry. All blocks of its arena are free then, each list by rising number.
    pub fn lay_empty(&self, words: &mut [u64])
        requires { IsLaid self.now words.old }
        ensures map { HoldsApart (chain_part self.now) words.new entry_map.empty set.empty
            (set.from_list (all_blocks self.now.arena)) }
        ensures order { HasMapApart (chain_part self.now) words.new }
        ensures lists { HasAllRising self.now.arena words.new }

        // No word is written but the buckets, the heads and the blocks' first words.
        ensures others { KeepsOthers (λ a. IsBucket self.now a
            ⊎ IsWrittenByLaying self.now.arena (all_blocks self.now.arena) a) words.old words.new }
    {
        clear(words, self.buckets, BUCKETS);
        lay_all_free(words, &self.arena);
    }
}
