//! Laying an empty map.

ghost use Rattle.std.specs.Prelude.{◌≡◌, ◌⊎◌};
ghost use Rattle.std.specs.FinSet as set;
ghost use Rattle.std.specs.FinMap as entry_map;
ghost use Rattle.txn_words.specs.Frames.{KeepsOthers};
ghost use Rattle.txn_alloc.specs.EntryMaps.{HoldsApart, HasMapApart};
ghost use Rattle.txn_alloc.specs.Laying.{all_blocks, HasAllRising, IsWrittenByLaying};
ghost use Rattle.txn_tree_map.specs.Trees.{IsLaid, tree_part};

use crate::map::TreeMap;
use txn_alloc::lay_all_free;

impl TreeMap {
    /// Lays the map with no entry. All blocks of its arena are free then, each list by rising number.
    pub fn lay_empty(&self, words: &mut [u64])
        requires { IsLaid self.now words.old }
        ensures map { HoldsApart (tree_part self.now) words.new entry_map.empty set.empty
            (set.from_list (all_blocks self.now.arena)) }
        ensures order { HasMapApart (tree_part self.now) words.new }
        ensures lists { HasAllRising self.now.arena words.new }

        // No word is written but the root, the heads and the blocks' first words.
        ensures others { KeepsOthers (λ a. (a ≡ self.now.root)
            ⊎ IsWrittenByLaying self.now.arena (all_blocks self.now.arena) a) words.old words.new }
    {
        words[self.root as usize] = 0;
        lay_all_free(words, &self.arena);
    }
}
