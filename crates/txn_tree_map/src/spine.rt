//! Laying a tree by its right spine, from keys that rise.

ghost use Rattle.std.specs.Prelude.{◌≡◌, ℕ, ◌+◌, ◌≤◌, ◌<◌, IfOk, OnErr, OnOk, length, slice_set};
ghost use Rattle.std.specs.FinSet as set;
ghost use Rattle.std.specs.FinMap as map;
ghost use Rattle.txn_words.specs.Frames.{KeepsOthers};
ghost use Rattle.txn_alloc.specs.FreeLists.{Lacks};
ghost use Rattle.txn_alloc.specs.EntryMaps.{Entries, Blocks, HasMapApart, HoldsApart, IsOwn, IsUsedIn};
ghost use Rattle.txn_tree_map.specs.Trees.{TreeHolds, tree_part};
ghost use Rattle.txn_tree_map.specs.Spines.{HasSpine, IsSeatBelow};

use crate::map::{TreeMap, priority};
use std::alloc::{AllocError, Global};
use std::marker::Model;
use txn_alloc::arena::{LEFT, RIGHT, VALUE};

/// The right spine of a tree: the blocks on the way from the top down to the greatest key. Contracts see their list.
#[derive(Drop)]
pub struct Spine {
    blocks: Vec<u32>,
}

impl Model for Spine {
    ghost use Rattle.std.specs.Prelude.{ℕ, List};

    ghost Value = { List ℕ };

    ghost view = { λ spine. spine.blocks.items };
}

/// Goes up the spine past the nodes of lower priority than the key's, to the place where the key's node hangs.
fn go_up(map: &TreeMap, words: &[u64], blocks: &mut Vec<u32>, key: u64) -> Result<u64, AllocError>
    requires { HasSpine map.now key words.now blocks.old.items }
    ensures { IfOk result (λ place.
        IsSeatBelow map.now key place words.now blocks.new.items) }
{
    let rank = priority(key);
    while let Some(block) = blocks.pop() {
        let at = map.arena.place_of(block);
        if priority(words[at as usize]) > rank {
            blocks.push(block)?;
            return Ok(at + RIGHT);
        }
    }
    Ok(map.root)
}

/// Writes a node with no right subtree.
fn write_node(words: &mut [u64], at: u64, key: u64, value: u64, left: u64)
    requires { at + 4 ≤ length words.old }
    ensures { words.new
        ≡ slice_set
        (slice_set (slice_set (slice_set words.old at key) (at + 1) value) (at + 2) left) (at + 3)
        0 }
{
    words[at as usize] = key;
    words[(at + VALUE) as usize] = value;
    words[(at + LEFT) as usize] = left;
    words[(at + RIGHT) as usize] = 0;
}

impl TreeMap {
    /// The spine of a map with no entries.
    pub fn empty_spine(&self, alloc: Global, words: &[u64]) -> Spine
        requires { (used : Blocks) × TreeHolds self.now words.now map.empty used }
        ensures { (key : ℕ) → HasSpine self.now key words.now result }
    {
        let _words = words;
        Spine {
            blocks: Vec::new(alloc),
        }
    }

    /// Puts in a value at a key above all others, in a block that is neither used nor free. What it costs does not grow with
    /// the length of the spine, over all keys that are put in one after another.
    pub fn insert_greatest(
        &self,
        words: &mut [u64],
        spine: &mut Spine,
        key: u64,
        value: u64,
        block: u32,
    ) -> Result<(), AllocError>
        requires order { HasMapApart (tree_part self.now) words.old }
        requires spine { HasSpine self.now key words.old spine.old }
        requires block { block < self.now.arena.blocks }
        requires unused { ¬ IsUsedIn (tree_part self.now) words.old block }
        requires lacks { Lacks self.now.arena block words.old }

        // The map has the value at the key, and else what it had, in its blocks and this one.
        ensures put { OnOk result ((entries : Entries) (used free : Blocks)
            → HoldsApart (tree_part self.now) words.old entries used free
            → HoldsApart (tree_part self.now) words.new (map.insert entries key value)
            (set.insert used block) free) }
        ensures spine { OnOk result (HasSpine self.now (key + 1) words.new spine.new) }

        // No word is written but the root and the words of the map's blocks.
        ensures frame { OnOk result (
            KeepsOthers (IsOwn (tree_part self.now) key words.old words.new) words.old words.new) }
        ensures refused { OnErr result (words.new ≡ words.old) }
    {
        let place = go_up(self, words, &mut spine.blocks, key)?;
        spine.blocks.push(block)?;
        let below = words[place as usize];
        write_node(words, self.arena.place_of(block), key, value, below);
        words[place as usize] = u64::from(block) + 1;
        Ok(())
    }
}
