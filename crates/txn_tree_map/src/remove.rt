//! Taking a key out of the map.

ghost use Rattle.std.specs.Prelude.{◌<◌, IfOk, IfNone, OnOk};
ghost use Rattle.txn_words.specs.Calls.{IsReady, GoesOn, ReadsWithin, WritesOnly, WritesWithin, InEachState, LeadsTo};
ghost use Rattle.txn_alloc.specs.EntryMaps.{HasMapApart, Removes, IsOwn, MayReadToRemove};
ghost use Rattle.txn_tree_map.specs.Trees.{tree_part};
ghost use Rattle.txn_tree_map.specs.Joins.{CanCut, Cuts, IsCutOwn, IsCutSeen};

use crate::find::find;
use crate::join::join;
use crate::map::TreeMap;
use txn_alloc::arena::{LEFT, RIGHT, VALUE};
use txn_alloc::{Block, Found, give};
use txn_words::{Stop, Words};

/// Takes a block out of the tree: its two subtrees, joined, hang where it hung. Answers its value.
pub(crate) fn cut<W: Words>(w: &mut W, map: &TreeMap, found: Found) -> Result<u64, Stop>
    requires ready { IsReady W.Words w.old }
    requires block { found.block < map.now.arena.blocks }
    requires can { InEachState W.Words W.Shape.Shape w.old
        (CanCut map.now found.place found.block) }
    ensures cut { IfOk result (λ value.
        LeadsTo W.Words W.Shape.Shape w.old w.new (Cuts map.now found.place found.block value)) }
    ensures frame { OnOk result
        (WritesWithin W.Words W.Shape.Shape w.old w.new
        (IsCutOwn map.now found.place found.block)) }
    ensures reads { OnOk result (
        ReadsWithin W.Words W.Shape.Shape w.old w.new (IsCutSeen map.now found.place found.block)) }
    ensures goes_on { GoesOn W.Words w.old w.new result }
{
    let at = map.arena.place_of(found.block);
    let value = w.read(at + VALUE)?;
    let left = w.read(at + LEFT)?;
    let right = w.read(at + RIGHT)?;
    join(w, map, found.place, left, right)?;
    Ok(value)
}

impl TreeMap {
    /// Takes the key out, and gives its block back. Answers the value that it had.
    pub fn remove<W: Words>(&self, w: &mut W, key: u64) -> Result<Option<u64>, Stop>
        requires ready { IsReady W.Words w.old }
        requires order { InEachState W.Words W.Shape.Shape w.old
            (HasMapApart (tree_part self.now)) }

        // The map has the key no more, and else what it had, and the key's block is free.
        ensures removed { IfOk result (λ answer.
            LeadsTo W.Words W.Shape.Shape w.old w.new (Removes (tree_part self.now) key answer)) }
        ensures order { OnOk result (
            InEachState W.Words W.Shape.Shape w.new (HasMapApart (tree_part self.now))) }

        // No word is written but the root, the words of the map's blocks and the head for the block that it gives back.
        ensures frame { OnOk result (
            WritesWithin W.Words W.Shape.Shape w.old w.new (IsOwn (tree_part self.now) key)) }

        // If the key is absent, no word is written.
        ensures none_frame { IfOk result
            (λ answer. IfNone answer (WritesOnly W.Words w.old w.new (λ a. ⊥))) }

        // Of the map's own blocks keys and links are read, and the value of the key; if a block is given back, its head too.
        ensures reads { IfOk result (λ answer.
            ReadsWithin W.Words W.Shape.Shape w.old w.new
            (MayReadToRemove (tree_part self.now) key answer)) }
        ensures goes_on { GoesOn W.Words w.old w.new result }
    {
        match find(w, self, key)? {
            None => Ok(None),
            Some(found) => {
                let value = cut(w, self, found)?;
                give(w, &self.arena, Block::of(found.block))?;
                Ok(Some(value))
            }
        }
    }
}
