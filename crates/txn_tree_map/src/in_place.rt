//! Where the value of a key stands, and writing there.

ghost use Rattle.std.specs.Prelude.{IfOk, IfSome, OnOk};
ghost use Rattle.txn_words.specs.Calls.{IsReady, GoesOn, WritesOnly, InEachState, LeadsTo, ReadsOnly, ReadsWithin};
ghost use Rattle.txn_alloc.specs.EntryMaps.{HasMap, HasMapApart, Finds, MayRead};
ghost use Rattle.txn_tree_map.specs.Trees.{tree_part};
ghost use Rattle.txn_tree_map.specs.Stored.{HasKeyIn, IsValueOf, KeepsBlocks, Sets, value_in};

use crate::find::find;
use crate::map::TreeMap;
use txn_alloc::arena::VALUE;
use txn_words::{Stop, Words};

/// A value of the map, and the block in which it stands beside its key.
#[derive(Clone, Copy, Debug, PartialEq, Eq)]
pub struct Stored {
    pub block: u32,
    pub value: u64,
}

impl TreeMap {
    /// The value at the key, if there is one, with the block that holds both.
    pub fn stored<W: Words>(&self, w: &mut W, key: u64) -> Result<Option<Stored>, Stop>
        requires ready { IsReady W.Words w.old }
        requires order { InEachState W.Words W.Shape.Shape w.old (HasMap (tree_part self.now)) }

        // Nothing changes, and the answer is what the map has at the key.
        ensures found { IfOk result (λ answer. LeadsTo W.Words W.Shape.Shape w.old w.new
            (Finds (tree_part self.now) key (value_in answer))) }
        ensures held { IfOk result (λ answer. IfSome answer (λ stored.
            InEachState W.Words W.Shape.Shape w.new (HasKeyIn self.now key stored.block))) }
        ensures order { OnOk result (
            InEachState W.Words W.Shape.Shape w.new (HasMap (tree_part self.now))) }

        // No word is written.
        ensures frame { OnOk result (WritesOnly W.Words w.old w.new (λ a. ⊥)) }

        // Of the map's own blocks keys and links are read, and the value of the key.
        ensures reads { OnOk result (
            ReadsWithin W.Words W.Shape.Shape w.old w.new (MayRead (tree_part self.now) key)) }
        ensures goes_on { GoesOn W.Words w.old w.new result }
    {
        match find(w, self, key)? {
            None => Ok(None),
            Some(found) => {
                let block = found.block;
                let value = w.read(self.arena.place_of(block) + VALUE)?;
                Ok(Some(Stored { block, value }))
            }
        }
    }

    /// Gives a key another value, without a search: in the block where it stands.
    pub fn set_stored<W: Words>(
        &self,
        w: &mut W,
        key: u64,
        block: u32,
        value: u64,
    ) -> Result<(), Stop>
        requires ready { IsReady W.Words w.old }
        requires order { InEachState W.Words W.Shape.Shape w.old
            (HasMapApart (tree_part self.now)) }
        requires held { InEachState W.Words W.Shape.Shape w.old (HasKeyIn self.now key block) }

        // The map has the value at the key, and else what it had; each key stands where it stood.
        ensures put { OnOk result
            (LeadsTo W.Words W.Shape.Shape w.old w.new (Sets self.now key value)) }
        ensures blocks { OnOk result
            (LeadsTo W.Words W.Shape.Shape w.old w.new (KeepsBlocks self.now)) }
        ensures order { OnOk result (
            InEachState W.Words W.Shape.Shape w.new (HasMapApart (tree_part self.now))) }

        // The word of the value alone is written, and at most that is read.
        ensures frame { OnOk result (WritesOnly W.Words w.old w.new (IsValueOf self.now block)) }
        ensures reads { OnOk result (ReadsOnly W.Words w.old w.new (IsValueOf self.now block)) }
        ensures goes_on { GoesOn W.Words w.old w.new result }
    {
        w.write(self.arena.place_of(block) + VALUE, value)?;
        Ok(())
    }
}
