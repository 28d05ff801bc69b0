//! Taking a key out of the map.

ghost use Rattle.std.specs.Prelude.{IfOk, IfNone, OnOk};
ghost use Rattle.txn_words.specs.Calls.{IsReady, GoesOn, ReadsWithin, WritesOnly, WritesWithin, InEachState, LeadsTo};
ghost use Rattle.txn_alloc.specs.EntryMaps.{HasMapApart, Removes, IsOwn, MayReadToRemove};
ghost use Rattle.txn_hash_map.specs.Chains.{chain_part};

use crate::find::find;
use crate::map::ChainMap;
use txn_alloc::arena::{NEXT, VALUE};
use txn_alloc::{Block, give};
use txn_words::{Stop, Words};

impl ChainMap {
    /// Takes the key out, and gives its block back. Answers the value that it had.
    pub fn remove<W: Words>(&self, w: &mut W, key: u64) -> Result<Option<u64>, Stop>
        requires ready { IsReady W.Words w.old }
        requires order { InEachState W.Words W.Shape.Shape w.old
            (HasMapApart (chain_part self.now)) }

        // The map has the key no more, and else what it had, and the key's block is free.
        ensures removed { IfOk result
            (λ answer.
            LeadsTo W.Words W.Shape.Shape w.old w.new (Removes (chain_part self.now) key answer)) }
        ensures order { OnOk result
            (InEachState W.Words W.Shape.Shape w.new (HasMapApart (chain_part self.now))) }

        // No word is written but the key's bucket, the words of the map's blocks and the head for the block that it gives back.
        ensures frame { OnOk result
            (WritesWithin W.Words W.Shape.Shape w.old w.new (IsOwn (chain_part self.now) key)) }

        // If the key is absent, no word is written.
        ensures none_frame { IfOk result
            (λ answer. IfNone answer (WritesOnly W.Words w.old w.new (λ a. ⊥))) }

        // Of the map's own blocks keys and links are read, and the value of the key; if a block is given back, its head too.
        ensures reads { IfOk result (λ answer.
            ReadsWithin W.Words W.Shape.Shape w.old w.new
            (MayReadToRemove (chain_part self.now) key answer)) }
        ensures goes_on { GoesOn W.Words w.old w.new result }
    {
        match find(w, self, key)? {
            None => Ok(None),
            Some(found) => {
                let at = self.arena.place_of(found.block);
                let value = w.read(at + VALUE)?;
                let next = w.read(at + NEXT)?;
                w.write(found.place, next)?;
                give(w, &self.arena, Block::of(found.block))?;
                Ok(Some(value))
            }
        }
    }
}
