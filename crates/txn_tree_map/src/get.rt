//! Looking a key up.

ghost use Rattle.std.specs.Prelude.{IfOk, OnOk};
ghost use Rattle.txn_words.specs.Calls.{IsReady, GoesOn, WritesOnly, InEachState, LeadsTo, ReadsWithin};
ghost use Rattle.txn_alloc.specs.EntryMaps.{HasMap, Finds, MayRead};
ghost use Rattle.txn_tree_map.specs.Trees.{tree_part};

use crate::map::TreeMap;
use txn_words::{Stop, Words};

impl TreeMap {
    /// The value at the key, if there is one.
    pub fn get<W: Words>(&self, w: &mut W, key: u64) -> Result<Option<u64>, Stop>
        requires ready { IsReady W.Words w.old }
        requires order { InEachState W.Words W.Shape.Shape w.old (HasMap (tree_part self.now)) }

        // Nothing changes, and the answer is what the map has at the key.
        ensures found { IfOk result (λ answer.
            LeadsTo W.Words W.Shape.Shape w.old w.new (Finds (tree_part self.now) key answer)) }
        ensures order { OnOk result (
            InEachState W.Words W.Shape.Shape w.new (HasMap (tree_part self.now))) }

        // No word is written.
        ensures frame { OnOk result (WritesOnly W.Words w.old w.new (λ a. ⊥)) }

        // Of the map's own blocks keys and links are read, and the value of the key.
        ensures reads { OnOk result (
            ReadsWithin W.Words W.Shape.Shape w.old w.new (MayRead (tree_part self.now) key)) }
        ensures goes_on { GoesOn W.Words w.old w.new result }
    {
        match self.stored(w, key)? {
            None => Ok(None),
            Some(stored) => Ok(Some(stored.value)),
        }
    }
}
