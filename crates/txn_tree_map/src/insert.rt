//! Putting a key and a value into the map.

ghost use Rattle.std.specs.Prelude.{◌≡◌, ℕ, IfOk, OnOk};
ghost use Rattle.txn_words.specs.Calls.{IsReady, GoesOn, ReadsWithin, WritesOnly, WritesWithin, InEachState, LeadsTo};
ghost use Rattle.txn_alloc.specs.declared.put.Put.TheVariants.{New, Full, Old};
ghost use Rattle.txn_alloc.specs.EntryMaps.{HasMapApart, Inserts, LacksRoom, TakesNearest, IsOwn, MayReadToInsert, IsValue};
ghost use Rattle.txn_tree_map.specs.Trees.{tree_part};
ghost use Rattle.txn_tree_map.specs.Changes.{CanPut, IsPut, IsPutOwn, IsPutSeen};

use crate::find::find;
use crate::map::TreeMap;
use crate::seat::find_seat;
use crate::split::split;
use txn_alloc::arena::VALUE;
use txn_alloc::{Put, take_near};
use txn_words::{Stop, Words};

/// Writes key and value into the block, and hangs it at the key's seat, above the parts of what hung there.
pub(crate) fn put_in<W: Words>(
    w: &mut W,
    map: &TreeMap,
    key: u64,
    value: u64,
    block: u32,
) -> Result<(), Stop>
    requires ready { IsReady W.Words w.old }
    requires missing { InEachState W.Words W.Shape.Shape w.old (CanPut map.now key block) }
    ensures put { OnOk result
        (LeadsTo W.Words W.Shape.Shape w.old w.new (IsPut map.now key value block)) }
    ensures frame { OnOk result
        (WritesWithin W.Words W.Shape.Shape w.old w.new (IsPutOwn map.now key block)) }
    ensures reads { OnOk result
        (ReadsWithin W.Words W.Shape.Shape w.old w.new (IsPutSeen map.now key block)) }
    ensures goes_on { GoesOn W.Words w.old w.new result }
{
    let seat = find_seat(w, map, key)?;
    let at = map.arena.place_of(block);
    w.write(at, key)?;
    w.write(at + VALUE, value)?;
    split(w, map, key, block, seat.name)?;
    w.write(seat.place, u64::from(block) + 1)?;
    Ok(())
}

impl TreeMap {
    /// Puts the value at the key. A key that is new gets a free block, if there is one: the one that a take near the key
    /// gives.
    pub fn insert<W: Words>(&self, w: &mut W, key: u64, value: u64) -> Result<Put, Stop>
        requires ready { IsReady W.Words w.old }
        requires order { InEachState W.Words W.Shape.Shape w.old
            (HasMapApart (tree_part self.now)) }

        // The map has the value at the key, and else what it had.
        ensures put { IfOk result (λ put.
            LeadsTo W.Words W.Shape.Shape w.old w.new
            (Inserts (tree_part self.now) key value put)) }

        // A key that is new gets the block that a take near the key gives.
        ensures nearest { IfOk result (λ put. put ≡ New
            → LeadsTo W.Words W.Shape.Shape w.old w.new (TakesNearest (tree_part self.now) key)) }

        // It answers Full exactly if in every state the key is absent and no block is free.
        ensures full { IfOk result (λ put. put ≡ Full
            → LeadsTo W.Words W.Shape.Shape w.old w.new
            (λ before _. LacksRoom (tree_part self.now) key before)) }
        ensures full_if { IfOk result (λ put.
            LeadsTo W.Words W.Shape.Shape w.old w.new
            (λ before _. LacksRoom (tree_part self.now) key before)
            → put ≡ Full) }

        ensures order { OnOk result (
            InEachState W.Words W.Shape.Shape w.new (HasMapApart (tree_part self.now))) }

        // No word is written but the root, the words of the map's blocks and the head for the block that it takes.
        ensures frame { OnOk result (
            WritesWithin W.Words W.Shape.Shape w.old w.new (IsOwn (tree_part self.now) key)) }

        // If the key was there, the word of its value alone is written.
        ensures old { IfOk result (λ put. (was : ℕ) → put ≡ Old was
            → WritesWithin W.Words W.Shape.Shape w.old w.new (IsValue (tree_part self.now) key)) }

        // If there is no room, no word is written.
        ensures full_frame { IfOk result
            (λ put. put ≡ Full → WritesOnly W.Words w.old w.new (λ a. ⊥)) }

        // Of the map's own blocks keys and links are read, and the value of the key; beside them, if a block is taken the
        // heads from that of the key round to its own, and its words, and if none is free the heads.
        ensures reads { IfOk result (λ put.
            ReadsWithin W.Words W.Shape.Shape w.old w.new
            (MayReadToInsert (tree_part self.now) key put)) }
        ensures goes_on { GoesOn W.Words w.old w.new result }
    {
        match find(w, self, key)? {
            Some(found) => {
                let at = self.arena.place_of(found.block) + VALUE;
                let old = w.read(at)?;
                w.write(at, value)?;
                Ok(Put::Old(old))
            }
            None => match take_near(w, &self.arena, key)? {
                Some(block) => {
                    put_in(w, self, key, value, block.number())?;
                    Ok(Put::New)
                }
                None => Ok(Put::Full),
            },
        }
    }
}
