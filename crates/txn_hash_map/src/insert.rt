//! Putting a key and a value into the map.

ghost use Rattle.std.specs.Prelude.{◌≡◌, ℕ, ◌<◌, None, IfOk, OnOk};
ghost use Rattle.std.specs.FinSet as set;
ghost use Rattle.std.specs.FinMap as map;
ghost use Rattle.txn_words.specs.Frames.{KeepsOthers};
ghost use Rattle.txn_words.specs.Calls.{IsReady, GoesOn, ReadsWithin, WritesOnly, WritesWithin, InEachState, LeadsTo};
ghost use Rattle.txn_alloc.specs.declared.put.Put.TheVariants.{New, Full, Old};
ghost use Rattle.txn_alloc.specs.FreeLists.{Lacks};
ghost use Rattle.txn_alloc.specs.EntryMaps.{Entries, Blocks, HoldsApart, IsUsedIn, HasMapApart, Inserts, LacksRoom, TakesNearest, IsOwn, MayReadToInsert, IsValue};
ghost use Rattle.txn_hash_map.specs.Chains.{ChainsHold, chain_part};

use crate::find::{bucket, find};
use crate::front::put_in_front;
use crate::map::ChainMap;
use txn_alloc::arena::{NEXT, VALUE};
use txn_alloc::{Put, take_near};
use txn_words::{Stop, Words};

impl ChainMap {
    /// Puts the value at the key. A key that is new gets a free block, if there is one: the one that a take near the key
    /// gives.
    pub fn insert<W: Words>(&self, w: &mut W, key: u64, value: u64) -> Result<Put, Stop>
        requires ready { IsReady W.Words w.old }
        requires order { InEachState W.Words W.Shape.Shape w.old
            (HasMapApart (chain_part self.now)) }

        // The map has the value at the key, and else what it had.
        ensures put { IfOk result
            (λ put. LeadsTo W.Words W.Shape.Shape w.old w.new
            (Inserts (chain_part self.now) key value put)) }

        // A key that is new gets the block that a take near the key gives.
        ensures nearest { IfOk result (λ put. put ≡ New
            → LeadsTo W.Words W.Shape.Shape w.old w.new (TakesNearest (chain_part self.now) key)) }

        // It answers Full exactly if in every state the key is absent and no block is free.
        ensures full { IfOk result (λ put.
            put ≡ Full
            → LeadsTo W.Words W.Shape.Shape w.old w.new
            (λ before _. LacksRoom (chain_part self.now) key before)) }
        ensures full_if { IfOk result (λ put.
            LeadsTo W.Words W.Shape.Shape w.old w.new
            (λ before _. LacksRoom (chain_part self.now) key before) → put ≡ Full) }

        ensures order { OnOk result
            (InEachState W.Words W.Shape.Shape w.new (HasMapApart (chain_part self.now))) }

        // No word is written but the key's bucket, the words of the map's blocks and the head for the block that it takes.
        ensures frame { OnOk result
            (WritesWithin W.Words W.Shape.Shape w.old w.new (IsOwn (chain_part self.now) key)) }

        // If the key was there, the word of its value alone is written.
        ensures old { IfOk result (λ put. (was : ℕ)
            → put ≡ Old was
            → WritesWithin W.Words W.Shape.Shape w.old w.new (IsValue (chain_part self.now) key)) }

        // If there is no room, no word is written.
        ensures full_frame { IfOk result
            (λ put. put ≡ Full → WritesOnly W.Words w.old w.new (λ a. ⊥)) }

        // Of the map's own blocks keys and links are read, and the value of the key; beside them, if a block is taken the
        // heads from that of the key round to its own, and its words, and if none is free the heads.
        ensures reads { IfOk result (λ put.
            ReadsWithin W.Words W.Shape.Shape w.old w.new
            (MayReadToInsert (chain_part self.now) key put)) }
        ensures goes_on { GoesOn W.Words w.old w.new result }
    {
        match find(w, self, key)? {
            Some(found) => {
                let at = self.arena.place_of(found.block) + VALUE;
                let old = w.read(at)?;
                w.write(at, value)?;
                Ok(Put::Old(old))
            }
            None => match take_near(w, &self.arena, key)? {
                Some(block) => {
                    put_in_front(w, self, key, value, block.number())?;
                    Ok(Put::New)
                }
                None => Ok(Put::Full),
            },
        }
    }

    /// Puts in a value at a key that is absent, in front of its bucket's chain, in a block that is neither used nor free. No
    /// chain is gone along.
    pub fn insert_absent(&self, words: &mut [u64], key: u64, value: u64, block: u32)
        requires order { HasMapApart (chain_part self.now) words.old }
        requires absent { (entries : Entries) (used : Blocks)
            → ChainsHold self.now words.old entries used → map.get entries key ≡ None }
        requires block { block < self.now.arena.blocks }
        requires unused { ¬ IsUsedIn (chain_part self.now) words.old block }
        requires lacks { Lacks self.now.arena block words.old }

        // The map has the value at the key, and else what it had, in its blocks and this one.
        ensures put { (entries : Entries) (used free : Blocks)
            → HoldsApart (chain_part self.now) words.old entries used free
            → HoldsApart (chain_part self.now) words.new (map.insert entries key value)
            (set.insert used block) free }

        // No word is written but the key's bucket and the words of the map's blocks.
        ensures frame { KeepsOthers (IsOwn (chain_part self.now) key words.old words.new) words.old
            words.new }
    {
        let place = (self.buckets + bucket(key)) as usize;
        let at = self.arena.place_of(block);
        let next = words[place];
        words[at as usize] = key;
        words[(at + VALUE) as usize] = value;
        words[(at + NEXT) as usize] = next;
        words[place] = u64::from(block) + 1;
    }
}
