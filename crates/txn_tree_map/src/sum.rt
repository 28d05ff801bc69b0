//! The sum of the values from one key to another.

ghost use Rattle.std.specs.Prelude.{◌+◌, ◌<◌, ◌≤◌, ◌^◌, IfOk, IfSome, IfNone, OnOk};
ghost use Rattle.txn_words.specs.Calls.{IsReady, GoesOn, ReadsWithin, WritesOnly, InEachState, LeadsTo};
ghost use Rattle.txn_words.specs.Looks.{Looks};
ghost use Rattle.txn_alloc.specs.EntryMaps.{HasMap, SumsRange, MayReadRange};
ghost use Rattle.txn_tree_map.specs.Trees.{tree_part};
ghost use Rattle.txn_tree_map.specs.Sums.{IsAnyWord, IsNext, HasNoneTo};
ghost use Rattle.txn_tree_map.specs.Walks.{IsWalk};

use crate::map::TreeMap;
use crate::walk::{Walk, next_node};
use txn_alloc::arena::VALUE;
use txn_words::{Stop, Words};

/// A key of the map, and its value.
#[derive(Clone, Copy)]
pub(crate) struct Entry {
    pub key: u64,
    pub value: u64,
}

/// Of the entries whose keys are from `least` to `high`, both included, the one with the least key.
/// The walk then stands right behind it.
#[inline(always)]
pub(crate) fn next_entry<W: Words>(
    w: &mut W,
    map: &TreeMap,
    walk: &mut Walk,
    least: u64,
    high: u64,
) -> Result<Option<Entry>, Stop>
    requires ready { IsReady W.Words w.old }
    requires order { InEachState W.Words W.Shape.Shape w.old (HasMap (tree_part map.now)) }
    requires walk { InEachState W.Words W.Shape.Shape w.old (IsWalk map.now walk.old least 0) }
    ensures next { IfOk result (λ answer. IfSome answer (λ entry.
        Looks (W.Shape.word_count (W.shape w.old)) (W.Shape.good (W.shape w.old)) (W.trace w.old)
        (W.trace w.new) IsAnyWord (IsNext map.now least entry.key entry.value))) }
    ensures walk { IfOk result (λ answer. IfSome answer (λ entry.
        InEachState W.Words W.Shape.Shape w.new (IsWalk map.now walk.new (entry.key + 1) 0))) }
    ensures none { IfOk result (λ answer. IfNone answer
        (Looks (W.Shape.word_count (W.shape w.old)) (W.Shape.good (W.shape w.old)) (W.trace w.old)
        (W.trace w.new) IsAnyWord (HasNoneTo map.now least high))) }
    ensures low { IfOk result (λ answer. IfSome answer (λ entry. least ≤ entry.key)) }
    ensures high { IfOk result (λ answer. IfSome answer (λ entry. entry.key ≤ high)) }
    // A number of 64 bits, which callers' proofs know of no field of a struct.
    ensures small { IfOk result (λ answer. IfSome answer (λ entry. entry.value < 2 ^ 64)) }
    ensures reads { OnOk result (
        ReadsWithin W.Words W.Shape.Shape w.old w.new
        (MayReadRange (tree_part map.now) least high)) }
    ensures goes_on { GoesOn W.Words w.old w.new result }
{
    match next_node(w, map, walk, least)? {
        None => Ok(None),
        Some(node) => {
            let key = node.key;
            if key > high {
                return Ok(None);
            }
            prove!(node.block < map.arena.blocks);
            let value = w.read(map.arena.place_of(node.block) + VALUE)?;
            Ok(Some(Entry { key, value }))
        }
    }
}

/// The sum of the values of the keys from `low` to `high`, both included, along a walk that stands
/// before them.
fn sum_along<W: Words>(
    w: &mut W,
    map: &TreeMap,
    walk: &mut Walk,
    low: u64,
    high: u64,
) -> Result<u128, Stop>
    requires ready { IsReady W.Words w.old }
    requires order { InEachState W.Words W.Shape.Shape w.old (HasMap (tree_part map.now)) }
    requires walk { InEachState W.Words W.Shape.Shape w.old (IsWalk map.now walk.old low 0) }
    ensures sum { IfOk result (λ total.
        LeadsTo W.Words W.Shape.Shape w.old w.new (SumsRange (tree_part map.now) low high total)) }
    ensures order { OnOk result (
        InEachState W.Words W.Shape.Shape w.new (HasMap (tree_part map.now))) }
    ensures frame { OnOk result (WritesOnly W.Words w.old w.new (λ a. ⊥)) }
    ensures reads { OnOk result (
        ReadsWithin W.Words W.Shape.Shape w.old w.new (MayReadRange (tree_part map.now) low high)) }
    ensures goes_on { GoesOn W.Words w.old w.new result }
{
    let mut total = 0u128;
    let mut least = low;
    for _ in 0..map.arena.blocks {
        let entry = match next_entry(w, map, walk, least, high)? {
            None => return Ok(total),
            Some(entry) => entry,
        };
        total += u128::from(entry.value);
        if entry.key == high {
            return Ok(total);
        }
        least = entry.key + 1;
    }
    Ok(total)
}

impl TreeMap {
    /// The sum of the values of the keys from `low` to `high`, both included: 0 if `low` is above `high`.
    ///
    /// It walks from key to key, keeps the nearest nodes still to come in a room of fixed size on its
    /// stack, and takes no memory. A sum of `n` entries in a tree of depth `d` reads in proportion to
    /// `d` and to `n + n * d / 256`. It reads no value twice.
    pub fn sum_range<W: Words>(&self, w: &mut W, low: u64, high: u64) -> Result<u128, Stop>
        requires ready { IsReady W.Words w.old }
        requires order { InEachState W.Words W.Shape.Shape w.old (HasMap (tree_part self.now)) }

        // Nothing changes, and the answer is the sum.
        ensures sum { IfOk result (λ total.
            LeadsTo W.Words W.Shape.Shape w.old w.new
            (SumsRange (tree_part self.now) low high total)) }
        ensures order { OnOk result (
            InEachState W.Words W.Shape.Shape w.new (HasMap (tree_part self.now))) }

        // No word is written.
        ensures frame { OnOk result (WritesOnly W.Words w.old w.new (λ a. ⊥)) }

        // Of the map's own blocks keys and links are read, and the values of these keys.
        ensures reads { OnOk result (
            ReadsWithin W.Words W.Shape.Shape w.old w.new
            (MayReadRange (tree_part self.now) low high)) }
        ensures goes_on { GoesOn W.Words w.old w.new result }
    {
        let mut walk = Walk::new(self);
        sum_along(w, self, &mut walk, low, high)
    }
}
