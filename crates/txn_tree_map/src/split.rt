//! Parting a tree around a key.

ghost use Rattle.std.specs.Prelude.{◌≡◌, ◌≢◌, ◌⊎◌, ◌<◌, IfOk, OnOk};
ghost use Rattle.txn_words.specs.Frames.{AppendsReads};
ghost use Rattle.txn_words.specs.Calls.{IsReady, GoesOn, WritesOnly, WritesWithin, ReadsWithin, InEachState, LeadsTo};
ghost use Rattle.txn_tree_map.specs.Changes.{CanSplit, IsParted, CanPart, PartsOne, Splits, IsSplitOwn, IsSplitSeen, IsEndOrTop};

use crate::hang::hang;
use crate::map::TreeMap;
use txn_alloc::arena::{BLOCK_WORDS, LEFT, RIGHT};
use txn_words::{Stop, Words};

/// How far a tree is parted: where the next part with smaller keys hangs, where the next one with greater keys
/// hangs, and the name of what is to be parted still.
#[derive(Clone, Copy)]
pub(crate) struct Ends {
    pub smaller: u64,
    pub greater: u64,
    pub rest: u64,
}

/// Hangs the top of the rest on its side, and goes on with its inner subtree.
pub(crate) fn part_one<W: Words>(
    w: &mut W,
    map: &TreeMap,
    key: u64,
    ends: Ends,
) -> Result<Ends, Stop>
    requires ready { IsReady W.Words w.old }
    requires rest { ends.rest ≢ 0 }
    requires parted { InEachState W.Words W.Shape.Shape w.old
        (CanPart map.now key ends.smaller ends.greater ends.rest) }
    ensures parted { IfOk result (λ next.
        LeadsTo W.Words W.Shape.Shape w.old w.new
        (PartsOne map.now key ends.smaller ends.greater ends.rest next.smaller next.greater
        next.rest)) }
    ensures frame { OnOk result
        (WritesOnly W.Words w.old w.new (λ a. (a ≡ ends.smaller) ⊎ (a ≡ ends.greater))) }
    ensures reads { OnOk result (
        AppendsReads (W.trace w.old) (W.trace w.new)
        (IsEndOrTop map.now ends.smaller ends.greater ends.rest)) }
    ensures goes_on { GoesOn W.Words w.old w.new result }
{
    let Ends {
        smaller,
        greater,
        rest,
    } = ends;
    let blocks = u64::from(map.arena.blocks);
    prove!(rest - 1 < blocks);
    let at = map.arena.first + BLOCK_WORDS * (rest - 1);
    let there = w.read(at)?;
    if there < key {
        let right = hang(w, smaller, rest, at + RIGHT)?;
        return Ok(Ends {
            smaller: at + RIGHT,
            greater,
            rest: right,
        });
    }
    let left = hang(w, greater, rest, at + LEFT)?;
    Ok(Ends {
        smaller,
        greater: at + LEFT,
        rest: left,
    })
}

/// Parts the tree that the name heads, except for the last word on each side.
pub(crate) fn part<W: Words>(
    w: &mut W,
    map: &TreeMap,
    key: u64,
    block: u32,
    name: u64,
) -> Result<Ends, Stop>
    requires ready { IsReady W.Words w.old }
    requires whole { InEachState W.Words W.Shape.Shape w.old (CanSplit map.now key block name) }
    ensures parted { IfOk result (λ ends.
        LeadsTo W.Words W.Shape.Shape w.old w.new
        (IsParted map.now key block name 0 ends.smaller ends.greater 0)) }
    ensures frame { OnOk result
        (WritesWithin W.Words W.Shape.Shape w.old w.new (IsSplitOwn map.now key block name)) }
    ensures reads { OnOk result
        (ReadsWithin W.Words W.Shape.Shape w.old w.new (IsSplitSeen map.now key block name)) }
    ensures goes_on { GoesOn W.Words w.old w.new result }
{
    let at = map.arena.place_of(block);
    let mut ends = Ends {
        smaller: at + LEFT,
        greater: at + RIGHT,
        rest: name,
    };
    for _ in 0..map.arena.blocks {
        if ends.rest == 0 {
            return Ok(ends);
        }
        ends = part_one(w, map, key, ends)?;
    }
    Ok(ends)
}

/// Parts the tree that the name heads: the block's words name what has smaller keys and what has greater ones.
pub(crate) fn split<W: Words>(
    w: &mut W,
    map: &TreeMap,
    key: u64,
    block: u32,
    name: u64,
) -> Result<(), Stop>
    requires ready { IsReady W.Words w.old }
    requires whole { InEachState W.Words W.Shape.Shape w.old (CanSplit map.now key block name) }
    ensures split { OnOk result
        (LeadsTo W.Words W.Shape.Shape w.old w.new (Splits map.now key block name)) }
    ensures frame { OnOk result
        (WritesWithin W.Words W.Shape.Shape w.old w.new (IsSplitOwn map.now key block name)) }
    ensures reads { OnOk result
        (ReadsWithin W.Words W.Shape.Shape w.old w.new (IsSplitSeen map.now key block name)) }
    ensures goes_on { GoesOn W.Words w.old w.new result }
{
    let ends = part(w, map, key, block, name)?;
    w.write(ends.smaller, 0)?;
    w.write(ends.greater, 0)?;
    Ok(())
}
