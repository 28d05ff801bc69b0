//! The search for a key, from the root downwards.

ghost use Rattle.std.specs.Prelude.{◌≡◌, ◌<◌, IfOk, IfSome, IfNone, if◌then◌else◌};
ghost use Rattle.txn_words.specs.Calls.{IsReady, GoesOn, InEachState};
ghost use Rattle.txn_words.specs.Looks.{Looks};
ghost use Rattle.txn_alloc.specs.EntryMaps.{HasMap};
ghost use Rattle.txn_tree_map.specs.Trees.{tree_part};
ghost use Rattle.txn_tree_map.specs.Searches.{HasTop, IsNamed, IsEnd, IsFoundAt, IsMissing, IsLink, IsPlace, IsPlaceOrKey};

use crate::map::TreeMap;
use txn_alloc::Found;
use txn_alloc::arena::{LEFT, RIGHT};
use txn_words::{Stop, Words};

/// A node that a word names: its block and its key.
#[derive(Clone, Copy, Default)]
pub(crate) struct Named {
    pub block: u32,
    pub key: u64,
}

/// How far behind the first word of a block the word stands that names its left subtree, or its right one.
pub(crate) fn side(left: bool) -> u64
    ensures { result ≡ (if left then 2 else 3) }
{
    if left { LEFT } else { RIGHT }
}

/// The node that the word at the place names, if it names one.
#[inline(always)]
pub(crate) fn look<W: Words>(w: &mut W, map: &TreeMap, place: u64) -> Result<Option<Named>, Stop>
    requires ready { IsReady W.Words w.old }
    requires top { InEachState W.Words W.Shape.Shape w.old (HasTop map.now place) }
    ensures named { IfOk result (λ answer. IfSome answer (λ node.
        Looks (W.Shape.word_count (W.shape w.old)) (W.Shape.good (W.shape w.old)) (W.trace w.old)
        (W.trace w.new) (IsPlaceOrKey map.now place node.block)
        (IsNamed map.now place node.block node.key))) }
    ensures end { IfOk result (λ answer. IfNone answer
        (Looks (W.Shape.word_count (W.shape w.old)) (W.Shape.good (W.shape w.old)) (W.trace w.old)
        (W.trace w.new) (IsPlace place) (IsEnd place))) }
    ensures block { IfOk result
        (λ answer. IfSome answer (λ node. node.block < map.now.arena.blocks)) }
    ensures goes_on { GoesOn W.Words w.old w.new result }
{
    let blocks = map.arena.blocks;
    let name = w.read(place)?;
    if name == 0 {
        return Ok(None);
    }
    prove!(name - 1 < u64::from(blocks));
    let block = (name - 1) as u32;
    let key = w.read(map.arena.place_of(block))?;
    Ok(Some(Named { block, key }))
}

/// Looks for the key, from the root downwards.
#[inline(always)]
pub(crate) fn find<W: Words>(w: &mut W, map: &TreeMap, key: u64) -> Result<Option<Found>, Stop>
    requires ready { IsReady W.Words w.old }
    requires order { InEachState W.Words W.Shape.Shape w.old (HasMap (tree_part map.now)) }
    ensures found { IfOk result (λ answer. IfSome answer (λ f.
        Looks (W.Shape.word_count (W.shape w.old)) (W.Shape.good (W.shape w.old)) (W.trace w.old)
        (W.trace w.new) (IsLink map.now) (IsFoundAt map.now key f.place f.block))) }
    ensures missing { IfOk result (λ answer. IfNone answer
        (Looks (W.Shape.word_count (W.shape w.old)) (W.Shape.good (W.shape w.old)) (W.trace w.old)
        (W.trace w.new) (IsLink map.now) (IsMissing map.now key))) }
    ensures block { IfOk result (λ answer. IfSome answer (λ f. f.block < map.now.arena.blocks)) }
    ensures goes_on { GoesOn W.Words w.old w.new result }
{
    let mut place = map.root;
    for _ in 0..map.arena.blocks {
        let node = match look(w, map, place)? {
            None => return Ok(None),
            Some(node) => node,
        };
        let block = node.block;
        if node.key == key {
            return Ok(Some(Found { place, block }));
        }
        prove!(block < map.arena.blocks);
        place = map.arena.place_of(block) + side(key < node.key);
    }
    Ok(None)
}
