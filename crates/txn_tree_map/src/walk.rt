//! A walk through the nodes of the tree in the order of their keys.
//!
//! The node next to one is the leftmost of its right subtree, or if that is empty the nearest
//! node above it at which the way went to the left. A walk keeps the nearest such nodes in a room of
//! fixed size. If the room is full the farther half is dropped, and once all that are kept have
//! come, the walk begins again at the root. So between two searches from the root at least half a
//! room of nodes comes.

ghost use Rattle.std.specs.Prelude.{◌≡◌, ◌==◌, ◌/◌, ◌<◌, ◌≤◌, true, false, [], drop};
ghost use Rattle.std.specs.Prelude.{IfOk, OnOk, IfNone, if◌then◌else◌};
ghost use Rattle.arrayvec.specs.ArrayVec.{array_vec_len};
ghost use Rattle.txn_words.specs.Calls.{IsReady, GoesOn, InEachState};
ghost use Rattle.txn_words.specs.Looks.{Looks};
ghost use Rattle.txn_tree_map.specs.Searches.{IsLink};
ghost use Rattle.txn_tree_map.specs.Walks.{Keeps, IsWalk, HasCome};
ghost use Rattle.txn_tree_map.specs.declared.walk.TheConstants.{KEPT};

use crate::find::{Named, look, side};
use crate::map::TreeMap;
use arrayvec::ArrayVec;
use txn_alloc::arena::RIGHT;
use txn_words::{Stop, Words};

/// How many nodes a walk keeps at most.
pub(crate) const KEPT: usize = 256;

/// How far a walk has come.
#[derive(Drop)]
pub(crate) struct Walk {
    /// The word that names what is still to be searched.
    pub place: u64,
    /// The nearest nodes above it at which the way went to the left, the nearest last.
    pub kept: ArrayVec<Named, KEPT>,
    /// Whether no such node was dropped.
    pub whole: bool,
}

impl Walk {
    /// At the root.
    pub(crate) fn new(map: &TreeMap) -> Walk
        ensures place { result.place ≡ map.now.root }
        ensures kept { result.kept.items ≡ [] }
        ensures whole { result.whole ≡ true }
    {
        Walk {
            place: map.root,
            kept: ArrayVec::new(),
            whole: true,
        }
    }

    /// At the root again.
    fn begin_again(&mut self, map: &TreeMap)
        ensures place { self.new.place ≡ map.now.root }
        ensures kept { self.new.kept.items ≡ [] }
        ensures whole { self.new.whole ≡ true }
    {
        self.place = map.root;
        self.kept.clear();
        self.whole = true;
    }

    /// Makes room for one node more: if there is none, the farther half goes.
    fn make_room(&mut self)
        ensures place { self.new.place ≡ self.old.place }
        ensures kept { self.new.kept.items ≡ (if array_vec_len self.old.kept == KEPT
            then drop (KEPT / 2) self.old.kept.items else self.old.kept.items) }
        ensures whole { self.new.whole ≡ (if array_vec_len self.old.kept == KEPT
            then false else self.old.whole) }
        ensures room { array_vec_len self.new.kept < KEPT }
    {
        if self.kept.is_full() {
            self.kept.drain(..KEPT / 2);
            self.whole = false;
        }
    }

    /// Keeps the node, unless its key is below `least`.
    fn keep(&mut self, node: Named, least: u64)
        ensures place { self.new.place ≡ self.old.place }
        ensures low { node.key < least → self.new ≡ self.old }
        ensures kept { least ≤ node.key → Keeps node self.old self.new }
    {
        if node.key < least {
            return;
        }
        self.make_room();
        self.kept.push(node);
    }
}

/// Goes down to where nothing hangs: to the left of nodes whose keys are `least` or more, else to
/// the right.
fn descend<W: Words>(w: &mut W, map: &TreeMap, walk: &mut Walk, least: u64) -> Result<(), Stop>
    requires ready { IsReady W.Words w.old }
    requires walk { InEachState W.Words W.Shape.Shape w.old (IsWalk map.now walk.old least 0) }
    ensures end { OnOk result (
        Looks (W.Shape.word_count (W.shape w.old)) (W.Shape.good (W.shape w.old)) (W.trace w.old)
        (W.trace w.new) (IsLink map.now) (IsWalk map.now walk.new least map.now.arena.blocks)) }
    ensures whole { OnOk result (walk.new.kept.items ≡ [] → walk.new.whole ≡ walk.old.whole) }
    ensures goes_on { GoesOn W.Words w.old w.new result }
{
    for _ in 0..map.arena.blocks {
        let node = match look(w, map, walk.place)? {
            None => return Ok(()),
            Some(node) => node,
        };
        prove!(node.block < map.arena.blocks);
        walk.place = map.arena.place_of(node.block) + side(least <= node.key);
        walk.keep(node, least);
    }
    Ok(())
}

/// Of the nodes whose keys are `least` or more, the one with the least key, if the walk keeps it. The
/// walk then stands right behind it.
#[inline(always)]
fn next_kept<W: Words>(
    w: &mut W,
    map: &TreeMap,
    walk: &mut Walk,
    least: u64,
) -> Result<Option<Named>, Stop>
    requires ready { IsReady W.Words w.old }
    requires walk { InEachState W.Words W.Shape.Shape w.old (IsWalk map.now walk.old least 0) }
    ensures come { IfOk result (λ answer.
        Looks (W.Shape.word_count (W.shape w.old)) (W.Shape.good (W.shape w.old)) (W.trace w.old)
        (W.trace w.new) (IsLink map.now) (HasCome map.now walk.new least answer)) }
    ensures whole { IfOk result (λ answer. IfNone answer (walk.new.whole ≡ walk.old.whole)) }
    ensures goes_on { GoesOn W.Words w.old w.new result }
{
    descend(w, map, walk, least)?;
    let Some(node) = walk.kept.pop() else {
        return Ok(None);
    };
    prove!(node.block < map.arena.blocks);
    walk.place = map.arena.place_of(node.block) + RIGHT;
    Ok(Some(node))
}

/// Of the nodes whose keys are `least` or more, the one with the least key. The walk then stands
/// right behind it.
#[inline(always)]
pub(crate) fn next_node<W: Words>(
    w: &mut W,
    map: &TreeMap,
    walk: &mut Walk,
    least: u64,
) -> Result<Option<Named>, Stop>
    requires ready { IsReady W.Words w.old }
    requires walk { InEachState W.Words W.Shape.Shape w.old (IsWalk map.now walk.old least 0) }
    ensures come { IfOk result (λ answer.
        Looks (W.Shape.word_count (W.shape w.old)) (W.Shape.good (W.shape w.old)) (W.trace w.old)
        (W.trace w.new) (IsLink map.now) (HasCome map.now walk.new least answer)) }
    ensures whole { IfOk result (λ answer. IfNone answer (walk.new.whole ≡ true)) }
    ensures goes_on { GoesOn W.Words w.old w.new result }
{
    if let Some(node) = next_kept(w, map, walk, least)? {
        return Ok(Some(node));
    }
    if walk.whole {
        return Ok(None);
    }
    walk.begin_again(map);
    next_kept(w, map, walk, least)
}
