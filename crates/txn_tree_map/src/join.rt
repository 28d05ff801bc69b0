//! Joining two trees, the keys of the first all below those of the second.

ghost use Rattle.std.specs.Prelude.{◌≡◌, ◌≢◌, IfOk, OnOk};
ghost use Rattle.txn_words.specs.Frames.{AppendsReads};
ghost use Rattle.txn_words.specs.Calls.{IsReady, GoesOn, WritesOnly, WritesWithin, ReadsWithin, InEachState, LeadsTo};
ghost use Rattle.txn_tree_map.specs.Joins.{CanJoin, CanGoOn, JoinsOne, IsGathered, Joins, IsJoinOwn, IsJoinSeen, IsPlaceOrTop};

use crate::hang::hang;
use crate::map::{TreeMap, priority};
use crate::seat::Seat;
use txn_alloc::arena::{BLOCK_WORDS, LEFT, RIGHT};
use txn_words::{Stop, Words};

/// How far two trees are joined: the place where the next node hangs, and the names of what is to be joined still.
#[derive(Clone, Copy)]
pub(crate) struct Gap {
    pub place: u64,
    pub left: u64,
    pub right: u64,
}

/// Hangs the top of higher priority at the place, and goes on with its inner subtree.
pub(crate) fn join_one<W: Words>(w: &mut W, map: &TreeMap, gap: Gap) -> Result<Gap, Stop>
    requires ready { IsReady W.Words w.old }
    requires left { gap.left ≢ 0 }
    requires right { gap.right ≢ 0 }
    requires joined { InEachState W.Words W.Shape.Shape w.old
        (CanGoOn map.now gap.place gap.left gap.right) }
    ensures joined { IfOk result (λ next.
        LeadsTo W.Words W.Shape.Shape w.old w.new
        (JoinsOne map.now gap.place gap.left gap.right next.place next.left next.right)) }
    ensures frame { OnOk result (WritesOnly W.Words w.old w.new (λ a. a ≡ gap.place)) }
    ensures reads { OnOk result (
        AppendsReads (W.trace w.old) (W.trace w.new)
        (IsPlaceOrTop map.now gap.place gap.left gap.right)) }
    ensures goes_on { GoesOn W.Words w.old w.new result }
{
    let Gap { place, left, right } = gap;
    let blocks = u64::from(map.arena.blocks);
    prove!(left - 1 < blocks);
    prove!(right - 1 < blocks);
    let left_at = map.arena.first + BLOCK_WORDS * (left - 1);
    let right_at = map.arena.first + BLOCK_WORDS * (right - 1);
    let left_key = w.read(left_at)?;
    let right_key = w.read(right_at)?;
    if priority(right_key) < priority(left_key) {
        let inner = hang(w, place, left, left_at + RIGHT)?;
        return Ok(Gap {
            place: left_at + RIGHT,
            left: inner,
            right,
        });
    }
    let inner = hang(w, place, right, right_at + LEFT)?;
    Ok(Gap {
        place: right_at + LEFT,
        left,
        right: inner,
    })
}

/// Joins the two trees that the names head, except for the last word, which is to have the name that is answered.
pub(crate) fn join_all_but_last<W: Words>(
    w: &mut W,
    map: &TreeMap,
    hole: u64,
    left: u64,
    right: u64,
) -> Result<Seat, Stop>
    requires ready { IsReady W.Words w.old }
    requires pair { InEachState W.Words W.Shape.Shape w.old (CanJoin map.now hole left right) }
    ensures gathered { IfOk result (λ last.
        LeadsTo W.Words W.Shape.Shape w.old w.new
        (IsGathered map.now hole left right last.place last.name)) }
    ensures frame { OnOk result
        (WritesWithin W.Words W.Shape.Shape w.old w.new (IsJoinOwn map.now hole left right)) }
    ensures reads { OnOk result
        (ReadsWithin W.Words W.Shape.Shape w.old w.new (IsJoinSeen map.now hole left right)) }
    ensures goes_on { GoesOn W.Words w.old w.new result }
{
    let mut gap = Gap {
        place: hole,
        left,
        right,
    };
    for _ in 0..map.arena.blocks {
        if gap.left == 0 {
            return Ok(Seat {
                place: gap.place,
                name: gap.right,
            });
        }
        if gap.right == 0 {
            return Ok(Seat {
                place: gap.place,
                name: gap.left,
            });
        }
        gap = join_one(w, map, gap)?;
    }
    Ok(Seat {
        place: gap.place,
        name: gap.left,
    })
}

/// Joins the two trees that the names head, where the hole is.
pub(crate) fn join<W: Words>(
    w: &mut W,
    map: &TreeMap,
    hole: u64,
    left: u64,
    right: u64,
) -> Result<(), Stop>
    requires ready { IsReady W.Words w.old }
    requires pair { InEachState W.Words W.Shape.Shape w.old (CanJoin map.now hole left right) }
    ensures joined { OnOk result
        (LeadsTo W.Words W.Shape.Shape w.old w.new (Joins map.now hole left right)) }
    ensures frame { OnOk result
        (WritesWithin W.Words W.Shape.Shape w.old w.new (IsJoinOwn map.now hole left right)) }
    ensures reads { OnOk result
        (ReadsWithin W.Words W.Shape.Shape w.old w.new (IsJoinSeen map.now hole left right)) }
    ensures goes_on { GoesOn W.Words w.old w.new result }
{
    let last = join_all_but_last(w, map, hole, left, right)?;
    w.write(last.place, last.name)?;
    Ok(())
}
