//! The first node from a key on.

ghost use Rattle.std.specs.Prelude.{◌≡◌, ◌<◌, IfOk, Some, nat_lt, if◌then◌else◌};
ghost use Rattle.txn_words.specs.Calls.{IsReady, GoesOn, InEachState};
ghost use Rattle.txn_words.specs.Looks.{Looks};
ghost use Rattle.txn_alloc.specs.EntryMaps.{HasMap};
ghost use Rattle.txn_tree_map.specs.Trees.{tree_part};
ghost use Rattle.txn_tree_map.specs.Searches.{IsLink};
ghost use Rattle.txn_tree_map.specs.Sums.{IsFirstFrom};

use crate::find::{Named, look, side};
use crate::map::TreeMap;
use txn_words::{Stop, Words};

/// The node itself, unless its key is too low: then the best before it.
pub(crate) fn better(best: Option<Named>, node: Named, least: u64) -> Option<Named>
    ensures { result ≡ (if nat_lt node.key least then best else Some node) }
{
    if node.key < least { best } else { Some(node) }
}

/// Of the nodes whose keys are `least` or more, the one with the least key.
pub(crate) fn first_at<W: Words>(
    w: &mut W,
    map: &TreeMap,
    least: u64,
) -> Result<Option<Named>, Stop>
    requires ready { IsReady W.Words w.old }
    requires order { InEachState W.Words W.Shape.Shape w.old (HasMap (tree_part map.now)) }
    ensures nearest { IfOk result (λ answer.
        Looks (W.Shape.word_count (W.shape w.old)) (W.Shape.good (W.shape w.old)) (W.trace w.old)
        (W.trace w.new) (IsLink map.now) (IsFirstFrom map.now least answer)) }
    ensures goes_on { GoesOn W.Words w.old w.new result }
{
    let mut best = None;
    let mut place = map.root;
    for _ in 0..map.arena.blocks {
        let node = match look(w, map, place)? {
            None => return Ok(best),
            Some(node) => node,
        };
        best = better(best, node, least);
        prove!(node.block < map.arena.blocks);
        place = map.arena.place_of(node.block) + side(least <= node.key);
    }
    Ok(best)
}
