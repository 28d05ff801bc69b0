//! The place where a new node hangs by its priority.

ghost use Rattle.std.specs.Prelude.{IfOk};
ghost use Rattle.txn_words.specs.Calls.{IsReady, GoesOn, InEachState};
ghost use Rattle.txn_words.specs.Looks.{Looks};
ghost use Rattle.txn_tree_map.specs.Searches.{IsMissing, IsSeat, IsLink};

use crate::find::{look, side};
use crate::map::{TreeMap, priority};
use txn_words::{Stop, Words};

/// Where a new node hangs: the place of the word that is to name it, and what the word holds before.
#[derive(Clone, Copy)]
pub(crate) struct Seat {
    pub place: u64,
    pub name: u64,
}

/// Goes down from the root, towards a key that is missing, past all nodes of higher priority.
pub(crate) fn find_seat<W: Words>(w: &mut W, map: &TreeMap, key: u64) -> Result<Seat, Stop>
    requires ready { IsReady W.Words w.old }
    requires missing { InEachState W.Words W.Shape.Shape w.old (IsMissing map.now key) }
    ensures seat { IfOk result (λ seat.
        Looks (W.Shape.word_count (W.shape w.old)) (W.Shape.good (W.shape w.old)) (W.trace w.old)
        (W.trace w.new) (IsLink map.now) (IsSeat map.now key seat.place seat.name)) }
    ensures goes_on { GoesOn W.Words w.old w.new result }
{
    let rank = priority(key);
    let mut place = map.root;
    for _ in 0..map.arena.blocks {
        let node = match look(w, map, place)? {
            None => return Ok(Seat { place, name: 0 }),
            Some(node) => node,
        };
        if priority(node.key) <= rank {
            let name = u64::from(node.block) + 1;
            return Ok(Seat { place, name });
        }
        place = map.arena.place_of(node.block) + side(key < node.key);
    }
    Ok(Seat { place, name: 0 })
}
