//! Calls of a tree with room for two entries.

ghost use Rattle.std.specs.Prelude.{OnOk};
ghost use Rattle.txn_words.specs.Calls.{IsReady, GoesOn, InEachState};
ghost use Rattle.txn_alloc.specs.EntryMaps.{HasMapApart};
ghost use Rattle.txn_tree_map.specs.Trees.{tree_part};

use crate::blocks::{TWO, take_and_give_last};
use crate::built::built;
use io_ends::OutOfMemory;
use std::alloc::Global;
use std::test::Fail;
use txn_alloc::{Arena, Put};
use txn_tree_map::TreeMap;
use txn_words::{Stop, Words};

const TREE: TreeMap = TreeMap {
    root: 0,
    arena: Arena {
        heads: 1,
        first: 277,
        blocks: 2,
    },
};

/// A call of a tree with its key, and what it answers. An insert has the value too, and a sum both ends.
enum Call {
    Insert(u64, u64, Put),
    Sum(u64, u64, u128),
    First(u64, Option<(u64, u64)>),
    Get(u64, Option<u64>),
    Remove(u64, Option<u64>),
}

/// What a tree of two entries answers.
const CALLS: [Call; 8] = [
    Call::Insert(7, 70, Put::New),
    Call::Insert(7, 71, Put::Old(70)),
    Call::Insert(8, 80, Put::New),
    Call::Insert(9, 90, Put::Full),
    Call::Sum(1, 9, 151),
    Call::First(8, Some((8, 80))),
    Call::Remove(7, Some(71)),
    Call::Get(7, None),
];

// Whether the call answers so. No more is said of it than that another may follow.
fn is_answered<W: Words>(tree: &TreeMap, w: &mut W, call: &Call) -> Result<bool, Stop>
    requires ready { IsReady W.Words w.old }
    requires order { InEachState W.Words W.Shape.Shape w.old (HasMapApart (tree_part tree.now)) }
    ensures order { OnOk result
        (InEachState W.Words W.Shape.Shape w.new (HasMapApart (tree_part tree.now))) }
    ensures goes_on { GoesOn W.Words w.old w.new result }
{
    Ok(match *call {
        Call::Insert(key, value, answer) => tree.insert(w, key, value)? == answer,
        Call::Sum(low, high, answer) => tree.sum_range(w, low, high)? == answer,
        Call::First(key, answer) => tree.first_from(w, key)? == answer,
        Call::Get(key, answer) => tree.get(w, key)? == answer,
        Call::Remove(key, answer) => tree.remove(w, key)? == answer,
    })
}

// The number of the first call that answers otherwise, if they are made one after another.
fn first_wrong<W: Words>(tree: &TreeMap, w: &mut W, calls: &[Call]) -> Result<Option<usize>, Stop>
    requires ready { IsReady W.Words w.old }
    requires order { InEachState W.Words W.Shape.Shape w.old (HasMapApart (tree_part tree.now)) }
    ensures ready { OnOk result (IsReady W.Words w.new) }
    ensures order { OnOk result
        (InEachState W.Words W.Shape.Shape w.new (HasMapApart (tree_part tree.now))) }
{
    for (number, call) in calls.iter().enumerate() {
        if !is_answered(tree, w, call)? {
            return Ok(Some(number));
        }
    }
    Ok(None)
}

// Whether the calls are answered so, and then one block is free and no other.
fn are_answered<W: Words>(w: &mut W) -> Result<bool, Stop>
    requires ready { IsReady W.Words w.old }
    requires order { InEachState W.Words W.Shape.Shape w.old (HasMapApart (tree_part TREE)) }
{
    let wrong = first_wrong(&TREE, w, &CALLS)?;
    let last = take_and_give_last(w, &TWO)?;
    Ok(wrong.is_none() && last.is_some())
}

// Whether they are, from an empty tree on, or what stops them; and whether every write can be taken back then.
fn tree_and_blocks(alloc: Global) -> Result<(Result<bool, Stop>, bool), OutOfMemory> {
    let mut plain = built(alloc, 2)?;
    let before = plain.words().to_vec(alloc)?;
    let ended = are_answered(&mut plain);
    let left = plain.into_origin();
    Ok((ended, left == before))
}

#[test]
fn tree_map_and_blocks_on_plain_words(rt: HostRuntime) -> Result<(), Fail> {
    assert_eq!(rt; tree_and_blocks(rt.alloc())?, (Ok(true), true));
    Ok(())
}

// It is run with each allocation refused in turn, too.
#[test]
fn tree_and_blocks_answer_or_no_memory_is_found(rt: HostRuntime) {
    let ended = tree_and_blocks(rt.alloc());
    assert!(rt;
        matches!(
            ended,
            Ok((Ok(true) | Err(Stop::Memory), true)) | Err(OutOfMemory)
        )
    );
}
