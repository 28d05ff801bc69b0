//! How many words a sum reads in a map whose tree is a path, computed by hand. What it comes to on such paths rows show.
//!
//! The priority of a key is its product with 2^64 by the golden ratio, without what is above 64 bits.
//! 196418 and 121393 are Fibonacci numbers, of which this product is just above 0, and just below. So
//! priorities rise with the multiples of the one, and fall with those of the other: the tree of six
//! hundred multiples is a path that goes to the left at each node, from the greatest key down, or to
//! the right, from the least one.

ghost use Rattle.std.specs.Prelude.{◌≡◌, [], None, IfOk, OnOk};
ghost use Rattle.txn_words.specs.Plainly.{IsSoundPlain};
ghost use Rattle.txn_words.specs.Calls.{IsReady, InEachState};
ghost use Rattle.txn_alloc.specs.EntryMaps.{HasMapApart};
ghost use Rattle.txn_tree_map.specs.Trees.{tree_part};
ghost use Rattle.collections_tests.specs.declared.paths.TheConstants.{MAP};

use history_model::Event;
use io_ends::OutOfMemory;
use std::alloc::Global;
use std::test::Fail;
use txn_alloc::{Arena, MapShape, Put};
use txn_tree_map::TreeMap;
use txn_words::{Plain, Stop, Words};

const MAP: TreeMap = TreeMap {
    root: 0,
    arena: Arena {
        heads: 1,
        first: 277,
        blocks: 601,
    },
};

// The words of an empty map.
fn empty_map(alloc: Global) -> Result<Plain<MapShape<TreeMap>>, OutOfMemory>
    ensures shape { IfOk result (λ plain. plain.shape ≡ record { map = MAP; words = 2681 }) }
    ensures trace { IfOk result (λ plain. plain.trace ≡ []) }
    ensures stop { IfOk result (λ plain. plain.stop ≡ None) }
    ensures sound { IfOk result (λ plain.
        IsSoundPlain plain.shape.words (HasMapApart (tree_part plain.shape.map)) plain) }
{
    let mut words = vec![in alloc; 0u64; 2681]?;
    MAP.lay_empty(&mut words);
    let shape = MapShape {
        map: MAP,
        words: 2681,
    };
    Ok(Plain::new(alloc, shape, words))
}

// Puts the numbers from 1 to 600, each at as many times the spacing. Whether no key was there.
fn put_all<W: Words>(w: &mut W, map: &TreeMap, spacing: u32) -> Result<bool, Stop>
    requires ready { IsReady W.Words w.old }
    requires order { InEachState W.Words W.Shape.Shape w.old (HasMapApart (tree_part map.now)) }
    ensures ready { OnOk result (IsReady W.Words w.new) }
    ensures order { OnOk result
        (InEachState W.Words W.Shape.Shape w.new (HasMapApart (tree_part map.now))) }
{
    for number in 1u32..601 {
        let key = u64::from(number) * u64::from(spacing);
        if map.insert(w, key, u64::from(number))? != Put::New {
            return Ok(false);
        }
    }
    Ok(true)
}

// How often a word is read.
fn times_read(trace: &[Event], word: u64) -> usize {
    trace
        .iter()
        .filter(|event| matches!(event, Event::Read(place, _) if *place == word))
        .count()
}

// Whether no block's value is read twice.
fn no_value_twice(trace: &[Event]) -> bool {
    for block in 0u32..601 {
        if times_read(trace, 278 + 4 * u64::from(block)) > 1 {
            return false;
        }
    }
    true
}

// How many words the sum of all reads in the map of these keys, if it is right and reads no value twice.
fn reads_of_a_sum(alloc: Global, spacing: u32) -> Result<Option<usize>, Fail> {
    let mut plain = empty_map(alloc)?;
    let new = put_all(&mut plain, &MAP, spacing)?;
    let before = plain.trace().len();
    let sum = MAP.sum_range(&mut plain, 0, u64::MAX)?;
    let later = plain.trace().get(before..).unwrap_or(&[]);
    let right = new && sum == 180_300 && no_value_twice(later);
    Ok(right.then_some(later.len()))
}

// To the left: the way down goes to the left at six hundred nodes, more than a walk keeps. Down to the least key it reads a
// name and a key of each, and the name at the end: 1201 words. The room of 256 was full three times, each time half of it
// went, and 216 nodes are left in it: their values, and behind each but the last the name at the end, 431 words. Behind the
// last it reads one more, finds none kept, and goes down again: past 384 nodes to the left and at the next to the right, 771
// words. Of the nearest 256 of those the values and the names between them, 511 words. Behind the last it reads one more, and
// goes down once more: past 128 nodes to the left and at the next to the right, 259 words. Of those 128 the values and the
// names behind them, 256 words.
//
// To the right: the next key is right of each, with nothing left of it: of each node a name, its key, the name on its left
// and its value are read, 2400 words, and behind the last one the end.
#[test]
fn a_sum_on_a_path_reads_no_value_twice(rt: HostRuntime) -> Result<(), Fail> {
    for (spacing, reads) in &[(196_418, 3431), (121_393, 2401)] {
        assert_eq!(rt; reads_of_a_sum(rt.alloc(), *spacing)?, Some(*reads));
    }
    Ok(())
}
