//! Calls of chains with room for two entries, and the ring beside them.

ghost use Rattle.std.specs.Prelude.{◌≡◌, [], None, IfOk, OnOk};
ghost use Rattle.txn_words.specs.Plainly.{IsSoundPlain};
ghost use Rattle.txn_words.specs.Calls.{IsReady, GoesOn, InEachState};
ghost use Rattle.txn_alloc.specs.EntryMaps.{HasMapApart};
ghost use Rattle.txn_hash_map.specs.Chains.{chain_part};
ghost use Rattle.collections_tests.specs.declared.maps.TheConstants.{CHAINS};

use crate::ring;
use crate::ring::first_wrong_of_ring;
use io_ends::OutOfMemory;
use std::alloc::Global;
use std::test::Fail;
use txn_alloc::{Arena, MapShape, Put};
use txn_hash_map::ChainMap;
use txn_words::{Plain, Stop, Words};

const CHAINS: ChainMap = ChainMap {
    buckets: 17,
    arena: Arena {
        heads: 1,
        first: 277,
        blocks: 2,
    },
};

/// A call of chains with its key, and what it answers. An insert has the value too.
enum Call {
    Insert(u64, u64, Put),
    Get(u64, Option<u64>),
    Remove(u64, Option<u64>),
}

// Whether the call answers so. No more is said of it than that another may follow.
fn is_answered<W: Words>(chains: &ChainMap, w: &mut W, call: &Call) -> Result<bool, Stop>
    requires ready { IsReady W.Words w.old }
    requires order { InEachState W.Words W.Shape.Shape w.old (HasMapApart (chain_part chains.now)) }
    ensures order { OnOk result
        (InEachState W.Words W.Shape.Shape w.new (HasMapApart (chain_part chains.now))) }
    ensures goes_on { GoesOn W.Words w.old w.new result }
{
    Ok(match *call {
        Call::Insert(key, value, answer) => chains.insert(w, key, value)? == answer,
        Call::Get(key, answer) => chains.get(w, key)? == answer,
        Call::Remove(key, answer) => chains.remove(w, key)? == answer,
    })
}

// The number of the first call that answers otherwise, if they are made one after another.
fn first_wrong<W: Words>(
    chains: &ChainMap,
    w: &mut W,
    calls: &[Call],
) -> Result<Option<usize>, Stop>
    requires ready { IsReady W.Words w.old }
    requires order { InEachState W.Words W.Shape.Shape w.old (HasMapApart (chain_part chains.now)) }
{
    for (number, call) in calls.iter().enumerate() {
        if !is_answered(chains, w, call)? {
            return Ok(Some(number));
        }
    }
    Ok(None)
}

// The words of empty chains.
fn empty_chains(alloc: Global) -> Result<Plain<MapShape<ChainMap>>, OutOfMemory>
    ensures shape { IfOk result (λ plain. plain.shape ≡ record { map = CHAINS; words = 285 }) }
    ensures trace { IfOk result (λ plain. plain.trace ≡ []) }
    ensures stop { IfOk result (λ plain. plain.stop ≡ None) }
    ensures sound { IfOk result (λ plain.
        IsSoundPlain plain.shape.words (HasMapApart (chain_part plain.shape.map)) plain) }
{
    let mut words = vec![in alloc; 0u64; 285]?;
    CHAINS.lay_empty(&mut words);
    let shape = MapShape {
        map: CHAINS,
        words: 285,
    };
    Ok(Plain::new(alloc, shape, words))
}

// The same from empty chains on.
fn first_wrong_of_chains(alloc: Global, calls: &[Call]) -> Result<Option<usize>, Fail> {
    let mut plain = empty_chains(alloc)?;
    Ok(first_wrong(&CHAINS, &mut plain, calls)?)
}

#[test]
fn ring_and_chain_map_on_plain_words(rt: HostRuntime) -> Result<(), Fail> {
    let of_ring = &[
        ring::Call::Push((1, 5), true),
        ring::Call::Push((1, 6), false),
        ring::Call::Len(1),
        ring::Call::Pop(Some((1, 5))),
        ring::Call::Pop(None),
        ring::Call::Len(0),
    ];
    let of_chains = &[
        Call::Insert(64, 3, Put::New),
        Call::Insert(64, 4, Put::Old(3)),
        Call::Insert(65, 5, Put::New),
        Call::Insert(66, 6, Put::Full),
        Call::Get(64, Some(4)),
        Call::Remove(64, Some(4)),
        Call::Get(64, None),
    ];
    assert_eq!(rt; first_wrong_of_ring(rt.alloc(), of_ring)?, None);
    assert_eq!(rt; first_wrong_of_chains(rt.alloc(), of_chains)?, None);
    Ok(())
}
