//! The search for a key along its bucket's chain.

ghost use Rattle.std.specs.Prelude.{◌≡◌, ◌<◌, IfOk, IfSome, IfNone};
ghost use Rattle.txn_words.specs.Calls.{IsReady, GoesOn, InEachState};
ghost use Rattle.txn_alloc.specs.EntryMaps.{HasMap};
ghost use Rattle.txn_hash_map.specs.Chains.{bucket_of, chain_part};
ghost use Rattle.txn_words.specs.Looks.{Looks};
ghost use Rattle.txn_hash_map.specs.Searches.{IsFoundAt, IsMissing, IsLink};

use crate::map::ChainMap;
use txn_alloc::Found;
use txn_alloc::arena::NEXT;
use txn_alloc::spread::spread;
use txn_words::{Stop, Words};

/// The bucket of a key.
pub(crate) fn bucket(key: u64) -> u64
    ensures { result ≡ bucket_of key }
{
    spread(key) >> 56
}

/// Looks for the key along its bucket's chain.
pub(crate) fn find<W: Words>(w: &mut W, map: &ChainMap, key: u64) -> Result<Option<Found>, Stop>
    requires ready { IsReady W.Words w.old }
    requires order { InEachState W.Words W.Shape.Shape w.old (HasMap (chain_part map.now)) }
    ensures found { IfOk result (λ answer. IfSome answer (λ f.
        Looks (W.Shape.word_count (W.shape w.old)) (W.Shape.good (W.shape w.old)) (W.trace w.old)
        (W.trace w.new) (IsLink map.now key) (IsFoundAt map.now key f.place f.block))) }
    ensures missing { IfOk result (λ answer. IfNone answer
        (Looks (W.Shape.word_count (W.shape w.old)) (W.Shape.good (W.shape w.old)) (W.trace w.old)
        (W.trace w.new) (IsLink map.now key) (IsMissing map.now key))) }
    ensures block { IfOk result (λ answer. IfSome answer (λ f. f.block < map.now.arena.blocks)) }
    ensures goes_on { GoesOn W.Words w.old w.new result }
{
    let blocks = map.arena.blocks;
    let mut place = map.buckets + bucket(key);
    for _ in 0..blocks {
        let name = w.read(place)?;
        if name == 0 {
            return Ok(None);
        }
        prove!(name - 1 < u64::from(blocks));
        let block = (name - 1) as u32;
        let at = map.arena.place_of(block);
        let there = w.read(at)?;
        if there == key {
            return Ok(Some(Found { place, block }));
        }
        place = at + NEXT;
    }
    Ok(None)
}
