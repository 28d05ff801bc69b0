//! Putting a block in front of its bucket's chain.

ghost use Rattle.std.specs.Prelude.{◌<◌, OnOk};
ghost use Rattle.txn_words.specs.Frames.{AppendsReads};
ghost use Rattle.txn_words.specs.Calls.{IsReady, GoesOn, WritesOnly, InEachState, LeadsTo};
ghost use Rattle.txn_hash_map.specs.Chains.{IsLaid};
ghost use Rattle.txn_hash_map.specs.Searches.{IsPutInFront, IsBucketOrIn};

use crate::find::bucket;
use crate::map::ChainMap;
use txn_alloc::arena::{NEXT, VALUE};
use txn_words::{Stop, Words};

/// Writes key and value into the block, and hangs it in front of the key's bucket's chain.
pub(crate) fn put_in_front<W: Words>(
    w: &mut W,
    map: &ChainMap,
    key: u64,
    value: u64,
    block: u32,
) -> Result<(), Stop>
    requires ready { IsReady W.Words w.old }
    requires laid { InEachState W.Words W.Shape.Shape w.old (IsLaid map.now) }
    requires block { block < map.now.arena.blocks }
    ensures put { OnOk result
        (LeadsTo W.Words W.Shape.Shape w.old w.new (IsPutInFront map.now key value block)) }
    ensures frame { OnOk result (WritesOnly W.Words w.old w.new (IsBucketOrIn map.now key block)) }
    ensures reads { OnOk result
        (AppendsReads (W.trace w.old) (W.trace w.new) (IsBucketOrIn map.now key block)) }
    ensures goes_on { GoesOn W.Words w.old w.new result }
{
    let place = map.buckets + bucket(key);
    let at = map.arena.place_of(block);
    let next = w.read(place)?;
    w.write(at, key)?;
    w.write(at + VALUE, value)?;
    w.write(at + NEXT, next)?;
    w.write(place, u64::from(block) + 1)?;
    Ok(())
}
