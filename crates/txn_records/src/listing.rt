//! Identifiers by rank, down the index.

ghost use Rattle.std.specs.Prelude.{IfOk, OnOk};
ghost use Rattle.record_text.specs.Records.{ids_from};
ghost use Rattle.txn_words.specs.Access.{Tells};
ghost use Rattle.txn_words.specs.Calls.{IsReady, GoesOn, InEachState, LeadsTo};
ghost use Rattle.txn_records.specs.Standing.{IsGoodFor, Stands};
ghost use Rattle.txn_records.specs.Inner.Listing.{first_key};
ghost use Rattle.txn_stores.specs.Standing.{HandsOn};

use crate::layout::{Order, id_of, index_key};
use crate::shape::RecordShape;
use crate::trees::first_key_in;
use record_text::Ids;
use std::alloc::Global;
use txn_words::{Stop, Words};

// The first key of the index from one on.
fn next_key<W: Words>(w: &mut W, shape: &RecordShape, key: u64) -> Result<Option<u64>, Stop>
    requires ready { IsReady W.Words w.old }
    requires stands { InEachState W.Words W.Shape.Shape w.old (IsGoodFor shape.now) }
    ensures told { IfOk result (λ answer. LeadsTo W.Words W.Shape.Shape w.old w.new
        (Tells (Stands shape.now) (first_key key) answer)) }
    ensures stands { OnOk result (InEachState W.Words W.Shape.Shape w.new (IsGoodFor shape.now)) }
    ensures goes_on { GoesOn W.Words w.old w.new result }
{
    first_key_in(w, shape, Order::ByRank, key)
}

/// The identifiers of the first records of at least this rank, by rank and then by identifier: at most so many.
pub fn ids_from<W: Words>(
    alloc: Global,
    w: &mut W,
    shape: &RecordShape,
    rank: u32,
    most: u32,
) -> Result<Ids, Stop>
    requires ready { IsReady W.Words w.old }
    requires stands { InEachState W.Words W.Shape.Shape w.old (IsGoodFor shape.now) }
    ensures told { IfOk result (λ ids. LeadsTo W.Words W.Shape.Shape w.old w.new
        (Tells (Stands shape.now) (ids_from rank most) ids)) }
    ensures stands { OnOk result (InEachState W.Words W.Shape.Shape w.new (IsGoodFor shape.now)) }
    ensures hands_on { HandsOn W.Words w.old w.new result }
{
    let mut ids = Ids::new(alloc);
    let mut key = index_key(rank, 0);
    for _ in 0..most {
        let Some(found) = next_key(w, shape, key)? else {
            return Ok(ids);
        };
        ids.push(id_of(found))?;
        if found == u64::MAX {
            return Ok(ids);
        }
        key = found + 1;
    }
    Ok(ids)
}
