//! All records, down the index.

ghost use Rattle.std.specs.Prelude.{◌≡◌, ◌++◌, ◌∷◌, [], IfOk, OnOk};
ghost use Rattle.history_model.specs.Fitting.{IsGood};
ghost use Rattle.record_text.specs.Output.{printed_of};
ghost use Rattle.record_text.specs.Records.{Records};
ghost use Rattle.txn_words.specs.Access.{Tells};
ghost use Rattle.txn_words.specs.Calls.{IsReady, GoesOn, InEachState, LeadsTo};
ghost use Rattle.txn_records.specs.Layout.{id_in, rank_in_key, words_of};
ghost use Rattle.txn_records.specs.Standing.{IsGoodFor, Stands};
ghost use Rattle.txn_records.specs.Inner.Listing.{first_entry};
ghost use Rattle.txn_stores.specs.Standing.{HandsOn};

use crate::layout::{Order, id_of, rank_of};
use crate::shape::RecordShape;
use crate::trees::first_in;
use io_ends::OutOfMemory;
use std::alloc::Global;
use txn_stores::ReadOnly;
use txn_words::{Stop, Words};

// The first key of the index from one on, with its data.
fn next_entry<W: Words>(
    w: &mut W,
    shape: &RecordShape,
    key: u64,
) -> Result<Option<(u64, u64)>, Stop>
    requires ready { IsReady W.Words w.old }
    requires stands { InEachState W.Words W.Shape.Shape w.old (IsGoodFor shape.now) }
    ensures told { IfOk result (λ answer. LeadsTo W.Words W.Shape.Shape w.old w.new
        (Tells (Stands shape.now) (first_entry key) answer)) }
    ensures stands { OnOk result (InEachState W.Words W.Shape.Shape w.new (IsGoodFor shape.now)) }
    ensures goes_on { GoesOn W.Words w.old w.new result }
{
    first_in(w, shape, Order::ByRank, key)
}

// One record more, that of a key of the index.
fn add_record(all: &mut Vec<(u32, u32, u64)>, key: u64, content: u64) -> Result<(), OutOfMemory>
    ensures { OnOk result (all.new.items
        ≡ all.old.items ++ (id_in key, rank_in_key key, content) ∷ []) }
{
    all.push((id_of(key), rank_of(key), content))?;
    Ok(())
}

/// All records, by rank and then by identifier: of each its identifier, its rank and its data.
pub fn all_records<W: Words>(
    alloc: Global,
    w: &mut W,
    shape: &RecordShape,
) -> Result<Vec<(u32, u32, u64)>, Stop>
    requires ready { IsReady W.Words w.old }
    requires stands { InEachState W.Words W.Shape.Shape w.old (IsGoodFor shape.now) }
    ensures told { IfOk result (λ all. LeadsTo W.Words W.Shape.Shape w.old w.new
        (Tells (Stands shape.now) printed_of all.items)) }
    ensures stands { OnOk result (InEachState W.Words W.Shape.Shape w.new (IsGoodFor shape.now)) }
    ensures hands_on { HandsOn W.Words w.old w.new result }
{
    let mut all = Vec::new(alloc);
    let mut key = 0;
    // No store has more records than blocks.
    for _ in 0..shape.blocks {
        let Some((found, content)) = next_entry(w, shape, key)? else {
            return Ok(all);
        };
        add_record(&mut all, found, content)?;
        if found == u64::MAX {
            return Ok(all);
        }
        key = found + 1;
    }
    Ok(all)
}

/// The records for which words of this size stand, in the same order. As words stand for one map of records at most,
/// there are no others.
pub fn records_of_words(
    alloc: Global,
    shape: &RecordShape,
    words: &[u64],
) -> Result<Vec<(u32, u32, u64)>, OutOfMemory>
    requires good { IsGood (words_of shape.now) (IsGoodFor shape.now) words.now }
    ensures { IfOk result (λ all. (records : Records) → Stands shape.now words.now records
        → all.items ≡ printed_of records) }
{
    let mut reader = ReadOnly::new(*shape, words);
    match all_records(alloc, &mut reader, shape) {
        Ok(all) => Ok(all),
        Err(Stop::Memory) => Err(OutOfMemory),
        Err(Stop::Yield) => unreachable!(),
    }
}
