//! The operations of scripts, each on words that stand for records.
//!
//! What each comes to is the interpreter's: `specs/Operating` says what that means, from state to state. An operation
//! that finds no two blocks may have written words before it answers; whoever runs it undoes that.

ghost use Rattle.std.specs.Prelude.{◌≤◌, IfOk, OnOk};
ghost use Rattle.record_text.specs.declared.limits.TheConstants.{GREATEST_DATA};
ghost use Rattle.record_text.specs.declared.script.RecordOp.{RecordOp};
ghost use Rattle.record_text.specs.Ranges.{IsId, IsRank};
ghost use Rattle.txn_words.specs.Calls.{IsReady, GoesOn, InEachState, LeadsTo};
ghost use Rattle.txn_records.specs.Standing.{IsGoodFor};
ghost use Rattle.txn_records.specs.Operating.{MeetsStep};
ghost use Rattle.txn_stores.specs.Standing.{HandsOn, UnlessFull};

use crate::listing::ids_from;
use crate::records::{drop_record, put_record, record_of};
use crate::shape::RecordShape;
use record_text::RecordValue;
use std::alloc::Global;
use txn_alloc::Put;
use txn_stores::Outcome;
use txn_words::{Stop, Words};

// Puts a record.
pub(crate) fn put<W: Words>(
    w: &mut W,
    shape: &RecordShape,
    id: u32,
    rank: u32,
    content: u64,
) -> Result<Outcome<RecordValue>, Stop>
    requires ready { IsReady W.Words w.old }
    requires stands { InEachState W.Words W.Shape.Shape w.old (IsGoodFor shape.now) }
    requires id { IsId id }
    requires rank { IsRank rank }
    requires content { content ≤ GREATEST_DATA }
    ensures step { IfOk result (λ outcome. LeadsTo W.Words W.Shape.Shape w.old w.new
        (MeetsStep shape.now (RecordOp.Put id rank content) outcome)) }
    ensures stands { IfOk result (λ outcome. UnlessFull outcome
        (InEachState W.Words W.Shape.Shape w.new (IsGoodFor shape.now))) }
    ensures hands_on { HandsOn W.Words w.old w.new result }
{
    match put_record(w, shape, id, rank, content)? {
        Put::New => Ok(Outcome::Gives(RecordValue::New)),
        Put::Old(_) => Ok(Outcome::Gives(RecordValue::Old)),
        Put::Full => Ok(Outcome::Full),
    }
}

// Takes a record out.
pub(crate) fn remove<W: Words>(
    w: &mut W,
    shape: &RecordShape,
    id: u32,
) -> Result<Outcome<RecordValue>, Stop>
    requires ready { IsReady W.Words w.old }
    requires stands { InEachState W.Words W.Shape.Shape w.old (IsGoodFor shape.now) }
    ensures step { IfOk result (λ outcome. LeadsTo W.Words W.Shape.Shape w.old w.new
        (MeetsStep shape.now (RecordOp.Remove id) outcome)) }
    ensures stands { IfOk result (λ outcome. UnlessFull outcome
        (InEachState W.Words W.Shape.Shape w.new (IsGoodFor shape.now))) }
    ensures hands_on { HandsOn W.Words w.old w.new result }
{
    if drop_record(w, shape, id)? {
        Ok(Outcome::Gives(RecordValue::Gone))
    } else {
        Ok(Outcome::Absent)
    }
}

// Tells the rank and the data of a record.
pub(crate) fn find<W: Words>(
    w: &mut W,
    shape: &RecordShape,
    id: u32,
) -> Result<Outcome<RecordValue>, Stop>
    requires ready { IsReady W.Words w.old }
    requires stands { InEachState W.Words W.Shape.Shape w.old (IsGoodFor shape.now) }
    ensures step { IfOk result (λ outcome. LeadsTo W.Words W.Shape.Shape w.old w.new
        (MeetsStep shape.now (RecordOp.Find id) outcome)) }
    ensures stands { IfOk result (λ outcome. UnlessFull outcome
        (InEachState W.Words W.Shape.Shape w.new (IsGoodFor shape.now))) }
    ensures hands_on { HandsOn W.Words w.old w.new result }
{
    match record_of(w, shape, id)? {
        Some((rank, content)) => Ok(Outcome::Gives(RecordValue::Found(rank, content))),
        None => Ok(Outcome::Absent),
    }
}

// Lists identifiers by rank.
pub(crate) fn list<W: Words>(
    alloc: Global,
    w: &mut W,
    shape: &RecordShape,
    rank: u32,
    most: u32,
) -> Result<Outcome<RecordValue>, Stop>
    requires ready { IsReady W.Words w.old }
    requires stands { InEachState W.Words W.Shape.Shape w.old (IsGoodFor shape.now) }
    ensures step { IfOk result (λ outcome. LeadsTo W.Words W.Shape.Shape w.old w.new
        (MeetsStep shape.now (RecordOp.Ranked rank most) outcome)) }
    ensures stands { IfOk result (λ outcome. UnlessFull outcome
        (InEachState W.Words W.Shape.Shape w.new (IsGoodFor shape.now))) }
    ensures hands_on { HandsOn W.Words w.old w.new result }
{
    let ids = ids_from(alloc, w, shape, rank, most)?;
    Ok(Outcome::Gives(RecordValue::Ids(ids)))
}
