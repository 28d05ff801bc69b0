//! The operations on records, each on words that stand for them.

ghost use Rattle.std.specs.Prelude.{◌≡◌, ◌≢◌, ◌≤◌, None, Some, IfOk, IfSome, OnOk};
ghost use Rattle.std.specs.FinMap as finite;
ghost use Rattle.record_text.specs.declared.limits.TheConstants.{GREATEST_DATA};
ghost use Rattle.record_text.specs.Laws.{data_at_rank};
ghost use Rattle.record_text.specs.Ranges.{IsId, IsRank};
ghost use Rattle.txn_words.specs.Access.{OfModel, Tells, TellsAndChanges};
ghost use Rattle.txn_words.specs.Calls.{IsReady, GoesOn, InEachState, LeadsTo};
ghost use Rattle.txn_records.specs.Standing.{HasSomeTrees, HasTrees, IsGoodFor, Stands, rank_in};
ghost use Rattle.txn_records.specs.Access.{PutsRecord, UnlessNoRoom};

use crate::layout::{Order, index_key};
use crate::shape::RecordShape;
use crate::trees::{cut_in, get_in, put_in};
use txn_alloc::Put;
use txn_words::{Stop, Words};

/// The rank of a record, if it is there.
pub fn rank_at<W: Words>(w: &mut W, shape: &RecordShape, id: u32) -> Result<Option<u64>, Stop>
    requires ready { IsReady W.Words w.old }
    requires stands { InEachState W.Words W.Shape.Shape w.old (IsGoodFor shape.now) }
    ensures told { IfOk result (λ answer. LeadsTo W.Words W.Shape.Shape w.old w.new
        (Tells (Stands shape.now) (λ records. rank_in (finite.get records id)) answer)) }
    ensures range { IfOk result (λ answer. IfSome answer IsRank) }
    ensures stands { OnOk result (InEachState W.Words W.Shape.Shape w.new (IsGoodFor shape.now)) }
    ensures goes_on { GoesOn W.Words w.old w.new result }
{
    get_in(w, shape, Order::ById, u64::from(id))
}

/// The data of a record, if it is there and has this rank.
pub fn data_at<W: Words>(
    w: &mut W,
    shape: &RecordShape,
    rank: u32,
    id: u32,
) -> Result<Option<u64>, Stop>
    requires ready { IsReady W.Words w.old }
    requires stands { InEachState W.Words W.Shape.Shape w.old (IsGoodFor shape.now) }
    ensures told { IfOk result (λ answer. LeadsTo W.Words W.Shape.Shape w.old w.new
        (Tells (Stands shape.now) (λ records. data_at_rank rank (finite.get records id)) answer)) }
    ensures stands { OnOk result (InEachState W.Words W.Shape.Shape w.new (IsGoodFor shape.now)) }
    ensures goes_on { GoesOn W.Words w.old w.new result }
{
    get_in(w, shape, Order::ByRank, index_key(rank, id))
}

/// The rank and the data of a record, if it is there.
pub fn record_of<W: Words>(
    w: &mut W,
    shape: &RecordShape,
    id: u32,
) -> Result<Option<(u32, u64)>, Stop>
    requires ready { IsReady W.Words w.old }
    requires stands { InEachState W.Words W.Shape.Shape w.old (IsGoodFor shape.now) }
    ensures told { IfOk result (λ answer. LeadsTo W.Words W.Shape.Shape w.old w.new
        (Tells (Stands shape.now) (λ records. finite.get records id) answer)) }
    ensures stands { OnOk result (InEachState W.Words W.Shape.Shape w.new (IsGoodFor shape.now)) }
    ensures goes_on { GoesOn W.Words w.old w.new result }
{
    let Some(rank) = rank_at(w, shape, id)? else {
        return Ok(None);
    };
    let content = data_at(w, shape, rank as u32, id)?.unwrap_or(0);
    Ok(Some((rank as u32, content)))
}

// Takes a record out of the tree of ranks alone, and answers the rank that it had.
fn cut_rank<W: Words>(w: &mut W, shape: &RecordShape, id: u32) -> Result<Option<u64>, Stop>
    requires ready { IsReady W.Words w.old }
    requires stands { InEachState W.Words W.Shape.Shape w.old (IsGoodFor shape.now) }
    ensures cut { IfOk result (λ answer. LeadsTo W.Words W.Shape.Shape w.old w.new
        (TellsAndChanges (HasTrees shape.now)
        (λ trees. finite.get trees.ranks id)
        (λ trees. record trees { ranks = finite.remove trees.ranks id }) answer)) }
    ensures range { IfOk result (λ answer. IfSome answer IsRank) }
    ensures trees { OnOk result (InEachState W.Words W.Shape.Shape w.new (HasSomeTrees shape.now)) }
    ensures goes_on { GoesOn W.Words w.old w.new result }
{
    cut_in(w, shape, Order::ById, u64::from(id))
}

/// Takes a record out. False: it was not there, and nothing changed.
pub fn drop_record<W: Words>(w: &mut W, shape: &RecordShape, id: u32) -> Result<bool, Stop>
    requires ready { IsReady W.Words w.old }
    requires stands { InEachState W.Words W.Shape.Shape w.old (IsGoodFor shape.now) }
    ensures dropped { IfOk result (λ was_there. LeadsTo W.Words W.Shape.Shape w.old w.new
        (TellsAndChanges (Stands shape.now) (λ records. finite.contains_key records id)
        (λ records. finite.remove records id) was_there)) }
    ensures stands { OnOk result (InEachState W.Words W.Shape.Shape w.new (IsGoodFor shape.now)) }
    ensures goes_on { GoesOn W.Words w.old w.new result }
{
    let Some(rank) = cut_rank(w, shape, id)? else {
        return Ok(false);
    };
    cut_in(w, shape, Order::ByRank, index_key(rank as u32, id))?;
    Ok(true)
}

// Puts a record that is not there.
fn put_new<W: Words>(
    w: &mut W,
    shape: &RecordShape,
    id: u32,
    rank: u32,
    content: u64,
) -> Result<Put, Stop>
    requires ready { IsReady W.Words w.old }
    requires stands { InEachState W.Words W.Shape.Shape w.old (IsGoodFor shape.now) }
    requires id { IsId id }
    requires rank { IsRank rank }
    requires content { content ≤ GREATEST_DATA }
    requires absent { InEachState W.Words W.Shape.Shape w.old
        (OfModel (Stands shape.now) (λ records. rank_in (finite.get records id) ≡ None)) }
    ensures put { IfOk result (λ put. LeadsTo W.Words W.Shape.Shape w.old w.new
        (PutsRecord shape.now id rank content put)) }
    ensures stands { IfOk result (λ put. UnlessNoRoom put
        (InEachState W.Words W.Shape.Shape w.new (IsGoodFor shape.now))) }
    ensures goes_on { GoesOn W.Words w.old w.new result }
{
    if let Put::Full = put_in(w, shape, Order::ById, u64::from(id), u64::from(rank))? {
        return Ok(Put::Full);
    }
    let place = index_key(rank, id);
    put_in(w, shape, Order::ByRank, place, content)
}

// Gives a record that has this rank other data.
fn set_data<W: Words>(
    w: &mut W,
    shape: &RecordShape,
    id: u32,
    rank: u32,
    content: u64,
) -> Result<(), Stop>
    requires ready { IsReady W.Words w.old }
    requires stands { InEachState W.Words W.Shape.Shape w.old (IsGoodFor shape.now) }
    requires id { IsId id }
    requires content { content ≤ GREATEST_DATA }
    requires known { InEachState W.Words W.Shape.Shape w.old
        (OfModel (Stands shape.now) (λ records. rank_in (finite.get records id) ≡ Some rank)) }
    ensures put { OnOk result (LeadsTo W.Words W.Shape.Shape w.old w.new
        (PutsRecord shape.now id rank content (Put.Old rank))) }
    ensures stands { OnOk result (InEachState W.Words W.Shape.Shape w.new (IsGoodFor shape.now)) }
    ensures goes_on { GoesOn W.Words w.old w.new result }
{
    put_in(w, shape, Order::ByRank, index_key(rank, id), content)?;
    Ok(())
}

// Gives a record that has one rank another rank, and other data. Its old key leaves the index before the new one joins
// it, so that there is a block for that.
fn change_rank<W: Words>(
    w: &mut W,
    shape: &RecordShape,
    id: u32,
    was: u32,
    rank: u32,
    content: u64,
) -> Result<(), Stop>
    requires ready { IsReady W.Words w.old }
    requires stands { InEachState W.Words W.Shape.Shape w.old (IsGoodFor shape.now) }
    requires id { IsId id }
    requires rank { IsRank rank }
    requires content { content ≤ GREATEST_DATA }
    requires other { was ≢ rank }
    requires known { InEachState W.Words W.Shape.Shape w.old
        (OfModel (Stands shape.now) (λ records. rank_in (finite.get records id) ≡ Some was)) }
    ensures put { OnOk result (LeadsTo W.Words W.Shape.Shape w.old w.new
        (PutsRecord shape.now id rank content (Put.Old was))) }
    ensures stands { OnOk result (InEachState W.Words W.Shape.Shape w.new (IsGoodFor shape.now)) }
    ensures goes_on { GoesOn W.Words w.old w.new result }
{
    put_in(w, shape, Order::ById, u64::from(id), u64::from(rank))?;
    cut_in(w, shape, Order::ByRank, index_key(was, id))?;
    let place = index_key(rank, id);
    put_in(w, shape, Order::ByRank, place, content)?;
    Ok(())
}

/// Gives a record this rank and data, whether or not it was there. Answers `Old` with the rank that it had. `Full`: it
/// is new, and no two blocks are left for it; the words stand for nothing then, and whoever asked undoes what was
/// written.
///
/// If the rank stays, only the data is written.
pub fn put_record<W: Words>(
    w: &mut W,
    shape: &RecordShape,
    id: u32,
    rank: u32,
    content: u64,
) -> Result<Put, Stop>
    requires ready { IsReady W.Words w.old }
    requires stands { InEachState W.Words W.Shape.Shape w.old (IsGoodFor shape.now) }
    requires id { IsId id }
    requires rank { IsRank rank }
    requires content { content ≤ GREATEST_DATA }
    ensures put { IfOk result (λ put. LeadsTo W.Words W.Shape.Shape w.old w.new
        (PutsRecord shape.now id rank content put)) }
    ensures stands { IfOk result (λ put. UnlessNoRoom put
        (InEachState W.Words W.Shape.Shape w.new (IsGoodFor shape.now))) }
    ensures goes_on { GoesOn W.Words w.old w.new result }
{
    let Some(was) = rank_at(w, shape, id)? else {
        return put_new(w, shape, id, rank, content);
    };
    if was == u64::from(rank) {
        set_data(w, shape, id, rank, content)?;
    } else {
        change_rank(w, shape, id, was as u32, rank, content)?;
    }
    Ok(Put::Old(was))
}
