//! Scripts as jobs on words and in the plain interpreter, side by side: the same rows through both, with replies
//! computed by hand.

ghost use Rattle.std.specs.Prelude.{IfOk, OnOk};
ghost use Rattle.std.specs.Bool.{OnTrue};
ghost use Rattle.history_model.specs.Fitting.{IsGood};
ghost use Rattle.record_text.specs.Ranges.{IsRecordOp, IsRecordScript};
ghost use Rattle.txn_records.specs.Layout.{words_of};
ghost use Rattle.txn_records.specs.Standing.{IsGoodFor};

use io_ends::OutOfMemory;
use record_text::limits::{
    GREATEST_DATA, GREATEST_ID, GREATEST_RANK, MOST_LISTED, MOST_OPERATIONS,
};
use record_text::{
    Ids, RecordOp, RecordReply, RecordScript, RecordValue, RecordValues, Store, run_plain,
};
use std::alloc::Global;
use std::process::Abort;
use txn_records::lay::empty_words;
use txn_records::shape::RecordShape;
use txn_stores::run_on_plain;

// What an operation is to tell.
#[derive(Clone, Copy)]
enum Want<'a> {
    New,
    Old,
    Gone,
    Found(u32, u64),
    Ids(&'a [u32]),
}

// What a script is to reply.
#[derive(Clone, Copy)]
enum WantReply<'a> {
    Done(&'a [Want<'a>]),
    Declined(u32),
    Full(u32),
}

// Whether these are the identifiers.
fn are_ids(ids: &Ids, wanted: &[u32]) -> bool {
    if ids.len() != wanted.len() {
        return false;
    }
    for place in 0..wanted.len() {
        if ids.at(place) != wanted[place] {
            return false;
        }
    }
    true
}

// Whether this is the value.
fn is_value(value: &RecordValue, wanted: Want<'_>) -> bool {
    match (value, wanted) {
        (RecordValue::New, Want::New)
        | (RecordValue::Old, Want::Old)
        | (RecordValue::Gone, Want::Gone) => true,
        (RecordValue::Found(rank, content), Want::Found(r, c)) => *rank == r && *content == c,
        (RecordValue::Ids(ids), Want::Ids(wanted)) => are_ids(ids, wanted),
        _ => false,
    }
}

// Whether these are the values.
fn are_values(values: &RecordValues, wanted: &[Want<'_>]) -> bool {
    if values.len() != wanted.len() {
        return false;
    }
    for place in 0..wanted.len() {
        if !is_value(values.at(place), wanted[place]) {
            return false;
        }
    }
    true
}

// Whether this is the reply.
fn is_reply(reply: &RecordReply, wanted: WantReply<'_>) -> bool {
    match (reply, wanted) {
        (RecordReply::Done(values), WantReply::Done(wanted)) => are_values(values, wanted),
        (RecordReply::Declined(number), WantReply::Declined(wanted))
        | (RecordReply::Full(number), WantReply::Full(wanted)) => *number == wanted,
        _ => false,
    }
}

// Whether the numbers of an operation are in their ranges.
fn is_in_range(op: RecordOp) -> bool
    ensures { OnTrue result (IsRecordOp op) }
{
    match op {
        RecordOp::Put(id, rank, content) => id > 0 && rank > 0 && content <= GREATEST_DATA,
        RecordOp::Remove(id) | RecordOp::Find(id) => id > 0,
        RecordOp::Ranked(rank, most) => rank > 0 && most > 0 && most <= MOST_LISTED,
    }
}

// A script of these operations.
fn script_of(
    rt: &impl Abort,
    alloc: Global,
    operations: &[RecordOp],
) -> Result<RecordScript, OutOfMemory>
    ensures { IfOk result IsRecordScript }
{
    assert!(rt; operations.len() <= MOST_OPERATIONS);
    let mut script = RecordScript::new(alloc);
    for operation in operations {
        let fits = is_in_range(*operation);
        assert!(rt; fits);
        script.push(*operation)?;
    }
    Ok(script)
}

// Whether words and the plain interpreter both reply so.
fn both_reply(
    rt: &impl Abort,
    alloc: Global,
    shape: &RecordShape,
    words: &mut Vec<u64>,
    store: &mut Store,
    row: (&[RecordOp], WantReply<'_>),
) -> Result<bool, OutOfMemory>
    requires good { IsGood (words_of shape.now) (IsGoodFor shape.now) words.old.items }
    ensures good { OnOk result (IsGood (words_of shape.now) (IsGoodFor shape.now) words.new.items) }
{
    let script = script_of(rt, alloc, row.0)?;
    let reply = run_on_plain(alloc, shape, &script, words)?;
    let beside = run_plain(alloc, &script, store)?;
    Ok(is_reply(&reply, row.1) && is_reply(&beside, row.1))
}

// Four records take eight of nine blocks. Ranks tie, records move in the index, stay where they are, and go;
// identifiers, ranks and data are the greatest; a fifth record finds one block and not two.
const ROWS: &[(&[RecordOp], WantReply<'_>)] = &[
    (&[], WantReply::Done(&[])),
    (&[RecordOp::Find(9)], WantReply::Declined(1)),
    (
        &[RecordOp::Ranked(1, 16)],
        WantReply::Done(&[Want::Ids(&[])]),
    ),
    // Ties of rank go by identifier, and a rank that is asked for need not be there.
    (
        &[
            RecordOp::Put(3, 5, 30),
            RecordOp::Put(1, 5, 10),
            RecordOp::Put(2, 4, 20),
            RecordOp::Ranked(5, 16),
            RecordOp::Ranked(3, 2),
            RecordOp::Ranked(6, 1),
        ],
        WantReply::Done(&[
            Want::New,
            Want::New,
            Want::New,
            Want::Ids(&[1, 3]),
            Want::Ids(&[2, 1]),
            Want::Ids(&[]),
        ]),
    ),
    // The greatest key of the index has none behind it.
    (
        &[
            RecordOp::Put(GREATEST_ID, GREATEST_RANK, GREATEST_DATA),
            RecordOp::Ranked(GREATEST_RANK, 16),
            RecordOp::Ranked(1, 16),
            RecordOp::Find(GREATEST_ID),
        ],
        WantReply::Done(&[
            Want::New,
            Want::Ids(&[GREATEST_ID]),
            Want::Ids(&[2, 1, 3, GREATEST_ID]),
            Want::Found(GREATEST_RANK, GREATEST_DATA),
        ]),
    ),
    // One block is left of nine: it is no room for a record more, but for none that is there.
    (
        &[
            RecordOp::Remove(1),
            RecordOp::Put(4, 1, 0),
            RecordOp::Put(5, 1, 0),
        ],
        WantReply::Full(3),
    ),
    (
        &[RecordOp::Ranked(1, 3), RecordOp::Put(5, 1, 0)],
        WantReply::Full(2),
    ),
    (
        &[
            RecordOp::Put(3, 5, 31),
            RecordOp::Find(3),
            RecordOp::Put(3, 9, 32),
            RecordOp::Put(1, 1, 0),
            RecordOp::Ranked(1, 16),
        ],
        WantReply::Done(&[
            Want::Old,
            Want::Found(5, 31),
            Want::Old,
            Want::Old,
            Want::Ids(&[1, 2, 3, GREATEST_ID]),
        ]),
    ),
    // What a refused script did does not count.
    (
        &[
            RecordOp::Put(3, 1, 1),
            RecordOp::Remove(2),
            RecordOp::Find(2),
        ],
        WantReply::Declined(3),
    ),
    (
        &[
            RecordOp::Find(3),
            RecordOp::Remove(3),
            RecordOp::Ranked(4, 16),
            RecordOp::Put(4, 4, 40),
            RecordOp::Ranked(4, 16),
        ],
        WantReply::Done(&[
            Want::Found(9, 32),
            Want::Gone,
            Want::Ids(&[2, GREATEST_ID]),
            Want::New,
            Want::Ids(&[2, 4, GREATEST_ID]),
        ]),
    ),
    (&[RecordOp::Remove(3)], WantReply::Declined(1)),
];

// The number of the first row to which words and the plain interpreter do not both reply so.
fn first_wrong(
    rt: &impl Abort,
    alloc: Global,
    shape: &RecordShape,
    words: &mut Vec<u64>,
    store: &mut Store,
) -> Result<Option<usize>, OutOfMemory>
    requires good { IsGood (words_of shape.now) (IsGoodFor shape.now) words.old.items }
{
    for (number, row) in ROWS.iter().enumerate() {
        if !both_reply(rt, alloc, shape, words, store, *row)? {
            return Ok(Some(number));
        }
    }
    Ok(None)
}

// The same, from no record on.
fn first_wrong_anew(rt: &impl Abort, alloc: Global) -> Result<Option<usize>, OutOfMemory> {
    let shape = RecordShape { blocks: 9 };
    let mut words = empty_words(alloc, &shape)?;
    let mut store = Store::new(alloc, 9);
    first_wrong(rt, alloc, &shape, &mut words, &mut store)
}

#[test]
fn scripts_reply_by_hand_on_words_too(rt: HostRuntime) {
    let wrong = first_wrong_anew(&rt, rt.alloc());
    assert!(rt; matches!(wrong, Ok(None)));
}
