//! All scripts of an input on workers over one table.

ghost use Rattle.std.specs.Prelude.{◌≡◌, ◌≤◌, IfOk};
ghost use Rattle.std.specs.FinMap as finite;
ghost use Rattle.history_model.specs.Fitting.{IsGood};
ghost use Rattle.word_table.specs.declared.limits.TheConstants.{MOST_PASSES};
ghost use Rattle.word_table.specs.Closing.{AreRecords, IsCoherent, IsLegalInEachOrder};
ghost use Rattle.record_text.specs.Output.{IsRecordOutput, closing_of, text_of};
ghost use Rattle.txn_commit.specs.Lists.{AreDealt};
ghost use Rattle.txn_stores.specs.Journals.{scripts_done};
ghost use Rattle.txn_records.specs.Days.{IsRecordDay};
ghost use Rattle.txn_records.specs.Layout.{words_of};
ghost use Rattle.txn_records.specs.Standing.{IsGoodFor, Stands};

use crate::shape::RecordShape;
use io_ends::OutOfMemory;
use record_text::{RecordInput, RecordReply, RecordValue};
use std::alloc::Global;
use std::sync::Wait;
use std::thread::Threads;
use txn_commit::Done;
use txn_stores::{StoreDay, StoreJob, run_store};
use worker_gate::Gate;

/// A script on the words of a record store, as a transaction.
pub type RecordJob<'s> = StoreJob<'s, RecordShape>;

/// A script of a record store that was run.
pub type RecordDone = Done<RecordReply>;

/// What a day of a record store came to: its text is the journal, and the records that it leaves.
pub type RecordDay = StoreDay<RecordValue, RecordShape>;

/// Runs all scripts of an input on a store that begins empty, as `run_store` does.
pub fn run_records<R: Threads + Wait + Sync, G: Gate + Sync>(
    rt: &R,
    alloc: Global,
    input: &RecordInput,
    workers: u32,
    gate: &G,
) -> Result<RecordDay, OutOfMemory>
    requires workers { (1 ≤ workers) × (workers ≤ MOST_PASSES) }
    // The table is that of a store of so many blocks, with a pass for each worker; it began with no record.
    ensures shape { IfOk result (λ day. day.closed.shape ≡ record { blocks = input.now.blocks }) }
    ensures passes { IfOk result (λ day. day.closed.seats ≡ workers) }
    ensures began { IfOk result (λ day. Stands day.closed.shape day.closed.base finite.empty) }
    // What was committed, with all attempts that gave way, has an arrangement, and each arrangement is a legal history.
    ensures coherent { IfOk result (λ day. IsCoherent
        (IsGood (words_of day.closed.shape) (IsGoodFor day.closed.shape)) day.closed) }
    ensures legal { IfOk result (λ day. IsLegalInEachOrder
        (IsGood (words_of day.closed.shape) (IsGoodFor day.closed.shape)) day.closed) }
    ensures records { IfOk result (λ day. AreRecords day.closed) }
    // One order of all scripts, and what the interpreter says of it.
    ensures day { IfOk result (λ day. IsRecordDay input.now day.closed day.done.items) }
    // Each caller was run by the pass of its number, modulo the workers.
    ensures dealt { IfOk result (λ day. AreDealt workers day.done.items) }
    // The text tells this order, and the records that it leaves.
    ensures text { IfOk result (λ day. day.text.items ≡ text_of input.now
        (scripts_done day.done.items) (closing_of input.now (scripts_done day.done.items))) }
    ensures output { IfOk result (λ day. IsRecordOutput input.now workers day.text.items) }
{
    run_store::<R, G, RecordShape>(rt, alloc, input, workers, gate)
}
