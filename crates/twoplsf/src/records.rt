//! The answer to the bytes of an input of a record store.

ghost use Rattle.std.specs.Prelude.{IfOk};
ghost use Rattle.books_model.specs.Ranges.{IsWithin};
ghost use Rattle.script_reader.specs.declared.limits.TheConstants.{MOST_WORKERS};
ghost use Rattle.record_text.specs.Grammar.{IsRecordFault, SpellsRecords};
ghost use Rattle.twoplsf.specs.Answer.{Answers, IsRecordsRunOf};

use crate::answer::{Answer, refusal};
use io_ends::OutOfMemory;
use record_text::read_records;
use script_reader::InputFault;
use std::alloc::Global;
use std::sync::Wait;
use std::thread::Threads;
use txn_records::run_records;
use worker_gate::Gate;

/// Reads the input of a record store and runs its scripts by so many workers, or refuses the bytes.
pub fn records_answer<R: Threads + Wait + Sync, G: Gate + Sync>(
    rt: &R,
    alloc: Global,
    bytes: &[u8],
    workers: u32,
    gate: &G,
) -> Result<Answer, OutOfMemory>
    requires workers { IsWithin 1 MOST_WORKERS workers }
    ensures { IfOk result (Answers SpellsRecords IsRecordFault
        (IsRecordsRunOf workers) bytes.now) }
{
    match read_records(alloc, bytes) {
        Ok(input) => Ok(Answer::Records(run_records(rt, alloc, &input, workers, gate)?)),
        Err(InputFault::Line { line, why }) => refusal(alloc, line, why),
        Err(InputFault::OutOfMemory) => Err(OutOfMemory),
    }
}
