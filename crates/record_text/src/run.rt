//! The plain interpreter: one script at a time, on records in memory.

ghost use Rattle.std.specs.Prelude.{◌≡◌, ◌≤◌, length, IfOk, OnOk, OnErr};
ghost use Rattle.record_text.specs.Interpreter.{record_outcome_of};

use crate::limits::MOST_OPERATIONS;
use crate::reply::RecordReply;
use crate::script::RecordScript;
use crate::store::Store;
use books_report::stores;
use io_ends::OutOfMemory;
use std::alloc::Global;

/// Runs a script. It runs on a copy of the store, which takes the store's place if the script is done; so the store is
/// as it was after a refusal, and out of memory.
pub fn run_plain(
    alloc: Global,
    script: &RecordScript,
    store: &mut Store,
) -> Result<RecordReply, OutOfMemory>
    requires few { length script.now ≤ MOST_OPERATIONS }
    ensures reply { IfOk result (λ reply.
        reply ≡ (record_outcome_of script.now store.old.records store.old.blocks).0) }
    ensures records { OnOk result (store.new.records
        ≡ (record_outcome_of script.now store.old.records store.old.blocks).1) }
    ensures blocks { store.new.blocks ≡ store.old.blocks }
    ensures err { OnErr result (store.new ≡ store.old) }
{
    stores::run_plain(alloc, script, store)
}
