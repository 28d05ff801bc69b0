//! The program, over any words and streams.

ghost use Rattle.std.specs.Prelude.{◌≡◌, ◌≤◌, ◌⊎◌, length, IfErr, IfOk, IfSome};
ghost use Rattle.io_ends.specs.Counts.{Rose};
ghost use Rattle.script_reader.specs.Grammar.{BeginWithInput, IsValidInput};
ghost use Rattle.worker_pool.specs.declared.done.DayEnd.{DayEnd};
ghost use Rattle.twoplsf.specs.Answer.{IsDayFor, OfBytesRead, PrintsOutput};
ghost use Rattle.twoplsf.specs.Command.{IsAnyRunCommand, IsCheck, IsMaking, IsOrders, IsRecords, texts_of};
ghost use Rattle.twoplsf.specs.Orders.{IsOrdersText, PrintsOrderOutput};
ghost use Rattle.twoplsf.specs.Records.{IsRecordsText, PrintsRecordOutput};
ghost use Rattle.twoplsf.specs.Ending.{EndsWith, exit_status};
ghost use Rattle.twoplsf.specs.declared.status.Status.{Status};

use crate::serve::{Served, serve};
use crate::status::Status;
use io_ends::{OutOfMemory, Sink, Source};
use script_reader::limits::MOST_INPUT_BYTES;
use std::alloc::Global;
use std::mem;
use std::sync::Wait;
use std::thread::Threads;
use txn_cells::Coded;
use worker_gate::Gate;

/// Serves the words, and gives the number of the status that this came to, from 0 to 7. If there was no memory for the
/// words, it is that of out of memory.
pub fn run_program<R: Threads + Wait + Sync, S: Source, K: Sink, G: Gate + Sync>(
    rt: &R,
    alloc: Global,
    words: Result<Vec<String>, OutOfMemory>,
    source: &mut S,
    sink: &mut K,
    gate: &G,
) -> u8
    // The serial journal theorem, as `serve` has it.
    ensures headline { IfOk words (λ list. IsAnyRunCommand (texts_of list.items)
        → result ≡ exit_status Status.Done → OfBytesRead (S.left source.old)
        (λ bytes. PrintsOutput (texts_of list.items) bytes
        (K.taken sink.old) (K.taken sink.new))) }
    // Of those bytes there was a day, whose items are those that were printed.
    ensures day { IfOk words (λ list. IsAnyRunCommand (texts_of list.items)
        → result ≡ exit_status Status.Done → (day : DayEnd) × OfBytesRead (S.left source.old)
        (λ bytes. IsDayFor (texts_of list.items) bytes
        (K.taken sink.old) (K.taken sink.new) day)) }
    // The same of a record store.
    ensures headline_records { IfOk words (λ list. IsRecords (texts_of list.items)
        → result ≡ exit_status Status.Done → OfBytesRead (S.left source.old)
        (λ bytes. PrintsRecordOutput (texts_of list.items) bytes
        (K.taken sink.old) (K.taken sink.new))) }
    // And of a limit order book.
    ensures headline_orders { IfOk words (λ list. IsOrders (texts_of list.items)
        → result ≡ exit_status Status.Done → OfBytesRead (S.left source.old)
        (λ bytes. PrintsOrderOutput (texts_of list.items) bytes
        (K.taken sink.old) (K.taken sink.new))) }

    // The number is that of the status of what serving the words came to, of which all is so that is so of `serve`.
    ensures served { IfOk words (λ list. EndsWith S.Source K.Sink ⟦<u128 as Coded>⟧ result
        (texts_of list.items) source.old source.new sink.old sink.new) }

    // If nothing is wrong and no fault comes, the work is done, or memory is out; and `check` may find that the text
    // differs.
    ensures complete { IfOk words (λ list. IsAnyRunCommand (texts_of list.items)
        → IfSome (S.left source.old) (λ bytes. length bytes ≤ MOST_INPUT_BYTES
        → IsValidInput bytes
        → (¬ Rose (S.faults source.old) (S.faults source.new))
        → (¬ Rose (K.faults sink.old) (K.faults sink.new))
        → (result ≡ exit_status Status.Done) ⊎ (result ≡ exit_status Status.OutOfMemory))) }
    ensures complete_records { IfOk words (λ list. IsRecords (texts_of list.items)
        → IfSome (S.left source.old) (λ bytes. length bytes ≤ MOST_INPUT_BYTES
        → IsRecordsText bytes
        → (¬ Rose (S.faults source.old) (S.faults source.new))
        → (¬ Rose (K.faults sink.old) (K.faults sink.new))
        → (result ≡ exit_status Status.Done) ⊎ (result ≡ exit_status Status.OutOfMemory))) }
    ensures complete_orders { IfOk words (λ list. IsOrders (texts_of list.items)
        → IfSome (S.left source.old) (λ bytes. length bytes ≤ MOST_INPUT_BYTES
        → IsOrdersText bytes
        → (¬ Rose (S.faults source.old) (S.faults source.new))
        → (¬ Rose (K.faults sink.old) (K.faults sink.new))
        → (result ≡ exit_status Status.Done) ⊎ (result ≡ exit_status Status.OutOfMemory))) }
    ensures complete_check { IfOk words (λ list. IsCheck (texts_of list.items)
        → IfSome (S.left source.old) (λ bytes. length bytes ≤ MOST_INPUT_BYTES
        → BeginWithInput bytes
        → (¬ Rose (S.faults source.old) (S.faults source.new))
        → (¬ Rose (K.faults sink.old) (K.faults sink.new))
        → (result ≡ exit_status Status.Done) ⊎ (result ≡ exit_status Status.Differs)
        ⊎ (result ≡ exit_status Status.OutOfMemory))) }
    ensures complete_making { IfOk words (λ list. IsMaking (texts_of list.items)
        → (¬ Rose (K.faults sink.old) (K.faults sink.new))
        → (result ≡ exit_status Status.Done) ⊎ (result ≡ exit_status Status.OutOfMemory)) }

    // No memory for the words.
    ensures no_memory { IfErr words (λ _. result ≡ exit_status Status.OutOfMemory) }
    ensures untouched { IfErr words (λ _. (source.new ≡ source.old) × (sink.new ≡ sink.old)) }
{
    match words {
        Ok(words) => last_code(serve(rt, alloc, &words, source, sink, gate)),
        Err(OutOfMemory) => Status::OutOfMemory.code(),
    }
}

// The number that a process ends with that was served so. What it holds is not freed, list by list: the process gives its
// memory back as a whole.
fn last_code(served: Served) -> u8
    ensures { result ≡ exit_status served.status }
{
    let code = served.status.code();
    mem::forget(served);
    code
}
