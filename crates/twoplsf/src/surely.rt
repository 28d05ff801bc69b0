//! The top call over a source and a sink that cannot fail: then no answer is a fault, and what words and bytes call for is
//! what comes, or out of memory.

ghost use Rattle.std.specs.Prelude.{◌≡◌, ◌≢◌, ◌≤◌, ◌<◌, ◌⊎◌, List, ℕ, None, length, IfSome};
ghost use Rattle.io_ends.specs.Sure.{UnfailingSource};
ghost use Rattle.io_ends.specs.declared.sure.SureSink.{SureSink};
ghost use Rattle.script_reader.specs.Grammar.{AreTwoTexts, BeginWithInput, IsValidInput};
ghost use Rattle.script_reader.specs.Input.{ClearingInput};
ghost use Rattle.books_report.specs.Output.{IsOutput};
ghost use Rattle.twoplsf.specs.Command.{IsAnyRunCommand, IsCheck, IsMaking, IsOrders, IsReading, IsRecords, IsValidCommand, texts_of};
ghost use Rattle.twoplsf.specs.Answer.{HaveInputFor, IsDayFor};
ghost use Rattle.twoplsf.specs.Orders.{IsOrdersText};
ghost use Rattle.twoplsf.specs.Records.{IsRecordsText};
ghost use Rattle.twoplsf.specs.Serving.{IsServed};

use crate::serve::{Served, serve};
use crate::status::Status;
use books_report::limits::RESTARTS_BELOW;
use io_ends::{Sink, Source, SureSink, SureSource};
use script_reader::limits::MOST_INPUT_BYTES;
use std::alloc::Global;
use std::sync::Wait;
use std::thread::Threads;
use txn_cells::Coded;
use worker_gate::Gate;

/// Serves a command whose source gives exactly these bytes, and whose sink takes all that it is given. Neither can fail.
pub fn serve_surely<R: Threads + Wait + Sync, G: Gate + Sync>(
    rt: &R,
    alloc: Global,
    words: &[String],
    bytes: Vec<u8>,
    gate: &G,
) -> Served
    ensures no_read_fault { result.status ≢ Status.ReadFault }
    ensures no_write_fault { result.status ≢ Status.WriteFault }

    // Valid words, and a valid input within the size: done, or out of memory.
    ensures run { IsAnyRunCommand (texts_of words.now)
        → length bytes.items ≤ MOST_INPUT_BYTES
        → IsValidInput bytes.items
        → (result.status ≡ Status.Done) ⊎ (result.status ≡ Status.OutOfMemory) }
    ensures check { IsCheck (texts_of words.now) → length bytes.items ≤ MOST_INPUT_BYTES
        → BeginWithInput bytes.items
        → (result.status ≡ Status.Done) ⊎ (result.status ≡ Status.Differs)
        ⊎ (result.status ≡ Status.OutOfMemory) }
    ensures run_records { IsRecords (texts_of words.now)
        → length bytes.items ≤ MOST_INPUT_BYTES
        → IsRecordsText bytes.items
        → (result.status ≡ Status.Done) ⊎ (result.status ≡ Status.OutOfMemory) }
    ensures run_orders { IsOrders (texts_of words.now)
        → length bytes.items ≤ MOST_INPUT_BYTES
        → IsOrdersText bytes.items
        → (result.status ≡ Status.Done) ⊎ (result.status ≡ Status.OutOfMemory) }
    ensures making { IsMaking (texts_of words.now)
        → (result.status ≡ Status.Done) ⊎ (result.status ≡ Status.OutOfMemory) }

    // Each refusal, if it is called for: it comes, or out of memory.
    ensures bad_words { (¬ IsValidCommand (texts_of words.now))
        → result.status ≡ Status.BadWords }
    ensures too_large { IsReading (texts_of words.now)
        → MOST_INPUT_BYTES < length bytes.items
        → (result.status ≡ Status.TooLarge) ⊎ (result.status ≡ Status.OutOfMemory) }
    ensures bad_input { IsReading (texts_of words.now)
        → length bytes.items ≤ MOST_INPUT_BYTES
        → (¬ HaveInputFor (texts_of words.now) bytes.items)
        → (result.status ≡ Status.BadInput) ⊎ (result.status ≡ Status.OutOfMemory) }
    ensures differs { IsCheck (texts_of words.now)
        → length bytes.items ≤ MOST_INPUT_BYTES → (input : ClearingInput) (text : List ℕ)
        → AreTwoTexts bytes.items input text → (¬ IsOutput input RESTARTS_BELOW text)
        → (result.status ≡ Status.Differs) ⊎ (result.status ≡ Status.OutOfMemory) }
    ensures agrees { IsCheck (texts_of words.now)
        → length bytes.items ≤ MOST_INPUT_BYTES → (input : ClearingInput) (text : List ℕ)
        → AreTwoTexts bytes.items input text → IsOutput input RESTARTS_BELOW text
        → (result.status ≡ Status.Done) ⊎ (result.status ≡ Status.OutOfMemory) }

    // What the workers did is told as ever, of exactly these bytes.
    ensures day { IsAnyRunCommand (texts_of words.now)
        → IfSome result.day (IsDayFor (texts_of words.now) bytes.items None None) }
    ensures served { (source : UnfailingSource) × (sink : SureSink) × IsServed
        ⟦<SureSource as Source>⟧ ⟦<SureSink as Sink>⟧ ⟦<u128 as Coded>⟧ (texts_of words.now)
        (record { left = bytes.items; reads = 0 }) source (record {}) sink result }
{
    let mut source = SureSource::new(bytes);
    let mut sink = SureSink::new();
    serve(rt, alloc, words, &mut source, &mut sink, gate)
}
