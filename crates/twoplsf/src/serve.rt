//! The top call.

ghost use Rattle.std.specs.Prelude.{◌≡◌, ◌+◌, ◌≤◌, ◌⊎◌, Some, false, IfOk, IfSome, IsErrOf, IsOk, length};
ghost use Rattle.std.specs.Io.KnownBytes.{Appends};
ghost use Rattle.io_ends.specs.Counts.{Rose};
ghost use Rattle.io_ends.specs.Taken.{AppendsPrefix, TakesAtMost, count_taken};
ghost use Rattle.script_reader.specs.Grammar.{BeginWithInput, IsValidInput};
ghost use Rattle.twoplsf.specs.Command.{IsAnyRunCommand, IsCheck, IsMaking, IsOrders, IsRecords, texts_of};
ghost use Rattle.twoplsf.specs.Commands.{reads_text};
ghost use Rattle.twoplsf.specs.Answer.{OfBytesRead, PrintsOutput, WasGiven, only_status, served_of, text_of_answer};
ghost use Rattle.twoplsf.specs.Causes.{HasCauses};
ghost use Rattle.twoplsf.specs.Made.{PrintsMade};
ghost use Rattle.twoplsf.specs.Orders.{IsOrdersText, PrintsOrderOutput};
ghost use Rattle.twoplsf.specs.Records.{IsRecordsText, PrintsRecordOutput};
ghost use Rattle.twoplsf.specs.Serving.{IsServed};

use crate::answer::Answer;
use crate::command::{Command, command_of};
use crate::run_command::run_command;
use crate::status::Status;
use io_ends::{OutOfMemory, ReadStop, Sink, Source, read_all, write_all_of};
use order_match::OrderDay;
use script_reader::limits::MOST_INPUT_BYTES;
use std::alloc::Global;
use std::sync::Wait;
use std::thread::Threads;
use txn_cells::{CellsShape, Coded};
use txn_records::RecordDay;
use word_table::Closed;
use worker_gate::Gate;
use worker_pool::DayEnd;

/// What serving came to.
#[derive(Drop)]
pub struct Served {
    pub status: Status,
    /// What the workers did, if scripts were run and their output was written whole.
    pub day: Option<DayEnd>,
    /// The closed table of a run over cells, if their values were written whole.
    pub cells: Option<Closed<CellsShape<u128>>>,
    /// What the workers did on a record store, if their output was written whole.
    pub records: Option<RecordDay>,
    /// What the workers did on a limit order book, if their output was written whole.
    pub orders: Option<OrderDay>,
}

impl Served {
    // What serving came to if nothing is told of what was done.
    fn only(status: Status) -> Served
        ensures { result ≡ only_status status }
    {
        Served {
            status,
            day: None,
            cells: None,
            records: None,
            orders: None,
        }
    }

    // What it came to if the text of this answer was written whole: what was done is told.
    fn of(answer: Answer) -> Served
        ensures { result ≡ served_of answer }
    {
        let done = Served::only(Status::Done);
        match answer {
            Answer::Text { status, .. } => Served::only(status),
            Answer::Day { day, .. } => Served {
                day: Some(day),
                ..done
            },
            Answer::Records(day) => Served {
                records: Some(day),
                ..done
            },
            Answer::Orders(day) => Served {
                orders: Some(day),
                ..done
            },
            Answer::Cells { closed, .. } => Served {
                cells: Some(closed),
                ..done
            },
        }
    }
}

// Writes a text, and answers this if it was written whole, or else a write fault.
fn finish<K: Sink>(sink: &mut K, text: &[u8], status: Status) -> Status
    ensures { (result ≡ status × Appends (K.taken sink.old) (K.taken sink.new) text.now)
        ⊎ (result ≡ Status.WriteFault × Rose (K.faults sink.old) (K.faults sink.new)
        × AppendsPrefix (K.taken sink.old) (K.taken sink.new) text.now) }
{
    match write_all_of(sink, text) {
        Ok(()) => status,
        Err(_) => Status::WriteFault,
    }
}

// Writes the text of an answer, and tells what was done if it was written whole.
fn print_answer<K: Sink>(sink: &mut K, answer: Answer) -> Served
    ensures { (result ≡ served_of answer
        × Appends (K.taken sink.old) (K.taken sink.new) (text_of_answer answer))
        ⊎ (result ≡ only_status Status.WriteFault × Rose (K.faults sink.old) (K.faults sink.new)
        × AppendsPrefix (K.taken sink.old) (K.taken sink.new) (text_of_answer answer)) }
{
    match write_all_of(sink, answer.text()) {
        Ok(()) => Served::of(answer),
        Err(_) => Served::only(Status::WriteFault),
    }
}

// The bytes for a command: all that is left of the source, or none if it reads nothing.
fn bytes_for<S: Source>(
    alloc: Global,
    command: Command,
    source: &mut S,
) -> Result<Vec<u8>, ReadStop>
    ensures given { IfOk result
        (λ bytes. WasGiven command (S.left source.old) (S.left source.new) bytes.items) }
    ensures unread { reads_text command ≡ false → source.new ≡ source.old × IsOk result }
    ensures fault { IsErrOf result ReadStop.Fault
        → Rose (S.faults source.old) (S.faults source.new) }
    ensures too_large { IsErrOf result ReadStop.TooLarge
        → IfSome (count_taken (S.left source.old) (S.left source.new))
        (λ n. n ≡ MOST_INPUT_BYTES + 1) }
    ensures above_limit { count_taken (S.left source.old) (S.left source.new)
        ≡ Some (MOST_INPUT_BYTES + 1)
        → IsErrOf result ReadStop.TooLarge ⊎ IsErrOf result ReadStop.OutOfMemory }
    ensures taken { TakesAtMost (S.left source.old) (S.left source.new) (MOST_INPUT_BYTES + 1) }
    ensures reads { S.reads source.new ≤ S.reads source.old + MOST_INPUT_BYTES + 2 }
{
    if command.reads() {
        read_all(alloc, source, MOST_INPUT_BYTES)
    } else {
        Ok(Vec::new(alloc))
    }
}

// Reads, answers and writes. From the one clause that `run_program` cites too all others of `serve` follow.
fn serve_words<R: Threads + Wait + Sync, S: Source, K: Sink, G: Gate + Sync>(
    rt: &R,
    alloc: Global,
    words: &[String],
    source: &mut S,
    sink: &mut K,
    gate: &G,
) -> Served
    ensures { IsServed S.Source K.Sink ⟦<u128 as Coded>⟧ (texts_of words.now)
        source.old source.new sink.old sink.new result }
{
    let Some(command) = command_of(words) else {
        return Served::only(finish(sink, b"refused words\n", Status::BadWords));
    };
    let bytes = match bytes_for(alloc, command, source) {
        Ok(bytes) => bytes,
        Err(ReadStop::Fault) => return Served::only(Status::ReadFault),
        Err(ReadStop::TooLarge) => {
            return Served::only(finish(sink, b"refused size\n", Status::TooLarge));
        }
        Err(ReadStop::OutOfMemory) => return Served::only(Status::OutOfMemory),
    };
    match run_command(rt, alloc, command, &bytes, gate) {
        Ok(answer) => print_answer(sink, answer),
        Err(OutOfMemory) => Served::only(Status::OutOfMemory),
    }
}

/// Does what the words say: `run W` reads an input from the source, runs each of its scripts as one transaction on one
/// of W threads, and writes the journal and the closing books to the sink; `records W` does the same for the input of a
/// record store, with the closing records, and `orders W` for that of a limit order book, with the orders that rest;
/// `check` reads an input and a text behind it, and writes whether that is an output of the input, or its first wrong
/// line. `make`, `drill` and `cells` read nothing: the first writes the input that a seed gives, the second runs it,
/// checks the output, and writes what the closing books come to, and the third has threads add to cells of 128 bits, and
/// writes what these come to. `run`, `records`, `orders`, `drill` and `cells` may wait: that a wait ends, no clause says.
/// Every text is made before the first write. Faults are looked for in the order words, read, size, input; out of memory
/// may come before any of them but words. What is printed for which bytes is the contract of `run_command`.
pub fn serve<R: Threads + Wait + Sync, S: Source, K: Sink, G: Gate + Sync>(
    rt: &R,
    alloc: Global,
    words: &[String],
    source: &mut S,
    sink: &mut K,
    gate: &G,
) -> Served
    // The serial journal theorem: what is printed is one serial history with every script once and each caller's in
    // order; the sequential interpreter, run down it from the opening books, gives every reply and the closing books;
    // and no script was restarted as often as there are workers. The bytes are those that the source had left, if it
    // tells them; if the sink does not tell what it took, `Appends` says nothing of it.
    ensures headline { IsAnyRunCommand (texts_of words.now) → result.status ≡ Status.Done
        → OfBytesRead (S.left source.old) (λ bytes. PrintsOutput (texts_of words.now) bytes
        (K.taken sink.old) (K.taken sink.new)) }
    // The same of a record store: its scripts from a store with no record, and the records at the end.
    ensures headline_records { IsRecords (texts_of words.now) → result.status ≡ Status.Done
        → OfBytesRead (S.left source.old) (λ bytes. PrintsRecordOutput (texts_of words.now) bytes
        (K.taken sink.old) (K.taken sink.new)) }
    // And of a limit order book: its scripts from a book with no order, and the orders that rest at the end.
    ensures headline_orders { IsOrders (texts_of words.now) → result.status ≡ Status.Done
        → OfBytesRead (S.left source.old) (λ bytes. PrintsOrderOutput (texts_of words.now) bytes
        (K.taken sink.old) (K.taken sink.new)) }
    // What is printed by a command that reads nothing.
    ensures made { IsMaking (texts_of words.now) → result.status ≡ Status.Done
        → PrintsMade (texts_of words.now) (K.taken sink.old) (K.taken sink.new) }

    // All that is told, taken and read, from which each other clause follows; and what each status is the answer to.
    ensures served { IsServed S.Source K.Sink ⟦<u128 as Coded>⟧ (texts_of words.now)
        source.old source.new sink.old sink.new result }
    ensures causes { HasCauses result.status (texts_of words.now)
        (S.left source.old) (S.left source.new) (K.taken sink.old) (K.taken sink.new) }

    // Completeness: if nothing is wrong and no fault comes, the command is done, or out of memory; and `check` may
    // find that the text differs.
    ensures complete { IsAnyRunCommand (texts_of words.now) → IfSome (S.left source.old)
        (λ bytes. length bytes ≤ MOST_INPUT_BYTES → IsValidInput bytes
        → (¬ Rose (S.faults source.old) (S.faults source.new))
        → (¬ Rose (K.faults sink.old) (K.faults sink.new))
        → (result.status ≡ Status.Done) ⊎ (result.status ≡ Status.OutOfMemory)) }
    ensures complete_check { IsCheck (texts_of words.now) → IfSome (S.left source.old)
        (λ bytes. length bytes ≤ MOST_INPUT_BYTES → BeginWithInput bytes
        → (¬ Rose (S.faults source.old) (S.faults source.new))
        → (¬ Rose (K.faults sink.old) (K.faults sink.new))
        → (result.status ≡ Status.Done) ⊎ (result.status ≡ Status.Differs)
        ⊎ (result.status ≡ Status.OutOfMemory)) }
    ensures complete_records { IsRecords (texts_of words.now) → IfSome (S.left source.old)
        (λ bytes. length bytes ≤ MOST_INPUT_BYTES → IsRecordsText bytes
        → (¬ Rose (S.faults source.old) (S.faults source.new))
        → (¬ Rose (K.faults sink.old) (K.faults sink.new))
        → (result.status ≡ Status.Done) ⊎ (result.status ≡ Status.OutOfMemory)) }
    ensures complete_orders { IsOrders (texts_of words.now) → IfSome (S.left source.old)
        (λ bytes. length bytes ≤ MOST_INPUT_BYTES → IsOrdersText bytes
        → (¬ Rose (S.faults source.old) (S.faults source.new))
        → (¬ Rose (K.faults sink.old) (K.faults sink.new))
        → (result.status ≡ Status.Done) ⊎ (result.status ≡ Status.OutOfMemory)) }
    ensures complete_making { IsMaking (texts_of words.now)
        → (¬ Rose (K.faults sink.old) (K.faults sink.new))
        → (result.status ≡ Status.Done) ⊎ (result.status ≡ Status.OutOfMemory) }
{
    serve_words(rt, alloc, words, source, sink, gate)
}
