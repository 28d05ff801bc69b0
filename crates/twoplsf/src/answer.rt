//! The answer to the bytes of an input.

ghost use Rattle.std.specs.Prelude.{◌≡◌, IfOk};
ghost use Rattle.books_model.specs.Ranges.{IsWithin};
ghost use Rattle.books_report.specs.Output.{output_of};
ghost use Rattle.script_reader.specs.declared.limits.TheConstants.{MOST_WORKERS};
ghost use Rattle.script_reader.specs.Faults.{IsFirstFault};
ghost use Rattle.script_reader.specs.Grammar.{Spells};
ghost use Rattle.twoplsf.specs.Answer.{Answers, IsRunOf, IsTextAlone, refused_line, status_of, text_of_answer};
ghost use Rattle.twoplsf.specs.Day.{IsDayOf, closing_books, journal_of};

use crate::day::run_day;
use crate::printing::write_shared;
use crate::reading::read_shared;
use crate::status::Status;
use books_model::Books;
use books_report::journal::with_closing;
use books_report::journal_text;
use io_ends::OutOfMemory;
use order_match::OrderDay;
use script_reader::{Fault, Input, InputFault};
use std::alloc::Global;
use std::sync::Wait;
use std::thread::Threads;
use txn_books::laws::one_books;
use txn_books::{BooksShape, read_books};
use txn_cells::CellsShape;
use txn_records::RecordDay;
use txn_stores::{lines_of, replies_of};
use word_table::Closed;
use worker_gate::Gate;
use worker_pool::DayEnd;

/// What a command has to say, and what was done for it.
#[derive(Drop)]
pub enum Answer {
    /// A text and its status, with nothing to tell beside it.
    Text {
        status: Status,
        text: Vec<u8>,
    },
    /// The text of a day, and the day.
    Day {
        text: Vec<u8>,
        day: DayEnd,
    },
    /// A day of a record store, with the text that tells of it.
    Records(RecordDay),
    /// A day of a limit order book, with the text that tells of it.
    Orders(OrderDay),
    /// The values of cells, and the closed table that they are in.
    Cells {
        text: Vec<u8>,
        closed: Closed<CellsShape<u128>>,
    },
}

impl Answer {
    /// The status that it is printed with.
    pub fn status(&self) -> Status
        ensures { result ≡ status_of self.now }
    {
        match self {
            Answer::Text { status, .. } => *status,
            _ => Status::Done,
        }
    }

    /// Its text.
    pub fn text(&self) -> &[u8]
        ensures { result.now ≡ text_of_answer self.now }
    {
        match self {
            Answer::Text { text, .. } | Answer::Day { text, .. } | Answer::Cells { text, .. } =>
                text,
            Answer::Records(day) => &day.text,
            Answer::Orders(day) => &day.text,
        }
    }
}

// The answer that refuses bytes, by their first faulty line.
pub(crate) fn refusal(alloc: Global, line: u32, why: Fault) -> Result<Answer, OutOfMemory>
    ensures { IfOk result (IsTextAlone Status.BadInput (refused_line line why)) }
{
    let mut text = String::from_str(alloc, "refused line ")?;
    write!(text, "{line} {why}")?;
    text.push_str("\n")?;
    Ok(Answer::Text {
        status: Status::BadInput,
        text: text.into_bytes(),
    })
}

// The books for which the closed words of a day stand: those that the interpreter leaves.
pub(crate) fn closing_of(
    alloc: Global,
    input: &Input,
    workers: u32,
    day: &DayEnd,
) -> Result<Books, OutOfMemory>
    requires { IsDayOf input.now workers day.now }
    ensures { IfOk result (λ closing. closing ≡ closing_books input.now day.now) }
{
    one_books();
    let shape = BooksShape::of(input.books());
    read_books(alloc, &shape, day.closed.words())
}

// The text of a day: its journal, and the books that it left.
pub(crate) fn output_of(
    alloc: Global,
    input: &Input,
    workers: u32,
    day: &DayEnd,
    closing: &Books,
) -> Result<Vec<u8>, OutOfMemory>
    requires day { IsDayOf input.now workers day.now }
    requires closing { closing.now ≡ closing_books input.now day.now }
    ensures { IfOk result (λ text. text.items ≡ output_of input.now (journal_of day.now)) }
{
    let lines = lines_of(alloc, &day.done)?;
    let replies = replies_of(alloc, &day.done)?;
    journal_text(alloc, input, &lines, &replies, closing)
}

// The same text, the lines of its journal by as many threads as there are workers.
fn shared_output<R: Threads + Sync>(
    rt: &R,
    alloc: Global,
    input: &Input,
    workers: u32,
    day: &DayEnd,
    closing: &Books,
) -> Result<Vec<u8>, OutOfMemory>
    requires day { IsDayOf input.now workers day.now }
    requires closing { closing.now ≡ closing_books input.now day.now }
    ensures { IfOk result (λ text. text.items ≡ output_of input.now (journal_of day.now)) }
{
    if workers < 2 {
        return output_of(alloc, input, workers, day, closing);
    }
    let head = String::from_str(alloc, "journal\n")?;
    let journal = write_shared(rt, alloc, head, input, 1, &day.done, workers)?;
    with_closing(journal, closing)
}

// Runs the scripts of an input by so many workers, and makes the text of the journal.
fn day_and_text<R: Threads + Wait + Sync, G: Gate + Sync>(
    rt: &R,
    alloc: Global,
    input: &Input,
    workers: u32,
    gate: &G,
) -> Result<(DayEnd, Vec<u8>), OutOfMemory>
    requires workers { IsWithin 1 MOST_WORKERS workers }
    ensures day { IfOk result (λ r. IsDayOf input.now workers r.0) }
    ensures text { IfOk result (λ r. r.1.items ≡ output_of input.now (journal_of r.0)) }
{
    let day = run_day(rt, alloc, input, workers, gate)?;
    let closing = closing_of(alloc, input, workers, &day)?;
    let text = shared_output(rt, alloc, input, workers, &day, &closing)?;
    Ok((day, text))
}

/// Reads an input, runs its scripts by so many workers and makes the text of the journal; or refuses the bytes.
pub fn run_answer<R: Threads + Wait + Sync, G: Gate + Sync>(
    rt: &R,
    alloc: Global,
    bytes: &[u8],
    workers: u32,
    gate: &G,
) -> Result<Answer, OutOfMemory>
    requires workers { IsWithin 1 MOST_WORKERS workers }
    ensures { IfOk result (Answers Spells IsFirstFault (IsRunOf workers) bytes.now) }
{
    match read_shared(rt, alloc, bytes, workers) {
        Ok(input) => {
            let (day, text) = day_and_text(rt, alloc, &input, workers, gate)?;
            Ok(Answer::Day { text, day })
        }
        Err(InputFault::Line { line, why }) => refusal(alloc, line, why),
        Err(InputFault::OutOfMemory) => Err(OutOfMemory),
    }
}
