//! A day: the scripts of an input, run by workers over a table of their own.

ghost use Rattle.std.specs.Prelude.{IfOk};
ghost use Rattle.books_model.specs.Ranges.{IsWithin};
ghost use Rattle.script_reader.specs.declared.limits.TheConstants.{MOST_WORKERS};
ghost use Rattle.twoplsf.specs.Day.{IsDayOf};

use io_ends::OutOfMemory;
use script_reader::Input;
use std::alloc::Global;
use std::sync::Wait;
use std::thread::Threads;
use txn_books::{BooksShape, build};
use word_table::Desk;
use worker_gate::Gate;
use worker_pool::{DayEnd, run_callers};

/// Runs each script once, as one transaction, by so many workers.
pub fn run_day<R: Threads + Wait + Sync, G: Gate + Sync>(
    rt: &R,
    alloc: Global,
    input: &Input,
    workers: u32,
    gate: &G,
) -> Result<DayEnd, OutOfMemory>
    requires workers { IsWithin 1 MOST_WORKERS workers }
    ensures { IfOk result (IsDayOf input.now workers) }
{
    let shape = BooksShape::of(input.books());
    let words = build(alloc, input.books())?;
    let (desk, passes) = Desk::new(alloc, shape, words, workers)?;
    run_callers(rt, alloc, desk, passes, input, gate)
}
