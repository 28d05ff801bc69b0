//! The answer to the bytes of an input of a limit order book.

ghost use Rattle.std.specs.Prelude.{IfOk};
ghost use Rattle.books_model.specs.Ranges.{IsWithin};
ghost use Rattle.script_reader.specs.declared.limits.TheConstants.{MOST_WORKERS};
ghost use Rattle.order_text.specs.Grammar.{IsOrderFault, SpellsOrders};
ghost use Rattle.twoplsf.specs.Answer.{Answers, IsOrdersRunOf};

use crate::answer::{Answer, refusal};
use io_ends::OutOfMemory;
use order_match::run_orders;
use order_text::read_orders;
use script_reader::InputFault;
use std::alloc::Global;
use std::sync::Wait;
use std::thread::Threads;
use worker_gate::Gate;

/// Reads the input of a limit order book and runs its scripts by so many workers, or refuses the bytes.
pub fn orders_answer<R: Threads + Wait + Sync, G: Gate + Sync>(
    rt: &R,
    alloc: Global,
    bytes: &[u8],
    workers: u32,
    gate: &G,
) -> Result<Answer, OutOfMemory>
    requires workers { IsWithin 1 MOST_WORKERS workers }
    ensures { IfOk result (Answers SpellsOrders IsOrderFault
        (IsOrdersRunOf workers) bytes.now) }
{
    match read_orders(alloc, bytes) {
        Ok(input) => Ok(Answer::Orders(run_orders(rt, alloc, &input, workers, gate)?)),
        Err(InputFault::Line { line, why }) => refusal(alloc, line, why),
        Err(InputFault::OutOfMemory) => Err(OutOfMemory),
    }
}
