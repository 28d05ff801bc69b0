//! One call over bytes: each command, and its answer.

ghost use Rattle.std.specs.Prelude.{IfOk};
ghost use Rattle.twoplsf.specs.Answer.{IsAnswer};
ghost use Rattle.twoplsf.specs.Commands.{IsInRange};

use crate::answer::{Answer, run_answer};
use crate::cells::add_to_cells;
use crate::check::check_answer;
use crate::command::Command;
use crate::making::drill;
use crate::orders::orders_answer;
use crate::records::records_answer;
use crate::status::Status;
use input_maker::make_input;
use io_ends::OutOfMemory;
use std::alloc::Global;
use std::sync::Wait;
use std::thread::Threads;
use txn_cells::Coded;
use worker_gate::Gate;

/// What a command has to say of these bytes, which are all that it reads; one that reads nothing takes no notice of them.
/// All that the program prints is the text of such an answer, but `refused words` and `refused size`.
///
/// The serial journal theorem is the row of `run` in the table `IsAnswer`: either the bytes spell an input, and the text
/// is an output of it with each number of restarts below that of the workers, for the items of a day of it, which is
/// answered too; or they spell none, and the text refuses their first fault.
pub fn run_command<R: Threads + Wait + Sync, G: Gate + Sync>(
    rt: &R,
    alloc: Global,
    command: Command,
    bytes: &[u8],
    gate: &G,
) -> Result<Answer, OutOfMemory>
    requires { IsInRange command }
    ensures { IfOk result (IsAnswer ⟦<u128 as Coded>⟧ command bytes.now) }
{
    match command {
        Command::Run(workers) => run_answer(rt, alloc, bytes, workers, gate),
        Command::Check => check_answer(alloc, bytes),
        Command::Records(workers) => records_answer(rt, alloc, bytes, workers, gate),
        Command::Orders(workers) => orders_answer(rt, alloc, bytes, workers, gate),
        Command::Make(plan) => Ok(Answer::Text {
            status: Status::Done,
            text: make_input(alloc, plan.seed, plan.callers, plan.scripts)?,
        }),
        Command::Drill { workers, plan } => {
            let (text, day) = drill(rt, alloc, workers, plan, gate)?;
            Ok(Answer::Day { text, day })
        }
        Command::Cells { workers, rounds } => {
            let (text, closed) = add_to_cells(rt, alloc, workers, rounds, gate)?;
            Ok(Answer::Cells { text, closed })
        }
    }
}
