//! What one worker does with lists of jobs.

ghost use Rattle.std.specs.Prelude.{◌≡◌, ◌≤◌, ◌<◌, ◌+◌, ◌%◌, ℕ, [], length, IfOk, OnOk};
ghost use Rattle.history_model.specs.declared.view.Phase.TheVariants.{Idle};
ghost use Rattle.history_model.specs.Views.{number};
ghost use Rattle.txn_threads.specs.Passes.{IsFresh, IsNext};
ghost use Rattle.word_table.specs.declared.limits.TheConstants.{LAST_CALL};
ghost use Rattle.word_table.specs.Desks.{AreGoodWords};
ghost use Rattle.txn_commit.specs.Lists.{jobs_of_first};
ghost use Rattle.txn_commit.specs.Inner.ListWork.{HasRun, RanFirst, RanList, RanOne};

use crate::lists::{Done, Lists};
use io_ends::OutOfMemory;
use std::alloc::Global;
use std::sync::Wait;
use txn_threads::Client;
use word_table::{Desk, Pass};

/// A worker: it runs the jobs of the callers whose number, modulo that of the workers, is the number of its pass.
#[derive(Drop)]
pub(crate) struct ListWorker<'a, L: Lists> {
    pub lists: &'a L,
    pub workers: u32,
    /// What it has run, in the order in which it did.
    pub done: Vec<Done<L::Answer>>,
}

// One job of a caller: its item.
fn run_listed<L: Lists, R: Wait>(
    rt: &R,
    alloc: Global,
    lists: &L,
    desk: &Desk<L::Shape>,
    pass: &mut Pass<L::Shape>,
    caller: u32,
    index: u32,
) -> Result<Done<L::Answer>, OutOfMemory>
    requires caller { caller < L.callers lists.now }
    requires index { index < L.jobs lists.now caller }
    requires shape { desk.now.shape ≡ L.shape lists.now }
    requires desk { pass.old.table ≡ desk.now.table }
    requires phase { pass.old.view.phase ≡ Idle }
    requires room { pass.old.view.call < LAST_CALL }
    ensures next { IsNext pass.old pass.new }
    ensures place { IfOk result (λ ran. (ran.caller ≡ caller) × (ran.index ≡ index)) }
    ensures made { IfOk result (RanOne (AreGoodWords L.Shape.Shape desk.now)
        (L.means lists.now) desk.now.seats pass.old.view pass.new.view) }
{
    let receipt = lists.run(rt, alloc, desk, pass, caller, index)?;
    Ok(Done {
        caller,
        index,
        seat: pass.who(),
        call: receipt.call,
        uses: receipt.uses,
        restarts: receipt.restarts,
        reply: receipt.answer,
    })
}

// All jobs of one caller, in their order.
fn run_list<L: Lists, R: Wait>(
    rt: &R,
    alloc: Global,
    lists: &L,
    desk: &Desk<L::Shape>,
    pass: &mut Pass<L::Shape>,
    done: &mut Vec<Done<L::Answer>>,
    caller: u32,
) -> Result<(), OutOfMemory>
    requires caller { caller < L.callers lists.now }
    requires shape { desk.now.shape ≡ L.shape lists.now }
    requires desk { pass.old.table ≡ desk.now.table }
    requires phase { pass.old.view.phase ≡ Idle }
    requires run { HasRun (AreGoodWords L.Shape.Shape desk.now) (L.means lists.now)
        desk.now.seats (number pass.old.view) pass.old.view done.old.items }
    requires room { length done.old.items + L.jobs lists.now caller ≤ LAST_CALL }
    ensures next { IsNext pass.old pass.new }
    ensures run { OnOk result (HasRun (AreGoodWords L.Shape.Shape desk.now) (L.means lists.now)
        desk.now.seats (number pass.old.view) pass.new.view done.new.items) }
    ensures list { OnOk result
        (RanList caller (L.jobs lists.now caller) done.old.items done.new.items) }
{
    for index in 0..lists.jobs(caller) {
        let item = run_listed(rt, alloc, lists, desk, pass, caller, index)?;
        done.push(item)?;
    }
    Ok(())
}

// The jobs of every caller that is this pass's.
fn run_own<L: Lists, R: Wait>(
    rt: &R,
    alloc: Global,
    lists: &L,
    desk: &Desk<L::Shape>,
    pass: &mut Pass<L::Shape>,
    done: &mut Vec<Done<L::Answer>>,
    workers: u32,
) -> Result<(), OutOfMemory>
    requires workers { 0 < workers }
    requires shape { desk.now.shape ≡ L.shape lists.now }
    requires fresh { IsFresh desk.now pass.old }
    requires none { done.old.items ≡ [] }
    requires room { jobs_of_first (L.jobs lists.now) (L.callers lists.now) ≤ LAST_CALL }
    ensures next { IsNext pass.old pass.new }
    ensures run { OnOk result (HasRun (AreGoodWords L.Shape.Shape desk.now) (L.means lists.now)
        desk.now.seats (number pass.old.view) pass.new.view done.new.items) }
    ensures first { OnOk result (RanFirst (L.jobs lists.now) workers (number pass.old.view)
        (L.callers lists.now) done.new.items) }
{
    let seat = pass.who();
    for caller in 0..lists.callers() {
        if caller % workers == seat {
            run_list(rt, alloc, lists, desk, pass, done, caller)?;
        }
    }
    Ok(())
}

impl<'a, L: Lists + Sync> Client for ListWorker<'a, L>
where
    L::Shape: Send + Sync,
    L::Answer: Send,
{
    ghost use Rattle.std.specs.Prelude.{◌≡◌, ◌≤◌, ◌<◌, []};
    ghost use Rattle.history_model.specs.Views.{number};
    ghost use Rattle.word_table.specs.declared.limits.TheConstants.{LAST_CALL};
    ghost use Rattle.word_table.specs.Desks.{AreGoodWords};
    ghost use Rattle.txn_commit.specs.Lists.{jobs_of_first};
    ghost use Rattle.txn_commit.specs.Inner.ListWork.{HasRun, RanFirst};

    type Shape = L::Shape;

    ghost shape = { λ worker. L.shape worker.lists.now };

    ghost can_begin = { λ worker. (worker.done.items ≡ []) × (0 < worker.workers)
        × (jobs_of_first (L.jobs worker.lists.now) (L.callers worker.lists.now) ≤ LAST_CALL) };

    ghost does = { λ desk old new before after. HasRun (AreGoodWords L.Shape.Shape desk)
        (L.means old.lists.now) desk.seats (number before.view) after.view new.done.items
        × RanFirst (L.jobs old.lists.now) old.workers (number before.view)
        (L.callers old.lists.now) new.done.items };

    fn work<R: Wait>(
        &mut self,
        rt: &R,
        alloc: Global,
        desk: &Desk<L::Shape>,
        pass: &mut Pass<L::Shape>,
    ) -> Result<(), OutOfMemory> {
        run_own(
            rt,
            alloc,
            self.lists,
            desk,
            pass,
            &mut self.done,
            self.workers,
        )
    }
}
