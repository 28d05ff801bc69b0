//! One worker: it takes callers and runs their scripts, until it finds none.

ghost use Rattle.std.specs.Prelude.{◌≡◌, ℕ, ◌+◌, ◌*◌, ◌<◌, ◌≤◌, List, [], ◌∷◌, ◌++◌, length, IfOk, OnOk};
ghost use Rattle.script_reader.specs.Gathered.{caller_at};
ghost use Rattle.history_model.specs.declared.view.Phase.TheVariants.{Idle};
ghost use Rattle.history_model.specs.Views.{number};
ghost use Rattle.script_reader.specs.declared.limits.TheConstants.{MOST_SCRIPTS};
ghost use Rattle.word_table.specs.declared.limits.TheConstants.{LAST_CALL};
ghost use Rattle.worker_pool.specs.Counting.{HadOneMore};
ghost use Rattle.worker_pool.specs.Days.{Done};
ghost use Rattle.worker_pool.specs.Inner.Makers.{HasMade, RanScripts, RunsEach};
ghost use Rattle.txn_threads.specs.Passes.{IsFresh, IsNext};
ghost use Rattle.worker_pool.specs.Inner.Workers.{DoesItsPart, IsTableFor, IsSeated};

use crate::done::Done;
use crate::heap::enlarge;
use crate::queue::Queue;
use crate::work::Work;
use books_model::laws::scripts_go_by_instruments;
use io_ends::OutOfMemory;
use order_rebuild::Readers;
use script_reader::limits::MOST_SCRIPTS;
use std::sync::Wait;
use txn_books::{BooksShape, ScriptJob};
use txn_commit::transact;
use word_table::Pass;
use worker_gate::Gate;

/// What a worker has for its own, beside its pass.
#[derive(Drop)]
pub(crate) struct Worker {
    pub queue: Queue,
    pub done: Vec<Done>,
    /// How many of its items read each version of each lock.
    pub readers: Readers,
}

/// What was run by one pass.
#[derive(Drop)]
pub(crate) struct Share {
    pub pass: Pass<BooksShape>,
    pub done: Vec<Done>,
    pub readers: Readers,
}

// The number by which a gate knows a script: a caller's own lie side by side.
fn tag_of(caller: u32, index: u32) -> u64
    ensures { result ≡ caller * MOST_SCRIPTS + index }
{
    u64::from(caller) * MOST_SCRIPTS as u64 + u64::from(index)
}

// The script of a caller as one transaction: its item.
fn run_script<R: Wait, G: Gate>(
    work: &Work<R, G>,
    pass: &mut Pass<BooksShape>,
    caller: u32,
    index: u32,
) -> Result<Done, OutOfMemory>
    requires fit { IsTableFor work.now.desk.now work.now.shape work.now.input.now }
    requires caller { caller < length work.now.input.now.callers }
    requires index { index < length (caller_at work.now.input.now.callers caller).scripts }
    requires desk { pass.old.table ≡ work.now.desk.now.table }
    requires idle { pass.old.view.phase ≡ Idle }
    requires room { pass.old.view.call < LAST_CALL }
    ensures next { IsNext pass.old pass.new }
    ensures made { IfOk result (λ item. (done : List Done)
        → HasMade work.now.desk.now work.now.input.now (number pass.old.view) pass.old done
        → HasMade work.now.desk.now work.now.input.now (number pass.old.view)
        pass.new (done ++ item ∷ [])) }
    ensures place { IfOk result (λ item. (item.caller ≡ caller) × (item.index ≡ index)) }
{
    // A script for the opening books is one for these sizes.
    scripts_go_by_instruments();
    let script = work.input.script(caller, index);
    let job = ScriptJob::new(work.alloc, work.shape, script, tag_of(caller, index));
    let receipt = transact(work.rt, work.alloc, work.desk, pass, &job, work.gate)?;
    Ok(Done {
        caller,
        index,
        seat: pass.who(),
        call: receipt.call,
        uses: receipt.uses,
        restarts: receipt.restarts,
        reply: receipt.answer,
    })
}

// Counts what an item read. One worker alone leaves its items in their order, and nothing is counted.
fn count_readers<R: Wait, G: Gate>(work: &Work<R, G>, readers: &mut Readers, item: &Done) {
    if work.stealers.len() > 1 {
        readers.count(&item.uses);
    }
}

// All scripts of one caller of the input, in their order.
fn run_scripts<R: Wait, G: Gate>(
    work: &Work<R, G>,
    pass: &mut Pass<BooksShape>,
    done: &mut Vec<Done>,
    readers: &mut Readers,
    caller: u32,
) -> Result<(), OutOfMemory>
    requires fit { IsTableFor work.now.desk.now work.now.shape work.now.input.now }
    requires caller { caller < length work.now.input.now.callers }
    requires made { HasMade work.now.desk.now work.now.input.now (number pass.old.view)
        pass.old done.old.items }
    requires room { length done.old.items + length (caller_at work.now.input.now.callers caller).scripts
        ≤ LAST_CALL }
    ensures next { IsNext pass.old pass.new }
    ensures made { OnOk result (HasMade work.now.desk.now work.now.input.now
        (number pass.old.view) pass.new done.new.items) }
    ensures run { OnOk result ((h : ℕ → ℕ) → h caller ≡ 0
        → RanScripts work.now.input.now h caller 0 done.old.items
        → RanScripts work.now.input.now h caller
        (length (caller_at work.now.input.now.callers caller).scripts) done.new.items) }
    ensures count { OnOk result (length done.new.items
        ≡ length done.old.items + length (caller_at work.now.input.now.callers caller).scripts) }
{
    for index in 0..work.input.scripts_of(caller) {
        let item = run_script(work, pass, caller, index)?;
        count_readers(work, readers, &item);
        done.push(item)?;
    }
    Ok(())
}

/// All scripts of one caller, in their order. A number that is no caller's is passed over.
pub(crate) fn run_caller<R: Wait, G: Gate>(
    work: &Work<R, G>,
    pass: &mut Pass<BooksShape>,
    done: &mut Vec<Done>,
    readers: &mut Readers,
    caller: u32,
) -> Result<(), OutOfMemory>
    requires fit { IsTableFor work.now.desk.now work.now.shape work.now.input.now }
    requires made { HasMade work.now.desk.now work.now.input.now (number pass.old.view)
        pass.old done.old.items }
    requires room { length done.old.items + MOST_SCRIPTS ≤ LAST_CALL }
    ensures next { IsNext pass.old pass.new }
    ensures made { OnOk result (HasMade work.now.desk.now work.now.input.now
        (number pass.old.view) pass.new done.new.items) }
    ensures run { OnOk result ((h more : ℕ → ℕ) → HadOneMore h more caller
        → RunsEach work.now.input.now h done.old.items
        → RunsEach work.now.input.now more done.new.items) }
    ensures count { OnOk result (length done.new.items ≤ length done.old.items + MOST_SCRIPTS) }
{
    if caller < work.input.callers() {
        run_scripts(work, pass, done, readers, caller)?;
    }
    Ok(())
}

impl Worker {
    /// Takes callers and runs their scripts, until it finds none or there is no memory.
    pub(crate) fn run<R: Wait, G: Gate>(
        &mut self,
        work: &Work<R, G>,
        pass: &mut Pass<BooksShape>,
    ) -> Result<(), OutOfMemory>
        requires fit { IsTableFor work.now.desk.now work.now.shape work.now.input.now }
        requires seated { IsSeated work.now.stealers.now self.old }
        requires fresh { IsFresh work.now.desk.now pass.old }
        ensures next { IsNext pass.old pass.new }
        ensures worked { OnOk result (DoesItsPart work.now.stealers.now work.now.desk.now
            work.now.input.now self.old self.new pass.new) }
    {
        enlarge(work.alloc);
        // Its number is all that says who it is.
        pass.who();
        for _ in work.rt.forever() {
            let Some(caller) = self.queue.next(work.rt, work.stealers) else {
                return Ok(());
            };
            run_caller(work, pass, &mut self.done, &mut self.readers, caller)?;
        }
        unreachable!()
    }
}
