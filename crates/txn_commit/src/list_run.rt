//! Lists of jobs on workers over one table.

ghost use Rattle.std.specs.Prelude.{◌≡◌, ◌≤◌, ◌<◌, [], All, length, IfOk};
ghost use Rattle.std.specs.List.{flat_map};
ghost use Rattle.history_model.specs.Fitting.{IsGood};
ghost use Rattle.word_table.specs.declared.limits.TheConstants.{LAST_CALL, MOST_PASSES, MOST_WORDS};
ghost use Rattle.word_table.specs.Closing.{AreRecords, IsCoherent, IsLegalInEachOrder};
ghost use Rattle.txn_commit.specs.Lists.{jobs_of_first, AreCounted, AreDealt, AreMeant, AreOnceInOrder, HaveRecords};
ghost use Rattle.txn_commit.specs.Ordered.{AreRecorded};

use crate::list_worker::ListWorker;
use crate::lists::{Done, Lists, ListsEnd};
use io_ends::OutOfMemory;
use std::alloc::Global;
use std::sync::Wait;
use std::thread::Threads;
use txn_threads::run_clients;

// So many workers, who have run nothing.
fn start<L: Lists>(
    alloc: Global,
    lists: &L,
    workers: u32,
) -> Result<Vec<ListWorker<'_, L>>, OutOfMemory>
    ensures count { IfOk result (λ started. length started.items ≡ workers) }
    ensures new { IfOk result (λ started. All (λ worker. (worker.lists.now ≡ lists.now)
        × (worker.workers ≡ workers) × (worker.done.items ≡ [])) started.items) }
{
    let mut started = Vec::new(alloc);
    for _ in 0..workers {
        started.push(ListWorker {
            lists,
            workers,
            done: Vec::new(alloc),
        })?;
    }
    Ok(started)
}

// What all workers ran, in their order.
fn join_all<L: Lists>(
    alloc: Global,
    workers: Vec<ListWorker<'_, L>>,
) -> Result<Vec<Done<L::Answer>>, OutOfMemory>
    ensures { IfOk result (λ done.
        done.items ≡ flat_map (λ worker. worker.done.items) workers.entry.items) }
{
    let mut done = Vec::new(alloc);
    for mut worker in workers {
        done.append(&mut worker.done)?;
    }
    Ok(done)
}

/// Runs the jobs of all callers, each as one transaction on a table over these words, with so many workers, each on a
/// thread of its own.
///
/// Each caller is run whole by one worker, its jobs in their order. If there is no memory for the table, or a worker
/// finds none, there is no table to be had: the other workers go on to their end, and their work is lost. A worker may
/// wait for others: that a wait ends, no clause says.
pub fn run_lists<L: Lists + Sync, R: Threads + Wait + Sync>(
    rt: &R,
    alloc: Global,
    lists: &L,
    words: Vec<u64>,
    workers: u32,
) -> Result<ListsEnd<L>, OutOfMemory>
where
    L::Shape: Send + Sync,
    L::Answer: Send,
    requires words { (1 ≤ length words.items) × (length words.items ≤ MOST_WORDS) }
    requires good { IsGood (L.Shape.word_count (L.shape lists.now))
        (L.Shape.good (L.shape lists.now)) words.items }
    requires workers { (1 ≤ workers) × (workers ≤ MOST_PASSES) }
    requires room { jobs_of_first (L.jobs lists.now) (L.callers lists.now) ≤ LAST_CALL }
    // The table is the one that was asked for, with a pass for each worker.
    ensures closed { IfOk result (λ end. (end.closed.base ≡ words.items)
        × (end.closed.seats ≡ workers) × (end.closed.shape ≡ L.shape lists.now)) }
    // What was committed, with the attempts that gave way, has an arrangement; in every arrangement each item stands at a
    // legal place, and the words are what it leaves. They are good.
    ensures coherent { IfOk result (λ end. IsCoherent
        (IsGood (L.Shape.word_count (L.shape lists.now)) (L.Shape.good (L.shape lists.now)))
        end.closed) }
    ensures legal { IfOk result (λ end. IsLegalInEachOrder
        (IsGood (L.Shape.word_count (L.shape lists.now)) (L.Shape.good (L.shape lists.now)))
        end.closed) }
    ensures records { IfOk result (λ end. AreRecords end.closed) }
    ensures good { IfOk result (λ end.
        IsGood (L.Shape.word_count (L.shape lists.now)) (L.Shape.good (L.shape lists.now))
        end.closed.words) }
    // Each caller's jobs were run once and in their order, by one seat; the records are theirs.
    ensures once { IfOk result (λ end.
        AreOnceInOrder (L.callers lists.now) (L.jobs lists.now) end.done.items) }
    ensures seats { IfOk result (λ end. AreDealt workers end.done.items) }
    ensures entries { IfOk result (λ end. HaveRecords end.closed.records end.done.items) }
    // A seat made no other calls than these, and its items stand in the order in which it made them.
    ensures calls { IfOk result (λ end. AreCounted end.done.items) }
    ensures below { IfOk result (λ end. All (λ ran. ran.restarts < workers) end.done.items) }
    // In every arrangement each did, of the words that what stands before it left, what its job means.
    ensures meant { IfOk result (λ end. AreMeant (L.means lists.now) end.closed end.done.items) }
    // And beside its entry it does so on all good words on which its trace is legal.
    ensures run { IfOk result (λ end. AreRecorded
        (IsGood (L.Shape.word_count (L.shape lists.now)) (L.Shape.good (L.shape lists.now)))
        (L.means lists.now) end.closed end.done.items) }
{
    let started = start(alloc, lists, workers)?;
    let ended = run_clients(rt, alloc, lists.shape(), words, started)?;
    let done = join_all(alloc, ended.clients)?;
    Ok(ListsEnd {
        closed: ended.closed,
        done,
    })
}
