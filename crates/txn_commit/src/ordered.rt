//! Lists of jobs on workers, and what was run in the order that is rebuilt from what it used.

ghost use Rattle.std.specs.Prelude.{◌≡◌, ◌≤◌, ◌<◌, ℕ, All, length, slice_get, Some, IfOk, IsTrue};
ghost use Rattle.history_model.specs.Fitting.{IsGood};
ghost use Rattle.word_table.specs.declared.limits.TheConstants.{LAST_CALL, MOST_PASSES, MOST_WORDS};
ghost use Rattle.word_table.specs.Closing.{AreRecords, IsCoherent, IsLegalInEachOrder};
ghost use Rattle.txn_commit.specs.Lists.{jobs_of_first, AreDealt, AreOnceInOrder, HaveRecords};
ghost use Rattle.txn_commit.specs.Ordered.{AreAt, IsRunInOrder, IsSerial};

use crate::list_run::run_lists;
use crate::lists::{Lists, ListsEnd};
use io_ends::OutOfMemory;
use order_rebuild::order_of;
use std::alloc::Global;
use std::sync::Wait;
use std::thread::Threads;

// Whether these are so many places in turn, from the first on.
fn are_in_turn(places: &[usize], count: usize) -> bool
    ensures count { IsTrue result → length places.now ≡ count }
    ensures each { IsTrue result → (i p : ℕ) → slice_get places.now i ≡ Some p → p ≡ i }
{
    if places.len() != count {
        return false;
    }
    for place in 0..count {
        if places[place] != place {
            return false;
        }
    }
    true
}

// The items at the places, in their order, in a list of their own.
fn take_out<T: Drop>(alloc: Global, items: Vec<T>, places: &[usize]) -> Result<Vec<T>, OutOfMemory>
    requires within { (i p : ℕ) → slice_get places.now i ≡ Some p → p < length items.items }
    requires once { (i j p : ℕ) → slice_get places.now i ≡ Some p
        → slice_get places.now j ≡ Some p → i ≡ j }
    ensures { IfOk result (λ arranged. AreAt items.items places.now arranged.items) }
{
    let mut left = Vec::with_capacity(alloc, items.len())?;
    for item in items {
        left.push(Some(item))?;
    }
    let mut arranged = Vec::with_capacity(alloc, places.len())?;
    for &place in places {
        let Some(item) = left[place].take() else {
            unreachable!()
        };
        arranged.push(item)?;
    }
    Ok(arranged)
}

/// The items at the places, in their order. If they stand so already, they are not moved.
pub fn arrange<T: Drop>(
    alloc: Global,
    items: Vec<T>,
    places: &[usize],
) -> Result<Vec<T>, OutOfMemory>
    requires within { (i p : ℕ) → slice_get places.now i ≡ Some p → p < length items.items }
    requires once { (i j p : ℕ) → slice_get places.now i ≡ Some p
        → slice_get places.now j ≡ Some p → i ≡ j }
    ensures { IfOk result (λ arranged. AreAt items.items places.now arranged.items) }
{
    if are_in_turn(places, items.len()) {
        return Ok(items);
    }
    take_out(alloc, items, places)
}

/// Runs the jobs of all callers as `run_lists` does, and puts what was run in the order that is rebuilt from what it
/// used.
///
/// That order is one of all jobs, whatever the workers did when: run one after another in it, on words alone, they do
/// what they did. `proofs/Orders/Stores` has what follows for a store whose jobs are steps of an interpreter.
pub fn run_in_order<L: Lists + Sync, R: Threads + Wait + Sync>(
    rt: &R,
    alloc: Global,
    lists: &L,
    words: Vec<u64>,
    workers: u32,
) -> Result<ListsEnd<L>, OutOfMemory>
where
    L::Shape: Send + Sync,
    L::Answer: Send,
    requires words { (1 ≤ length words.items) × (length words.items ≤ MOST_WORDS) }
    requires good { IsGood (L.Shape.word_count (L.shape lists.now))
        (L.Shape.good (L.shape lists.now)) words.items }
    requires workers { (1 ≤ workers) × (workers ≤ MOST_PASSES) }
    requires room { jobs_of_first (L.jobs lists.now) (L.callers lists.now) ≤ LAST_CALL }
    // The table is the one that was asked for, with a pass for each worker.
    ensures closed { IfOk result (λ end. (end.closed.base ≡ words.items)
        × (end.closed.seats ≡ workers) × (end.closed.shape ≡ L.shape lists.now)) }
    // What was committed, with the attempts that gave way, has an arrangement; in every arrangement each item stands at
    // a legal place, and the words are what it leaves. They are good.
    ensures coherent { IfOk result (λ end. IsCoherent
        (IsGood (L.Shape.word_count (L.shape lists.now)) (L.Shape.good (L.shape lists.now)))
        end.closed) }
    ensures legal { IfOk result (λ end. IsLegalInEachOrder
        (IsGood (L.Shape.word_count (L.shape lists.now)) (L.Shape.good (L.shape lists.now)))
        end.closed) }
    ensures records { IfOk result (λ end. AreRecords end.closed) }
    ensures good { IfOk result (λ end.
        IsGood (L.Shape.word_count (L.shape lists.now)) (L.Shape.good (L.shape lists.now))
        end.closed.words) }
    // Each caller's jobs were run once and stand in their order, run by one seat; the records are theirs.
    ensures once { IfOk result (λ end.
        AreOnceInOrder (L.callers lists.now) (L.jobs lists.now) end.done.items) }
    ensures seats { IfOk result (λ end. AreDealt workers end.done.items) }
    ensures entries { IfOk result (λ end. HaveRecords end.closed.records end.done.items) }
    ensures below { IfOk result (λ end. All (λ ran. ran.restarts < workers) end.done.items) }
    // Down that order each did, of the words that those before it left, what its job means, and the last left the
    // words.
    ensures in_order { IfOk result (λ end. IsRunInOrder
        (IsGood (L.Shape.word_count (L.shape lists.now)) (L.Shape.good (L.shape lists.now)))
        (L.means lists.now) end.closed end.done.items) }
    // So they ran as if one after another, from the words that were handed in to the closed ones.
    ensures serial { IfOk result (λ end. IsSerial
        (IsGood (L.Shape.word_count (L.shape lists.now)) (L.Shape.good (L.shape lists.now)))
        (L.means lists.now) words.items end.closed.words end.done.items) }
{
    let ListsEnd { closed, done } = run_lists(rt, alloc, lists, words, workers)?;
    let places = order_of(alloc, done.as_slice())?;
    let done = arrange(alloc, done, places.as_slice())?;
    Ok(ListsEnd { closed, done })
}
