//! All scripts of an input on workers over one table.

ghost use Rattle.std.specs.Prelude.{◌≡◌, ◌≤◌, map, IfOk};
ghost use Rattle.history_model.specs.Fitting.{IsGood};
ghost use Rattle.word_table.specs.declared.limits.TheConstants.{MOST_PASSES};
ghost use Rattle.word_table.specs.Closing.{AreRecords, IsCoherent, IsLegalInEachOrder};
ghost use Rattle.books_report.specs.declared.stores.reply.StoreReply.{StoreReply};
ghost use Rattle.books_report.specs.Stores.Output.{state_left, text_of, IsOutputOf};
ghost use Rattle.txn_commit.specs.declared.lists.Done.{Done};
ghost use Rattle.txn_commit.specs.Lists.{AreDealt};
ghost use Rattle.txn_stores.specs.Days.{IsDay};
ghost use Rattle.txn_stores.specs.Journals.{line_of_done, scripts_done};

use crate::lists::StoreLists;
use crate::store::Store;
use books_report::Line;
use books_report::stores::StoreReply;
use history_model::Shape;
use io_ends::OutOfMemory;
use std::alloc::Global;
use std::sync::Wait;
use std::thread::Threads;
use txn_commit::{Done, ListsEnd, run_in_order};
use word_table::Closed;
use worker_gate::Gate;

/// What a day of a store came to.
#[derive(Drop)]
pub struct StoreDay<V: Drop, S: Shape> {
    /// The output text: the journal, and what it leaves.
    pub text: Vec<u8>,
    /// The scripts that were run, in the order of the journal.
    pub done: Vec<Done<StoreReply<V>>>,
    /// The closed table.
    pub closed: Closed<S>,
}

/// The lines of a journal of scripts that were run, in their order.
pub fn lines_of<A: Drop>(alloc: Global, done: &[Done<A>]) -> Result<Vec<Line>, OutOfMemory>
    ensures { IfOk result (λ lines. lines.items ≡ map line_of_done done.now) }
{
    let mut lines = Vec::new(alloc);
    for item in done {
        lines.push(Line {
            caller: item.caller,
            index: item.index,
            restarts: item.restarts,
        })?;
    }
    Ok(lines)
}

/// The replies beside them, which the items lend.
pub fn replies_of<A: Drop>(alloc: Global, done: &[Done<A>]) -> Result<Vec<&A>, OutOfMemory>
    ensures { IfOk result (λ replies. map (λ reply. reply.now) replies.items
        ≡ map (λ item. item.reply) done.now) }
{
    let mut replies = Vec::new(alloc);
    for item in done {
        replies.push(&item.reply)?;
    }
    Ok(replies)
}

// The text of a day: its journal, and what it left.
fn text_of<S: Store>(
    alloc: Global,
    input: &S::Input,
    done: &[Done<StoreReply<S::Value>>],
    closed: &Closed<S>,
) -> Result<Vec<u8>, OutOfMemory>
    requires shape { closed.now.shape ≡ S.shape_of input.now }
    requires good { IsGood (S.word_count (S.shape_of input.now))
        (S.good (S.shape_of input.now)) closed.now.words }
    requires day { IsDay (S.told input.now) S.stands closed.now done.now }
    ensures text { IfOk result (λ text. text.items ≡ text_of (S.told input.now) (scripts_done done.now)
        ((S.told input.now).closing (state_left (S.told input.now) (scripts_done done.now)))) }
    ensures output { IfOk result (λ text.
        IsOutputOf (S.told input.now) closed.now.seats text.items) }
{
    let lines = lines_of(alloc, done)?;
    let replies = replies_of(alloc, done)?;
    S::text(alloc, input, &lines, &replies, closed.words())
}

/// Runs all scripts of an input, each as one transaction, with so many workers, each on a thread of its own.
///
/// Each caller is run whole by one worker, its scripts in their order. The gate is told of each point that a
/// transaction comes to; its tag is the caller times the most scripts of an input, and the script's index, both from 0.
/// If a worker finds no memory, the others go on to their end, and there is no day. A worker may wait for others:
/// that a wait ends, no clause says.
pub fn run_store<R: Threads + Wait + Sync, G: Gate + Sync, S: Store + Send + Sync>(
    rt: &R,
    alloc: Global,
    input: &S::Input,
    workers: u32,
    gate: &G,
) -> Result<StoreDay<S::Value, S>, OutOfMemory>
where
    S::Op: Send + Sync,
    S::Value: Send + Sync,
    S::Input: Sync,
    requires workers { (1 ≤ workers) × (workers ≤ MOST_PASSES) }
    // The table is that of the store, with a pass for each worker; it began with what the store begins with.
    ensures shape { IfOk result (λ day. day.closed.shape ≡ S.shape_of input.now) }
    ensures passes { IfOk result (λ day. day.closed.seats ≡ workers) }
    ensures began { IfOk result (λ day. S.stands day.closed.shape day.closed.base
        (S.told input.now).begins) }
    // What was committed, with all attempts that gave way, has an arrangement, and each arrangement is a legal history.
    ensures coherent { IfOk result (λ day. IsCoherent
        (IsGood (S.word_count day.closed.shape) (S.good day.closed.shape)) day.closed) }
    ensures legal { IfOk result (λ day. IsLegalInEachOrder
        (IsGood (S.word_count day.closed.shape) (S.good day.closed.shape)) day.closed) }
    ensures records { IfOk result (λ day. AreRecords day.closed) }
    // One order of all scripts, and what the interpreter says of it.
    ensures day { IfOk result (λ day. IsDay (S.told input.now) S.stands day.closed day.done.items) }
    // Each caller was run by the pass of its number, modulo the workers.
    ensures dealt { IfOk result (λ day. AreDealt workers day.done.items) }
    // The text tells this order, and what it leaves.
    ensures text { IfOk result (λ day. day.text.items
        ≡ text_of (S.told input.now) (scripts_done day.done.items)
        ((S.told input.now).closing (state_left (S.told input.now) (scripts_done day.done.items)))) }
    ensures output { IfOk result (λ day. IsOutputOf (S.told input.now) workers day.text.items) }
{
    let words = S::opening_words(alloc, input)?;
    let lists = StoreLists::<S, G> {
        input,
        shape: S::shape_of(input),
        callers: S::callers(input),
        gate,
    };
    let ListsEnd { closed, done } = run_in_order(rt, alloc, &lists, words, workers)?;
    let text = text_of::<S>(alloc, input, &done, &closed)?;
    Ok(StoreDay { text, done, closed })
}
