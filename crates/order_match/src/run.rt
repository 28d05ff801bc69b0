//! All scripts of an input on workers over one table.

ghost use Rattle.std.specs.Prelude.{◌≡◌, ◌≤◌, IfOk};
ghost use Rattle.history_model.specs.Fitting.{IsGood};
ghost use Rattle.word_table.specs.declared.limits.TheConstants.{MOST_PASSES};
ghost use Rattle.word_table.specs.Closing.{AreRecords, IsCoherent, IsLegalInEachOrder};
ghost use Rattle.order_text.specs.Orders.{empty_book};
ghost use Rattle.order_text.specs.Output.{IsOrderOutput, closing_of, text_of};
ghost use Rattle.txn_commit.specs.Lists.{AreDealt};
ghost use Rattle.txn_stores.specs.Journals.{scripts_done};
ghost use Rattle.order_match.specs.Days.{IsOrderDay, shape_of};
ghost use Rattle.order_match.specs.Layout.{words_of};
ghost use Rattle.order_match.specs.Standing.{IsGoodFor, Stands};

use crate::shape::OrderShape;
use io_ends::OutOfMemory;
use order_text::{OrderInput, OrderReply, OrderValue};
use std::alloc::Global;
use std::sync::Wait;
use std::thread::Threads;
use txn_commit::Done;
use txn_stores::{StoreDay, StoreJob, run_store};
use worker_gate::Gate;

/// A script on the words of a limit order book, as a transaction.
pub type OrderJob<'s> = StoreJob<'s, OrderShape>;

/// A script of a limit order book that was run.
pub type OrderDone = Done<OrderReply>;

/// What a day of a limit order book came to: its text is the journal, and the orders that rest at its end.
pub type OrderDay = StoreDay<OrderValue, OrderShape>;

/// Runs all scripts of an input on a book that begins empty, as `run_store` does.
pub fn run_orders<R: Threads + Wait + Sync, G: Gate + Sync>(
    rt: &R,
    alloc: Global,
    input: &OrderInput,
    workers: u32,
    gate: &G,
) -> Result<OrderDay, OutOfMemory>
    requires workers { (1 ≤ workers) × (workers ≤ MOST_PASSES) }
    // The table is that of a book of the input's sizes, with a pass for each worker; it began with no order.
    ensures shape { IfOk result (λ day. day.closed.shape ≡ shape_of input.now) }
    ensures passes { IfOk result (λ day. day.closed.seats ≡ workers) }
    ensures began { IfOk result (λ day. Stands day.closed.shape day.closed.base (empty_book input.now.blocks)) }
    // What was committed, with all attempts that gave way, has an arrangement, and each arrangement is a legal history.
    ensures coherent { IfOk result (λ day. IsCoherent
        (IsGood (words_of day.closed.shape) (IsGoodFor day.closed.shape)) day.closed) }
    ensures legal { IfOk result (λ day. IsLegalInEachOrder
        (IsGood (words_of day.closed.shape) (IsGoodFor day.closed.shape)) day.closed) }
    ensures records { IfOk result (λ day. AreRecords day.closed) }
    // One order of all scripts, and what the interpreter says of it.
    ensures day { IfOk result (λ day. IsOrderDay input.now day.closed day.done.items) }
    // Each caller was run by the pass of its number, modulo the workers.
    ensures dealt { IfOk result (λ day. AreDealt workers day.done.items) }
    // The text tells this order, and the orders that rest at its end.
    ensures text { IfOk result (λ day. day.text.items ≡ text_of input.now
        (scripts_done day.done.items) (closing_of input.now (scripts_done day.done.items))) }
    ensures output { IfOk result (λ day. IsOrderOutput input.now workers day.text.items) }
{
    let _callers = input.callers();
    run_store::<R, G, OrderShape>(rt, alloc, input, workers, gate)
}
