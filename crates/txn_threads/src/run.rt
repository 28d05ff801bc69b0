//! A table, and a thread for each of its passes.

ghost use Rattle.std.specs.Prelude.{◌≡◌, ◌≤◌, ◌<◌, ℕ, length, map, get_or, IfOk, All};
ghost use Rattle.history_model.specs.Fitting.{IsGood};
ghost use Rattle.word_table.specs.declared.limits.TheConstants.{MOST_PASSES, MOST_WORDS};
ghost use Rattle.word_table.specs.Closing.{AreRecords, IsCoherent, IsLegalInEachOrder};
ghost use Rattle.txn_threads.specs.Clients.{HaveWorked, HaveWorkedAt, IsReadyFor};
ghost use Rattle.txn_threads.specs.Passes.{AreNew};
ghost use Rattle.txn_threads.specs.Inner.Seats.{AreParts, HasEnded, IsReady};

use crate::client::Client;
use crate::seat::Seat;
use history_model::Shape;
use io_ends::OutOfMemory;
use std::alloc::Global;
use std::sync::Wait;
use std::thread;
use std::thread::Threads;
use word_table::{Closed, Desk, Pass};

/// What all clients leave: the closed table, and the clients in their order.
#[derive(Drop)]
pub struct Ended<C: Client> {
    pub closed: Closed<C::Shape>,
    pub clients: Vec<C>,
}

// The clients, each with the pass of its place.
fn seat_all<C: Client>(
    alloc: Global,
    clients: Vec<C>,
    mut passes: Vec<Pass<C::Shape>>,
) -> Result<Vec<Seat<C>>, OutOfMemory>
    requires count { length passes.items ≡ length clients.items }
    ensures clients { IfOk result (λ seats. map (λ seat. seat.client) seats.items ≡ clients.items) }
    ensures passes { IfOk result (λ seats. map (λ seat. seat.pass) seats.items ≡ passes.items) }
{
    let mut seats = Vec::new(alloc);
    // They are taken from the end.
    passes.reverse();
    for client in clients {
        let Some(pass) = passes.pop() else {
            unreachable!()
        };
        seats.push(Seat {
            client,
            pass,
            failed: false,
        })?;
    }
    Ok(seats)
}

// Each client on a thread of its own.
fn work_all<C: Client, R: Threads + Wait + Sync>(
    rt: &R,
    alloc: Global,
    desk: &Desk<C::Shape>,
    seats: &mut [Seat<C>],
)
    requires some { 0 < length seats.old }
    requires ready { All (IsReady C.shape C.can_begin desk.now) seats.old }
    ensures ended { (k : ℕ) (d : _) → k < length seats.old
        → HasEnded C.does desk.now (get_or seats.old k d) (get_or seats.new k d) }
{
    thread::for_each_mut(
        rt,
        seats,
        seats.len(),
        &|_, seat: &mut Seat<C>|
            requires { IsReady C.shape C.can_begin desk.now seat.now }
            ensures { HasEnded C.does desk.entry.now seat.entry.now seat.exit.now }
        {
            if seat.client.work(rt, alloc, desk, &mut seat.pass).is_err() {
                seat.failed = true;
            }
        },
    );
}

// The clients and their passes, unless one of them found no memory.
fn part_all<C: Client>(
    alloc: Global,
    seats: Vec<Seat<C>>,
) -> Result<(Vec<C>, Vec<Pass<C::Shape>>), OutOfMemory>
    ensures { IfOk result (λ parts. AreParts seats.items parts.0.items parts.1.items) }
{
    let mut clients = Vec::new(alloc);
    let mut passes = Vec::new(alloc);
    for seat in seats {
        let Seat {
            client,
            pass,
            failed,
        } = seat;
        if failed {
            return Err(OutOfMemory);
        }
        clients.push(client)?;
        passes.push(pass)?;
    }
    Ok((clients, passes))
}

/// Lends each client the pass of its place, on a thread of its own: the clients and the passes in their order, when all
/// threads have ended.
///
/// `Desk::new` gives the passes, and `Desk::close` takes them. If a client finds no memory, the others go on to their
/// end, and all is dropped.
pub fn lend<C: Client, R: Threads + Wait + Sync>(
    rt: &R,
    alloc: Global,
    desk: &Desk<C::Shape>,
    clients: Vec<C>,
    passes: Vec<Pass<C::Shape>>,
) -> Result<(Vec<C>, Vec<Pass<C::Shape>>), OutOfMemory>
    requires some { 0 < length clients.items }
    requires ready { All (IsReadyFor C.shape C.can_begin desk.now) clients.items }
    requires new { AreNew desk.now passes.items }
    requires seats { desk.now.seats ≡ length clients.items }
    // Each client did its work with the pass of its place, and the passes are between calls.
    ensures worked { IfOk result (λ ended.
        HaveWorkedAt C.does desk.now clients.items ended.0.items ended.1.items) }
{
    let mut seats = seat_all(alloc, clients, passes)?;
    work_all(rt, alloc, desk, seats.as_mut_slice());
    part_all(alloc, seats)
}

/// Opens a table over the words, lends each client a pass of its own on a thread of its own, and closes the table when
/// all have ended.
///
/// If there is no memory for the table, or a client finds none, there is no table to be had: the other clients go on
/// to their end, and their work is lost. A client may wait for others: that a wait ends, no clause says.
///
/// Three visitors, who try to enter three times each (`turnstile`):
///
///     let visitors = vec![in alloc; Visitor { room, times: 3 }; 3]?;
///     let ended = run_clients(rt, alloc, room, vec![in alloc; 0]?, visitors)?;
///     let inside = ended.closed.words()[0];
pub fn run_clients<C: Client, R: Threads + Wait + Sync>(
    rt: &R,
    alloc: Global,
    shape: C::Shape,
    words: Vec<u64>,
    clients: Vec<C>,
) -> Result<Ended<C>, OutOfMemory>
    requires words { (1 ≤ length words.items) × (length words.items ≤ MOST_WORDS) }
    requires good { IsGood (C.Shape.word_count shape) (C.Shape.good shape) words.items }
    requires clients { (1 ≤ length clients.items) × (length clients.items ≤ MOST_PASSES) }
    requires ready { All (λ client. C.can_begin client × (C.shape client ≡ shape)) clients.items }
    // The table is the one that was asked for, with a pass for each client.
    ensures closed { IfOk result (λ ended. (ended.closed.base ≡ words.items)
        × (ended.closed.seats ≡ length clients.items) × (ended.closed.shape ≡ shape)) }
    // What was committed, with the attempts that gave way, has an arrangement; in every arrangement each item stands at a
    // legal place, and the words are what it leaves. They are good.
    ensures coherent { IfOk result (λ ended. IsCoherent
        (IsGood (C.Shape.word_count shape) (C.Shape.good shape)) ended.closed) }
    ensures legal { IfOk result (λ ended. IsLegalInEachOrder
        (IsGood (C.Shape.word_count shape) (C.Shape.good shape)) ended.closed) }
    ensures records { IfOk result (λ ended. AreRecords ended.closed) }
    ensures good { IfOk result (λ ended.
        IsGood (C.Shape.word_count shape) (C.Shape.good shape) ended.closed.words) }
    // Each client did its work.
    ensures worked { IfOk result (λ ended.
        HaveWorked C.does ended.closed clients.items ended.clients.items) }
{
    let (desk, passes) = Desk::new(alloc, shape, words, clients.len() as u32)?;
    let (clients, passes) = lend(rt, alloc, &desk, clients, passes)?;
    let Ok(closed) = desk.close(alloc, passes) else {
        return Err(OutOfMemory);
    };
    Ok(Ended { closed, clients })
}
