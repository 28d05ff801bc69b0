//! All workers of a day: a thread for each pass, and what they leave.

ghost use Rattle.std.specs.Prelude.{ℕ, ◌≡◌, ◌<◌, ◌≤◌, ◌+◌, ◌*◌, ◌++◌, ◌∷◌, [], length, map, get_or, flat_map, All, IfOk, OnOk};
ghost use Rattle.history_model.specs.Fitting.{IsGood};
ghost use Rattle.script_reader.specs.declared.limits.TheConstants.{MOST_CALLERS, MOST_SCRIPTS};
ghost use Rattle.txn_threads.specs.Passes.{AreNew};
ghost use Rattle.txn_books.specs.Layout.{shape_of, words_of};
ghost use Rattle.txn_books.specs.Standing.{IsGoodFor, Stands, StandsFor};
ghost use Rattle.worker_pool.specs.declared.rule.TheConstants.{ALL_PARTS};
ghost use Rattle.worker_pool.specs.Counting.{times};
ghost use Rattle.worker_pool.specs.Days.{AreCallersWhole, IsDay};
ghost use Rattle.word_table.specs.Closing.{AreRecords, IsCoherent, IsLegalInEachOrder};
ghost use Rattle.worker_pool.specs.Inner.Dealing.{AreDealtInTurn, AreShown, IsFree, IsNewRow};
ghost use Rattle.worker_pool.specs.Inner.Makers.{HasMade, RunsEach};
ghost use Rattle.worker_pool.specs.Inner.Queues.{dealt_to, IsDealtOut};
ghost use Rattle.worker_pool.specs.Inner.Workers.{seat_of, AreAllDone, worker_of, HaveDoneTheirParts, IsSeated, IsTableFor};

use crate::client::WorkerClient;
use crate::dealing::{Deques, deal_out};
use crate::done::{DayEnd, Done};
use crate::finish::take_what_is_left;
use crate::heap::keep_blocks;
use crate::queue::Queue;
use crate::rule::{DequePass, Owner};
use crate::work::Work;
use crate::worker::{Share, Worker, run_caller};
use books_model::laws::refused_changes_nothing;
use crossbeam_utils::CachePadded;
use io_ends::OutOfMemory;
use order_rebuild::{Readers, order_counted};
use script_reader::Input;
use std::alloc::Global;
use std::sync::Wait;
use std::thread::Threads;
use txn_books::BooksShape;
use txn_commit::arrange;
use txn_threads::lend;
use word_table::{Desk, Pass};
use worker_gate::Gate;

// A worker for each deque, in their order, with its row of passes.
fn seat_workers<'a, R: Wait, G: Gate>(
    work: &Work<'a, R, G>,
    owners: Vec<Owner>,
    mut rows: Vec<Vec<DequePass>>,
) -> Result<Vec<WorkerClient<'a, G>>, OutOfMemory>
    requires count { length rows.items ≡ length owners.items }
    requires few { length owners.items < ALL_PARTS }
    requires shown { AreShown work.now.stealers.now owners.items }
    requires free { All (IsFree (length owners.items)) owners.items }
    requires rows { All (λ row. IsNewRow owners.items row.items) rows.items }
    ensures seated { IfOk result (λ clients.
        All (λ client. IsSeated work.now.stealers.now (worker_of client.worker)) clients.items) }
    ensures shared { IfOk result (λ clients. All (λ client.
        (client.shape ≡ work.now.shape) × (client.stealers.now ≡ work.now.stealers.now)
        × (client.input.now ≡ work.now.input.now)) clients.items) }
    ensures seats { IfOk result (λ clients. (k : ℕ) (d : _) → k < length clients.items
        → (worker_of (get_or clients.items k d).worker).queue.seat ≡ k) }
    ensures owners { IfOk result (λ clients.
        map (λ client. (worker_of client.worker).queue.own) clients.items ≡ owners.items) }
{
    let mut clients = Vec::new(work.alloc);
    for own in owners {
        let Some(passes) = rows.pop() else {
            unreachable!()
        };
        let readers = Readers::new(work.alloc)?;
        let worker = Worker {
            queue: Queue {
                own,
                passes,
                seat: clients.len(),
                count: 0,
            },
            done: Vec::new(work.alloc),
            readers,
        };
        clients.push(WorkerClient {
            worker: CachePadded::new(worker),
            shape: work.shape,
            stealers: work.stealers,
            input: work.input,
            gate: work.gate,
        })?;
    }
    Ok(clients)
}

/// What all workers leave, each list in their order.
#[derive(Drop)]
pub(crate) struct Results {
    pub owners: Vec<Owner>,
    pub rows: Vec<Vec<DequePass>>,
    pub shares: Vec<Share>,
}

// What one worker leaves, with its pass, behind what others left.
fn add_worker(worker: Worker, pass: Pass<BooksShape>, all: &mut Results) -> Result<(), OutOfMemory>
    ensures owner { OnOk result (all.new.owners.items
        ≡ all.old.owners.items ++ worker.queue.own ∷ []) }
    ensures row { OnOk result (all.new.rows.items
        ≡ all.old.rows.items ++ worker.queue.passes ∷ []) }
    ensures pass { OnOk result (map (λ share. share.pass) all.new.shares.items
        ≡ map (λ share. share.pass) all.old.shares.items ++ pass ∷ []) }
    ensures done { OnOk result (map (λ share. share.done.items) all.new.shares.items
        ≡ map (λ share. share.done.items) all.old.shares.items ++ worker.done.items ∷ []) }
{
    let Worker {
        queue,
        done,
        readers,
    } = worker;
    let Queue {
        own,
        passes,
        seat: _,
        count: _,
    } = queue;
    all.owners.push(own)?;
    all.rows.push(passes)?;
    all.shares.push(Share {
        pass,
        done,
        readers,
    })?;
    Ok(())
}

// What all workers leave, with their passes.
fn results_of<G: Gate>(
    alloc: Global,
    clients: Vec<WorkerClient<G>>,
    mut passes: Vec<Pass<BooksShape>>,
) -> Result<Results, OutOfMemory>
    requires count { length passes.items ≡ length clients.items }
    ensures owners { IfOk result (λ all. all.owners.items
        ≡ map (λ client. (worker_of client.worker).queue.own) clients.entry.items) }
    ensures rows { IfOk result (λ all. all.rows.items
        ≡ map (λ client. (worker_of client.worker).queue.passes) clients.entry.items) }
    ensures passes { IfOk result (λ all.
        map (λ share. share.pass) all.shares.items ≡ passes.items) }
    ensures done { IfOk result (λ all. map (λ share. share.done.items) all.shares.items
        ≡ map (λ client. (worker_of client.worker).done.items) clients.entry.items) }
{
    let mut all = Results {
        owners: Vec::new(alloc),
        rows: Vec::new(alloc),
        shares: Vec::new(alloc),
    };
    // They are taken from the end.
    passes.reverse();
    for client in clients {
        let Some(pass) = passes.pop() else {
            unreachable!()
        };
        add_worker(client.worker.into_inner(), pass, &mut all)?;
    }
    Ok(all)
}

// Runs all callers of the list.
fn run_left<R: Wait, G: Gate>(
    work: &Work<R, G>,
    share: &mut Share,
    left: Vec<u32>,
) -> Result<(), OutOfMemory>
    requires fit { IsTableFor work.now.desk.now work.now.shape work.now.input.now }
    requires made { HasMade work.now.desk.now work.now.input.now (seat_of share.old)
        share.old.pass share.old.done.items }
    requires few { length share.old.done.items ≤ MOST_CALLERS * MOST_SCRIPTS }
    requires left { length left.items ≤ MOST_CALLERS }
    ensures made { OnOk result (HasMade work.now.desk.now work.now.input.now (seat_of share.old)
        share.new.pass share.new.done.items) }
    ensures number { OnOk result (seat_of share.new ≡ seat_of share.old) }
    ensures run { OnOk result ((h more : ℕ → ℕ) → ((x : ℕ) → more x ≡ h x + times x left.items)
        → RunsEach work.now.input.now h share.old.done.items
        → RunsEach work.now.input.now more share.new.done.items) }
{
    for caller in left {
        run_caller(
            work,
            &mut share.pass,
            &mut share.done,
            &mut share.readers,
            caller,
        )?;
    }
    Ok(())
}

// What no worker took is run by the calling thread, with the first pass.
fn last_round<R: Wait, G: Gate>(
    work: &Work<R, G>,
    clients: Vec<WorkerClient<G>>,
    passes: Vec<Pass<BooksShape>>,
    mut left: Vec<u32>,
) -> Result<Vec<Share>, OutOfMemory>
    requires some { 0 < length clients.items }
    requires fit { IsTableFor work.now.desk.now work.now.shape work.now.input.now }
    requires ended { HaveDoneTheirParts work.now.stealers.now work.now.desk.now work.now.input.now
        (map (λ client. worker_of client.worker) clients.items) passes.items }
    requires dealt { IsDealtOut (length work.now.input.now.callers)
        (map (λ client. dealt_to (worker_of client.worker).queue) clients.items) left.items }
    ensures { IfOk result (λ shares.
        AreAllDone work.now.desk.now work.now.input.now shares.items) }
{
    let Results {
        owners,
        rows,
        mut shares,
    } = results_of(work.alloc, clients, passes)?;
    take_what_is_left(work.rt, owners, rows, &mut left)?;
    run_left(work, &mut shares[0], left)?;
    Ok(shares)
}

// All scripts of the day, each run once.
fn run_all<R: Threads + Wait + Sync, G: Gate + Sync>(
    work: &Work<R, G>,
    passes: Vec<Pass<BooksShape>>,
    owners: Vec<Owner>,
    rows: Vec<Vec<DequePass>>,
    left: Vec<u32>,
) -> Result<Vec<Share>, OutOfMemory>
    requires fit { IsTableFor work.now.desk.now work.now.shape work.now.input.now }
    requires passes { AreNew work.now.desk.now passes.items }
    requires some { 0 < length passes.items }
    requires count { (length owners.items ≡ length passes.items)
        × (length rows.items ≡ length passes.items) }
    requires few { length passes.items < ALL_PARTS }
    requires shown { AreShown work.now.stealers.now owners.items }
    requires free { All (IsFree (length passes.items)) owners.items }
    requires rows { All (λ row. IsNewRow owners.items row.items) rows.items }
    requires dealt { AreDealtInTurn (length work.now.input.now.callers) owners.items left.items }
    ensures { IfOk result (λ shares.
        AreAllDone work.now.desk.now work.now.input.now shares.items) }
{
    let clients = seat_workers(work, owners, rows)?;
    let (clients, passes) = lend(work.rt, work.alloc, work.desk, clients, passes)?;
    last_round(work, clients, passes, left)
}

// One share behind others.
fn add_share(
    share: Share,
    passes: &mut Vec<Pass<BooksShape>>,
    all: &mut Vec<Done>,
    readers: &mut Readers,
) -> Result<(), OutOfMemory>
    ensures pass { OnOk result (passes.new.items ≡ passes.old.items ++ share.pass ∷ []) }
    ensures done { OnOk result (all.new.items ≡ all.old.items ++ share.done.items) }
{
    let Share {
        pass,
        mut done,
        readers: own,
    } = share;
    readers.add(&own);
    passes.push(pass)?;
    all.append(&mut done)?;
    Ok(())
}

// All passes, and all items, each in the order of the shares; and how many of the items read each version.
fn join_shares(
    alloc: Global,
    shares: Vec<Share>,
) -> Result<(Vec<Pass<BooksShape>>, Vec<Done>, Readers), OutOfMemory>
    ensures passes { IfOk result (λ all. all.0.items ≡ map (λ share. share.pass) shares.items) }
    ensures done { IfOk result (λ all.
        all.1.items ≡ flat_map (λ share. share.done.items) shares.items) }
{
    let mut passes = Vec::new(alloc);
    let mut all = Vec::new(alloc);
    let mut readers = Readers::new(alloc)?;
    for share in shares {
        add_share(share, &mut passes, &mut all, &mut readers)?;
    }
    Ok((passes, all, readers))
}

// Closes the table, and puts the items in the order that is rebuilt from what they used.
fn end_day(
    alloc: Global,
    desk: Desk<BooksShape>,
    input: &Input,
    shares: Vec<Share>,
) -> Result<DayEnd, OutOfMemory>
    requires done { AreAllDone desk input.now shares.items }
    requires stands { Stands desk.shape desk.base input.now.books }
    ensures desk { IfOk result (λ day. (day.closed.base ≡ desk.base)
        × (day.closed.seats ≡ desk.seats) × (day.closed.shape ≡ desk.shape)) }
    ensures coherent { IfOk result (λ day. IsCoherent
        (IsGood (words_of desk.shape) (IsGoodFor desk.shape)) day.closed) }
    ensures legal { IfOk result (λ day. IsLegalInEachOrder
        (IsGood (words_of desk.shape) (IsGoodFor desk.shape)) day.closed) }
    ensures records { IfOk result (λ day. AreRecords day.closed) }
    ensures day { IfOk result (λ day. IsDay input.now day.closed day.done.items) }
    ensures whole { IfOk result (λ day. AreCallersWhole day.done.items) }
{
    refused_changes_nothing();
    desk.began_good();
    let (passes, done, readers) = join_shares(alloc, shares)?;
    let Ok(closed) = desk.close(alloc, passes) else {
        return Err(OutOfMemory);
    };
    let places = order_counted(alloc, done.as_slice(), &readers)?;
    let done = arrange(alloc, done, places.as_slice())?;
    Ok(DayEnd { done, closed })
}

/// Runs all scripts of the input, each as one transaction on the table, with a thread for each pass.
///
/// Each caller is run whole by one worker, its scripts in their order. If a worker finds no memory, the others go on
/// to their end, and there is no day; the table is dropped then. A worker may wait for others: that a wait ends, no
/// clause says.
pub fn run_callers<R: Threads + Wait + Sync, G: Gate + Sync>(
    rt: &R,
    alloc: Global,
    desk: Desk<BooksShape>,
    passes: Vec<Pass<BooksShape>>,
    input: &Input,
    gate: &G,
) -> Result<DayEnd, OutOfMemory>
    requires passes { AreNew desk passes.items }
    requires shape { desk.shape ≡ shape_of input.now.books }
    requires stands { StandsFor desk.base input.now.books }
    // The table of the day is that of the desk, closed.
    ensures desk { IfOk result (λ day. (day.closed.base ≡ desk.base)
        × (day.closed.seats ≡ desk.seats) × (day.closed.shape ≡ desk.shape)) }
    // What was committed, with all attempts that gave way, has an arrangement, and each arrangement is a legal history.
    ensures coherent { IfOk result (λ day. IsCoherent
        (IsGood (words_of desk.shape) (IsGoodFor desk.shape)) day.closed) }
    ensures legal { IfOk result (λ day. IsLegalInEachOrder
        (IsGood (words_of desk.shape) (IsGoodFor desk.shape)) day.closed) }
    ensures records { IfOk result (λ day. AreRecords day.closed) }
    // One order of all scripts, and what the interpreter says of it.
    ensures day { IfOk result (λ day. IsDay input.now day.closed day.done.items) }
    // Each caller was run whole by one worker.
    ensures whole { IfOk result (λ day. AreCallersWhole day.done.items) }
{
    let (callers, workers) = (input.callers(), desk.seats());
    // No deque is dealt more.
    let room = callers as usize / workers as usize + 1;
    let Deques {
        owners,
        stealers,
        rows,
        left,
    } = deal_out(alloc, callers, workers, room)?;
    let work = Work {
        rt,
        alloc,
        desk: &desk,
        shape: BooksShape::of(input.books()),
        stealers: stealers.as_slice(),
        input,
        gate,
    };
    keep_blocks(alloc);
    let shares = run_all(&work, passes, owners, rows, left)?;
    end_day(alloc, desk, input, shares)
}
