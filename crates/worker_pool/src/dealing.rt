//! Dealing: the deques of all workers, before any worker starts.

ghost use Rattle.std.specs.Prelude.{◌≡◌, ◌<◌, ◌≤◌, [], length, All, IfOk, OnOk};
ghost use Rattle.crossbeam_deque.specs.Handles.{worker_view};
ghost use Rattle.worker_pool.specs.Deques.{deal};
ghost use Rattle.worker_pool.specs.Inner.Dealing.{AreDealtInTurn, AreShown, AreStill, DealsOne, HaveLess, IsFree, IsNewRow};
ghost use Rattle.worker_pool.specs.Inner.Ends.{HasOver};

use crate::ends::{pass_of, put};
use crate::rule::{ALL_PARTS, DequePass, Owner, Stealer};
use io_ends::OutOfMemory;
use std::alloc::Global;

/// All deques, with the callers that were dealt to them.
#[derive(Drop)]
pub(crate) struct Deques {
    /// The owner of each deque.
    pub owners: Vec<Owner>,
    /// What threads share of each deque.
    pub stealers: Vec<Stealer>,
    /// A row of passes for each worker, one at each deque.
    pub rows: Vec<Vec<DequePass>>,
    /// The callers that were refused by their deque.
    pub left: Vec<u32>,
}

// So many deques, each with room for so many callers.
fn make_deques(
    alloc: Global,
    count: usize,
    room: usize,
) -> Result<(Vec<Owner>, Vec<Stealer>), OutOfMemory>
    ensures count { IfOk result (λ made. length made.0.items ≡ count) }
    ensures shown { IfOk result (λ made. AreShown made.1.items made.0.items) }
    ensures new { IfOk result (λ made.
        All (λ owner. worker_view owner ≡ deal ALL_PARTS [] []) made.0.items) }
{
    let mut owners: Vec<Owner> = Vec::new(alloc);
    let mut stealers: Vec<Stealer> = Vec::new(alloc);
    for _deque in 0..count {
        let owner = Owner::fifo_as(alloc, room)?;
        stealers.push(owner.stealer()?)?;
        owners.push(owner)?;
    }
    Ok((owners, stealers))
}

// Deals a caller to the deque whose turn it is. If it is refused, it joins the list.
fn deal_one(owners: &mut Vec<Owner>, left: &mut Vec<u32>, caller: u32) -> Result<(), OutOfMemory>
    requires some { 0 < length owners.old.items }
    requires parts { All (HasOver 0) owners.old.items }
    ensures still { AreStill owners.old.items owners.new.items }
    ensures dealt { OnOk result
        (DealsOne caller owners.old.items owners.new.items left.old.items left.new.items) }
{
    let turn = caller as usize % owners.len();
    if let Err(refused) = put(&mut owners[turn], caller) {
        left.push(refused)?;
    }
    Ok(())
}

// Deals all callers, one after another, to the deques in turn. Those that are refused join the list.
fn deal_all(owners: &mut Vec<Owner>, left: &mut Vec<u32>, callers: u32) -> Result<(), OutOfMemory>
    requires some { 0 < length owners.old.items }
    requires new { All (λ owner. worker_view owner ≡ deal ALL_PARTS [] []) owners.old.items }
    requires none { left.old.items ≡ [] }
    ensures still { OnOk result (AreStill owners.old.items owners.new.items) }
    // Each deque was dealt the callers whose turn it was, but for those of the list.
    ensures dealt { OnOk result (AreDealtInTurn callers owners.new.items left.new.items) }
{
    for caller in 0..callers {
        deal_one(owners, left, caller)?;
    }
    Ok(())
}

// A pass at each deque.
fn row_of(alloc: Global, owners: &mut Vec<Owner>) -> Result<Vec<DequePass>, OutOfMemory>
    requires parts { All (HasOver 1) owners.old.items }
    ensures owners { OnOk result (HaveLess 1 owners.old.items owners.new.items) }
    ensures row { IfOk result (λ row. IsNewRow owners.old.items row.items) }
{
    let mut row = Vec::new(alloc);
    for k in 0..owners.len() {
        row.push(pass_of(&mut owners[k]))?;
    }
    Ok(row)
}

// So many rows of passes, each with a pass at each deque.
fn rows_of(
    alloc: Global,
    owners: &mut Vec<Owner>,
    count: usize,
) -> Result<Vec<Vec<DequePass>>, OutOfMemory>
    requires parts { All (HasOver count) owners.old.items }
    ensures owners { OnOk result (HaveLess count owners.old.items owners.new.items) }
    ensures rows { IfOk result (λ rows. length rows.items ≡ count) }
    ensures new { IfOk result (λ rows. All (λ row. IsNewRow owners.old.items row.items)
        rows.items) }
{
    let mut rows = Vec::new(alloc);
    for _worker in 0..count {
        let row = row_of(alloc, owners)?;
        rows.push(row)?;
    }
    Ok(rows)
}

/// Deals the callers below `callers` to a deque for each worker, each with room for so many.
pub(crate) fn deal_out(
    alloc: Global,
    callers: u32,
    workers: u32,
    room: usize,
) -> Result<Deques, OutOfMemory>
    requires workers { (1 ≤ workers) × (workers < ALL_PARTS) }
    ensures count { IfOk result (λ deques. (length deques.owners.items ≡ workers)
        × (length deques.rows.items ≡ workers)) }
    ensures shown { IfOk result (λ deques. AreShown deques.stealers.items deques.owners.items) }
    ensures free { IfOk result (λ deques. All (IsFree workers) deques.owners.items) }
    ensures rows { IfOk result (λ deques. All (λ row. IsNewRow deques.owners.items row.items)
        deques.rows.items) }
    ensures dealt { IfOk result (λ deques.
        AreDealtInTurn callers deques.owners.items deques.left.items) }
{
    let mut left = Vec::with_capacity(alloc, callers as usize)?;
    let (mut owners, stealers) = make_deques(alloc, workers as usize, room)?;
    deal_all(&mut owners, &mut left, callers)?;
    let rows = rows_of(alloc, &mut owners, workers as usize)?;
    Ok(Deques {
        owners,
        stealers,
        rows,
        left,
    })
}
