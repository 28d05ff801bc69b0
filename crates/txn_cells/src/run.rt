//! Workers on threads, who add to the same cells.

ghost use Rattle.std.specs.Prelude.{◌≡◌, ◌≤◌, ◌<◌, ◌*◌, All, IfOk, length, replicate};
ghost use Rattle.word_table.specs.Closing.{AreRecords, IsCoherent, IsLegalInEachOrder};
ghost use Rattle.word_table.specs.declared.limits.TheConstants.{MOST_PASSES};
ghost use Rattle.txn_cells.specs.declared.limits.TheConstants.{CELLS, MOST_ROUNDS};
ghost use Rattle.txn_cells.specs.Adding.{AreAllCells, sums_of};
ghost use Rattle.txn_cells.specs.Cells.{AreCellValues};
ghost use Rattle.txn_cells.specs.Rounds.{AreSoMany, HaveRounds};

use crate::array::CellsShape;
use crate::coded::Coded;
use crate::limits::CELLS;
use crate::rounds::Adder;
use io_ends::OutOfMemory;
use std::alloc::Global;
use std::sync::Wait;
use std::thread::Threads;
use txn_threads::run_clients;
use word_table::Closed;
use worker_gate::Gate;

// So many workers, each to make so many rounds.
fn adders<G: Gate>(
    alloc: Global,
    shape: CellsShape<u128>,
    workers: u32,
    rounds: u32,
    gate: &G,
) -> Result<Vec<Adder<'_, G>>, OutOfMemory>
    ensures count { IfOk result (λ adders. length adders.items ≡ workers) }
    ensures new { IfOk result (λ adders.
        All (λ adder. (adder.shape ≡ shape) × (adder.rounds ≡ rounds)) adders.items) }
{
    let mut adders = Vec::new(alloc);
    for _ in 0..workers {
        adders.push(Adder {
            shape,
            rounds,
            gate,
        })?;
    }
    Ok(adders)
}

/// Has workers add, each on a thread of its own, to the same cells of 128 bits, which have 0 at first: in each round,
/// by one transaction, `u64::MAX` to one cell and 1 to the next. A worker begins at the cell with its number, and goes
/// one cell further in each round.
///
/// The gate is told of each point that a transaction comes to; its tag is the worker times 65,536, and the round, both
/// from 0. Which transaction comes first depends on the threads; what the cells come to does not. It may wait for other
/// threads: that a wait ends, no clause says.
pub fn run_cells<G: Gate + Sync, R: Threads + Wait + Sync>(
    rt: &R,
    alloc: Global,
    workers: u32,
    rounds: u32,
    gate: &G,
) -> Result<Closed<CellsShape<u128>>, OutOfMemory>
    requires workers { (1 ≤ workers) × (workers ≤ MOST_PASSES) }
    requires rounds { (1 ≤ rounds) × (rounds ≤ MOST_ROUNDS) }
    // The table began with 0 in each word of the cells, and had a pass for each worker.
    ensures began { IfOk result (λ closed. closed.base ≡ replicate (CELLS * 2) 0) }
    ensures seats { IfOk result (λ closed. closed.seats ≡ workers) }
    ensures shape { IfOk result (λ closed. (closed.shape.at ≡ 0) × (closed.shape.len ≡ CELLS)) }
    // What was committed, with the attempts that gave way, has an arrangement; in every arrangement each item stands at
    // a legal place, and the words are what it leaves.
    ensures coherent { IfOk result (λ closed.
        IsCoherent (AreAllCells ⟦<u128 as Coded>⟧) closed) }
    ensures legal { IfOk result (λ closed.
        IsLegalInEachOrder (AreAllCells ⟦<u128 as Coded>⟧) closed) }
    ensures records { IfOk result (λ closed. AreRecords closed) }
    // Each worker made its rounds, each by one record, and no more.
    ensures count { IfOk result (λ closed. AreSoMany workers rounds closed.records) }
    ensures rounds { IfOk result (λ closed.
        HaveRounds ⟦<u128 as Coded>⟧ workers rounds closed.records) }
    // Each cell has the sum of what all of them added to it.
    ensures sums { IfOk result (λ closed.
        AreCellValues ⟦<u128 as Coded>⟧ 0 CELLS closed.words (sums_of workers rounds)) }
{
    let shape = CellsShape::<u128>::new(0, CELLS);
    let words = vec![in alloc; 0; CELLS as usize * u128::WORDS as usize]?;
    let adders = adders(alloc, shape, workers, rounds, gate)?;
    Ok(run_clients(rt, alloc, shape, words, adders)?.closed)
}
