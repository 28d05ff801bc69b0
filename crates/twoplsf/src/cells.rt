//! Workers who add to cells, and what is printed of them.

ghost use Rattle.std.specs.Prelude.{◌≡◌, ◌++◌, ℕ, List, IfOk, OnOk};
ghost use Rattle.std.specs.String.{string_bytes};
ghost use Rattle.books_model.specs.Ranges.{IsWithin};
ghost use Rattle.script_reader.specs.declared.limits.TheConstants.{MOST_WORKERS};
ghost use Rattle.txn_cells.specs.Adding.{sums_of};
ghost use Rattle.txn_cells.specs.Cells.{AreCells, AreCellValues};
ghost use Rattle.txn_cells.specs.declared.limits.TheConstants.{CELLS, MOST_ROUNDS};
ghost use Rattle.twoplsf.specs.Cells.{IsCellsRun, cell_line, cells_text};

use io_ends::OutOfMemory;
use std::alloc::{AllocError, Global};
use std::sync::Wait;
use std::thread::Threads;
use txn_cells::{CELLS, CellArray, CellsShape, Coded, run_cells};
use word_table::Closed;
use worker_gate::Gate;

// Appends the line of a cell.
fn write_cell(text: &mut String, place: u32, value: u128) -> Result<(), AllocError>
    ensures { OnOk result
        (string_bytes text.new ≡ string_bytes text.old ++ cell_line (place, value)) }
{
    write!(text, "cell {place} {value}\n")
}

// The lines of the cells that these words are.
fn text_of_cells(alloc: Global, words: &[u64]) -> Result<Vec<u8>, OutOfMemory>
    requires cells { AreCells ⟦<u128 as Coded>⟧ 0 CELLS words.now }
    ensures { IfOk result (λ text. (values : List ℕ)
        → AreCellValues ⟦<u128 as Coded>⟧ 0 CELLS words.now values
        → text.items ≡ cells_text values) }
{
    let cells = CellArray::<u128>::new(0, CELLS);
    let mut text = String::new(alloc);
    for place in 0..CELLS {
        write_cell(&mut text, place, cells.value_in(words, place))?;
    }
    Ok(text.into_bytes())
}

/// Has so many workers add to cells, in so many rounds each: the lines of the cells, and the closed table.
pub fn add_to_cells<R: Threads + Wait + Sync, G: Gate + Sync>(
    rt: &R,
    alloc: Global,
    workers: u32,
    rounds: u32,
    gate: &G,
) -> Result<(Vec<u8>, Closed<CellsShape<u128>>), OutOfMemory>
    requires workers { IsWithin 1 MOST_WORKERS workers }
    requires rounds { IsWithin 1 MOST_ROUNDS rounds }
    ensures text { IfOk result (λ r. r.0.items ≡ cells_text (sums_of workers rounds)) }
    ensures run { IfOk result (λ r. IsCellsRun ⟦<u128 as Coded>⟧ workers rounds r.1) }
{
    let closed = run_cells(rt, alloc, workers, rounds, gate)?;
    let text = text_of_cells(alloc, closed.words())?;
    Ok((text, closed))
}
