//! The job that adds to two cells.

ghost use Rattle.std.specs.Prelude.{◌≡◌, ◌<◌, ◌%◌, OnOk};
ghost use Rattle.txn_words.specs.Calls.{IsReady, GoesOn, InEachState, LeadsTo};
ghost use Rattle.txn_cells.specs.declared.limits.TheConstants.{CELLS};
ghost use Rattle.txn_cells.specs.Cells.{AreCells};
ghost use Rattle.txn_cells.specs.Inner.Adding.{AddsTo};

use crate::array::{CellArray, CellsShape};
use crate::coded::Coded;
use crate::limits::CELLS;
use txn_words::{Job, Stop, Verdict, Words};

/// What a caller does in a round: it adds `u64::MAX` to one cell, and 1 to the next, modulo 2^128.
#[derive(Drop)]
pub(crate) struct AddRound {
    pub shape: CellsShape<u128>,
    pub caller: u32,
    pub round: u32,
    ghost whole: { (shape.at ≡ 0) × (shape.len ≡ CELLS) },
}

// The cell to which one comes who goes on by one cell in each turn, from the first on.
fn cell_at(turn: u64) -> u32
    ensures { result ≡ turn % CELLS }
{
    (turn % u64::from(CELLS)) as u32
}

// AddsInRound to the cell at place `i`, modulo 2^128.
fn add_to<W: Words>(w: &mut W, cells: &CellArray<u128>, i: u32, amount: u128) -> Result<(), Stop>
    requires ready { IsReady W.Words w.old }
    requires place { i < cells.now.len }
    requires cells { InEachState W.Words W.Shape.Shape w.old
        (AreCells ⟦<u128 as Coded>⟧ cells.now.at cells.now.len) }
    ensures added { OnOk result (LeadsTo W.Words W.Shape.Shape w.old w.new
        (AddsTo ⟦<u128 as Coded>⟧ cells.now.at cells.now.len i amount)) }
    ensures cells { OnOk result (InEachState W.Words W.Shape.Shape w.new
        (AreCells ⟦<u128 as Coded>⟧ cells.now.at cells.now.len)) }
    ensures goes_on { GoesOn W.Words w.old w.new result }
{
    let held = cells.get(w, i)?;
    cells.set(w, i, &held.wrapping_add(amount))
}

impl Job for AddRound {
    ghost use Rattle.std.specs.Prelude.{◌≡◌, ◌+◌, ◌*◌};
    ghost use Rattle.txn_cells.specs.Adding.{AddsInRound};

    type Shape = CellsShape<u128>;

    type Answer = ();

    ghost shape = { λ job. job.shape };

    ghost means = { λ job s kept _ t. AddsInRound ⟦<u128 as Coded>⟧ job.caller job.round s kept t };

    /// The caller times 65,536, and the round.
    fn tag(&self) -> u64
        ensures { result ≡ self.now.caller * 65536 + self.now.round }
    {
        u64::from(self.caller) * 65_536 + u64::from(self.round)
    }

    fn run<W: Words<Shape = CellsShape<u128>>>(&self, w: &mut W) -> Result<Verdict<()>, Stop> {
        let cells = CellArray::new(self.shape.at, self.shape.len);
        let turn = u64::from(self.caller) + u64::from(self.round);
        add_to(w, &cells, cell_at(turn), u128::from(u64::MAX))?;
        add_to(w, &cells, cell_at(turn + 1), 1)?;
        Ok(Verdict::Keep(()))
    }
}
