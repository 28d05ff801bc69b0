//! What one thread does.

ghost use Rattle.std.specs.Prelude.{◌≡◌, ◌≤◌, OnOk};
ghost use Rattle.history_model.specs.Views.{number};
ghost use Rattle.word_table.specs.Copies.{PassView};
ghost use Rattle.txn_threads.specs.Passes.{IsFresh, IsNext};
ghost use Rattle.txn_cells.specs.declared.limits.TheConstants.{CELLS, MOST_ROUNDS};
ghost use Rattle.txn_cells.specs.Rounds.{HasRounds};

use crate::adding::AddRound;
use crate::array::CellsShape;
use crate::coded::Coded;
use io_ends::OutOfMemory;
use std::alloc::Global;
use std::sync::Wait;
use txn_commit::transact;
use txn_threads::Client;
use word_table::{Desk, Pass};
use worker_gate::Gate;

/// A worker: it makes so many rounds, each by one transaction, as the caller with the number of its pass.
#[derive(Drop)]
pub(crate) struct Adder<'a, G: Gate> {
    pub shape: CellsShape<u128>,
    pub rounds: u32,
    pub gate: &'a G,
}

impl<'a, G: Gate + Sync> Client for Adder<'a, G> {
    ghost use Rattle.std.specs.Prelude.{◌≡◌, ◌≤◌};
    ghost use Rattle.history_model.specs.Views.{number};
    ghost use Rattle.txn_cells.specs.declared.limits.TheConstants.{CELLS, MOST_ROUNDS};
    ghost use Rattle.txn_cells.specs.Rounds.{HasRounds};

    type Shape = CellsShape<u128>;

    ghost shape = { λ adder. adder.shape };

    ghost can_begin = { λ adder. (adder.shape.at ≡ 0) × (adder.shape.len ≡ CELLS)
        × (adder.rounds ≤ MOST_ROUNDS) };

    ghost does = { λ _ old _ before after.
        HasRounds ⟦<u128 as Coded>⟧ (number before.view) old.rounds after.view.seen };

    fn work<R: Wait>(
        &mut self,
        rt: &R,
        alloc: Global,
        desk: &Desk<CellsShape<u128>>,
        pass: &mut Pass<CellsShape<u128>>,
    ) -> Result<(), OutOfMemory> {
        let caller = pass.who();
        for round in 0..self.rounds {
            let job = AddRound {
                shape: self.shape,
                caller,
                round,
            };
            transact(rt, alloc, desk, pass, &job, self.gate)?;
        }
        Ok(())
    }
}
