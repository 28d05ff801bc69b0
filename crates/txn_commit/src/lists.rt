//! Lists of jobs, a list for each caller.

ghost use Rattle.std.specs.Prelude.{◌≡◌, ◌<◌, ◌+◌, ℕ, Bool, List, IfOk, OnOk};
ghost use Rattle.history_model.specs.declared.view.Phase.TheVariants.{Idle};
ghost use Rattle.history_model.specs.Views.{number};
ghost use Rattle.word_table.specs.declared.limits.TheConstants.{LAST_CALL};
ghost use Rattle.word_table.specs.Desks.{AreGoodWords};
ghost use Rattle.txn_commit.specs.Transactions.{GetsEntry, SameSeat};

use crate::transaction::Receipt;
use history_model::{LockUse, Placed, Shape};
use io_ends::OutOfMemory;
use std::alloc::Global;
use std::sync::Wait;
use word_table::{Closed, Desk, Pass};

/// What runs the jobs of callers. All workers share it: each job is run as one transaction, by `transact`, and may borrow
/// what stands here.
pub trait Lists {
    type Shape: Shape;

    type Answer: Drop;

    /// The shape of the table on which the jobs run.
    ghost shape: { Self → Self.Shape };

    /// How many callers there are.
    ghost callers: { Self → ℕ };

    /// How many jobs a caller has.
    ghost jobs: { Self → ℕ → ℕ };

    /// What a caller's job is to do with a good list, by the caller and which of the caller's jobs it is: as `Job::means`.
    ghost means: { Self → ℕ → ℕ → List ℕ → Bool → Self.Answer → List ℕ → Type 0 };

    /// The shape of the table.
    fn shape(&self) -> Self::Shape
        ensures { result ≡ shape self.now };

    /// The number of callers.
    fn callers(&self) -> u32
        ensures { result ≡ callers self.now };

    /// The number of jobs of this caller.
    fn jobs(&self, caller: u32) -> u32
        requires caller { caller < callers self.now }
        ensures { result ≡ jobs self.now caller };

    /// Runs one job of a caller as the pass's next call, as `transact` does.
    fn run<R: Wait>(
        &self,
        rt: &R,
        alloc: Global,
        desk: &Desk<Self::Shape>,
        pass: &mut Pass<Self::Shape>,
        caller: u32,
        index: u32,
    ) -> Result<Receipt<Self::Answer>, OutOfMemory>
        requires caller { caller < callers self.now }
        requires index { index < jobs self.now caller }
        requires shape { desk.now.shape ≡ shape self.now }
        requires desk { pass.old.table ≡ desk.now.table }
        requires phase { pass.old.view.phase ≡ Idle }
        requires room { pass.old.view.call < LAST_CALL }
        ensures desk { pass.new.table ≡ pass.old.table }
        ensures seat { SameSeat pass.old.view pass.new.view }
        ensures idle { pass.new.view.phase ≡ Idle }
        ensures call { OnOk result (pass.new.view.call ≡ pass.old.view.call + 1) }
        ensures entry { IfOk result (λ receipt. GetsEntry
            (AreGoodWords Self.Shape.Shape desk.now) (means self.now caller index)
            (number pass.old.view) (pass.old.view.call + 1)
            pass.old.view.seen pass.new.view.seen receipt) }
        ensures few { IfOk result (λ receipt. receipt.restarts < desk.now.seats) };
}

/// One job that was run.
#[derive(Debug, PartialEq, Eq, Drop)]
pub struct Done<R> {
    /// The caller whose job it is, from 0.
    pub caller: u32,
    /// Which of the caller's jobs it is, from 0.
    pub index: u32,
    /// The seat that ran it.
    pub seat: u32,
    /// Which of the seat's calls it was, from 1.
    pub call: u32,
    /// What it used: each lock once, by rising lock, with the version that it found there and whether a write of it stands.
    pub uses: Vec<LockUse>,
    /// How often it gave way before it was committed.
    pub restarts: u32,
    /// What the job answered.
    pub reply: R,
}

impl<R> Placed for Done<R> {
    ghost use Rattle.history_model.specs.declared.placed.Spot.{Spot};

    ghost spot = { λ ran. record { caller = ran.caller; index = ran.index; uses = ran.uses.items } };

    fn caller(&self) -> u32 {
        self.caller
    }

    fn index(&self) -> u32 {
        self.index
    }

    fn uses(&self) -> &[LockUse] {
        self.uses.as_slice()
    }
}

/// What lists of jobs leave: the closed table, and the jobs that were run, those of each caller in their order.
#[derive(Drop)]
pub struct ListsEnd<L: Lists> {
    pub closed: Closed<L::Shape>,
    pub done: Vec<Done<L::Answer>>,
}
