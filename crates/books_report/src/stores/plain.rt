//! The plain interpreter: one script at a time, on a store in memory.

ghost use Rattle.std.specs.Prelude.{◌≡◌, ◌≤◌, length, IfOk, OnOk, OnErr};
ghost use Rattle.books_report.specs.Stores.Interpreter.{outcome_of, run_from};
ghost use Rattle.books_report.specs.Stores.Steps.{step_with, run_with};

use crate::stores::outcome::Outcome;
use crate::stores::reply::{StoreReply, StoreValues};
use crate::stores::script::OperationList;
use books_model::limits::MOST_OPERATIONS;
use io_ends::OutOfMemory;
use std::alloc::Global;

/// A store in memory.
pub trait PlainStore: Sized + Drop {
    ghost use Rattle.books_report.specs.Stores.Interpreter.{Step};

    /// An operation.
    type Op: Copy + Drop;

    /// What an operation tells.
    type Value: Drop;

    /// The values of what no operation changes.
    ghost Fixed: { Type 0 };

    /// The values of what operations change.
    ghost State: { Type 0 };

    /// What no operation changes.
    ghost fixed: { Self → Fixed };

    /// What operations change.
    ghost state: { Self → State };

    /// What one operation does.
    ghost step: { Fixed → Self.Op → State → Step Self.Value State };

    /// An equal store.
    fn copy(&self) -> Result<Self, OutOfMemory>
        ensures { IfOk result (λ copy. copy ≡ self.now) };

    /// Runs one operation. If it is refused, the state that is left is no matter: a script runs on a copy.
    fn run(&mut self, operation: Self::Op) -> Result<Outcome<Self::Value>, OutOfMemory>
        ensures step { IfOk result (λ outcome. step (fixed self.old) operation (state self.old)
            ≡ step_with outcome (state self.new)) }
        ensures fixed { fixed self.new ≡ fixed self.old };
}

/// Runs a script. It runs on a copy of the store, which takes the store's place if the script is done; so the store is
/// as it was after a refusal, and out of memory.
pub fn run_plain<P: PlainStore>(
    alloc: Global,
    script: &OperationList<P::Op>,
    store: &mut P,
) -> Result<StoreReply<P::Value>, OutOfMemory>
    requires few { length script.now ≤ MOST_OPERATIONS }
    ensures reply { IfOk result (λ reply. reply
        ≡ (outcome_of (P.step (P.fixed store.old)) script.now (P.state store.old)).0) }
    ensures state { OnOk result (P.state store.new
        ≡ (outcome_of (P.step (P.fixed store.old)) script.now (P.state store.old)).1) }
    ensures fixed { P.fixed store.new ≡ P.fixed store.old }
    ensures err { OnErr result (store.new ≡ store.old) }
{
    let mut trial = store.copy()?;
    let reply = run_operations(alloc, script, &mut trial)?;
    if let StoreReply::Done(_) = &reply {
        *store = trial;
    }
    Ok(reply)
}

// Runs operations in order, up to the first that is refused.
fn run_operations<P: PlainStore>(
    alloc: Global,
    script: &OperationList<P::Op>,
    store: &mut P,
) -> Result<StoreReply<P::Value>, OutOfMemory>
    requires few { length script.now ≤ MOST_OPERATIONS }
    ensures run { IfOk result (λ reply.
        run_from (P.step (P.fixed store.old)) 1 script.now (P.state store.old)
        ≡ run_with reply (P.state store.new)) }
    ensures fixed { P.fixed store.new ≡ P.fixed store.old }
{
    let mut values = StoreValues::new(alloc);
    let mut number = 1;
    for operation in script.iter() {
        match store.run(*operation)? {
            Outcome::Gives(value) => values.push(value)?,
            Outcome::Absent => return Ok(StoreReply::Declined(number)),
            Outcome::Full => return Ok(StoreReply::Full(number)),
        }
        number += 1;
    }
    Ok(StoreReply::Done(values))
}
