//! The reads of words, which only clauses see.

ghost use Rattle.std.specs.Prelude.{◌≡◌, [], ◌∷◌, ◌++◌};
ghost use Rattle.history_model.specs.declared.event.Event.TheVariants.{Read};

use std::marker::Model;
use std::snapshot::Snapshot;

/// All reads so far, for clauses. It keeps the last one alone: a snapshot has no bytes.
#[derive(Drop)]
pub struct ReadTrace {
    last: Option<(Snapshot<ReadTrace>, u64, u64)>,
}

impl Model for ReadTrace {
    ghost use Rattle.std.specs.Prelude.{length};
    ghost use Rattle.history_model.specs.Traces.{Trace};
    ghost use Rattle.txn_stores.specs.Reads.{reads_until};

    ghost Value = { Trace };

    ghost view = { λ p. reads_until (λ s. s.value) p.last };

    ghost size = { length };

    ghost use Rattle.std.proofs.Common.{arith, length-append};

    ghost size_decreases = { λ a h. Prim.grind (arith, length-append) };
}

impl ReadTrace {
    /// No read yet.
    pub fn new() -> ReadTrace
        ensures { result ≡ [] }
    {
        ReadTrace { last: None }
    }

    /// One read more.
    pub fn and(&self, a: u64, v: u64) -> ReadTrace
        ensures { result ≡ self.now ++ Read a v ∷ [] }
    {
        ReadTrace {
            last: Some((Snapshot::of(self), a, v)),
        }
    }
}
