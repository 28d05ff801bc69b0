//! Where bytes go to.

ghost use Rattle.std.specs.Prelude.{ℕ, ◌≤◌, ◌<◌, List, Option, length, IfOk};
ghost use Rattle.std.specs.Io.KnownBytes.{WriteAppends};
ghost use Rattle.io_ends.specs.Counts.{HasCause};

use crate::source::Failed;

/// A stream of bytes that is written at its end.
pub trait Sink {
    /// The bytes that it has taken, if the sink tells them.
    ghost taken: { Self → Option (List ℕ) };

    /// How many faults there were. It never falls, and stands still at its last value.
    ghost faults: { Self → ℕ };

    /// Appends a prefix of the piece, and tells how many bytes it took. A failure appends nothing.
    fn write(&mut self, piece: &[u8]) -> Result<usize, Failed>
        ensures bound { IfOk result (λ n. n ≤ length piece.now) }
        ensures some { IfOk result (λ n. 0 < length piece.now → 0 < n) }
        ensures bytes { WriteAppends (taken self.old) (taken self.new) result piece.now }
        ensures cause { HasCause result (faults self.old) (faults self.new) }
        ensures faults { faults self.old ≤ faults self.new };
}
