//! Where bytes come from.

ghost use Rattle.std.specs.Prelude.{◌≡◌, ◌≤◌, ◌<◌, ◌↔◌, ℕ, List, [], Option, length, IfOk, IfSome};
ghost use Rattle.std.specs.Io.KnownBytes.{ReadConsumes};
ghost use Rattle.io_ends.specs.Counts.{HasCause, next_count};

use std::error::Error;
use std::fmt;

/// A read or a write that failed.
#[derive(Clone, Copy, Debug, PartialEq, Eq)]
pub struct Failed;

impl fmt::Display for Failed {
    fn fmt<W: fmt::Write>(&self, f: &mut fmt::Formatter<W>) -> fmt::Result {
        f.write_str("a read or a write failed")
    }
}

impl Error for Failed {}

/// A stream of bytes that is read from its start.
pub trait Source {
    /// The bytes that are left, if the source tells them.
    ghost left: { Self → Option (List ℕ) };

    /// How many faults there were. It never falls, and stands still at its last value.
    ghost faults: { Self → ℕ };

    /// How many reads there were. It stands still at its last value.
    ghost reads: { Self → ℕ };

    /// Takes the next bytes into the start of the buffer, and tells how many. What the rest of the buffer then holds is
    /// left open, and so is all of it after a failure.
    fn read(&mut self, buf: &mut [u8]) -> Result<usize, Failed>
        ensures bound { IfOk result (λ n. n ≤ length buf.new) }
        ensures bytes { ReadConsumes (left self.old) (left self.new) result buf.new }
        ensures end { IfSome (left self.old) (λ bytes. IfOk result (λ n.
            0 < length buf.old → ((n ≡ 0) ↔ (bytes ≡ [])))) }
        ensures cause { HasCause result (faults self.old) (faults self.new) }
        ensures faults { faults self.old ≤ faults self.new }
        ensures reads { reads self.new ≡ next_count (reads self.old) };
}
