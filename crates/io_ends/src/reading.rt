//! Reading a source to its end.

ghost use Rattle.std.specs.Prelude.{◌≡◌, ◌+◌, ◌≤◌, ◌⊎◌, Some, IfOk, IfSome, OnOk, IsErrOf, vec_len};
ghost use Rattle.std.specs.Io.KnownBytes.{Consumes, IsAtEnd};
ghost use Rattle.io_ends.specs.Counts.{Rose};
ghost use Rattle.io_ends.specs.Taken.{TakesAtMost, count_taken};

use crate::source::{Failed, Source};
use std::alloc::{AllocError, Global};
use std::error::Error;
use std::fmt;

/// The greatest limit that `read_all` may be given, in bytes.
pub const GREATEST_READ_LIMIT: usize = 1_000_000_000;

/// How many bytes one read asks for at most.
const CHUNK: usize = 8192;

/// Why a source was not read to its end.
#[derive(Clone, Copy, Debug, PartialEq, Eq)]
pub enum ReadStop {
    /// A read failed.
    Fault,
    /// The source gave more bytes than the limit.
    TooLarge,
    /// No memory was found.
    OutOfMemory,
}

impl fmt::Display for ReadStop {
    fn fmt<W: fmt::Write>(&self, f: &mut fmt::Formatter<W>) -> fmt::Result {
        f.write_str(match self {
            ReadStop::Fault => "a read failed",
            ReadStop::TooLarge => "the source gave more bytes than the limit",
            ReadStop::OutOfMemory => "out of memory",
        })
    }
}

impl Error for ReadStop {}

impl From<Failed> for ReadStop {
    ghost use Rattle.std.specs.Prelude.{◌≡◌};
    ghost use Rattle.io_ends.specs.declared.reading.ReadStop.TheVariants.{Fault};

    ghost from_gives = { λ _ stop. stop ≡ Fault };

    fn from(_: Failed) -> Self {
        ReadStop::Fault
    }
}

impl From<AllocError> for ReadStop {
    ghost use Rattle.std.specs.Prelude.{◌≡◌};
    ghost use Rattle.io_ends.specs.declared.reading.ReadStop.TheVariants.{OutOfMemory};

    ghost from_gives = { λ _ stop. stop ≡ OutOfMemory };

    fn from(_: AllocError) -> Self {
        ReadStop::OutOfMemory
    }
}

/// All bytes up to the end of the source, which are at most `limit`. It stops as soon as one byte more was taken, and so
/// takes a byte with each read but the last.
pub fn read_all<S: Source>(alloc: Global, source: &mut S, limit: usize) -> Result<Vec<u8>, ReadStop>
    requires { limit ≤ GREATEST_READ_LIMIT }

    // What `Ok` gives: all that was left, if it is told, and never more than the limit.
    ensures bytes { IfOk result (λ bytes.
        Consumes (S.left source.old) (S.left source.new) bytes.items) }
    ensures end { OnOk result (IsAtEnd (S.left source.new)) }
    ensures within { IfOk result (λ bytes. vec_len bytes ≤ limit) }

    // When each error comes. Out of memory is free.
    ensures fault { IsErrOf result ReadStop.Fault
        → Rose (S.faults source.old) (S.faults source.new) }
    ensures too_large { IsErrOf result ReadStop.TooLarge
        → IfSome (count_taken (S.left source.old) (S.left source.new)) (λ n. n ≡ limit + 1) }
    ensures above_limit { count_taken (S.left source.old) (S.left source.new) ≡ Some (limit + 1)
        → IsErrOf result ReadStop.TooLarge ⊎ IsErrOf result ReadStop.OutOfMemory }

    // What every answer leaves.
    ensures taken { TakesAtMost (S.left source.old) (S.left source.new) (limit + 1) }
    ensures faults { S.faults source.old ≤ S.faults source.new }
    ensures reads { S.reads source.new ≤ S.reads source.old + limit + 1 }
{
    let mut bytes = Vec::new(alloc);
    let mut chunk = [0u8; CHUNK];
    while bytes.len() <= limit {
        let wanted = (limit + 1 - bytes.len()).min(CHUNK);
        let n = source.read(&mut chunk[..wanted])?;
        if n == 0 {
            return Ok(bytes);
        }
        bytes.extend_from_slice(&chunk[..n])?;
    }
    Err(ReadStop::TooLarge)
}
