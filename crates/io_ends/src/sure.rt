//! A source and a sink that never fail: bytes in memory, and a sink that takes every piece and keeps none. Their count of
//! faults is the constant 0, so that it cannot rise, and nothing that is said if it rose can come. Neither takes memory.

ghost use Rattle.std.specs.Prelude.{◌≡◌};

use crate::sink::Sink;
use crate::source::{Failed, Source};
use std::marker::Model;

/// A source over bytes in memory that never fails.
#[derive(Drop)]
pub struct SureSource {
    bytes: Vec<u8>,
    at: usize,
    reads: u64,
}

impl Model for SureSource {
    ghost use Rattle.std.specs.Prelude.{◌≤◌, drop, vec_len};
    ghost use Rattle.io_ends.specs.Sure.{UnfailingSource};

    ghost Value = { UnfailingSource };

    ghost view = { λ s. record { left = drop s.at s.bytes.items; reads = s.reads } };

    ghost invariant = { λ s. s.at ≤ vec_len s.bytes };
}

impl SureSource {
    /// A source that gives all of these bytes, and then the end.
    pub fn new(bytes: Vec<u8>) -> SureSource
        ensures { result ≡ record { left = bytes.items; reads = 0 } }
    {
        SureSource {
            bytes,
            at: 0,
            reads: 0,
        }
    }
}

impl Source for SureSource {
    ghost use Rattle.std.specs.Prelude.{◌≡◌, ◌≤◌, ◌<◌, ◌↔◌, [], Some, length, min, IsOk, IfOk, IfSome};
    ghost use Rattle.std.specs.Io.KnownBytes.{ReadConsumes};
    ghost use Rattle.io_ends.specs.Counts.{HasCause, next_count};

    ghost left = { λ s. Some s.left };

    ghost faults = { λ _. 0 };

    ghost reads = { λ s. s.reads };

    /// Gives as many bytes as the buffer takes of what is left, and never fails.
    fn read(&mut self, buf: &mut [u8]) -> Result<usize, Failed>
        ensures bound { IfOk result (λ n. n ≤ length buf.new) }
        ensures bytes { ReadConsumes (Some self.old.left) (Some self.new.left) result buf.new }
        ensures end { IfSome (Some self.old.left) (λ bytes. IfOk result (λ n.
            0 < length buf.old → ((n ≡ 0) ↔ (bytes ≡ [])))) }
        ensures cause { HasCause result 0 0 }
        ensures reads { self.new.reads ≡ next_count self.old.reads }

        ensures never_fails { IsOk result }
        ensures given { IfOk result (λ n. n ≡ min (length buf.old) (length self.old.left)) }
    {
        self.reads = self.reads.saturating_add(1);
        let (_, rest) = self.bytes.split_at(self.at);
        let n = buf.len().min(rest.len());
        let (piece, _) = rest.split_at(n);
        buf[..n].copy_from_slice(piece);
        self.at += n;
        Ok(n)
    }
}

/// A sink that never fails, and tells no bytes, since it keeps none.
#[derive(Drop)]
pub struct SureSink;

impl SureSink {
    /// A sink that takes all that it is given.
    pub fn new() -> SureSink
        ensures { result ≡ record {} }
    {
        SureSink
    }
}

impl Sink for SureSink {
    ghost use Rattle.std.specs.Prelude.{◌≡◌, ◌≤◌, ◌<◌, None, length, IsOk, IfOk};
    ghost use Rattle.std.specs.Io.KnownBytes.{WriteAppends};
    ghost use Rattle.io_ends.specs.Counts.{HasCause};

    ghost taken = { λ _. None };

    ghost faults = { λ _. 0 };

    /// Takes the whole piece, and never fails.
    fn write(&mut self, piece: &[u8]) -> Result<usize, Failed>
        ensures bound { IfOk result (λ n. n ≤ length piece.now) }
        ensures some { IfOk result (λ n. 0 < length piece.now → 0 < n) }
        ensures bytes { WriteAppends None None result piece.now }
        ensures cause { HasCause result 0 0 }

        ensures never_fails { IsOk result }
        ensures whole { IfOk result (λ n. n ≡ length piece.now) }
    {
        Ok(piece.len())
    }
}
