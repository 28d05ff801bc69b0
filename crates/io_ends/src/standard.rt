//! A reader and a writer of std as a source and a sink, as standard input and output. As source and sink they tell no
//! bytes, since a reader may get more at any time. But what they do to the inner stream is known whatever that stream is:
//! bytes go through unchanged, each once and in its order.

ghost use Rattle.std.specs.Prelude.{◌≡◌};

use crate::sink::Sink;
use crate::source::{Failed, Source};
use std::io::{Read, Write};
use std::marker::Model;

/// A source over a reader of std.
#[derive(Drop)]
pub struct StdSource<T> {
    inner: T,
    reads: u64,
    faults: u64,
}

impl<T> Model for StdSource<T> {
    ghost use Rattle.io_ends.specs.Standard.{StandardSource};

    ghost Value = { StandardSource T };

    ghost view = { λ s. record { inner = s.inner; reads = s.reads; faults = s.faults } };
}

impl<T> StdSource<T> {
    /// A source that tells no bytes, and counts each error of the reader as a fault.
    pub fn new(inner: T) -> StdSource<T>
        ensures { result ≡ record { inner = inner; reads = 0; faults = 0 } }
    {
        StdSource {
            inner,
            reads: 0,
            faults: 0,
        }
    }
}

impl<T: Read> Source for StdSource<T> {
    ghost use Rattle.std.specs.Prelude.{◌≡◌, ◌≤◌, None, length, IfOk, is_err, if◌then◌else◌};
    ghost use Rattle.std.specs.Io.KnownBytes.{ReadConsumes};
    ghost use Rattle.io_ends.specs.Counts.{HasCause, next_count};

    ghost left = { λ _. None };

    ghost faults = { λ s. s.faults };

    ghost reads = { λ s. s.reads };

    /// One read of the reader: the bytes that it gave, or the end if it gave none. Each of its errors is a fault.
    fn read(&mut self, buf: &mut [u8]) -> Result<usize, Failed>
        ensures bound { IfOk result (λ n. n ≤ length buf.new) }
        ensures bytes { ReadConsumes None None result buf.new }
        ensures cause { HasCause result self.old.faults self.new.faults }
        ensures faults { self.old.faults ≤ self.new.faults }
        ensures reads { self.new.reads ≡ next_count self.old.reads }

        // The reader lost exactly the bytes that were given, none of them after a failure; and it is at its end if
        // none were given although there was room.
        ensures inner { ReadConsumes (T.remaining self.old.inner) (T.remaining self.new.inner)
            result buf.new }
        ensures counted { self.new.faults
            ≡ (if is_err result then next_count self.old.faults else self.old.faults) }
    {
        self.reads = self.reads.saturating_add(1);
        match self.inner.read(buf) {
            Ok(n) => Ok(n),
            Err(_) => {
                self.faults = self.faults.saturating_add(1);
                Err(Failed)
            }
        }
    }
}

/// A sink over a writer of std.
#[derive(Drop)]
pub struct StdSink<T> {
    inner: T,
    faults: u64,
}

impl<T> Model for StdSink<T> {
    ghost use Rattle.io_ends.specs.Standard.{StandardSink};

    ghost Value = { StandardSink T };

    ghost view = { λ s. record { inner = s.inner; faults = s.faults } };
}

impl<T> StdSink<T> {
    /// A sink that tells no bytes. It counts each error of the writer as a fault, and each write of a piece that is not
    /// empty and of which nothing was taken.
    pub fn new(inner: T) -> StdSink<T>
        ensures { result ≡ record { inner = inner; faults = 0 } }
    {
        StdSink { inner, faults: 0 }
    }
}

impl<T: Write> Sink for StdSink<T> {
    ghost use Rattle.std.specs.Prelude.{◌≡◌, ◌≤◌, ◌<◌, None, length, IfOk, is_err, if◌then◌else◌};
    ghost use Rattle.std.specs.Io.KnownBytes.{WriteAppends};
    ghost use Rattle.io_ends.specs.Counts.{HasCause, next_count};

    ghost taken = { λ _. None };

    ghost faults = { λ s. s.faults };

    /// One write of the writer. Each of its errors is a fault, and so is a write of a piece that is not empty of which
    /// nothing was taken.
    fn write(&mut self, piece: &[u8]) -> Result<usize, Failed>
        ensures bound { IfOk result (λ n. n ≤ length piece.now) }
        ensures some { IfOk result (λ n. 0 < length piece.now → 0 < n) }
        ensures bytes { WriteAppends None None result piece.now }
        ensures cause { HasCause result self.old.faults self.new.faults }
        ensures faults { self.old.faults ≤ self.new.faults }

        // The writer gained exactly the prefix of the piece that was taken, and nothing after a failure.
        ensures inner { WriteAppends (T.contents self.old.inner) (T.contents self.new.inner)
            result piece.now }
        ensures counted { self.new.faults
            ≡ (if is_err result then next_count self.old.faults else self.old.faults) }
    {
        match self.inner.write(piece) {
            Ok(n) if n > 0 || piece.is_empty() => Ok(n),
            _ => {
                self.faults = self.faults.saturating_add(1);
                Err(Failed)
            }
        }
    }
}
