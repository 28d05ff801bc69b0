//! A source and a sink over memory, which fail at the calls that they are told.

ghost use Rattle.std.specs.Prelude.{◌≡◌, ◌≤◌, [], IfOk};

use crate::out_of_memory::OutOfMemory;
use crate::sink::Sink;
use crate::source::{Failed, Source};
use std::alloc::Global;
use std::marker::Model;

/// A source over bytes in memory.
#[derive(Drop)]
pub struct MemSource {
    bytes: Vec<u8>,
    at: usize,
    most: usize,
    fails: Vec<u64>,
    reads: u64,
    faults: u64,
}

impl Model for MemSource {
    ghost use Rattle.std.specs.Prelude.{◌≤◌, drop, vec_len};
    ghost use Rattle.io_ends.specs.Memory.{MemorySource};

    ghost Value = { MemorySource };

    ghost view = { λ s. record {
      left = drop s.at s.bytes.items;
      most = s.most;
      fails = s.fails.items;
      reads = s.reads;
      faults = s.faults;
    } };

    ghost invariant = { λ s. (s.at ≤ vec_len s.bytes) × (1 ≤ s.most) };
}

impl MemSource {
    /// A source that gives at most `most` bytes a call. The calls whose numbers, from 1, are in `fails` fail.
    pub fn new(bytes: Vec<u8>, most: usize, fails: Vec<u64>) -> MemSource
        requires { 1 ≤ most }
        ensures { result ≡ record {
          left = bytes.items;
          most = most;
          fails = fails.items;
          reads = 0;
          faults = 0;
        } }
    {
        MemSource {
            bytes,
            at: 0,
            most,
            fails,
            reads: 0,
            faults: 0,
        }
    }
}

impl Source for MemSource {
    ghost use Rattle.std.specs.Prelude.{◌≡◌, ◌≤◌, ◌<◌, ◌↔◌, [], Some, length, min, IfOk, IfSome, IsErr, Contains, is_err, if◌then◌else◌};
    ghost use Rattle.std.specs.Io.KnownBytes.{ReadConsumes};
    ghost use Rattle.io_ends.specs.Counts.{HasCause, next_count};

    ghost left = { λ s. Some s.left };

    ghost faults = { λ s. s.faults };

    ghost reads = { λ s. s.reads };

    /// Fails exactly at the calls that it was told to, and else gives as many bytes as the buffer, `most` and the end allow.
    fn read(&mut self, buf: &mut [u8]) -> Result<usize, Failed>
        ensures bound { IfOk result (λ n. n ≤ length buf.new) }
        ensures bytes { ReadConsumes (Some self.old.left) (Some self.new.left) result buf.new }
        ensures end { IfSome (Some self.old.left) (λ bytes. IfOk result (λ n.
            0 < length buf.old → ((n ≡ 0) ↔ (bytes ≡ [])))) }
        ensures cause { HasCause result self.old.faults self.new.faults }
        ensures faults { self.old.faults ≤ self.new.faults }
        ensures reads { self.new.reads ≡ next_count self.old.reads }

        ensures fails { IsErr result ↔ Contains self.old.fails (next_count self.old.reads) }
        ensures given { IfOk result (λ n.
            n ≡ min (min (length buf.old) self.old.most) (length self.old.left)) }
        ensures told { (self.new.most ≡ self.old.most) × (self.new.fails ≡ self.old.fails) }
        ensures counted { self.new.faults
            ≡ (if is_err result then next_count self.old.faults else self.old.faults) }
    {
        self.reads = self.reads.saturating_add(1);
        if self.fails.contains(&self.reads) {
            self.faults = self.faults.saturating_add(1);
            return Err(Failed);
        }
        let (_, rest) = self.bytes.split_at(self.at);
        let n = buf.len().min(self.most).min(rest.len());
        let (piece, _) = rest.split_at(n);
        buf[..n].copy_from_slice(piece);
        self.at += n;
        Ok(n)
    }
}

/// A sink over memory, with room for so many bytes.
#[derive(Drop)]
pub struct MemSink {
    taken: Vec<u8>,
    room: usize,
    most: usize,
    fails: Vec<u64>,
    writes: u64,
    faults: u64,
}

impl Model for MemSink {
    ghost use Rattle.std.specs.Prelude.{◌≤◌, vec_len, vec_capacity};
    ghost use Rattle.io_ends.specs.Memory.{MemorySink};

    ghost Value = { MemorySink };

    ghost view = { λ s. record {
      taken = s.taken.items;
      room = s.room;
      most = s.most;
      fails = s.fails.items;
      writes = s.writes;
      faults = s.faults;
    } };

    ghost invariant = { λ s.
        (vec_len s.taken ≤ s.room) × (s.room ≤ vec_capacity s.taken) × (1 ≤ s.most) };
}

impl MemSink {
    /// A sink that takes at most `most` bytes a call. The calls whose numbers, from 1, are in `fails` fail, and so does
    /// every call on a full room.
    pub fn with_room(
        alloc: Global,
        room: usize,
        most: usize,
        fails: Vec<u64>,
    ) -> Result<MemSink, OutOfMemory>
        requires { 1 ≤ most }
        ensures { IfOk result (λ sink. sink ≡ record {
          taken = [];
          room = room;
          most = most;
          fails = fails.items;
          writes = 0;
          faults = 0;
        }) }
    {
        Ok(MemSink {
            taken: Vec::with_capacity(alloc, room)?,
            room,
            most,
            fails,
            writes: 0,
            faults: 0,
        })
    }

    /// The bytes that it has taken.
    pub fn taken(&self) -> &[u8]
        ensures { result.now ≡ self.now.taken }
    {
        &self.taken
    }
}

impl Sink for MemSink {
    ghost use Rattle.std.specs.Prelude.{◌≡◌, ◌≤◌, ◌<◌, ◌↔◌, ◌⊎◌, ◌-◌, Some, length, min, IfOk, IsErr, Contains, is_err, if◌then◌else◌};
    ghost use Rattle.std.specs.Io.KnownBytes.{WriteAppends};
    ghost use Rattle.io_ends.specs.Counts.{HasCause, next_count};

    ghost taken = { λ s. Some s.taken };

    ghost faults = { λ s. s.faults };

    /// Fails exactly at the calls that it was told to and on a full room, and else takes as many bytes as the piece, `most`
    /// and the room allow.
    fn write(&mut self, piece: &[u8]) -> Result<usize, Failed>
        ensures bound { IfOk result (λ n. n ≤ length piece.now) }
        ensures some { IfOk result (λ n. 0 < length piece.now → 0 < n) }
        ensures bytes { WriteAppends (Some self.old.taken) (Some self.new.taken) result piece.now }
        ensures cause { HasCause result self.old.faults self.new.faults }
        ensures faults { self.old.faults ≤ self.new.faults }

        ensures fails { IsErr result
            ↔ ((length self.old.taken ≡ self.old.room)
            ⊎ Contains self.old.fails (next_count self.old.writes)) }
        ensures given { IfOk result (λ n.
            n ≡ min (min (length piece.now) self.old.most)
            (self.old.room - length self.old.taken)) }
        ensures told { (self.new.room ≡ self.old.room) × (self.new.most ≡ self.old.most)
            × (self.new.fails ≡ self.old.fails) }
        ensures counted { (self.new.writes ≡ next_count self.old.writes)
            × (self.new.faults
            ≡ (if is_err result then next_count self.old.faults else self.old.faults)) }
    {
        self.writes = self.writes.saturating_add(1);
        let free = self.room - self.taken.len();
        if free == 0 || self.fails.contains(&self.writes) {
            self.faults = self.faults.saturating_add(1);
            return Err(Failed);
        }
        let n = piece.len().min(self.most).min(free);
        match self.taken.extend_from_slice(&piece[..n]) {
            Ok(()) => Ok(n),
            Err(_) => unreachable!(),
        }
    }
}
