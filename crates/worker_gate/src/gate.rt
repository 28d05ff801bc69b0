//! What a gate is told, and the gate that lets all pass.

use std::sync::Wait;

/// How far a transaction has come.
#[derive(Clone, Copy, Debug, PartialEq, Eq)]
pub enum Stage {
    /// A lock was granted that the attempt did not have. The word that it was asked for is not loaded or stored yet.
    Granted {
        /// The word.
        word: u64,
        /// Whether the lock is held for writing.
        write: bool,
    },
    /// The job has decided, and the entry is not made yet.
    BeforeCommit,
    /// The entry stands in the history, and all locks are still held.
    AfterCommit,
    /// The attempt gave way: it has undone its writes and released its locks, and is about to wait for its cause.
    Yielded {
        /// The seat to which it gave way.
        seat: u32,
        /// The timestamp that this seat showed.
        stamp: u64,
    },
}

/// Where one transaction is.
#[derive(Clone, Copy, Debug, PartialEq, Eq)]
pub struct Point {
    /// The seat that makes the call, from 0.
    pub seat: u32,
    /// Which of this seat's calls it is, from 1.
    pub call: u32,
    /// The job's own number.
    pub tag: u64,
    /// How far it has come.
    pub stage: Stage,
}

/// Who is told of each point that a transaction comes to, by the thread that runs it.
///
/// A gate may wait, for another thread too. Whatever it does, no contract of a transaction depends on it: `at` is lent
/// nothing that a transaction works on, and no clause says which points are told. A gate that several threads tell is
/// `Sync` too.
pub trait Gate {
    /// A transaction came to this point. It goes on when the call returns.
    fn at<R: Wait>(&self, rt: &R, point: Point);
}

/// A gate that lets every transaction pass.
#[derive(Clone, Copy, Debug, PartialEq, Eq)]
pub struct OpenGate;

impl Gate for OpenGate {
    fn at<R: Wait>(&self, _rt: &R, _point: Point) {}
}
