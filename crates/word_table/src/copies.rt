//! What a pass keeps of its view, to look it up.

ghost use Rattle.std.specs.Prelude.{◌≡◌, ◌<◌, length};
ghost use Rattle.word_table.specs.Uses.{IsCopied};

use crate::bits;
use history_model::{LOCKS, LockUse, Phase};

/// The call: how many seats there are, the own number, the others as a bit for each, where the own row, the writer
/// words, the versions and the values begin in the table, how many calls were begun, where the pass is in its calls,
/// and the call's timestamp.
#[derive(Clone, Copy)]
pub(crate) struct CallCopy {
    pub(crate) seats: u32,
    pub(crate) who: u32,
    pub(crate) others: u64,
    pub(crate) row: u32,
    pub(crate) writers: u32,
    pub(crate) versions: u32,
    pub(crate) values: u32,
    pub(crate) calls: u32,
    pub(crate) phase: Phase,
    pub(crate) stamp: u64,
    pub(crate) announced: bool,
}

/// The versions: the locks whose versions the attempt found, and those that the call has written or owes, a bit for each
/// lock, and for each lock the version that was found last.
#[derive(Drop)]
pub(crate) struct VersionCopy {
    pub(crate) used: [u64; 16],
    pub(crate) written: [u64; 16],
    pub(crate) found: Vec<u64>,
}

impl VersionCopy {
    // What the copy has of a lock that was used.
    #[inline]
    pub(crate) fn use_at(&self, lock: u32) -> LockUse
        requires lock { lock < LOCKS }
        requires found { length self.now.found.items ≡ LOCKS }
        ensures lock { result.lock ≡ lock }
        ensures copied { IsCopied self.now result }
    {
        LockUse {
            lock,
            version: self.found[lock as usize],
            wrote: bits::test(&self.written, lock),
        }
    }
}

/// The locks: the read bits, the read grants and the claims, a bit for each lock, and for each lock a word that has a
/// bit for each seat that was scanned for the claim on it. What is known of their versions stands beside that.
#[derive(Drop)]
pub(crate) struct LockCopy {
    pub(crate) bits: [u64; 16],
    pub(crate) reads: [u64; 16],
    pub(crate) claims: [u64; 16],
    pub(crate) scans: Vec<u64>,
    pub(crate) versions: VersionCopy,
}
