//! What a script on records replies.

ghost use Rattle.std.specs.Prelude.{◌≡◌, ◌<◌, ◌↔◌, [], ◌∷◌, ◌++◌, length, IsTrue, Some, OnOk, OnErr, slice_get};
ghost use Rattle.std.specs.Slice.Iter.{iter_rest};

use books_report::stores::{StoreReply, StoreValues};
use io_ends::OutOfMemory;
use std::alloc::Global;
use std::marker::Model;
use std::slice;

/// Identifiers in order.
#[derive(Debug, Drop)]
pub struct Ids {
    ids: Vec<u32>,
}

impl Model for Ids {
    ghost use Rattle.std.specs.Prelude.{ℕ, List};

    ghost Value = { List ℕ };

    ghost view = { λ i. i.ids.items };
}

impl Ids {
    /// No identifier. It takes no memory.
    pub fn new(alloc: Global) -> Ids
        ensures { result ≡ [] }
    {
        Ids {
            ids: Vec::new(alloc),
        }
    }

    /// Adds an identifier at the end.
    pub fn push(&mut self, id: u32) -> Result<(), OutOfMemory>
        ensures ok { OnOk result (self.new ≡ self.old ++ id ∷ []) }
        ensures err { OnErr result (self.new ≡ self.old) }
    {
        self.ids.push(id)?;
        Ok(())
    }

    /// How many identifiers there are.
    pub fn len(&self) -> usize
        ensures { result ≡ length self.now }
    {
        self.ids.len()
    }

    /// Whether there is no identifier.
    pub fn is_empty(&self) -> bool
        ensures { IsTrue result ↔ (self.now ≡ []) }
    {
        self.ids.is_empty()
    }

    /// The identifiers in order.
    pub fn iter(&self) -> slice::Iter<'_, u32>
        ensures { iter_rest result ≡ self.now }
    {
        self.ids.iter()
    }

    /// The identifier at a place, from 0.
    pub fn at(&self, i: usize) -> u32
        requires { i < length self.now }
        ensures { slice_get self.now i ≡ Some result }
    {
        self.ids[i]
    }
}

/// What an operation tells.
#[derive(Debug, Drop)]
pub enum RecordValue {
    /// A record was put that was not there.
    New,
    /// A record was put that was there.
    Old,
    /// The record is gone.
    Gone,
    /// The rank and the data of the record.
    Found(u32, u64),
    /// The identifiers that were listed.
    Ids(Ids),
}

/// The values of operations, in order.
pub type RecordValues = StoreValues<RecordValue>;

/// What a script replies: if it is declined a record is absent, and if it is full there are no blocks for a record more.
pub type RecordReply = StoreReply<RecordValue>;
