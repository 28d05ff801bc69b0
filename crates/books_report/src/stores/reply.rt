//! What a script replies.

ghost use Rattle.std.specs.Prelude.{◌≡◌, ◌<◌, ◌↔◌, [], ◌∷◌, ◌++◌, length, IsTrue, Some, OnOk, OnErr, slice_get};
ghost use Rattle.std.specs.Slice.Iter.{iter_rest};

use io_ends::OutOfMemory;
use std::alloc::Global;
use std::marker::Model;
use std::slice;

/// The values of operations, in order.
#[derive(Debug, Drop)]
pub struct StoreValues<V> {
    values: Vec<V>,
}

impl<V> Model for StoreValues<V> {
    ghost use Rattle.std.specs.Prelude.{List};

    ghost Value = { List V };

    ghost view = { λ v. v.values.items };
}

impl<V: Drop> StoreValues<V> {
    /// No values. It takes no memory.
    pub fn new(alloc: Global) -> StoreValues<V>
        ensures { result ≡ [] }
    {
        StoreValues {
            values: Vec::new(alloc),
        }
    }

    /// Adds a value at the end.
    pub fn push(&mut self, value: V) -> Result<(), OutOfMemory>
        ensures ok { OnOk result (self.new ≡ self.old ++ value ∷ []) }
        ensures err { OnErr result (self.new ≡ self.old) }
    {
        self.values.push(value)?;
        Ok(())
    }

    /// How many values there are.
    pub fn len(&self) -> usize
        ensures { result ≡ length self.now }
    {
        self.values.len()
    }

    /// Whether there is no value.
    pub fn is_empty(&self) -> bool
        ensures { IsTrue result ↔ (self.now ≡ []) }
    {
        self.values.is_empty()
    }

    /// The values in order.
    pub fn iter(&self) -> slice::Iter<'_, V>
        ensures { iter_rest result ≡ self.now }
    {
        self.values.iter()
    }

    /// The value at a place, from 0.
    pub fn at(&self, i: usize) -> &V
        requires { i < length self.now }
        ensures { slice_get self.now i ≡ Some result.now }
    {
        &self.values[i]
    }
}

/// What a script replies. Operations are numbered from 1.
#[derive(Debug, Drop)]
pub enum StoreReply<V> {
    /// It came to its end, and each operation tells a value.
    Done(StoreValues<V>),
    /// The operation with this number asks for what is absent, and the script changed nothing.
    Declined(u32),
    /// The operation with this number found no room for what it brings, and the script changed nothing.
    Full(u32),
}
