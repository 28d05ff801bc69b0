//! Scripts: operations of a store, in order.

ghost use Rattle.std.specs.Prelude.{◌≡◌, ◌<◌, ◌↔◌, [], ◌∷◌, ◌++◌, length, IsTrue, Some, OnOk, OnErr, slice_get};
ghost use Rattle.std.specs.Slice.Iter.{iter_rest};

use io_ends::OutOfMemory;
use std::alloc::Global;
use std::marker::Model;
use std::slice;

/// Operations that are run in order, all or none.
#[derive(Debug, Drop)]
pub struct OperationList<O> {
    operations: Vec<O>,
}

impl<O> Model for OperationList<O> {
    ghost use Rattle.std.specs.Prelude.{List};

    ghost Value = { List O };

    ghost view = { λ s. s.operations.items };
}

impl<O: Copy + Drop> OperationList<O> {
    /// A script with no operation. It takes no memory.
    pub fn new(alloc: Global) -> OperationList<O>
        ensures { result ≡ [] }
    {
        OperationList {
            operations: Vec::new(alloc),
        }
    }

    /// Adds an operation at the end.
    pub fn push(&mut self, op: O) -> Result<(), OutOfMemory>
        ensures ok { OnOk result (self.new ≡ self.old ++ op ∷ []) }
        ensures err { OnErr result (self.new ≡ self.old) }
    {
        self.operations.push(op)?;
        Ok(())
    }

    /// How many operations it has.
    pub fn len(&self) -> usize
        ensures { result ≡ length self.now }
    {
        self.operations.len()
    }

    /// Whether it has no operation.
    pub fn is_empty(&self) -> bool
        ensures { IsTrue result ↔ (self.now ≡ []) }
    {
        self.operations.is_empty()
    }

    /// The operations in order.
    pub fn iter(&self) -> slice::Iter<'_, O>
        ensures { iter_rest result ≡ self.now }
    {
        self.operations.iter()
    }

    /// The operation at a place, from 0.
    pub fn at(&self, i: usize) -> O
        requires { i < length self.now }
        ensures { slice_get self.now i ≡ Some result }
    {
        self.operations[i]
    }
}

impl<'a, O: Copy + Drop> IntoIterator for &'a OperationList<O> {
    type Item = &'a O;

    type IntoIter = slice::Iter<'a, O>;

    ghost into_iter_gives = { λ script it. iter_rest it ≡ script.now };

    fn into_iter(self) -> Self::IntoIter {
        self.iter()
    }
}
