//! Scripts: operations on clearing books, and alternatives of them.

ghost use Rattle.std.specs.Prelude.{◌≡◌, ◌<◌, ◌↔◌, [], ◌∷◌, ◌++◌, length, IsTrue, Some, OnOk, OnErr, slice_get};
ghost use Rattle.std.specs.Slice.Iter.{iter_rest};

use io_ends::OutOfMemory;
use std::alloc::Global;
use std::marker::Model;
use std::slice;

/// An operation. Accounts and instruments go by their numbers, amounts and prices are whole units of cash.
#[derive(Clone, Copy, Debug, PartialEq, Eq)]
pub enum Op {
    /// Opens an account with no cash.
    OpenAccount(u32),
    /// Closes an account that has no cash and no position.
    Close(u32),
    /// Adds an amount to an account's cash.
    Deposit(u32, u64),
    /// Takes an amount from an account's cash.
    Withdraw(u32, u64),
    /// Moves an amount from the first account to the second.
    Move(u32, u32, u64),
    /// Sets the price of an instrument.
    Price(u32, u64),
    /// The first account buys from the second, of the instrument, the quantity, at its price.
    Trade(u32, u32, u32, u64),
    /// Queues a margin call for the account's shortfall at a rate in percent.
    Margin(u32, u64),
    /// Takes the front of the queue of margin calls.
    Next,
    /// Tells an account's cash.
    Show(u32),
    /// Tells the cash of all accounts from the first to the second.
    Sum(u32, u32),
}

/// Operations in order.
#[derive(Debug, Drop)]
pub struct Ops {
    alloc: Global,
    // Boxed, so that a part of a script is hardly longer than an operation; None until one is added.
    operations: Option<Box<Vec<Op>>>,
}

impl Model for Ops {
    ghost use Rattle.std.specs.Prelude.{List, []};
    ghost use Rattle.std.specs.Option.{option_map_or};
    ghost use Rattle.books_model.specs.declared.script.Op.{Op};

    ghost Value = { List Op };

    ghost view = { λ o. option_map_or (λ b. b.value.items) o.operations [] };
}

impl Ops {
    /// No operations. It takes no memory.
    pub fn new(alloc: Global) -> Ops
        ensures { result ≡ [] }
    {
        Ops {
            alloc,
            operations: None,
        }
    }

    /// Adds an operation at the end.
    pub fn push(&mut self, op: Op) -> Result<(), OutOfMemory>
        ensures ok { OnOk result (self.new ≡ self.old ++ op ∷ []) }
        ensures err { OnErr result (self.new ≡ self.old) }
    {
        match &mut self.operations {
            Some(operations) => operations.push(op)?,
            None => {
                let mut operations = Vec::new(self.alloc);
                operations.push(op)?;
                self.operations = Some(Box::new(self.alloc, operations)?);
            }
        }
        Ok(())
    }

    fn as_slice(&self) -> &[Op]
        ensures { result.now ≡ self.now }
    {
        match &self.operations {
            Some(operations) => operations.as_slice(),
            None => &[],
        }
    }

    /// How many operations there are.
    pub fn len(&self) -> usize
        ensures { result ≡ length self.now }
    {
        self.as_slice().len()
    }

    /// Whether there is no operation.
    pub fn is_empty(&self) -> bool
        ensures { IsTrue result ↔ (self.now ≡ []) }
    {
        self.as_slice().is_empty()
    }

    /// The operations in order.
    pub fn iter(&self) -> slice::Iter<'_, Op>
        ensures { iter_rest result ≡ self.now }
    {
        self.as_slice().iter()
    }

    /// The operation at a place, from 0.
    pub fn at(&self, index: usize) -> Op
        requires { index < length self.now }
        ensures { slice_get self.now index ≡ Some result }
    {
        self.as_slice()[index]
    }
}

impl<'a> IntoIterator for &'a Ops {
    type Item = &'a Op;

    type IntoIter = slice::Iter<'a, Op>;

    ghost into_iter_gives = { λ ops it. iter_rest it ≡ ops.now };

    fn into_iter(self) -> Self::IntoIter {
        self.iter()
    }
}

/// A part of a script.
#[derive(Debug, Drop)]
pub enum Part {
    /// One operation.
    One(Op),
    /// An alternative: the operations of the first branch or, if one of them is refused, those of the second in their place.
    Either(Ops, Ops),
}

/// Parts that are run in order, all or none.
#[derive(Debug, Drop)]
pub struct Script {
    parts: Vec<Part>,
}

impl Model for Script {
    ghost use Rattle.std.specs.Prelude.{List};
    ghost use Rattle.books_model.specs.declared.script.Part.{Part};

    ghost Value = { List Part };

    ghost view = { λ s. s.parts.items };
}

impl Script {
    /// A script with no part. It takes no memory.
    pub fn new(alloc: Global) -> Script
        ensures { result ≡ [] }
    {
        Script {
            parts: Vec::new(alloc),
        }
    }

    /// Adds a part at the end.
    pub fn push(&mut self, part: Part) -> Result<(), OutOfMemory>
        ensures ok { OnOk result (self.new ≡ self.old ++ part ∷ []) }
        ensures err { OnErr result (self.new ≡ self.old) }
    {
        self.parts.push(part)?;
        Ok(())
    }

    /// How many parts it has.
    pub fn len(&self) -> usize
        ensures { result ≡ length self.now }
    {
        self.parts.len()
    }

    /// Whether it has no part.
    pub fn is_empty(&self) -> bool
        ensures { IsTrue result ↔ (self.now ≡ []) }
    {
        self.parts.is_empty()
    }

    /// The parts in order.
    pub fn iter(&self) -> slice::Iter<'_, Part>
        ensures { iter_rest result ≡ self.now }
    {
        self.parts.iter()
    }

    /// The part at a place, from 0.
    pub fn at(&self, index: usize) -> &Part
        requires { index < length self.now }
        ensures { slice_get self.now index ≡ Some result.now }
    {
        &self.parts[index]
    }
}

impl<'a> IntoIterator for &'a Script {
    type Item = &'a Part;

    type IntoIter = slice::Iter<'a, Part>;

    ghost into_iter_gives = { λ script it. iter_rest it ≡ script.now };

    fn into_iter(self) -> Self::IntoIter {
        self.iter()
    }
}
