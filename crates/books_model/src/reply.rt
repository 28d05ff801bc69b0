//! What a script replies.

ghost use Rattle.std.specs.Prelude.{◌≡◌, ◌<◌, ◌↔◌, [], ◌∷◌, ◌++◌, length, IsTrue, Some, IfOk, OnOk, OnErr, slice_get};
ghost use Rattle.std.specs.Slice.Iter.{iter_rest};

use io_ends::OutOfMemory;
use std::alloc::Global;
use std::marker::Model;
use std::{fmt, slice};

/// Why an operation is declined.
#[derive(Clone, Copy, Debug, PartialEq, Eq)]
pub enum Decline {
    /// The account is there already.
    Exists,
    /// The account is not there.
    Absent,
    /// There is too little cash, or some if none may be.
    Cash,
    /// The account holds a position.
    Held,
    /// The cash or the position would pass its limit.
    Limit,
    /// Both accounts are the same.
    Same,
    /// The instrument has no price.
    Price,
    /// The seller holds too little.
    Quantity,
    /// The queue of margin calls is full.
    Queue,
}

impl fmt::Display for Decline {
    ghost use Rattle.std.specs.Prelude.{Some};
    ghost use Rattle.books_model.specs.Words.{decline_word};

    ghost output = { λ why. Some (decline_word why) };

    fn fmt<W: fmt::Write>(&self, f: &mut fmt::Formatter<W>) -> fmt::Result {
        f.write_str(match self {
            Decline::Exists => "exists",
            Decline::Absent => "absent",
            Decline::Cash => "cash",
            Decline::Held => "held",
            Decline::Limit => "limit",
            Decline::Same => "same",
            Decline::Price => "price",
            Decline::Quantity => "quantity",
            Decline::Queue => "queue",
        })
    }
}

/// What an operation tells, or an alternative.
#[derive(Clone, Copy, Debug, PartialEq, Eq)]
pub enum Value {
    /// It was done.
    Done,
    /// Cash, a sum of cash, or a shortfall.
    Number(u128),
    /// The margin call that was taken: its account and its shortfall.
    Call(u32, u64),
    /// No margin call was queued.
    Nothing,
    /// Of an alternative the first branch was done: the values of its operations come next.
    First,
    /// The first branch was refused, and the second was done: the values of its operations come next.
    Second,
}

impl fmt::Display for Value {
    ghost use Rattle.std.specs.Prelude.{Some};
    ghost use Rattle.books_model.specs.Words.{word_of_value};

    ghost output = { λ value. Some (word_of_value value) };

    fn fmt<W: fmt::Write>(&self, f: &mut fmt::Formatter<W>) -> fmt::Result {
        match self {
            Value::Done => f.write_str("ok"),
            Value::Number(n) => write!(f, "{n}"),
            Value::Call(account, shortfall) => write!(f, "{account}:{shortfall}"),
            Value::Nothing => f.write_str("none"),
            Value::First => f.write_str("first"),
            Value::Second => f.write_str("second"),
        }
    }
}

/// The values of operations and alternatives, in order.
#[derive(Debug, Drop)]
pub struct Values {
    values: Vec<Value>,
}

impl Model for Values {
    ghost use Rattle.std.specs.Prelude.{List};
    ghost use Rattle.books_model.specs.declared.reply.Value.{Value as AnyValue};

    ghost Value = { List AnyValue };

    ghost view = { λ v. v.values.items };
}

impl Values {
    /// No values. It takes no memory.
    pub fn new(alloc: Global) -> Values
        ensures { result ≡ [] }
    {
        Values {
            values: Vec::new(alloc),
        }
    }

    /// No values, with room for so many.
    pub fn with_room(alloc: Global, count: usize) -> Result<Values, OutOfMemory>
        ensures { IfOk result (λ values. values ≡ []) }
    {
        Ok(Values {
            values: Vec::with_capacity(alloc, count)?,
        })
    }

    /// This value alone.
    pub fn only(alloc: Global, value: Value) -> Result<Values, OutOfMemory>
        ensures { IfOk result (λ values. values ≡ value ∷ []) }
    {
        let mut values = Values::new(alloc);
        values.push(value)?;
        Ok(values)
    }

    /// Adds a value at the end.
    pub fn push(&mut self, value: Value) -> Result<(), OutOfMemory>
        ensures ok { OnOk result (self.new ≡ self.old ++ value ∷ []) }
        ensures err { OnErr result (self.new ≡ self.old) }
    {
        self.values.push(value)?;
        Ok(())
    }

    /// Adds values at the end.
    pub fn append(&mut self, more: &Values) -> Result<(), OutOfMemory>
        ensures ok { OnOk result (self.new ≡ self.old ++ more.now) }
        ensures err { OnErr result (self.new ≡ self.old) }
    {
        self.values.extend_from_slice(&more.values)?;
        Ok(())
    }

    /// How many values there are.
    pub fn len(&self) -> usize
        ensures { result ≡ length self.now }
    {
        self.values.len()
    }

    /// Whether there is no value.
    pub fn is_empty(&self) -> bool
        ensures { IsTrue result ↔ (self.now ≡ []) }
    {
        self.values.is_empty()
    }

    /// The values in order.
    pub fn iter(&self) -> slice::Iter<'_, Value>
        ensures { iter_rest result ≡ self.now }
    {
        self.values.iter()
    }

    /// The value at a place, from 0.
    pub fn at(&self, index: usize) -> Value
        requires { index < length self.now }
        ensures { slice_get self.now index ≡ Some result }
    {
        self.values[index]
    }

    /// Equal values.
    pub fn copy(&self) -> Result<Values, OutOfMemory>
        ensures { IfOk result (λ copy. copy ≡ self.now) }
    {
        Ok(Values {
            values: self.values.clone()?,
        })
    }
}

impl<'a> IntoIterator for &'a Values {
    type Item = &'a Value;

    type IntoIter = slice::Iter<'a, Value>;

    ghost into_iter_gives = { λ values it. iter_rest it ≡ values.now };

    fn into_iter(self) -> Self::IntoIter {
        self.iter()
    }
}

/// What a script replies. Operations are numbered from 1.
#[derive(Debug, Drop)]
pub enum Reply {
    /// It came to its end. Each operation that was done tells a value, and each alternative which branch that was.
    Done(Values),
    /// The operation with this number was declined, and the script changed nothing.
    Declined(u32, Decline),
    /// The operation with this number found no block, and the script changed nothing.
    Full(u32),
}

impl Reply {
    /// An equal reply.
    pub fn copy(&self, alloc: Global) -> Result<Reply, OutOfMemory>
        ensures { IfOk result (λ copy. copy ≡ self.now) }
    {
        match self {
            Reply::Done(values) => Ok(Reply::Done(values.copy()?)),
            Reply::Declined(number, why) => Ok(Reply::Declined(*number, *why)),
            Reply::Full(number) => Ok(Reply::Full(*number)),
        }
    }
}
