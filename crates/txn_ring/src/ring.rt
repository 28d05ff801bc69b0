//! A ring of places, and the queue that goes round it.

use txn_words::{Stop, Words};

/// Where a queue lies: word `at` has the place of the front, word `at + 1` the number of items, and the words
/// `at + 2 + 2 * p` and `at + 3 + 2 * p` the item at place `p`.
#[derive(Clone, Copy, Debug, PartialEq, Eq)]
pub struct Ring {
    /// The first of the ring's words.
    pub at: u64,
    /// How many places there are, and so how many items at most.
    pub capacity: u32,
}

impl Ring {
    ghost use Rattle.std.specs.Prelude.{◌≡◌, None, false, IfOk, IfSome, IfNone, OnOk};
    ghost use Rattle.txn_words.specs.Frames.{KeepsOthers};
    ghost use Rattle.txn_words.specs.Calls.{IsReady, GoesOn, WritesOnly, ReadsOnly, InEachState, LeadsTo};
    ghost use Rattle.txn_ring.specs.Queues.{IsOwn, IsInOrder, IsFull, IsEmpty, HasCount, Pushes, Pops};

    /// Puts an item behind those that are there, unless there is no room for one more.
    pub fn push<W: Words>(&self, w: &mut W, item: (u64, u64)) -> Result<bool, Stop>
        requires ready { IsReady W.Words w.old }
        requires order { InEachState W.Words W.Shape.Shape w.old (IsInOrder self.now) }

        // The item is the last one, and the others are as they were; or nothing changes.
        ensures pushed { IfOk result (λ answer.
            LeadsTo W.Words W.Shape.Shape w.old w.new (Pushes self.now item answer)) }

        // It answers false exactly if in every state the queue holds its capacity.
        ensures full { IfOk result (λ answer. answer ≡ false →
            LeadsTo W.Words W.Shape.Shape w.old w.new (λ before _. IsFull self.now before)) }
        ensures full_if { IfOk result (λ answer.
            LeadsTo W.Words W.Shape.Shape w.old w.new (λ before _. IsFull self.now before)
            → answer ≡ false) }

        ensures order { OnOk result (InEachState W.Words W.Shape.Shape w.new (IsInOrder self.now)) }

        // No word but the ring's own is written, so every other stays, and none but these is read. A push that is
        // refused writes nothing.
        ensures frame { OnOk result (WritesOnly W.Words w.old w.new (IsOwn self.now)) }
        ensures others { OnOk result
            (LeadsTo W.Words W.Shape.Shape w.old w.new (KeepsOthers (IsOwn self.now))) }
        ensures full_frame { IfOk result
            (λ answer. answer ≡ false → WritesOnly W.Words w.old w.new (λ _. ⊥)) }
        ensures reads { OnOk result (ReadsOnly W.Words w.old w.new (IsOwn self.now)) }
        ensures goes_on { GoesOn W.Words w.old w.new result }
    {
        let capacity = u64::from(self.capacity);
        prove!(self.at < u64::MAX - 2 * capacity);
        let count = w.read(self.at + 1)?;
        if count == capacity {
            return Ok(false);
        }
        let front = w.read(self.at)?;
        prove!(front < capacity);
        prove!(count < capacity);
        let place = (front + count) % capacity;
        w.write(self.at + 2 + 2 * place, item.0)?;
        w.write(self.at + 3 + 2 * place, item.1)?;
        w.write(self.at + 1, count + 1)?;
        Ok(true)
    }

    /// Takes the item at the front, unless there is none.
    pub fn pop<W: Words>(&self, w: &mut W) -> Result<Option<(u64, u64)>, Stop>
        requires ready { IsReady W.Words w.old }
        requires order { InEachState W.Words W.Shape.Shape w.old (IsInOrder self.now) }

        // The item was the first one, and the others stay in their order; or nothing changes.
        ensures popped { IfOk result (λ answer.
            LeadsTo W.Words W.Shape.Shape w.old w.new (Pops self.now answer)) }

        // It answers None exactly if in every state the queue holds no item.
        ensures none { IfOk result (λ answer.
            IfNone answer
            (LeadsTo W.Words W.Shape.Shape w.old w.new (λ before _. IsEmpty self.now before))) }
        ensures none_if { IfOk result (λ answer.
            LeadsTo W.Words W.Shape.Shape w.old w.new (λ before _. IsEmpty self.now before)
            → answer ≡ None) }

        ensures order { OnOk result (InEachState W.Words W.Shape.Shape w.new (IsInOrder self.now)) }

        // No word but the ring's own is written, so every other stays, and none but these is read. A pop that finds
        // no item writes nothing.
        ensures frame { OnOk result (WritesOnly W.Words w.old w.new (IsOwn self.now)) }
        ensures others { OnOk result
            (LeadsTo W.Words W.Shape.Shape w.old w.new (KeepsOthers (IsOwn self.now))) }
        ensures none_frame { IfOk result
            (λ answer. IfNone answer (WritesOnly W.Words w.old w.new (λ _. ⊥))) }
        ensures reads { OnOk result (ReadsOnly W.Words w.old w.new (IsOwn self.now)) }
        ensures goes_on { GoesOn W.Words w.old w.new result }
    {
        let capacity = u64::from(self.capacity);
        prove!(self.at < u64::MAX - 2 * capacity);
        let count = w.read(self.at + 1)?;
        if count == 0 {
            return Ok(None);
        }
        let front = w.read(self.at)?;
        prove!(front < capacity);
        let first = w.read(self.at + 2 + 2 * front)?;
        let second = w.read(self.at + 3 + 2 * front)?;
        w.write(self.at, (front + 1) % capacity)?;
        w.write(self.at + 1, count - 1)?;
        Ok(Some((first, second)))
    }

    /// How many items there are, which the number of places bounds.
    pub fn len<W: Words>(&self, w: &mut W) -> Result<u64, Stop>
        requires ready { IsReady W.Words w.old }
        requires order { InEachState W.Words W.Shape.Shape w.old (IsInOrder self.now) }
        ensures count { IfOk result
            (λ n. InEachState W.Words W.Shape.Shape w.new (HasCount self.now n)) }
        ensures order { OnOk result (InEachState W.Words W.Shape.Shape w.new (IsInOrder self.now)) }

        // No word is written, so nothing changes.
        ensures frame { OnOk result (WritesOnly W.Words w.old w.new (λ _. ⊥)) }
        ensures same { OnOk result
            (LeadsTo W.Words W.Shape.Shape w.old w.new (λ before after. after ≡ before)) }
        ensures reads { OnOk result (ReadsOnly W.Words w.old w.new (IsOwn self.now)) }
        ensures goes_on { GoesOn W.Words w.old w.new result }
    {
        let capacity = u64::from(self.capacity);
        prove!(self.at < u64::MAX - 2 * capacity);
        let count = w.read(self.at + 1)?;
        Ok(count)
    }
}
