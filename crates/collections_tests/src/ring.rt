//! Calls of a ring of one place.

ghost use Rattle.std.specs.Prelude.{OnOk};
ghost use Rattle.txn_words.specs.Calls.{IsReady, GoesOn, InEachState};
ghost use Rattle.txn_ring.specs.Queues.{IsInOrder};

use crate::built::built;
use std::alloc::Global;
use std::test::Fail;
use txn_ring::Ring;
use txn_words::{Stop, Words};

const RING: Ring = Ring {
    at: 273,
    capacity: 1,
};

/// A call of a ring, and what it answers.
pub(crate) enum Call {
    Push((u64, u64), bool),
    Pop(Option<(u64, u64)>),
    Len(u64),
}

// Whether the call answers so. No more is said of it than that another may follow.
fn is_answered<W: Words>(ring: &Ring, w: &mut W, call: &Call) -> Result<bool, Stop>
    requires ready { IsReady W.Words w.old }
    requires order { InEachState W.Words W.Shape.Shape w.old (IsInOrder ring.now) }
    ensures order { OnOk result (InEachState W.Words W.Shape.Shape w.new (IsInOrder ring.now)) }
    ensures goes_on { GoesOn W.Words w.old w.new result }
{
    Ok(match *call {
        Call::Push(item, answer) => ring.push(w, item)? == answer,
        Call::Pop(answer) => ring.pop(w)? == answer,
        Call::Len(answer) => ring.len(w)? == answer,
    })
}

// The number of the first call that answers otherwise, if they are made one after another.
fn first_wrong<W: Words>(ring: &Ring, w: &mut W, calls: &[Call]) -> Result<Option<usize>, Stop>
    requires ready { IsReady W.Words w.old }
    requires order { InEachState W.Words W.Shape.Shape w.old (IsInOrder ring.now) }
{
    for (number, call) in calls.iter().enumerate() {
        if !is_answered(ring, w, call)? {
            return Ok(Some(number));
        }
    }
    Ok(None)
}

// The same of the ring of empty books.
pub(crate) fn first_wrong_of_ring(alloc: Global, calls: &[Call]) -> Result<Option<usize>, Fail> {
    let mut plain = built(alloc, 2)?;
    Ok(first_wrong(&RING, &mut plain, calls)?)
}
