//! Hanging a node where a word is open.

ghost use Rattle.std.specs.Prelude.{◌≡◌, ◌⊎◌, IfOk, OnOk};
ghost use Rattle.txn_words.specs.Frames.{AppendsReads};
ghost use Rattle.txn_words.specs.Calls.{IsReady, GoesOn, WritesOnly, InEachState, LeadsTo};
ghost use Rattle.txn_tree_map.specs.Changes.{AreWithin, Hangs};

use txn_words::{Stop, Words};

/// Writes a node's name into the hole, and answers the name that its inner word holds.
pub(crate) fn hang<W: Words>(w: &mut W, hole: u64, name: u64, inner: u64) -> Result<u64, Stop>
    requires ready { IsReady W.Words w.old }
    requires within { InEachState W.Words W.Shape.Shape w.old (AreWithin hole inner) }
    ensures hung { IfOk result
        (λ rest. LeadsTo W.Words W.Shape.Shape w.old w.new (Hangs hole name inner rest)) }
    ensures frame { OnOk result (WritesOnly W.Words w.old w.new (λ a. a ≡ hole)) }
    ensures reads { OnOk result
        (AppendsReads (W.trace w.old) (W.trace w.new) (λ a. (a ≡ hole) ⊎ (a ≡ inner))) }
    ensures goes_on { GoesOn W.Words w.old w.new result }
{
    let rest = w.read(inner)?;
    w.write(hole, name)?;
    Ok(rest)
}
