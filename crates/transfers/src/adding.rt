//! A call on any words, with the contract that a collection's call has.

ghost use Rattle.std.specs.Prelude.{◌≡◌, ◌<◌, OnOk};
ghost use Rattle.txn.specs.Prelude.{IsReady, GoesOn, WritesOnly, ReadsOnly, InEachState, LeadsTo};
ghost use Rattle.transfers.specs.Counting.{HasRoom, AddsTo};

use txn::{Stop, Words};

/// Adds `by` to the word at place `a`, of which every state that fits what was done before says that the sum fits.
pub fn add_to<W: Words>(w: &mut W, a: u64, by: u64) -> Result<(), Stop>
    requires ready { IsReady W.Words w.old }
    requires within { a < W.Shape.word_count (W.shape w.old) }
    requires room { InEachState W.Words W.Shape.Shape w.old (HasRoom a by) }
    ensures added { OnOk result (LeadsTo W.Words W.Shape.Shape w.old w.new (AddsTo a by)) }

    // No word but this one is written or read.
    ensures frame { OnOk result (WritesOnly W.Words w.old w.new (λ b. b ≡ a)) }
    ensures reads { OnOk result (ReadsOnly W.Words w.old w.new (λ b. b ≡ a)) }
    ensures goes_on { GoesOn W.Words w.old w.new result }
{
    let v = w.read(a)?;
    w.write(a, v + by)?;
    Ok(())
}
