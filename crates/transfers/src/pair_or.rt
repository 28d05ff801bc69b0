//! A job that tries something, and goes back to a mark if it does not come out.

ghost use Rattle.std.specs.Prelude.{◌<◌, ◌+◌, IfOk};
ghost use Rattle.txn.specs.Prelude.{IsReady, GoesOn, LeadsTo};
ghost use Rattle.transfers.specs.Counting.{AddsPairOr, AddsWhereFits};

use crate::increment::CounterShape;
use txn::{Job, Stop, Verdict, Words};

/// Adds both amounts of a pair to the counter, one after the other. If they do not both fit, it goes back to where it
/// was before the first, and adds the other amount in their place; if that does not fit either, it reverts.
#[derive(Clone, Copy, Debug, PartialEq, Eq)]
pub struct AddPairOr {
    pub first: u64,
    pub second: u64,
    /// What is added if the two do not both fit.
    pub other: u64,
}

// Adds to the counter if the sum fits, and answers whether it does.
fn add_fitting<W: Words>(w: &mut W, by: u64) -> Result<bool, Stop>
    requires ready { IsReady W.Words w.old }
    requires within { 0 < W.Shape.word_count (W.shape w.old) }
    ensures added { IfOk result
        (λ fits. LeadsTo W.Words W.Shape.Shape w.old w.new (AddsWhereFits by fits)) }
    ensures goes_on { GoesOn W.Words w.old w.new result }
{
    let v = w.read(0)?;
    if by > u64::MAX - v {
        return Ok(false);
    }
    w.write(0, v + by)?;
    Ok(true)
}

// Adds both amounts if the sum fits, and answers whether it does. If only the first fits, it is taken back.
fn add_pair<W: Words>(w: &mut W, first: u64, second: u64) -> Result<bool, Stop>
    requires ready { IsReady W.Words w.old }
    requires within { 0 < W.Shape.word_count (W.shape w.old) }
    ensures added { IfOk result
        (λ fits. LeadsTo W.Words W.Shape.Shape w.old w.new (AddsWhereFits (first + second) fits)) }
    ensures goes_on { GoesOn W.Words w.old w.new result }
{
    let before = w.mark();
    if !add_fitting(w, first)? {
        return Ok(false);
    }
    if add_fitting(w, second)? {
        return Ok(true);
    }
    w.back_to(before)?;
    Ok(false)
}

impl Job for AddPairOr {
    ghost use Rattle.std.specs.Prelude.{◌≡◌, ◌+◌};
    ghost use Rattle.transfers.specs.declared.increment.CounterShape.{CounterShape};

    type Shape = CounterShape;

    type Answer = ();

    ghost shape = { λ _. record {} };

    ghost means = { λ job s kept _ t. AddsPairOr (job.first + job.second) job.other s kept t };

    fn run<W: Words<Shape = CounterShape>>(&self, w: &mut W) -> Result<Verdict<()>, Stop> {
        if add_pair(w, self.first, self.second)? {
            return Ok(Verdict::Keep(()));
        }
        if add_fitting(w, self.other)? {
            return Ok(Verdict::Keep(()));
        }
        Ok(Verdict::Revert(()))
    }
}
