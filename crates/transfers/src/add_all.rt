//! A job with a loop, over amounts that it was lent.

ghost use Rattle.transfers.specs.Counting.{AddsAll};

use crate::increment::CounterShape;
use txn::{Job, Stop, Verdict, Words};

/// Adds the amounts to the counter, one after another. If they do not all fit, it reverts.
#[derive(Clone, Copy, Debug)]
pub struct AddAll<'s> {
    /// In the order in which they are added.
    pub amounts: &'s [u64],
}

impl<'s> Job for AddAll<'s> {
    ghost use Rattle.std.specs.Prelude.{◌≡◌};
    ghost use Rattle.transfers.specs.declared.increment.CounterShape.{CounterShape};

    type Shape = CounterShape;

    type Answer = ();

    ghost shape = { λ _. record {} };

    ghost means = { λ job s kept _ t. AddsAll job.amounts.now s kept t };

    fn run<W: Words<Shape = CounterShape>>(&self, w: &mut W) -> Result<Verdict<()>, Stop> {
        for x in self.amounts {
            let v = w.read(0)?;
            if *x > u64::MAX - v {
                return Ok(Verdict::Revert(()));
            }
            w.write(0, v + *x)?;
        }
        Ok(Verdict::Keep(()))
    }
}
