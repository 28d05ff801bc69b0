//! A counter in one word.

ghost use Rattle.std.specs.Prelude.{⊤};
ghost use Rattle.transfers.specs.Counting.{Counts};

use txn::{Job, Shape, Stop, Verdict, Words};

/// One word, which may be any number.
#[derive(Clone, Copy, Debug, PartialEq, Eq)]
pub struct CounterShape;

impl Shape for CounterShape {
    ghost word_count = { λ _. 1 };

    ghost good = { λ _ _. ⊤ };
}

/// Adds one to the counter and answers what it was. At `u64::MAX` it reverts, and answers that.
#[derive(Clone, Copy, Debug, PartialEq, Eq)]
pub struct Increment;

impl Job for Increment {
    ghost use Rattle.std.specs.Prelude.{◌≡◌};
    ghost use Rattle.transfers.specs.declared.increment.CounterShape.{CounterShape};

    type Shape = CounterShape;

    type Answer = u64;

    ghost shape = { λ _. record {} };

    ghost means = { λ _ s kept answer t. Counts s kept answer t };

    #[tactic(auto, unfolding(txn::specs::Prelude::after, txn::specs::Prelude::IsLegalTrace))]
    fn run<W: Words<Shape = CounterShape>>(&self, w: &mut W) -> Result<Verdict<u64>, Stop> {
        let v = w.read(0)?;
        if v == u64::MAX {
            return Ok(Verdict::Revert(v));
        }
        w.write(0, v + 1)?;
        Ok(Verdict::Keep(v))
    }
}
