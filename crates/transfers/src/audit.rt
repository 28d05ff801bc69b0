//! The sum of all words of a vault.

ghost use Rattle.transfers.specs.Moving.{TellsSum};

use crate::vault::Vault;
use txn::{Job, Stop, Verdict, Words, some_fits};

/// TellsSum the sum of all words, and changes nothing.
#[derive(Clone, Copy, Debug, PartialEq, Eq)]
pub struct Audit {
    pub vault: Vault,
}

impl Job for Audit {
    type Shape = Vault;

    type Answer = u64;

    ghost shape = { λ job. job.vault };

    ghost means = { λ _ s kept sum t. TellsSum s kept sum t };

    fn run<W: Words<Shape = Vault>>(&self, w: &mut W) -> Result<Verdict<u64>, Stop> {
        let mut total = 0;
        for place in 0..self.vault.words {
            let held = w.read(place)?;
            some_fits(w, &self.vault);
            total += held;
        }
        Ok(Verdict::Keep(total))
    }
}
