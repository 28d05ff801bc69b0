//! A transfer from one word of a vault to another.

ghost use Rattle.transfers.specs.Moving.{Moves};

use crate::vault::Vault;
use txn::{Job, Stop, Verdict, Words, some_fits};

/// Moves `amount` from the word at place `from` to the word at place `to`. It reverts if these are not two words of
/// the vault, or the first has less.
#[derive(Clone, Copy, Debug, PartialEq, Eq)]
pub struct Transfer {
    pub vault: Vault,
    pub from: u64,
    pub to: u64,
    pub amount: u64,
}

impl Job for Transfer {
    type Shape = Vault;

    type Answer = ();

    ghost shape = { λ job. job.vault };

    ghost means = { λ job s kept _ t. Moves job.from job.to job.amount s kept t };

    fn run<W: Words<Shape = Vault>>(&self, w: &mut W) -> Result<Verdict<()>, Stop> {
        let Transfer {
            vault,
            from,
            to,
            amount,
        } = *self;
        if from == to || from >= vault.words || to >= vault.words {
            return Ok(Verdict::Revert(()));
        }
        let held = w.read(from)?;
        if held < amount {
            return Ok(Verdict::Revert(()));
        }
        let target = w.read(to)?;
        some_fits(w, &vault);
        w.write(from, held - amount)?;
        w.write(to, target + amount)?;
        Ok(Verdict::Keep(()))
    }
}
