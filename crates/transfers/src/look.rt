//! A look at one word of a vault.

ghost use Rattle.transfers.specs.Moving.{TellsWord};

use crate::vault::Vault;
use txn::{Job, Stop, Verdict, Words};

/// Tells the word at this place, or `None` if the vault has no such word, and changes nothing.
#[derive(Clone, Copy, Debug, PartialEq, Eq)]
pub struct Look {
    pub vault: Vault,
    pub place: u64,
}

impl Job for Look {
    type Shape = Vault;

    type Answer = Option<u64>;

    ghost shape = { λ job. job.vault };

    ghost means = { λ job s kept held t. TellsWord job.place s kept held t };

    fn run<W: Words<Shape = Vault>>(&self, w: &mut W) -> Result<Verdict<Option<u64>>, Stop> {
        let Look { vault, place } = *self;
        if place >= vault.words {
            return Ok(Verdict::Keep(None));
        }
        let held = w.read(place)?;
        Ok(Verdict::Keep(Some(held)))
    }
}
