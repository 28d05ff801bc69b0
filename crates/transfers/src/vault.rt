//! Words with a fixed sum.

ghost use Rattle.transfers.specs.Moving.{HasSum};

use txn::Shape;

/// So many words, whose sum is the total.
#[derive(Clone, Copy, Debug, PartialEq, Eq)]
pub struct Vault {
    pub words: u64,
    pub total: u64,
}

impl Shape for Vault {
    ghost word_count = { λ vault. vault.words };

    ghost good = { λ vault s. HasSum vault.total s };
}
