//! Which word lists stand for records.

use history_model::Shape;

/// The size of a record store.
///
/// As a shape it says how many words such a store takes, and which word lists are good: those that stand for some
/// records.
#[derive(Clone, Copy, Debug, PartialEq, Eq)]
pub struct RecordShape {
    /// How many blocks there are. A record takes two.
    pub blocks: u32,
}

impl Shape for RecordShape {
    ghost use Rattle.txn_records.specs.Layout.{words_of};
    ghost use Rattle.txn_records.specs.Standing.{IsGoodFor};

    ghost word_count = { λ shape. words_of shape };

    ghost good = { λ shape words. IsGoodFor shape words };
}
