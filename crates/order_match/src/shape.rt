//! Which word lists stand for a limit order book.

use history_model::Shape;

/// The size of a limit order book.
///
/// As a shape it says how many words such a book takes, and which word lists are good: those that stand for some book.
#[derive(Clone, Copy, Debug, PartialEq, Eq)]
pub struct OrderShape {
    /// How many blocks there are. A resting order takes two.
    pub blocks: u32,
    /// How many instruments there are. They go by their numbers, from 1.
    pub instruments: u32,
}

impl Shape for OrderShape {
    ghost use Rattle.order_match.specs.Layout.{words_of};
    ghost use Rattle.order_match.specs.Standing.{IsGoodFor};

    ghost word_count = { λ shape. words_of shape };

    ghost good = { λ shape words. IsGoodFor shape words };
}
