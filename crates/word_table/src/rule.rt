//! The rule that a desk's table keeps between any two steps: `IsSound` of `specs/Sound`.

ghost use Rattle.locks_rule.specs.Splits.{opening_view};
ghost use Rattle.std.specs.Prelude.{[]};
ghost use Rattle.word_table.specs.Sound.{GroundHolds, numbers};
ghost use Rattle.word_table.specs.Words.{views_of};

use atomic_table::TableRule;
use history_model::{Shape, View};
use std::marker::PhantomData;

/// What a table was made with, which no step changes.
#[derive(Drop)]
pub struct Ground<S> {
    /// How many seats there are.
    pub seats: u32,
    /// The words that the memory began with.
    pub base: Vec<u64>,
    /// Which words are good.
    pub shape: S,
}

/// What a seat knows, and how many steps it took. No value of it is ever made.
pub struct Counted {
    pub view: View,
    pub steps: u64,
}

/// The rule of a desk's table. One view begins with the numbers of all seats. It says nothing of how many steps there
/// were.
pub struct DeskRule<S> {
    shape: PhantomData<S>,
}

impl<S: Shape> TableRule<(), Counted, Ground<S>> for DeskRule<S> {
    ghost holds = { λ made s. GroundHolds S.word_count S.good made s.words (views_of s.views) };

    ghost first = { λ made. record {
      view = opening_view made.base.items made.seats (numbers 0 made.seats) [];
      steps = 0;
    } };
}
