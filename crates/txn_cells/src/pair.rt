//! Two numbers in one cell.

use crate::coded::Coded;

/// Two numbers that are read and written together.
#[derive(Clone, Copy, Debug, PartialEq, Eq)]
pub struct Pair {
    pub first: u64,
    pub second: u128,
}

/// Three words: that of the first, and those of the second.
impl Coded for Pair {
    ghost use Rattle.std.specs.Prelude.{◌<◌, ◌^◌, ◌∷◌, refl};
    ghost use Rattle.txn_cells.specs.Spelling.{halves_of};
    ghost use Rattle.txn_cells.specs.Pairs.{one_pair};

    ghost WORDS = { 3 };

    ghost is_value = { λ x. (x.first < 2 ^ 64) × (x.second < 2 ^ 128) };

    ghost words = { λ x. x.first ∷ halves_of x.second };

    const WORDS: u32 = 3;

    fn word(&self, i: u32) -> u64 {
        if i == 0 {
            self.first
        } else {
            self.second.word(i - 1)
        }
    }

    fn of(spelled: &[u64]) -> Option<Pair> {
        let second = u128::of(&spelled[1..])?;
        Some(Pair {
            first: spelled[0],
            second,
        })
    }

    fn tell(&self) {
        self.first.tell();
        self.second.tell();
    }

    ghost count = { λ x _. refl };

    ghost one = { one_pair };
}
