//! Numbers, truth values and options in words.

use crate::coded::Coded;

/// One word.
impl Coded for u64 {
    ghost use Rattle.std.specs.Prelude.{◌<◌, ◌^◌, ◌∷◌, [], refl};

    ghost WORDS = { 1 };

    ghost is_value = { λ x. x < 2 ^ 64 };

    ghost words = { λ x. x ∷ [] };

    const WORDS: u32 = 1;

    fn word(&self, _i: u32) -> u64 {
        *self
    }

    fn of(spelled: &[u64]) -> Option<u64> {
        Some(spelled[0])
    }

    fn tell(&self) {
        prove!(*self <= u64::MAX);
    }

    ghost count = { λ x _. refl };

    ghost one = { λ x y _ _ e. cc e };
}

/// One word, 1 for true and 0 for false.
impl Coded for bool {
    ghost use Rattle.std.specs.Prelude.{⊤};
    ghost use Rattle.txn_cells.specs.Spelling.{words_of_bool, one_word_of_bool, one_bool};

    ghost WORDS = { 1 };

    ghost is_value = { λ _. ⊤ };

    ghost words = { words_of_bool };

    const WORDS: u32 = 1;

    fn word(&self, _i: u32) -> u64 {
        u64::from(*self)
    }

    fn of(spelled: &[u64]) -> Option<bool> {
        match spelled[0] {
            0 => Some(false),
            1 => Some(true),
            _ => None,
        }
    }

    fn tell(&self) {}

    ghost count = { λ x _. one_word_of_bool x };

    ghost one = { λ x y _ _ e. one_bool x y e };
}

/// Two words, the low one first.
impl Coded for u128 {
    ghost use Rattle.std.specs.Prelude.{◌<◌, ◌^◌, refl};
    ghost use Rattle.txn_cells.specs.Spelling.{halves_of, one_of_halves};

    ghost WORDS = { 2 };

    ghost is_value = { λ x. x < 2 ^ 128 };

    ghost words = { halves_of };

    const WORDS: u32 = 2;

    fn word(&self, i: u32) -> u64 {
        if i == 0 {
            (*self % (1 << 64)) as u64
        } else {
            (*self >> 64) as u64
        }
    }

    fn of(spelled: &[u64]) -> Option<u128> {
        Some(u128::from(spelled[0]) + (u128::from(spelled[1]) << 64))
    }

    fn tell(&self) {
        prove!(*self <= u128::MAX);
    }

    ghost count = { λ x _. refl };

    ghost one = { one_of_halves };
}

/// Two words: 0 and 0 for None, 1 and the number for Some.
impl Coded for Option<u64> {
    ghost use Rattle.std.specs.Prelude.{◌<◌, ◌^◌, IfSome};
    ghost use Rattle.txn_cells.specs.Spelling.{words_of_option, two_words_of_option, one_option};

    ghost WORDS = { 2 };

    ghost is_value = { λ x. IfSome x (λ v. v < 2 ^ 64) };

    ghost words = { words_of_option };

    const WORDS: u32 = 2;

    fn word(&self, i: u32) -> u64 {
        match (self, i) {
            (None, _) => 0,
            (Some(_), 0) => 1,
            (Some(v), _) => *v,
        }
    }

    fn of(spelled: &[u64]) -> Option<Option<u64>> {
        match (spelled[0], spelled[1]) {
            (0, 0) => Some(None),
            (1, v) => Some(Some(v)),
            _ => None,
        }
    }

    fn tell(&self) {
        if let Some(v) = self {
            prove!(*v <= u64::MAX);
        }
    }

    ghost count = { λ x _. two_words_of_option x };

    ghost one = { λ x y _ _ e. one_option x y e };
}
