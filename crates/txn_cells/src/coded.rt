//! Types whose values are spelled in words.

ghost use Rattle.std.specs.Prelude.{◌≡◌, ◌≢◌, ℕ, ◌<◌, List, Some, length, slice_get, IfSome, IfNone};

/// A type whose values are spelled in words, each in as many.
///
/// A program gives it to a type of its own to keep its values in cells ([`CellArray`]).
///
/// [`CellArray`]: crate::CellArray
pub trait Coded: Sized {
    ghost use Rattle.std.specs.Prelude.{◌≡◌, ℕ, List, length};

    /// How many words spell a value.
    ghost WORDS: { ℕ };

    /// Which are the type's values: a number of the logic has no bound, and one of the type has.
    ghost is_value: { Self → Type 0 };

    /// The words of a value, which alone spell it.
    ghost words: { Self → List ℕ };

    const WORDS: u32;

    /// The word at place `i` of those that spell the value, counted from 0.
    fn word(&self, i: u32) -> u64
        requires within { i < WORDS }
        ensures word { slice_get (words self.now) i ≡ Some result };

    /// The value that these words spell, if they spell one.
    fn of(spelled: &[u64]) -> Option<Self>
        requires count { length spelled.now ≡ WORDS }
        ensures some { IfSome result (λ x. is_value x × (words x ≡ spelled.now)) }
        ensures none { IfNone result ((x : Self) → is_value x → words x ≢ spelled.now) };

    /// Does nothing: what it is called on is one of the type's values.
    fn tell(&self)
        ensures value { is_value self.now };

    /// Each value has as many words.
    ghost count: { (x : Self) → is_value x → length (words x) ≡ WORDS };

    /// Words spell one value at most.
    ghost one: { (x y : Self) → is_value x → is_value y → words x ≡ words y → x ≡ y };
}
