//! Words that are numbers, and their ranges.

ghost use Rattle.std.specs.Prelude.{◌≡◌, ◌<◌, true, min, IfErr, OnOk, Some};
ghost use Rattle.std.specs.Option.{SomeIff};
ghost use Rattle.std.specs.Result.{OkIff};
ghost use Rattle.std.specs.Char.{is_ascii_digit};
ghost use Rattle.std.specs.Str.{all_ascii_digits};
ghost use Rattle.std.specs.Str.Parse.{digits_value};
ghost use Rattle.books_model.specs.Ranges.{IsWithin};
ghost use Rattle.script_reader.specs.Number.{IsNumber};

use crate::fault::Fault;

/// The number that a word is, or the greatest `u64` if it is greater. None if the word is no number: decimal digits
/// with no zero in front.
pub fn numeral(word: &[u8]) -> Option<u64>
    ensures { SomeIff result (IsNumber word.now) (min (digits_value 10 word.now) u64.MAX) }
{
    if word.is_empty() || (word[0] == b'0' && word.len() != 1) {
        return None;
    }
    value_of(word)
}

// The number that digits are, or the greatest `u64` if it is greater. None if a byte is no digit.
fn value_of(word: &[u8]) -> Option<u64>
    ensures { SomeIff result (all_ascii_digits word.now ≡ true)
        (min (digits_value 10 word.now) u64.MAX) }
{
    let mut value = 0u64;
    for b in word {
        if !b.is_ascii_digit() {
            return None;
        }
        value = value
            .saturating_mul(10)
            .saturating_add(u64::from(*b - b'0'));
    }
    Some(value)
}

/// A number that is in its range.
pub fn within(number: u64, low: u64, high: u64) -> Result<u64, Fault>
    ensures range { OkIff result (IsWithin low high number) number }
    ensures err { IfErr result (λ why. why ≡ Fault.Limit) }
{
    if low <= number && number <= high {
        Ok(number)
    } else {
        Err(Fault::Limit)
    }
}

/// Whether two numbers are in their ranges, of which each is given by its least and its greatest.
pub fn both_within(
    one: u64,
    range: (u64, u64),
    other: u64,
    other_range: (u64, u64),
) -> Result<(), Fault>
    ensures ok { OnOk result
        (IsWithin range.0 range.1 one × IsWithin other_range.0 other_range.1 other) }
    ensures err { IfErr result (λ why. (why ≡ Fault.Limit)
        × ¬ (IsWithin range.0 range.1 one × IsWithin other_range.0 other_range.1 other)) }
{
    within(one, range.0, range.1)?;
    within(other, other_range.0, other_range.1)?;
    Ok(())
}
