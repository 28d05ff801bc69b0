//! The numbers of a line, behind its first word.

ghost use Rattle.std.specs.Prelude.{◌≡◌, ◌<◌, ◌&&◌, [], ◌∷◌, min, true, false, length, Some, IfOk, IfErr};
ghost use Rattle.script_reader.specs.Lines.{word_at};
ghost use Rattle.script_reader.specs.Number.{is_number};
ghost use Rattle.script_reader.specs.declared.text.words.TheConstants.{MOST_WORDS};
ghost use Rattle.script_reader.specs.Forms.{word_value};
ghost use Rattle.script_reader.specs.Rows.{HasNumbers, numbers_fault};

use crate::fault::Fault;
use crate::text::numbers::{both_within, within};
use crate::text::words::Words;
use books_model::Books;
use books_model::limits::{
    GREATEST_ACCOUNT, GREATEST_PRICE, GREATEST_QUANTITY, GREATEST_RATE, GREATEST_SHORTFALL,
    MOST_INSTRUMENTS, MOST_RING,
};

// The least and the greatest of each kind of number whose range is that of every version.
pub(crate) const INSTRUMENTS: (u64, u64) = (1, MOST_INSTRUMENTS as u64);

pub(crate) const RINGS: (u64, u64) = (1, MOST_RING as u64);

pub(crate) const ACCOUNTS: (u64, u64) = (1, GREATEST_ACCOUNT as u64);

pub(crate) const PRICES: (u64, u64) = (1, GREATEST_PRICE);

pub(crate) const QUANTITIES: (u64, u64) = (1, GREATEST_QUANTITY);

pub(crate) const RATES: (u64, u64) = (1, GREATEST_RATE);

pub(crate) const SHORTFALLS: (u64, u64) = (1, GREATEST_SHORTFALL);

// The least and the greatest instrument number of the books.
pub(crate) fn instruments_of(books: &Books) -> (u64, u64)
    ensures number { result ≡ (1, books.now.instruments) }
    ensures small { result.1 < u64.MAX }
{
    (1, u64::from(books.instruments()))
}

impl<'a> Words<'a> {
    /// The numbers that the words at two places are, each as `number` has it.
    pub fn both_numbers(&self, one: usize, other: usize) -> Result<(u64, u64), Fault>
        requires there { (one < length self.now) × (other < length self.now) }
        requires early { (one < MOST_WORDS) × (other < MOST_WORDS) }
        ensures found { IfOk result (λ n. (is_number (word_at self.now one) ≡ true)
            × (is_number (word_at self.now other) ≡ true)
            × (n.0 ≡ min (word_value self.now one) u64.MAX)
            × (n.1 ≡ min (word_value self.now other) u64.MAX)) }
        ensures err { IfErr result (λ why. (why ≡ Fault.Number)
            × ((is_number (word_at self.now one) && is_number (word_at self.now other)) ≡ false)) }
    {
        let a = self.number(one)?;
        let b = self.number(other)?;
        Ok((a, b))
    }

    /// The number of a line of two words.
    pub fn one_number(&self, first: (u64, u64)) -> Result<u64, Fault>
        requires two { length self.now ≡ 2 }
        requires exact { first.1 < u64.MAX }
        ensures found { IfOk result
            (λ n. HasNumbers self.now (first ∷ []) × (n ≡ word_value self.now 1)) }
        ensures err { IfErr result (λ why. numbers_fault self.now (first ∷ []) ≡ Some why) }
    {
        let n = self.number(1)?;
        within(n, first.0, first.1)
    }

    /// The numbers of a line of three words.
    pub fn two_numbers(&self, first: (u64, u64), second: (u64, u64)) -> Result<(u64, u64), Fault>
        requires three { length self.now ≡ 3 }
        requires exact { (first.1 < u64.MAX) × (second.1 < u64.MAX) }
        ensures found { IfOk result
            (λ n. HasNumbers self.now (first ∷ second ∷ []) × (n.0 ≡ word_value self.now 1)
            × (n.1 ≡ word_value self.now 2)) }
        ensures err { IfErr result
            (λ why. numbers_fault self.now (first ∷ second ∷ []) ≡ Some why) }
    {
        let (a, b) = self.both_numbers(1, 2)?;
        both_within(a, first, b, second)?;
        Ok((a, b))
    }

    /// The numbers of a line of four words.
    pub fn three_numbers(
        &self,
        first: (u64, u64),
        second: (u64, u64),
        third: (u64, u64),
    ) -> Result<(u64, u64, u64), Fault>
        requires four { length self.now ≡ 4 }
        requires exact { (first.1 < u64.MAX) × (second.1 < u64.MAX) × (third.1 < u64.MAX) }
        ensures found { IfOk result (λ n. HasNumbers self.now (first ∷ second ∷ third ∷ [])
            × (n.0 ≡ word_value self.now 1) × (n.1 ≡ word_value self.now 2)
            × (n.2 ≡ word_value self.now 3)) }
        ensures err { IfErr result
            (λ why. numbers_fault self.now (first ∷ second ∷ third ∷ []) ≡ Some why) }
    {
        let (a, b) = self.both_numbers(1, 2)?;
        let c = self.number(3)?;
        both_within(a, first, b, second)?;
        Ok((a, b, within(c, third.0, third.1)?))
    }

    /// The numbers of a line of five words.
    pub fn four_numbers(
        &self,
        first: (u64, u64),
        second: (u64, u64),
        third: (u64, u64),
        fourth: (u64, u64),
    ) -> Result<(u64, u64, u64, u64), Fault>
        requires five { length self.now ≡ 5 }
        requires exact { (first.1 < u64.MAX) × (second.1 < u64.MAX) × (third.1 < u64.MAX)
            × (fourth.1 < u64.MAX) }
        ensures found { IfOk result (λ n. HasNumbers self.now (first ∷ second ∷ third ∷ fourth ∷ [])
            × (n.0 ≡ word_value self.now 1) × (n.1 ≡ word_value self.now 2)
            × (n.2 ≡ word_value self.now 3) × (n.3 ≡ word_value self.now 4)) }
        ensures err { IfErr result
            (λ why. numbers_fault self.now (first ∷ second ∷ third ∷ fourth ∷ []) ≡ Some why) }
    {
        let (a, b) = self.both_numbers(1, 2)?;
        let (c, d) = self.both_numbers(3, 4)?;
        both_within(a, first, b, second)?;
        both_within(c, third, d, fourth)?;
        Ok((a, b, c, d))
    }
}
