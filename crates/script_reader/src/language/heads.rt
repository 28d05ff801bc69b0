//! The sizes of a header.

ghost use Rattle.std.specs.Prelude.{◌≡◌, ℕ, ◌<◌, ◌&&◌, ◌==◌, [], ◌∷◌, IsTrue, Some, IfOk, IfErr, codes, length};
ghost use Rattle.script_reader.specs.ListLanguage.{AreNumbersIn, head_fault_with, head_with, size};
ghost use Rattle.script_reader.specs.Inner.Heads.{has_one_size, has_two_sizes};

use crate::fault::Fault;
use crate::text::numbers::{both_within, within};
use crate::text::words::Words;

impl<'a> Words<'a> {
    /// The size in a header of a title, the word `1`, and one size behind its name.
    pub fn one_size(&self, title: &[u8], name: &[u8], range: (u64, u64)) -> Result<u64, Fault>
        requires exact { range.1 < u64.MAX }
        ensures found { IfOk result (λ n. AreNumbersIn (range ∷ []) (n ∷ [])
            × (self.now ≡ head_with title.now (size name.now range ∷ []) (n ∷ []))) }
        ensures err { IfErr result
            (λ why. head_fault_with title.now (size name.now range ∷ []) self.now ≡ Some why) }
    {
        if !self.has_one_size(title, name) {
            return Err(Fault::Header);
        }
        let number = self.number(3)?;
        let size = within(number, range.0, range.1)?;
        Ok(size)
    }

    /// The sizes in a header of a title, the word `1`, and two sizes, each behind its name.
    pub fn two_sizes(
        &self,
        title: &[u8],
        name: &[u8],
        range: (u64, u64),
        other: &[u8],
        other_range: (u64, u64),
    ) -> Result<(u64, u64), Fault>
        requires exact { (range.1 < u64.MAX) × (other_range.1 < u64.MAX) }
        ensures found { IfOk result
            (λ n. AreNumbersIn (range ∷ other_range ∷ []) (n.0 ∷ n.1 ∷ [])
            × (self.now ≡ head_with title.now
            (size name.now range ∷ size other.now other_range ∷ []) (n.0 ∷ n.1 ∷ []))) }
        ensures err { IfErr result
            (λ why. head_fault_with title.now
            (size name.now range ∷ size other.now other_range ∷ []) self.now ≡ Some why) }
    {
        if !self.has_two_sizes(title, name, other) {
            return Err(Fault::Header);
        }
        let (a, b) = self.both_numbers(3, 5)?;
        both_within(a, range, b, other_range)?;
        Ok((a, b))
    }

    // Whether the line has the words of a header around one size.
    fn has_one_size(&self, title: &[u8], name: &[u8]) -> bool
        ensures length { IsTrue result → length self.now ≡ 4 }
        ensures value { result ≡ has_one_size title.now name.now self.now }
    {
        self.len() == 4 && self.is(0, title) && self.is(1, b"1") && self.is(2, name)
    }

    // Whether the line has the words of a header around two sizes.
    fn has_two_sizes(&self, title: &[u8], name: &[u8], other: &[u8]) -> bool
        ensures length { IsTrue result → length self.now ≡ 6 }
        ensures value { result ≡ has_two_sizes title.now name.now other.now self.now }
    {
        self.len() == 6
            && self.is(0, title)
            && self.is(1, b"1")
            && self.is(2, name)
            && self.is(4, other)
    }
}
