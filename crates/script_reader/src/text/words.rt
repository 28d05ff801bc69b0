//! The words of a line.

ghost use Rattle.std.specs.Prelude.{◌≡◌, ℕ, ◌-◌, ◌<◌, ◌≤◌, ◌++◌, ◌==◌, ◌&&◌, ◌||◌, true, false, slice_set, min, length, take, drop, count_by, IfSome, IfNone, IfOk, IfErr};
ghost use Rattle.std.specs.List.{slice_split};
ghost use Rattle.std.specs.Str.{bytes_eq};
ghost use Rattle.script_reader.specs.Lines.{AreWords, IsFreeOf, word_at};
ghost use Rattle.script_reader.specs.Number.{is_number};
ghost use Rattle.script_reader.specs.Text.{line as text_of};
ghost use Rattle.script_reader.specs.declared.text.words.TheConstants.{SPACE, LINE_FEED, MOST_WORDS};
ghost use Rattle.script_reader.specs.Inner.Cuts.{IsCut};
ghost use Rattle.script_reader.specs.Forms.{begins, is_only, word_value};

use crate::fault::Fault;
use crate::text::numbers::numeral;
use std::marker::Model;

/// What separates two words.
pub const SPACE: u8 = b' ';

/// What ends a line.
pub const LINE_FEED: u8 = b'\n';

/// The most words of a line that may stand in a text.
pub const MOST_WORDS: usize = 8;

/// The words of a line, with where the first of them end. An empty word is a word.
#[derive(Drop)]
pub struct Words<'a> {
    line: &'a [u8],
    spaces: usize,
    ends: [usize; MOST_WORDS],
}

impl<'a> Model for Words<'a> {
    ghost use Rattle.std.specs.Prelude.{ℕ, List, ◌==◌};
    ghost use Rattle.std.specs.List.{slice_split};
    ghost use Rattle.script_reader.specs.declared.text.words.TheConstants.{SPACE};
    ghost use Rattle.script_reader.specs.Inner.Cuts.{IsCut};

    ghost Value = { List (List ℕ) };

    ghost view = { λ w. slice_split (λ b. b == SPACE) w.line.now };

    ghost invariant = { λ w. IsCut w.line.now w.spaces w.ends };
}

impl<'a> Words<'a> {
    // The words of a line without its line feed, with where they end.
    pub(crate) fn new(line: &'a [u8], spaces: usize, ends: [usize; MOST_WORDS]) -> Words<'a>
        requires { IsCut line.now spaces ends }
        ensures { result ≡ slice_split (λ b. b == SPACE) line.now }
    {
        Words { line, spaces, ends }
    }

    /// How many words there are: at least one.
    pub fn len(&self) -> usize
        ensures { result ≡ length self.now }
    {
        self.spaces + 1
    }

    /// The word at a place, from 0.
    pub fn at(&self, index: usize) -> &'a [u8]
        requires there { index < length self.now }
        requires early { index < MOST_WORDS }
        ensures { result.now ≡ word_at self.now index }
    {
        if index == 0 {
            return between(self.line, 0, self.ends[0]);
        }
        between(self.line, self.ends[index - 1] + 1, self.ends[index])
    }

    /// Whether the word at a place is the given one.
    pub fn is(&self, index: usize, word: &[u8]) -> bool
        requires there { index < length self.now }
        requires early { index < MOST_WORDS }
        ensures { result ≡ bytes_eq (word_at self.now index) word.now }
    {
        self.at(index) == word
    }

    /// Whether the line has the given first word, and so many words.
    pub fn is_row(&self, keyword: &[u8], len: usize) -> bool
        requires { 0 < len }
        ensures { result ≡ (begins keyword.now self.now && length self.now == len) }
    {
        self.len() == len && self.is(0, keyword)
    }

    /// Whether the line is one word, the given one.
    pub fn is_only(&self, word: &[u8]) -> bool
        ensures { result ≡ is_only word.now self.now }
    {
        self.is_row(word, 1)
    }

    /// The number that the word at a place is, or the greatest `u64` if it is greater.
    pub fn number(&self, index: usize) -> Result<u64, Fault>
        requires there { index < length self.now }
        requires early { index < MOST_WORDS }
        ensures found { IfOk result
            (λ n. (is_number (word_at self.now index) ≡ true)
            × (n ≡ min (word_value self.now index) u64.MAX)) }
        ensures err { IfErr result
            (λ why. (why ≡ Fault.Number) × (is_number (word_at self.now index) ≡ false)) }
    {
        numeral(self.at(index)).ok_or(Fault::Number)
    }
}

// The words of the first line of a text, and the text behind it.
pub(crate) fn first_line(text: &[u8]) -> Option<(Words<'_>, &[u8])>
    ensures found { IfSome result (λ found. AreWords found.0
        × (text.now ≡ text_of found.0 ++ found.1.now)) }
    ensures none { IfNone result (IsFreeOf LINE_FEED text.now) }
{
    let mut spaces = 0;
    let mut ends = [0; MOST_WORDS];
    for i in 0..text.len() {
        // Most bytes are above both.
        if text[i] > SPACE || !ends_word(text[i]) {
            continue;
        }
        keep(&mut ends, spaces, i);
        if text[i] == LINE_FEED {
            return Some((Words::new(&text[..i], spaces, ends), &text[i + 1..]));
        }
        spaces += 1;
    }
    None
}

// Whether a byte stands behind a word.
fn ends_word(byte: u8) -> bool
    ensures { result ≡ (byte == SPACE || byte == LINE_FEED) }
{
    byte == SPACE || byte == LINE_FEED
}

// Keeps where a word ends, if it is one of the first.
fn keep(ends: &mut [usize; MOST_WORDS], place: usize, end: usize)
    ensures kept { place < MOST_WORDS → ends.new ≡ slice_set ends.old place end }
    ensures late { MOST_WORDS ≤ place → ends.new ≡ ends.old }
{
    if place < MOST_WORDS {
        ends[place] = end;
    }
}

// The bytes from one place up to another.
fn between(bytes: &[u8], start: usize, end: usize) -> &[u8]
    requires rises { start ≤ end }
    requires within { end ≤ length bytes.now }
    ensures { result.now ≡ take (end - start) (drop start bytes.now) }
{
    &bytes[start..end]
}

// How often a byte occurs in others.
pub(crate) fn occurrences(bytes: &[u8], byte: u8) -> usize
    ensures { result ≡ count_by (λ b. b == byte) bytes.now }
{
    bytes.iter().filter(|b| **b == byte).count()
}
