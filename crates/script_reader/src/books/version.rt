//! The versions of texts.

ghost use Rattle.std.specs.Prelude.{◌≡◌, ◌<◌, ◌≤◌, true};
ghost use Rattle.std.specs.Option.{SomeIff};
ghost use Rattle.script_reader.specs.Versions.{greatest_amount, greatest_cash, is_version, most_blocks, version_of};

use crate::limits::{GREATEST_AMOUNT_OF_ONE, GREATEST_CASH_OF_ONE, MOST_BLOCKS_OF_ONE};
use books_model::limits::{GREATEST_AMOUNT, GREATEST_CASH, MOST_BLOCKS};

/// The version of a text. It decides the ranges of the text alone, and is no part of the input that the text gives.
#[derive(Clone, Copy, Debug, PartialEq, Eq)]
pub enum Version {
    /// Texts that begin with `books 1`, with narrower ranges than those of the language.
    One,
    /// Texts that begin with `books 2`, with the ranges of the language. What is printed is of this version.
    Two,
}

impl Version {
    // The version that a word names.
    pub(crate) fn named(word: &[u8]) -> Option<Version>
        ensures { SomeIff result (is_version word.now ≡ true) (version_of word.now) }
    {
        if word == b"1".as_slice() {
            return Some(Version::One);
        }
        if word == b"2".as_slice() {
            return Some(Version::Two);
        }
        None
    }

    // The least and the most blocks of a header.
    pub(crate) fn blocks(self) -> (u64, u64)
        ensures range { result ≡ (1, most_blocks self) }
        ensures small { result.1 ≤ MOST_BLOCKS }
    {
        match self {
            Version::One => (1, MOST_BLOCKS_OF_ONE as u64),
            Version::Two => (1, MOST_BLOCKS as u64),
        }
    }

    // The least and the most cash of an account's line.
    pub(crate) fn cash(self) -> (u64, u64)
        ensures range { result ≡ (0, greatest_cash self) }
        ensures small { result.1 < u64.MAX }
    {
        match self {
            Version::One => (0, GREATEST_CASH_OF_ONE),
            Version::Two => (0, GREATEST_CASH),
        }
    }

    // The least and the greatest amount of an operation.
    pub(crate) fn amounts(self) -> (u64, u64)
        ensures range { result ≡ (1, greatest_amount self) }
        ensures small { result.1 < u64.MAX }
    {
        match self {
            Version::One => (1, GREATEST_AMOUNT_OF_ONE),
            Version::Two => (1, GREATEST_AMOUNT),
        }
    }
}
