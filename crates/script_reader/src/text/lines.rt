//! The lines of a text, one after another.

ghost use Rattle.std.specs.Prelude.{◌≡◌, ◌++◌, IfErr, IfOk, length};
ghost use Rattle.script_reader.specs.Lines.{IsFreeOf, AreWords};
ghost use Rattle.script_reader.specs.Text.{line as text_of};
ghost use Rattle.script_reader.specs.declared.text.words.TheConstants.{LINE_FEED};

use crate::fault::Fault;
use crate::text::words::{Words, first_line};
use std::marker::Model;

/// What is left of a text. Contracts see it.
#[derive(Drop)]
pub struct Lines<'a> {
    left: &'a [u8],
}

impl<'a> Model for Lines<'a> {
    ghost use Rattle.std.specs.Prelude.{ℕ, List};

    ghost Value = { List ℕ };

    ghost view = { λ l. l.left.now };
}

impl<'a> Lines<'a> {
    /// All lines of a text.
    pub fn new(text: &'a [u8]) -> Lines<'a>
        ensures { result ≡ text.now }
    {
        Lines { left: text }
    }

    /// How many bytes are left.
    pub fn len(&self) -> usize
        ensures { result ≡ length self.now }
    {
        self.left.len()
    }

    /// What is left.
    pub fn rest(&self) -> &'a [u8]
        ensures { result.now ≡ self.now }
    {
        self.left
    }

    /// The words of the next line. If no whole line is left, nothing changes.
    pub fn words(&mut self) -> Result<Words<'a>, Fault>
        ensures found { IfOk result
            (λ words. AreWords words × (self.old ≡ text_of words ++ self.new)) }
        ensures end { IfErr result
            (λ why. (why ≡ Fault.End) × IsFreeOf LINE_FEED self.old × (self.new ≡ self.old)) }
    {
        match first_line(self.left) {
            Some((words, after)) => {
                self.left = after;
                Ok(words)
            }
            None => Err(Fault::End),
        }
    }
}
