//! What a text gives: opening books, and callers with their scripts.

ghost use Rattle.std.specs.Prelude.{◌≡◌, ◌≢◌, ℕ, ◌<◌, length, IfSome, IfNone};
ghost use Rattle.script_reader.specs.Gathered.{caller_at, script_at};

use crate::language::gathered::Gathered;
use books_model::{Books, Script};
use std::marker::Model;

/// Opening books, and callers in the order in which they were first seen, each with its scripts in their order.
#[derive(Drop)]
pub struct Input {
    books: Books,
    callers: Gathered<Script>,
}

impl Model for Input {
    ghost use Rattle.script_reader.specs.Input.{ClearingInput, IsInput};
    ghost use Rattle.script_reader.specs.Inner.Codes.{input_code};

    ghost Value = { ClearingInput };

    ghost coded = { input_code };

    ghost view = { λ i. record { books = i.books; callers = i.callers } };

    ghost invariant = { λ i. IsInput (record { books = i.books; callers = i.callers }) };
}

impl Input {
    ghost use Rattle.script_reader.specs.Input.{IsInput, count_scripts};

    // The input of books and of callers that were gathered.
    pub(crate) fn new(books: Books, callers: Gathered<Script>) -> Input
        requires { IsInput (record { books = books; callers = callers }) }
        ensures { result ≡ record { books = books; callers = callers } }
    {
        Input { books, callers }
    }

    /// The opening books.
    pub fn books(&self) -> &Books
        ensures { result.now ≡ self.now.books }
    {
        &self.books
    }

    /// How many callers there are.
    pub fn callers(&self) -> u32
        ensures value { result ≡ length self.now.callers }
        // What holds of all inputs.
        ensures valid { IsInput self.now }
    {
        self.callers.callers()
    }

    /// The name of a caller, by its number from 0.
    pub fn name(&self, caller: u32) -> &str
        requires { caller < length self.now.callers }
        ensures { result.now ≡ (caller_at self.now.callers caller).name }
    {
        self.callers.name(caller)
    }

    /// The number of the caller with a name, from 0.
    pub fn caller_named(&self, name: &str) -> Option<u32>
        ensures found { IfSome result (λ caller. (caller < length self.now.callers)
            × ((caller_at self.now.callers caller).name ≡ name.now)) }
        ensures none { IfNone result ((caller : ℕ) → caller < length self.now.callers
            → (caller_at self.now.callers caller).name ≢ name.now) }
    {
        self.callers.caller_named(name)
    }

    /// How many scripts a caller has, by its number from 0.
    pub fn scripts_of(&self, caller: u32) -> u32
        requires { caller < length self.now.callers }
        ensures { result ≡ length (caller_at self.now.callers caller).scripts }
    {
        self.callers.scripts_of(caller)
    }

    /// A script of a caller, both by their numbers from 0.
    pub fn script(&self, caller: u32, index: u32) -> &Script
        requires caller { caller < length self.now.callers }
        requires index { index < length (caller_at self.now.callers caller).scripts }
        ensures { result.now ≡ script_at self.now.callers caller index }
    {
        self.callers.script(caller, index)
    }

    /// How many scripts there are of all callers.
    pub fn scripts(&self) -> u32
        ensures { result ≡ count_scripts self.now.callers }
    {
        self.callers.scripts()
    }
}
