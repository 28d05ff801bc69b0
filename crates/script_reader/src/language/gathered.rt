//! Callers with scripts of any type, in the order in which they were first seen, each with its scripts in their order.

ghost use Rattle.std.specs.Prelude.{◌≡◌, ◌≢◌, ℕ, ◌<◌, Some, IfSome, IfNone, length, slice_get};

use crate::language::gathering::Gathering;
use std::marker::Model;

/// Callers by their numbers from 0, and the scripts of each by theirs.
#[derive(Drop)]
pub struct Gathered<S> {
    gathering: Gathering<S>,
}

impl<S> Model for Gathered<S> {
    ghost use Rattle.std.specs.Prelude.{List};
    ghost use Rattle.script_reader.specs.Gathered.{CallerOf};
    ghost use Rattle.script_reader.specs.Inner.Gatherings.{callers_in, IsWhole};

    ghost Value = { List (CallerOf S) };

    ghost view = { λ g. callers_in g.gathering };

    ghost invariant = { λ g. IsWhole g.gathering };
}

impl<S: Drop> Gathered<S> {
    ghost use Rattle.script_reader.specs.Gathered.{caller_at, count_scripts};
    ghost use Rattle.script_reader.specs.Inner.Gatherings.{callers_in, IsWhole};

    // The callers that were gathered.
    pub(crate) fn new(gathering: Gathering<S>) -> Gathered<S>
        requires { IsWhole gathering }
        ensures { result ≡ callers_in gathering }
    {
        Gathered { gathering }
    }

    /// How many callers there are.
    pub fn callers(&self) -> u32
        ensures { result ≡ length self.now }
    {
        self.gathering.names.len() as u32
    }

    /// The name of a caller, by its number from 0.
    pub fn name(&self, caller: u32) -> &str
        requires { caller < length self.now }
        ensures { result.now ≡ (caller_at self.now caller).name }
    {
        self.gathering.names[caller as usize].as_str()
    }

    /// The number of the caller with a name, from 0.
    pub fn caller_named(&self, name: &str) -> Option<u32>
        ensures found { IfSome result (λ caller. (caller < length self.now)
            × ((caller_at self.now caller).name ≡ name.now)) }
        ensures none { IfNone result ((caller : ℕ) → caller < length self.now
            → (caller_at self.now caller).name ≢ name.now) }
    {
        match self.gathering.names.get_index_of(name) {
            Some(place) => Some(place as u32),
            None => None,
        }
    }

    /// How many scripts a caller has, by its number from 0.
    pub fn scripts_of(&self, caller: u32) -> u32
        requires { caller < length self.now }
        ensures { result ≡ length (caller_at self.now caller).scripts }
    {
        self.gathering.scripts[caller as usize].len() as u32
    }

    /// A script of a caller, both by their numbers from 0.
    pub fn script(&self, caller: u32, index: u32) -> &S
        requires there { caller < length self.now }
        requires index { index < length (caller_at self.now caller).scripts }
        ensures { slice_get (caller_at self.now caller).scripts index ≡ Some result.now }
    {
        &self.gathering.scripts[caller as usize][index as usize]
    }

    /// How many scripts there are of all callers.
    pub fn scripts(&self) -> u32
        ensures { result ≡ count_scripts self.now }
    {
        self.gathering.count as u32
    }
}
