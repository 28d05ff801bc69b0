//! Calls of callers, with what each used.

ghost use Rattle.std.specs.Prelude.{◌≡◌};
ghost use Rattle.history_model.specs.declared.placed.Spot.{Spot};

use crate::item::LockUse;
use std::collections::LinkedList;

/// A call's place among those of all callers, and what it used of locks. No value of it is made while a program runs.
pub struct Spot {
    /// Whose call it is, from 0.
    pub caller: u32,
    /// The how-manieth of that caller, from 0.
    pub index: u32,
    /// The locks that it used, each at the version that it found.
    pub uses: LinkedList<LockUse>,
}

/// What has such a place.
pub trait Placed {
    ghost spot: { Self → Spot };

    /// The number of the caller, from 0.
    fn caller(&self) -> u32
        ensures { result ≡ (spot self.now).caller };

    /// The number of the call among those of its caller, from 0.
    fn index(&self) -> u32
        ensures { result ≡ (spot self.now).index };

    /// The locks that it used.
    fn uses(&self) -> &[LockUse]
        ensures { result.now ≡ (spot self.now).uses };
}
