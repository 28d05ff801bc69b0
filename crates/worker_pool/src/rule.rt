//! The rule of a deque, which holds between any two steps (`IsDealt` of `specs/Inner/Deals`), and what each kind of step
//! does to what a thread knows (`specs/Deques`).

use crossbeam_deque::protocol::{Join, Outcome, Protocol, Split};
use std::alloc::Global;
use std::collections::LinkedList;

/// All parts of a deque: more than there may be workers, since each gets one and the owner keeps one at least.
pub const ALL_PARTS: u64 = 64;

/// What is known of a deque by its owner, or by a pass at it. No value of it is made.
pub struct Deal {
    /// Its parts of the whole, which are `ALL_PARTS` together.
    pub parts: u64,
    /// The callers that it dealt to the deque.
    pub dealt: LinkedList<u32>,
    /// The callers that it took from the deque.
    pub taken: LinkedList<u32>,
}

/// The rule of a deque. Its owner begins with all parts.
pub(crate) struct DealRule;

impl Protocol<u32, Deal> for DealRule {
    ghost use Rattle.std.specs.Prelude.{[]};
    ghost use Rattle.worker_pool.specs.declared.rule.TheConstants.{ALL_PARTS};
    ghost use Rattle.worker_pool.specs.Inner.Deals.{IsDealt};
    ghost use Rattle.worker_pool.specs.Deques.{deal};

    ghost holds = { IsDealt };

    ghost first = { deal ALL_PARTS [] [] };

    ghost guest = { deal 0 [] [] };
}

/// Callers are dealt to the deque.
pub(crate) struct Put;

impl Outcome<u32, Deal> for Put {
    ghost use Rattle.std.specs.Prelude.{◌≡◌};
    ghost use Rattle.worker_pool.specs.Deques.{has_dealt};

    ghost then = { λ v xs w. w ≡ has_dealt v xs };
}

/// Callers are taken. Who has all parts and finds none left knows that all that was dealt was taken.
pub(crate) struct Took;

impl Outcome<u32, Deal> for Took {
    ghost use Rattle.std.specs.Prelude.{◌≡◌};
    ghost use Rattle.worker_pool.specs.declared.rule.TheConstants.{ALL_PARTS};
    ghost use Rattle.worker_pool.specs.Deques.{has_taken};
    ghost use Rattle.worker_pool.specs.Inner.Deals.{IsAllTaken};

    ghost then = { λ v xs w. w ≡ has_taken v xs };

    ghost empty = { λ v. v.parts ≡ ALL_PARTS → IsAllTaken v };
}

/// A pass gets one part.
pub(crate) struct Cut;

impl Split<Deal> for Cut {
    ghost use Rattle.std.specs.Prelude.{[]};
    ghost use Rattle.worker_pool.specs.Deques.{deal, with_part_less};

    ghost left = { λ v. with_part_less v };

    ghost right = { λ v. deal 1 [] [] };
}

/// The parts and lists of two are put together.
pub(crate) struct Both;

impl Join<Deal> for Both {
    ghost use Rattle.std.specs.Prelude.{[]};
    ghost use Rattle.worker_pool.specs.Deques.{deal, joined};

    ghost both = { λ v w. joined v w };

    ghost spent = { deal 0 [] [] };
}

/// A deque's owner: it deals callers to the deque, and takes them from it.
pub(crate) type Owner = crossbeam_deque::Worker<u32, Global, Deal, DealRule>;

/// What threads share of a deque.
pub(crate) type Stealer = crossbeam_deque::Stealer<u32, Global, Deal, DealRule>;

/// What a thread needs beside to take callers from another's deque.
pub(crate) type DequePass = crossbeam_deque::Pass<u32, Deal>;
