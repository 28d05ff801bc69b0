//! One caller's seat, with its own copy of what it knows of locks.
//!
//! The copies have a fixed size, which `Desk::new` makes. The rest of what a pass knows is its view, which exists in
//! contracts alone. What a pass tells stands here; its steps stand in modules of their own, by what they are on: locks,
//! versions, values, the clock, and notes.

ghost use Rattle.std.specs.Prelude.{◌≡◌, ◌↔◌, ◌⊎◌, ◌<◌, ◌≤◌, ◌+◌, ◌/◌, true, IsTrue, IfSome, IsNone, length, [], ◌∷◌, replicate, ℕ};
ghost use Rattle.history_model.specs.Legal.{IsIn};
ghost use Rattle.history_model.specs.Sets.{has};
ghost use Rattle.history_model.specs.Table.{table_words};
ghost use Rattle.history_model.specs.Views.{number, HasBit, HasReadGrant, HasClaim, HasWriteGrant, IsGranted};
ghost use Rattle.locks_rule.specs.Splits.{opening_view};
ghost use Rattle.locks_rule.specs.Versions.{locks_of};
ghost use Rattle.word_table.specs.Copies.{HoldsNothing};
ghost use Rattle.word_table.specs.Least.{IsLeast};
ghost use Rattle.word_table.specs.Unscanned.{IsUnscanned};
ghost use Rattle.word_table.specs.Versions.{HasUseOf};

mod clock;
mod locks;
mod notes;
mod uses;
mod values;
mod versions;

use crate::bits;
use crate::copies::{CallCopy, LockCopy, VersionCopy};
use crate::layout::place_of_values;
use crate::limits::{LAST_CALL, MOST_PASSES, MOST_WORDS};
use crate::step::TableSeat;
use history_model::{LOCKS, LockUse, Phase, Shape};
use std::marker::{Model, PhantomData};

/// One caller's seat at a desk. A thread steps with its own pass, which no other thread has.
#[derive(Drop)]
pub struct Pass<S> {
    seat: TableSeat,
    call: CallCopy,
    locks: LockCopy,
    shape: PhantomData<S>,
}

impl<S> Model for Pass<S> {
    ghost use Rattle.word_table.specs.Copies.{PassView, IsCopy};

    ghost Value = { PassView };

    ghost view = { λ p. record {
      table = p.seat.table_id;
      view = p.seat.me.0;
      steps = p.seat.steps;
    } };

    ghost invariant = { λ p. IsCopy p.call p.locks p.seat.table_id p.seat.me };
}

impl<S: Shape> Pass<S> {
    // A pass that has done nothing.
    pub(crate) fn of(
        seat: TableSeat,
        seats: u32,
        who: u32,
        scans: Vec<u64>,
        found: Vec<u64>,
    ) -> Pass<S>
        requires seat { seat.me ≡ (opening_view seat.me.0.base seats (who ∷ []) [], []) }
        requires counts { (who < seats) × (seats ≤ MOST_PASSES)
            × (length seat.me.0.base ≤ MOST_WORDS) }
        requires table { seat.table_id.words ≡ table_words seats (length seat.me.0.base) }
        requires scans { scans.items ≡ replicate LOCKS 0 }
        requires found { found.items ≡ replicate LOCKS 0 }
        ensures table { result.table ≡ seat.table_id }
        ensures view { result.view ≡ opening_view seat.me.0.base seats (who ∷ []) [] }
        ensures steps { result.steps ≡ seat.steps }
    {
        let call = CallCopy {
            seats,
            who,
            others: bits::all_but(seats, who),
            row: 2 + 2 * seats + 16 * who,
            writers: 2 + 18 * seats,
            versions: 2 + 19 * seats + LOCKS as u32,
            values: place_of_values(seats) as u32,
            calls: 0,
            phase: Phase::Idle,
            stamp: 0,
            announced: false,
        };
        let locks = LockCopy {
            bits: [0; 16],
            reads: [0; 16],
            claims: [0; 16],
            scans,
            versions: VersionCopy {
                used: [0; 16],
                written: [0; 16],
                found,
            },
        };
        Pass {
            seat,
            call,
            locks,
            shape: PhantomData,
        }
    }

    // The seat alone.
    pub(crate) fn into_seat(self) -> TableSeat
        ensures table { result.table_id ≡ self.table }
        ensures seat { result.me ≡ (self.view, []) }
        ensures named { has (number self.view) self.view.who ≡ true }
    {
        self.seat
    }

    /// The seat's number, from 0.
    pub fn who(&self) -> u32
        ensures number { result ≡ number self.now.view }
        ensures one { self.now.view.who ≡ result ∷ [] }
        ensures seat { result < self.now.view.seats }
    {
        self.call.who
    }

    /// Where the pass is in its calls.
    pub fn phase(&self) -> Phase
        ensures { result ≡ self.now.view.phase }
    {
        self.call.phase
    }

    /// Between calls no lock is held, and none is asked for. The call does nothing: its contract says it.
    pub fn rests(&self)
        ensures { self.now.view.phase ≡ Phase.Idle → HoldsNothing self.now.view }
    {
        let _seat = &self.seat;
    }

    /// The call's timestamp, 0 if none was drawn. A smaller one is earlier.
    pub fn stamp(&self) -> u64
        ensures { result ≡ self.now.view.stamp }
    {
        self.call.stamp
    }

    /// Whether the timestamp stands in the table, where others see it.
    pub fn announced(&self) -> bool
        ensures { result ≡ self.now.view.announced }
    {
        self.call.announced
    }

    /// How many calls the pass may still begin.
    pub fn calls_left(&self) -> u32
        ensures { result + self.now.view.call ≡ LAST_CALL }
    {
        LAST_CALL - self.call.calls
    }

    pub(crate) fn has_bit(&self, k: u32) -> bool
        requires { k < LOCKS }
        ensures { result ≡ has k self.now.view.bits }
    {
        bits::test(&self.locks.bits, k)
    }

    pub(crate) fn has_claim(&self, k: u32) -> bool
        requires { k < LOCKS }
        ensures { result ≡ has k self.now.view.claims }
    {
        bits::test(&self.locks.claims, k)
    }

    /// Whether the lock is held for reading. A lock that is held for writing need not be.
    pub fn has_read(&self, k: u32) -> bool
        requires { k < LOCKS }
        ensures { IsTrue result ↔ HasReadGrant self.now.view k }
    {
        bits::test(&self.locks.reads, k)
    }

    /// Whether the attempt has a use of the lock: it has found the version. While the attempt runs, it holds each such
    /// lock.
    #[inline(always)]
    pub fn has_use(&self, k: u32) -> bool
        requires { k < LOCKS }
        ensures used { IsTrue result ↔ HasUseOf self.now.view k }
        ensures granted { IsTrue result → self.now.view.phase ≡ Phase.Running
            → IsGranted self.now.view k }
    {
        bits::test(&self.locks.versions.used, k)
    }

    /// The least other seat that was not yet found clear for the own claim on the lock. Without a claim there is none.
    pub fn unscanned(&self, k: u32) -> Option<u32>
        requires { k < LOCKS }
        ensures least { IsLeast (IsUnscanned self.now.view k) result }
        ensures all_scanned { IsNone result → HasClaim self.now.view k
            → HasWriteGrant self.now.view k }
    {
        if !self.has_claim(k) {
            return None;
        }
        let left = bits::left_to_scan(self.call.others, &self.locks.scans, k);
        bits::least_seat(left)
    }

    /// Whether the lock is held for writing: the own claim stands, and every other seat was found clear for it.
    pub fn has_write(&self, k: u32) -> bool
        requires { k < LOCKS }
        ensures { IsTrue result ↔ HasWriteGrant self.now.view k }
    {
        if !self.has_claim(k) {
            return false;
        }
        self.unscanned(k).is_none()
    }

    /// Whether the lock is held at all, to read or to write.
    pub fn is_granted(&self, k: u32) -> bool
        requires { k < LOCKS }
        ensures { IsTrue result ↔ IsGranted self.now.view k }
    {
        if self.has_read(k) {
            return true;
        }
        self.has_write(k)
    }

    /// What the attempt used of the lock: the version that it found there, and whether it has written a word of it. There
    /// is none if the attempt did nothing to a word of the lock. It takes no memory.
    pub fn use_of(&self, k: u32) -> Option<LockUse>
        requires { (self.now.view.phase ≡ Phase.Running)
            ⊎ ((self.now.view.phase ≡ Phase.Withdrawing) × (self.now.view.undo ≡ [])) }
        ensures none { IsNone result ↔ ¬ HasUseOf self.now.view k }
        ensures found { IfSome result
            (λ used. (used.lock ≡ k) × IsIn (k, used.version) self.now.view.uses) }
        ensures once { IfSome result
            (λ used. (x : ℕ) → IsIn (k, x) self.now.view.uses → x ≡ used.version) }
        ensures wrote { IfSome result (λ used. used.wrote ≡ has k (locks_of self.now.view.undo)) }
    {
        if u64::from(k) >= LOCKS || !bits::test(&self.locks.versions.used, k) {
            return None;
        }
        Some(self.locks.versions.use_at(k))
    }

    /// The least lock that the pass claims.
    pub fn next_claim(&self) -> Option<u32>
        ensures least { IsLeast (HasClaim self.now.view) result }
        ensures lock { IfSome result (λ k. k < LOCKS) }
    {
        bits::least_from(&self.locks.claims, 0)
    }

    /// The least lock from `from` on that the pass claims. So who gives up all claims goes on from the last one.
    pub fn next_claim_from(&self, from: u32) -> Option<u32>
        requires { from < LOCKS }
        ensures least { IsLeast (λ k. (from ≤ k) × HasClaim self.now.view k) result }
        ensures lock { IfSome result (λ k. k < LOCKS) }
    {
        bits::least_from(&self.locks.claims, from)
    }

    /// The least lock whose read bit the pass has set.
    pub fn next_bit(&self) -> Option<u32>
        ensures least { IsLeast (HasBit self.now.view) result }
        ensures lock { IfSome result (λ k. k < LOCKS) }
    {
        bits::least_from(&self.locks.bits, 0)
    }

    // The least lock of the word i of the own row whose read bit the pass has set.
    #[inline(always)]
    pub(crate) fn bit_in(&self, i: u32) -> Option<u32>
        requires { i < 16 }
        ensures least { IsLeast (λ k. (k / 64 ≡ i) × HasBit self.now.view k) result }
        ensures lock { IfSome result (λ k. k < LOCKS) }
    {
        bits::least_in(&self.locks.bits, i)
    }
}
