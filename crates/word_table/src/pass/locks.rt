//! The steps of a pass on locks: a read bit is set or cleared, a writer word is claimed, looked at or given up, and a row
//! is scanned.

ghost use Rattle.std.specs.Prelude.{◌≡◌, ◌≢◌, ◌⊎◌, ◌<◌, ◌≤◌, ◌+◌, ◌*◌, ℕ, [], ◌∷◌, false, length};
ghost use Rattle.history_model.specs.Locks.{lock_of_word};
ghost use Rattle.history_model.specs.Sets.{flag, has};
ghost use Rattle.history_model.specs.Views.{number, HasBit, HasClaim, IsGranted};
ghost use Rattle.locks_rule.specs.Steps.{released_phase, set_read_bit_action, clear_read_bit_action, load_writer_action, claim_writer_action, scan_row_action, release_writer_action};
ghost use Rattle.word_table.specs.Calls.{Looked, MakesSeen, ScannedBy, with_bit};
ghost use Rattle.word_table.specs.Kinds.{TakenIn};
ghost use Rattle.word_table.specs.Inner.Unsharing.{ClearsMore};
ghost use Rattle.word_table.specs.Sound.{GroundHolds};
ghost use Rattle.word_table.specs.Unsharing.{ClearsEach, rising};

use super::Pass;
use crate::answer::{Scanned, Shared, is_unclaimed, scanned_by, shared_by};
use crate::layout::{place_of_bit, place_of_own_bit, place_of_writer};
use crate::limits::MOST_PASSES;
use crate::step::{Step, TableWords};
use crate::{bits, step};
use history_model::{LOCKS, Phase, Shape, lock_of};

// The phase once a lock was released. It is stored if it changes.
fn leave_running(phase: &mut Phase)
    ensures { phase.new ≡ released_phase phase.old }
{
    match *phase {
        Phase::Yielding | Phase::Releasing => {}
        Phase::Idle | Phase::Running | Phase::Withdrawing => *phase = Phase::Releasing,
    }
}

impl<S: Shape> Pass<S> {
    // The store of the own row with the lock's bit set, for the word a.
    pub(crate) fn set_read_bit(&mut self, table: &TableWords<S>, a: u64)
        requires table { self.old.table ≡ table.now.table_id }
        requires phase { self.old.view.phase ≡ Phase.Running }
        requires bit { ¬ IsGranted self.old.view (lock_of_word a)
            × ¬ HasBit self.old.view (lock_of_word a) }
        ensures table { self.new.table ≡ self.old.table }
        ensures steps { self.new.steps ≡ self.old.steps + 1 }
        ensures view { self.new.view
            ≡ (set_read_bit_action (number self.old.view) (lock_of_word a) a self.old.view).view
            0 }
        ensures taken { (found : ℕ) × TakenIn (GroundHolds S.word_count S.good table.now.key)
            (set_read_bit_action (number self.old.view) (lock_of_word a) a self.old.view)
            self.old.view found self.new.view }
    {
        let lock = lock_of(a);
        let new = bits::raised(&self.locks.bits, lock);
        bits::raise(&mut self.locks.bits, lock);
        step::store(
            table,
            &mut self.seat,
            place_of_own_bit(&self.call, lock),
            new,
            &Step::SetReadBit {
                seat: self.call.who,
                lock,
                word: a,
            },
        );
    }

    // Sets the bit of the lock of word a, if it is not set.
    pub(crate) fn make_seen(&mut self, table: &TableWords<S>, a: u64)
        requires table { self.old.table ≡ table.now.table_id }
        requires phase { self.old.view.phase ≡ Phase.Running }
        requires granted { ¬ IsGranted self.old.view (lock_of_word a) }
        ensures table { self.new.table ≡ self.old.table }
        ensures steps { self.new.steps + flag (has (lock_of_word a) self.old.view.bits) ≡ self.old.steps + 1 }
        ensures view { self.new.view ≡ with_bit (lock_of_word a) a self.old.view }
        ensures seen { MakesSeen (GroundHolds S.word_count S.good table.now.key) self.old.view a }
        ensures phase { self.new.view.phase ≡ Phase.Running }
        ensures bit { HasBit self.new.view (lock_of_word a) }
    {
        if self.has_bit(lock_of(a)) {
            return;
        }
        self.set_read_bit(table, a);
    }

    // The load of the lock's writer word, for the word a. It is a read grant if no other seat claims.
    pub(crate) fn load_writer(&mut self, table: &TableWords<S>, a: u64) -> u64
        requires table { self.old.table ≡ table.now.table_id }
        requires phase { self.old.view.phase ≡ Phase.Running }
        requires bit { HasBit self.old.view (lock_of_word a) }
        ensures table { self.new.table ≡ self.old.table }
        ensures steps { self.new.steps ≡ self.old.steps + 1 }
        ensures taken { TakenIn (GroundHolds S.word_count S.good table.now.key)
            (load_writer_action (number self.old.view) (lock_of_word a) a self.old.view)
            self.old.view result self.new.view }
        ensures small { result ≤ MOST_PASSES }
    {
        let lock = lock_of(a);
        let who = self.call.who;
        let found = step::load(
            table,
            &mut self.seat,
            place_of_writer(&self.call, lock),
            &Step::LoadWriter {
                seat: self.call.who,
                lock,
                word: a,
            },
        );
        let unclaimed = is_unclaimed(found, who);
        bits::raise_if(&mut self.locks.reads, lock, unclaimed);
        found
    }

    // Looks at the writer word of the lock of word a, and says what it found.
    pub(crate) fn look(&mut self, table: &TableWords<S>, a: u64) -> Shared
        requires table { self.old.table ≡ table.now.table_id }
        requires phase { self.old.view.phase ≡ Phase.Running }
        requires bit { HasBit self.old.view (lock_of_word a) }
        ensures table { self.new.table ≡ self.old.table }
        ensures steps { self.new.steps ≡ self.old.steps + 1 }
        ensures looked { Looked (GroundHolds S.word_count S.good table.now.key) self.old.view a
            result self.new.view }
        ensures one { self.old.view.who ≡ number self.old.view ∷ [] }
    {
        let who = self.who();
        let found = self.load_writer(table, a);
        shared_by(found, who)
    }

    // The compare-exchange of the lock's writer word, for the word a. It is a claim if the word was 0.
    pub(crate) fn claim_writer(&mut self, table: &TableWords<S>, a: u64) -> u64
        requires table { self.old.table ≡ table.now.table_id }
        requires phase { self.old.view.phase ≡ Phase.Running }
        requires claim { ¬ HasClaim self.old.view (lock_of_word a) }
        ensures table { self.new.table ≡ self.old.table }
        ensures steps { self.new.steps ≡ self.old.steps + 1 }
        ensures taken { TakenIn (GroundHolds S.word_count S.good table.now.key)
            (claim_writer_action (number self.old.view) (lock_of_word a) a self.old.view)
            self.old.view result self.new.view }
        ensures other { result ≢ number self.old.view + 1 }
        ensures small { result ≤ MOST_PASSES }
        ensures one { self.old.view.who ≡ number self.old.view ∷ [] }
    {
        let lock = lock_of(a);
        let own = u64::from(self.call.who) + 1;
        let found = step::exchange(
            table,
            &mut self.seat,
            place_of_writer(&self.call, lock),
            0,
            own,
            &Step::ClaimWriter {
                seat: self.call.who,
                lock,
                word: a,
            },
        );
        let won = found == 0;
        bits::raise_if(&mut self.locks.claims, lock, won);
        bits::forget_if(&mut self.locks.scans, lock, won);
        found
    }

    // The load of the row word of seat `other`, for the own claim. The seat is scanned if its bit is clear.
    pub(crate) fn scan_row(&mut self, table: &TableWords<S>, k: u32, other: u32) -> u64
        requires table { self.old.table ≡ table.now.table_id }
        requires phase { self.old.view.phase ≡ Phase.Running }
        requires claim { (k < LOCKS) × HasClaim self.old.view k }
        requires other { (other < self.old.view.seats) × (other ≢ number self.old.view) }
        ensures table { self.new.table ≡ self.old.table }
        ensures steps { self.new.steps ≡ self.old.steps + 1 }
        ensures taken { TakenIn (GroundHolds S.word_count S.good table.now.key)
            (scan_row_action (number self.old.view) k other self.old.view) self.old.view result
            self.new.view }
        ensures one { self.old.view.who ≡ number self.old.view ∷ [] }
    {
        let found = step::load(
            table,
            &mut self.seat,
            place_of_bit(self.call.seats, other, k),
            &Step::ScanRow {
                seat: self.call.who,
                lock: k,
                other,
            },
        );
        let clear = (found >> (k % 64)) & 1 == 0;
        bits::note_if(&mut self.locks.scans, k, other, clear);
        found
    }

    // Looks for the bit of seat `other`, for the own claim, and says what it found.
    pub(crate) fn look_for_bit(&mut self, table: &TableWords<S>, k: u32, other: u32) -> Scanned
        requires table { self.old.table ≡ table.now.table_id }
        requires phase { self.old.view.phase ≡ Phase.Running }
        requires claim { (k < LOCKS) × HasClaim self.old.view k }
        requires other { (other < self.old.view.seats) × (other ≢ number self.old.view) }
        ensures table { self.new.table ≡ self.old.table }
        ensures steps { self.new.steps ≡ self.old.steps + 1 }
        ensures scanned { ScannedBy (GroundHolds S.word_count S.good table.now.key) self.old.view k
            other result self.new.view }
        ensures one { self.old.view.who ≡ number self.old.view ∷ [] }
    {
        let found = self.scan_row(table, k, other);
        scanned_by(found, k, other)
    }

    // The store of 0 to the lock's writer word.
    pub(crate) fn release_writer(&mut self, table: &TableWords<S>, k: u32)
        requires table { self.old.table ≡ table.now.table_id }
        requires claim { (k < LOCKS) × HasClaim self.old.view k }
        requires undone { (self.old.view.undo ≡ []) ⊎ (self.old.view.phase ≡ Phase.Releasing) }
        requires begun { self.old.view.phase ≢ Phase.Idle }
        requires unowed { has k self.old.view.owed ≡ false }
        ensures table { self.new.table ≡ self.old.table }
        ensures steps { self.new.steps ≡ self.old.steps + 1 }
        ensures view { self.new.view
            ≡ (release_writer_action (number self.old.view) k self.old.view).view 0 }
        ensures taken { (found : ℕ) × TakenIn (GroundHolds S.word_count S.good table.now.key)
            (release_writer_action (number self.old.view) k self.old.view) self.old.view found
            self.new.view }
    {
        let nobody = 0;
        bits::lower(&mut self.locks.claims, k);
        bits::forget_if(&mut self.locks.scans, k, true);
        leave_running(&mut self.call.phase);
        step::store(
            table,
            &mut self.seat,
            place_of_writer(&self.call, k),
            nobody,
            &Step::ReleaseWriter {
                seat: self.call.who,
                lock: k,
            },
        );
    }

    // The store of the own row with the lock's bit cleared.
    pub(crate) fn clear_read_bit(&mut self, table: &TableWords<S>, k: u32)
        requires table { self.old.table ≡ table.now.table_id }
        requires bit { (k < LOCKS) × HasBit self.old.view k }
        requires undone { (self.old.view.undo ≡ []) ⊎ (self.old.view.phase ≡ Phase.Releasing) }
        requires begun { self.old.view.phase ≢ Phase.Idle }
        ensures table { self.new.table ≡ self.old.table }
        ensures steps { self.new.steps ≡ self.old.steps + 1 }
        ensures view { self.new.view
            ≡ (clear_read_bit_action (number self.old.view) k self.old.view).view 0 }
        ensures taken { (found : ℕ) × TakenIn (GroundHolds S.word_count S.good table.now.key)
            (clear_read_bit_action (number self.old.view) k self.old.view) self.old.view found
            self.new.view }
    {
        let new = bits::lowered(&self.locks.bits, k);
        bits::lower(&mut self.locks.bits, k);
        bits::lower(&mut self.locks.reads, k);
        leave_running(&mut self.call.phase);
        step::store(
            table,
            &mut self.seat,
            place_of_own_bit(&self.call, k),
            new,
            &Step::ClearReadBit {
                seat: self.call.who,
                lock: k,
            },
        );
    }

    // Clears the read bits of the word i of the own row, by rising lock.
    #[inline(always)]
    fn clear_word(&mut self, table: &TableWords<S>, i: u32)
        requires table { self.old.table ≡ table.now.table_id }
        requires word { i < 16 }
        requires before { (k : ℕ) → k < 64 * i → ¬ HasBit self.old.view k }
        requires undone { (self.old.view.undo ≡ []) ⊎ (self.old.view.phase ≡ Phase.Releasing) }
        requires begun { self.old.view.phase ≢ Phase.Idle }
        ensures table { self.new.table ≡ self.old.table }
        ensures clears { ClearsMore (GroundHolds S.word_count S.good table.now.key) self.old self.new }
        ensures before { (k : ℕ) → k < 64 * (i + 1) → ¬ HasBit self.new.view k }
    {
        while let Some(lock) = self.bit_in(i) {
            self.clear_read_bit(table, lock);
        }
    }

    // Read bits are of locks alone. The call does nothing: its contract says it.
    fn only_locks_have_bits(&self)
        ensures { (k : ℕ) → HasBit self.now.view k → k < LOCKS }
    {
        let _bits = &self.locks.bits;
    }

    // Clears all read bits, by rising lock.
    pub(crate) fn clear_read_bits(&mut self, table: &TableWords<S>)
        requires table { self.old.table ≡ table.now.table_id }
        requires undone { (self.old.view.undo ≡ []) ⊎ (self.old.view.phase ≡ Phase.Releasing) }
        requires begun { self.old.view.phase ≢ Phase.Idle }
        ensures table { self.new.table ≡ self.old.table }
        ensures steps { self.new.steps ≡ self.old.steps + length (rising self.old.view.bits) }
        ensures clears { ClearsEach (GroundHolds S.word_count S.good table.now.key)
            (rising self.old.view.bits) self.old.view self.new.view }
        ensures none { (k : ℕ) → ¬ HasBit self.new.view k }
    {
        self.only_locks_have_bits();
        for i in 0..16u32 {
            self.clear_word(table, i);
        }
    }
}
