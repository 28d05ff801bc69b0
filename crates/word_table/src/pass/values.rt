//! The steps of a pass with which a call begins, reads, writes, undoes and gets its entry.

ghost use Rattle.std.specs.Prelude.{◌≡◌, ◌<◌, ◌+◌, ℕ, true, false, length, [], ◌∷◌, ◌++◌, List};
ghost use Rattle.history_model.specs.declared.entry.Entry.{Entry};
ghost use Rattle.history_model.specs.Legal.{IsIn};
ghost use Rattle.history_model.specs.Locks.{lock_of_word};
ghost use Rattle.history_model.specs.Views.{number, HasWriteGrant};
ghost use Rattle.history_model.specs.declared.event.Event.{Event};
ghost use Rattle.history_model.specs.declared.event.Event.TheVariants.{Read};
ghost use Rattle.history_model.specs.Counts.{is_attempt, is_open};
ghost use Rattle.history_model.specs.Fitting.{IsGood};
ghost use Rattle.history_model.specs.Traces.{after, IsLegalTrace};
ghost use Rattle.history_model.specs.Undoing.{Notes};
ghost use Rattle.values_rule.specs.Steps.{undoing_phase, begin_call_action, load_value_action, store_value_action, undo_store_action};
ghost use Rattle.stamps_rule.specs.Stamps.{AreRestartsBounded};
ghost use Rattle.values_rule.specs.Records.{Knew};
ghost use Rattle.values_rule.specs.Steps.{commit_call_action, entry_of};
ghost use Rattle.word_table.specs.Calls.{ReadsArranged};
ghost use Rattle.word_table.specs.Kinds.{TakenIn};
ghost use Rattle.word_table.specs.Sound.{GroundHolds};
ghost use Rattle.word_table.specs.Versions.{HasUseOf};

use super::Pass;
use crate::layout::{place_of_calls, place_of_commit, place_of_value};
use crate::limits::LAST_CALL;
use crate::step::{Step, TableWords};
use crate::{bits, step};
use history_model::{Phase, Shape, lock_of};

// The phase once a write was undone.
fn after_undo(phase: Phase) -> Phase
    ensures { result ≡ undoing_phase phase }
{
    match phase {
        Phase::Running | Phase::Withdrawing => Phase::Withdrawing,
        Phase::Yielding => Phase::Yielding,
        Phase::Idle => Phase::Idle,
        Phase::Releasing => Phase::Releasing,
    }
}

impl<S: Shape> Pass<S> {
    // The store of the next call's number to the own CALLS word.
    pub(crate) fn begin_call(&mut self, table: &TableWords<S>) -> u32
        requires table { self.old.table ≡ table.now.table_id }
        requires phase { self.old.view.phase ≡ Phase.Idle }
        requires room { self.old.view.call < LAST_CALL }
        ensures table { self.new.table ≡ self.old.table }
        ensures steps { self.new.steps ≡ self.old.steps + 1 }
        ensures number { result ≡ self.old.view.call + 1 }
        ensures view { self.new.view
            ≡ (begin_call_action (number self.old.view) self.old.view).view 0 }
        ensures taken { (found : ℕ) × TakenIn (GroundHolds S.word_count S.good table.now.key)
            (begin_call_action (number self.old.view) self.old.view) self.old.view found
            self.new.view }
        ensures fits { ReadsArranged
            (IsGood (S.word_count table.now.key.shape) (S.good table.now.key.shape))
            table.now.key.seats table.now.key.base.items self.new.view }
    {
        let next = self.call.calls + 1;
        self.call.calls = next;
        self.call.phase = Phase::Running;
        self.locks.versions.used = [0; 16];
        self.locks.versions.written = [0; 16];
        step::store(
            table,
            &mut self.seat,
            place_of_calls(self.call.seats, self.call.who),
            u64::from(next),
            &Step::BeginCall {
                seat: self.call.who,
            },
        );
        next
    }

    // The load of the value of word a, whose lock the attempt has a use of, and so holds.
    pub(crate) fn load_value(&mut self, table: &TableWords<S>, a: u64) -> u64
        requires table { self.old.table ≡ table.now.table_id }
        requires phase { self.old.view.phase ≡ Phase.Running }
        requires word { a < length self.old.view.base }
        requires used { HasUseOf self.old.view (lock_of_word a) }
        ensures table { self.new.table ≡ self.old.table }
        ensures steps { self.new.steps ≡ self.old.steps + 1 }
        ensures taken { TakenIn (GroundHolds S.word_count S.good table.now.key)
            (load_value_action (number self.old.view) a self.old.view) self.old.view result
            self.new.view }
        ensures fits { ReadsArranged
            (IsGood (S.word_count table.now.key.shape) (S.good table.now.key.shape))
            table.now.key.seats table.now.key.base.items self.new.view }
    {
        step::load(
            table,
            &mut self.seat,
            place_of_value(&self.call, a),
            &Step::LoadValue {
                seat: self.call.who,
                word: a,
            },
        )
    }

    // The store of a value to word a.
    pub(crate) fn store_value(&mut self, table: &TableWords<S>, a: u64, value: u64)
        requires table { self.old.table ≡ table.now.table_id }
        requires phase { self.old.view.phase ≡ Phase.Running }
        requires word { a < length self.old.view.base }
        requires granted { HasWriteGrant self.old.view (lock_of_word a) }
        requires read { (before : List Event) × (old : ℕ)
            × (self.old.view.trace ≡ before ++ Read a old ∷ []) }
        ensures table { self.new.table ≡ self.old.table }
        ensures steps { self.new.steps ≡ self.old.steps + 1 }
        ensures view { self.new.view
            ≡ (store_value_action (number self.old.view) a value self.old.view).view 0 }
        ensures taken { (found : ℕ) × TakenIn (GroundHolds S.word_count S.good table.now.key)
            (store_value_action (number self.old.view) a value self.old.view) self.old.view found
            self.new.view }
    {
        bits::raise(&mut self.locks.versions.written, lock_of(a));
        step::store(
            table,
            &mut self.seat,
            place_of_value(&self.call, a),
            value,
            &Step::StoreValue {
                seat: self.call.who,
                word: a,
                value,
            },
        );
    }

    // The store of the old value of the newest note to its word.
    pub(crate) fn undo_store(&mut self, table: &TableWords<S>, a: u64, old: u64)
        requires table { self.old.table ≡ table.now.table_id }
        requires phase { is_open self.old.view.phase ≡ true }
        requires word { a < length self.old.view.base }
        requires newest { (older : Notes) × (self.old.view.undo ≡ older ++ (a, old) ∷ []) }
        ensures table { self.new.table ≡ self.old.table }
        ensures steps { self.new.steps ≡ self.old.steps + 1 }
        ensures view { self.new.view
            ≡ (undo_store_action (number self.old.view) a old self.old.view).view 0 }
        ensures taken { (found : ℕ) × TakenIn (GroundHolds S.word_count S.good table.now.key)
            (undo_store_action (number self.old.view) a old self.old.view) self.old.view found
            self.new.view }
    {
        let undoing = after_undo(self.call.phase);
        self.call.phase = undoing;
        self.locks.versions.written = [0; 16];
        step::store(
            table,
            &mut self.seat,
            place_of_value(&self.call, a),
            old,
            &Step::UndoStore {
                seat: self.call.who,
                word: a,
                old,
            },
        );
    }

    // The store of the call's number to the own COMMITS word.
    pub(crate) fn commit_call(&mut self, table: &TableWords<S>, kept: bool)
        requires table { self.old.table ≡ table.now.table_id }
        requires phase { is_attempt self.old.view.phase ≡ true }
        requires runs { kept ≡ true → self.old.view.phase ≡ Phase.Running }
        requires leaves_good { kept ≡ true → (words : List ℕ)
            → IsGood (S.word_count table.now.key.shape) (S.good table.now.key.shape) words
            → IsLegalTrace self.old.view.trace words
            → IsGood (S.word_count table.now.key.shape) (S.good table.now.key.shape)
            (after self.old.view.trace words) }
        requires undone { kept ≡ false → self.old.view.undo ≡ [] }
        ensures table { self.new.table ≡ self.old.table }
        ensures steps { self.new.steps ≡ self.old.steps + 1 }
        ensures view { self.new.view
            ≡ (commit_call_action (number self.old.view) kept self.old.view).view 0 }
        ensures taken { (found : ℕ) × TakenIn (GroundHolds S.word_count S.good table.now.key)
            (commit_call_action (number self.old.view) kept self.old.view) self.old.view found
            self.new.view }
        ensures bounded { AreRestartsBounded table.now.key.seats (number self.old.view)
            self.old.view }
        ensures knew { (x : Entry) → IsIn x self.old.view.seen
            → Knew (entry_of kept self.old.view) x }
    {
        self.call.phase = Phase::Releasing;
        bits::clear_unless(&mut self.locks.versions.written, kept);
        step::store(
            table,
            &mut self.seat,
            place_of_commit(self.call.seats, self.call.who),
            u64::from(self.call.calls),
            &Step::CommitCall {
                seat: self.call.who,
                kept,
            },
        );
    }
}
