//! The steps of a pass on timestamps: a call draws one, shows it, looks at those of others, and ends.

ghost use Rattle.std.specs.Prelude.{◌≡◌, ◌≢◌, ◌⊎◌, ◌<◌, ◌+◌, ℕ, true, false, [], ◌∷◌, None, Some, ◌==◌, if◌then◌else◌};
ghost use Rattle.history_model.specs.Sets.{has};
ghost use Rattle.history_model.specs.Views.{number, HasBit, HasClaim};
ghost use Rattle.history_model.specs.Counts.{is_attempt};
ghost use Rattle.history_model.specs.Fitting.{IsGood};
ghost use Rattle.values_rule.specs.Steps.{clear_stamp_action};
ghost use Rattle.stamps_rule.specs.Causes.{newest, past_causes};
ghost use Rattle.stamps_rule.specs.Stamps.{AreRestartsBounded};
ghost use Rattle.stamps_rule.specs.Steps.{draw_stamp_action, announce_stamp_action, load_cause_stamp_action};
ghost use Rattle.word_table.specs.Calls.{JudgedBy, ReadsArranged};
ghost use Rattle.word_table.specs.Kinds.{TakenIn};
ghost use Rattle.word_table.specs.Sound.{GroundHolds};

use super::Pass;
use crate::answer::{Judged, judged_by};
use crate::layout::{PLACE_OF_CLOCK, place_of_stamp};
use crate::step::{Step, TableWords};
use crate::{bits, step};
use history_model::{Phase, Shape};

// The phase once the timestamp of the cause was looked at.
fn phase_after_look(shown: u64, stamp: u64) -> Phase
    ensures { result ≡ (if shown == stamp then Phase.Yielding else Phase.Running) }
{
    if shown == stamp {
        Phase::Yielding
    } else {
        Phase::Running
    }
}

impl<S: Shape> Pass<S> {
    // The fetch-and-add of 1 on the clock. It gives the timestamp.
    pub(crate) fn draw_stamp(&mut self, table: &TableWords<S>) -> u64
        requires table { self.old.table ≡ table.now.table_id }
        requires phase { self.old.view.phase ≡ Phase.Running }
        requires unjudged { self.old.view.met ≢ [] }
        requires unstamped { self.old.view.stamp ≡ 0 }
        ensures table { self.new.table ≡ self.old.table }
        ensures steps { self.new.steps ≡ self.old.steps + 1 }
        ensures view { self.new.view
            ≡ record self.old.view { stamp = result; draws = self.old.view.draws + 1 } }
        ensures taken { (found : ℕ) × (result ≡ found + 1)
            × TakenIn (GroundHolds S.word_count S.good table.now.key)
            (draw_stamp_action (number self.old.view) self.old.view) self.old.view found
            self.new.view }
    {
        let found = step::add(
            table,
            &mut self.seat,
            PLACE_OF_CLOCK,
            &Step::DrawStamp {
                seat: self.call.who,
            },
        );
        self.call.stamp = found + 1;
        found + 1
    }

    // The store of the timestamp to the own STAMPS word.
    pub(crate) fn announce_stamp(&mut self, table: &TableWords<S>)
        requires table { self.old.table ≡ table.now.table_id }
        requires phase { self.old.view.phase ≡ Phase.Running }
        requires stamped { 0 < self.old.view.stamp }
        requires unannounced { self.old.view.announced ≡ false }
        ensures table { self.new.table ≡ self.old.table }
        ensures steps { self.new.steps ≡ self.old.steps + 1 }
        ensures view { self.new.view
            ≡ (announce_stamp_action (number self.old.view) self.old.view).view 0 }
        ensures taken { (found : ℕ) × TakenIn (GroundHolds S.word_count S.good table.now.key)
            (announce_stamp_action (number self.old.view) self.old.view) self.old.view found
            self.new.view }
    {
        self.call.announced = true;
        let own_word = place_of_stamp(self.call.seats, self.call.who);
        step::store(
            table,
            &mut self.seat,
            own_word,
            self.call.stamp,
            &Step::AnnounceStamp {
                seat: self.call.who,
            },
        );
    }

    // The load of the timestamp of a seat that the call met: if that is an earlier one the attempt gives way by it.
    pub(crate) fn judge_stamp(&mut self, table: &TableWords<S>, other: u32) -> Judged
        requires table { self.old.table ≡ table.now.table_id }
        requires phase { self.old.view.phase ≡ Phase.Running }
        requires announced { self.old.view.announced ≡ true }
        requires other { other < self.old.view.seats }
        requires met { has other self.old.view.met ≡ true }
        ensures table { self.new.table ≡ self.old.table }
        ensures steps { self.new.steps ≡ self.old.steps + 1 }
        ensures judged { JudgedBy (GroundHolds S.word_count S.good table.now.key) self.old.view
            other result self.new.view }
        ensures one { self.old.view.who ≡ number self.old.view ∷ [] }
    {
        let shown = step::load(
            table,
            &mut self.seat,
            place_of_stamp(self.call.seats, other),
            &Step::JudgeStamp {
                seat: self.call.who,
                other,
            },
        );
        let judged = judged_by(shown, self.call.stamp);
        let Judged::Yield(_) = judged else {
            return judged;
        };
        self.call.phase = Phase::Yielding;
        self.locks.versions.written = [0; 16];
        judged
    }

    // The load of the timestamp of the attempt's cause. It gives the number found.
    pub(crate) fn load_cause_stamp(&mut self, table: &TableWords<S>, other: u32, stamp: u64) -> u64
        requires table { self.old.table ≡ table.now.table_id }
        requires phase { self.old.view.phase ≡ Phase.Yielding }
        requires other { other < self.old.view.seats }
        requires cause { newest (past_causes self.old.view)
            ≡ Some (record { seat = other; stamp = stamp }) }
        requires no_bit { (k : ℕ) → ¬ HasBit self.old.view k }
        requires no_claim { (k : ℕ) → ¬ HasClaim self.old.view k }
        requires undone { self.old.view.undo ≡ [] }
        ensures table { self.new.table ≡ self.old.table }
        ensures steps { self.new.steps ≡ self.old.steps + 1 }
        ensures taken { TakenIn (GroundHolds S.word_count S.good table.now.key)
            (load_cause_stamp_action (number self.old.view) other stamp self.old.view) self.old.view
            result self.new.view }
        ensures one { self.old.view.who ≡ number self.old.view ∷ [] }
        ensures fits { result ≢ stamp
            → ReadsArranged (IsGood (S.word_count table.now.key.shape) (S.good table.now.key.shape))
            table.now.key.seats table.now.key.base.items self.new.view }
    {
        let shown = step::load(
            table,
            &mut self.seat,
            place_of_stamp(self.call.seats, other),
            &Step::LoadCauseStamp {
                seat: self.call.who,
                other,
                stamp,
            },
        );
        let after_look = phase_after_look(shown, stamp);
        self.call.phase = after_look;
        bits::clear_unless(&mut self.locks.versions.used, shown == stamp);
        shown
    }

    // The store of 0 to the own STAMPS word.
    pub(crate) fn clear_stamp(&mut self, table: &TableWords<S>)
        requires table { self.old.table ≡ table.now.table_id }
        requires phase { (is_attempt self.old.view.phase ≡ true)
            ⊎ (self.old.view.phase ≡ Phase.Releasing) }
        requires no_bit { (k : ℕ) → ¬ HasBit self.old.view k }
        requires no_claim { (k : ℕ) → ¬ HasClaim self.old.view k }
        requires undone { self.old.view.undo ≡ [] }
        ensures table { self.new.table ≡ self.old.table }
        ensures steps { self.new.steps ≡ self.old.steps + 1 }
        ensures view { self.new.view
            ≡ (clear_stamp_action (number self.old.view) self.old.view).view 0 }
        ensures taken { (found : ℕ) × TakenIn (GroundHolds S.word_count S.good table.now.key)
            (clear_stamp_action (number self.old.view) self.old.view) self.old.view found
            self.new.view }
        ensures bounded { AreRestartsBounded table.now.key.seats (number self.old.view)
            self.old.view }
    {
        self.call.phase = Phase::Idle;
        self.call.stamp = 0;
        self.call.announced = false;
        step::store(
            table,
            &mut self.seat,
            place_of_stamp(self.call.seats, self.call.who),
            0,
            &Step::ClearStamp {
                seat: self.call.who,
            },
        );
    }
}
