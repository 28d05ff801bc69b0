//! The steps of a pass on the versions of locks: an attempt finds a version at its first use of a lock, and a call whose
//! writes are kept stores the next one before it gives up the lock.

ghost use Rattle.std.specs.Prelude.{◌≡◌, ◌≢◌, ◌⊎◌, ◌<◌, ◌+◌, ℕ, true, false, []};
ghost use Rattle.history_model.specs.Legal.{IsIn};
ghost use Rattle.history_model.specs.Locks.{lock_of_word};
ghost use Rattle.history_model.specs.Sets.{flag, has};
ghost use Rattle.history_model.specs.Views.{number, HasClaim, IsGranted};
ghost use Rattle.locks_rule.specs.Versions.{load_version_action, store_version_action};
ghost use Rattle.word_table.specs.Calls.{FindsVersion, Pays, paid};
ghost use Rattle.word_table.specs.Kinds.{TakenIn};
ghost use Rattle.word_table.specs.Sound.{GroundHolds};
ghost use Rattle.word_table.specs.Versions.{HasUseOf, locks_found};

use super::Pass;
use crate::layout::place_of_version;
use crate::step::{Step, TableWords};
use crate::{bits, step};
use history_model::{LOCKS, Phase, Shape, lock_of};

impl<S: Shape> Pass<S> {
    // The load of the version of the lock of word a, at the attempt's first use of the lock.
    #[inline(always)]
    pub(crate) fn load_version(&mut self, table: &TableWords<S>, a: u64)
        requires table { self.old.table ≡ table.now.table_id }
        requires phase { self.old.view.phase ≡ Phase.Running }
        requires granted { IsGranted self.old.view (lock_of_word a) }
        requires unused { has (lock_of_word a) (locks_found self.old.view.uses) ≡ false }
        ensures table { self.new.table ≡ self.old.table }
        ensures steps { self.new.steps ≡ self.old.steps + 1 }
        ensures taken { (found : ℕ) × TakenIn (GroundHolds S.word_count S.good table.now.key)
            (load_version_action (number self.old.view) (lock_of_word a) self.old.view)
            self.old.view found self.new.view }
    {
        let lock = lock_of(a);
        let version = step::load(
            table,
            &mut self.seat,
            place_of_version(&self.call, lock),
            &Step::LoadVersion {
                seat: self.call.who,
                lock,
            },
        );
        bits::raise(&mut self.locks.versions.used, lock);
        self.locks.versions.found[lock as usize] = version;
    }

    // Finds the version of the lock of word a, if the attempt has not found it before.
    #[inline]
    pub(crate) fn find_version(&mut self, table: &TableWords<S>, a: u64)
        requires table { self.old.table ≡ table.now.table_id }
        requires phase { self.old.view.phase ≡ Phase.Running }
        requires granted { IsGranted self.old.view (lock_of_word a) }
        ensures table { self.new.table ≡ self.old.table }
        ensures steps { self.new.steps + flag (has (lock_of_word a) (locks_found self.old.view.uses))
            ≡ self.old.steps + 1 }
        ensures view { self.new.view ≡ record self.old.view { uses = self.new.view.uses } }
        ensures used { HasUseOf self.new.view (lock_of_word a) }
        ensures finds { FindsVersion (GroundHolds S.word_count S.good table.now.key)
            (lock_of_word a) self.old.view self.new.view }
    {
        if bits::test(&self.locks.versions.used, lock_of(a)) {
            return;
        }
        self.load_version(table, a);
    }

    // The store of 1 more than the version that the call found of the lock, which is owed.
    pub(crate) fn store_version(&mut self, table: &TableWords<S>, k: u32)
        requires table { self.old.table ≡ table.now.table_id }
        requires claim { (k < LOCKS) × HasClaim self.old.view k }
        requires phase { self.old.view.phase ≡ Phase.Releasing }
        requires owed { has k self.old.view.owed ≡ true }
        ensures table { self.new.table ≡ self.old.table }
        ensures steps { self.new.steps ≡ self.old.steps + 1 }
        ensures view { self.new.view ≡ paid k self.old.view }
        ensures taken { (version : ℕ) × (IsIn (k, version) self.old.view.uses × ((found : ℕ)
            × TakenIn (GroundHolds S.word_count S.good table.now.key)
            (store_version_action (number self.old.view) k version self.old.view) self.old.view
            found self.new.view)) }
    {
        let found = self.locks.versions.found[k as usize];
        bits::lower(&mut self.locks.versions.written, k);
        step::store(
            table,
            &mut self.seat,
            place_of_version(&self.call, k),
            found + 1,
            &Step::StoreVersion {
                seat: self.call.who,
                lock: k,
                found,
            },
        );
    }

    // Stores the next version of the lock, if the call owes it.
    #[inline]
    pub(crate) fn pay_version(&mut self, table: &TableWords<S>, k: u32)
        requires table { self.old.table ≡ table.now.table_id }
        requires claim { (k < LOCKS) × HasClaim self.old.view k }
        requires undone { (self.old.view.undo ≡ []) ⊎ (self.old.view.phase ≡ Phase.Releasing) }
        requires begun { self.old.view.phase ≢ Phase.Idle }
        ensures table { self.new.table ≡ self.old.table }
        ensures steps { self.new.steps ≡ self.old.steps + flag (has k self.old.view.owed) }
        ensures view { self.new.view ≡ paid k self.old.view }
        ensures pays { Pays (GroundHolds S.word_count S.good table.now.key) k self.old.view }
    {
        if bits::test(&self.locks.versions.written, k) {
            self.store_version(table, k);
        }
    }
}
