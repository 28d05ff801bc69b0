//! Steps on the shared table, for lock_or_yield and txn_commit: a program that runs jobs by `transact` calls none of them.

ghost use Rattle.std.specs.Prelude.{◌≡◌, ◌≢◌, ◌⊎◌, ◌<◌, ℕ, [], ◌∷◌, length, Some, ◌++◌, ◌+◌, ◌==◌, not, true, false, List};
ghost use Rattle.history_model.specs.declared.entry.Entry.{Entry};
ghost use Rattle.history_model.specs.declared.event.Event.{Event};
ghost use Rattle.history_model.specs.declared.event.Event.TheVariants.{Read};
ghost use Rattle.history_model.specs.Counts.{is_attempt, is_open};
ghost use Rattle.history_model.specs.Legal.{IsIn};
ghost use Rattle.history_model.specs.Locks.{lock_of_word};
ghost use Rattle.history_model.specs.Traces.{after, IsLegalTrace};
ghost use Rattle.history_model.specs.Undoing.{Notes};
ghost use Rattle.history_model.specs.Views.{number, HasBit, HasReadGrant, HasClaim, IsScanned, HasWriteGrant, IsGranted};
ghost use Rattle.locks_rule.specs.Steps.{clear_read_bit_action, load_writer_action, claim_writer_action, scan_row_action, release_writer_action, released_phase};
ghost use Rattle.locks_rule.specs.Versions.{load_version_action};
ghost use Rattle.values_rule.specs.Steps.{begin_call_action, load_value_action, store_value_action, undo_store_action, clear_stamp_action};
ghost use Rattle.values_rule.specs.Records.{Knew};
ghost use Rattle.values_rule.specs.Steps.{after_commit, commit_call_action, entry_of};
ghost use Rattle.stamps_rule.specs.Causes.{newest, past_causes};
ghost use Rattle.stamps_rule.specs.Stamps.{AreRestartsBounded};
ghost use Rattle.stamps_rule.specs.Steps.{draw_stamp_action, announce_stamp_action, load_cause_stamp_action};
ghost use Rattle.history_model.specs.Sets.{flag, has, has_pair, without};
ghost use Rattle.word_table.specs.Unsharing.{ClearsEach, rising};
ghost use Rattle.word_table.specs.Versions.{HasUseOf, locks_found};
ghost use Rattle.word_table.specs.Calls.{ClaimedBy, GainsUse, GaveUp, GaveWay, GrantsStay, JudgedBy, LoadedBy, MetOn, ReadsArranged, SameCall, ScannedBy, SharedBy, paid, with_bit};
ghost use Rattle.word_table.specs.Kinds.{TakenIn};
ghost use Rattle.word_table.specs.Desks.{AreGoodWords, RuleHolds};
ghost use Rattle.word_table.specs.Waits.{FoundWait, WaitedForCause};

use super::Desk;
use crate::answer::{Claimed, Judged, Scanned, Shared, claimed_by};
use crate::limits::LAST_CALL;
use crate::pass::Pass;
use history_model::{LOCKS, Phase, Shape, lock_of};

/// Steps, for the crates above.
impl<S: Shape> Desk<S> {
    /// Asks for the lock of word a, to read it. A lock that is held already takes no step. Else the own read bit is
    /// set, if it is not, and only then the writer word is looked at: a writer that claims the lock later scans for
    /// the bit, so one of the two sees the other.
    #[inline]
    pub fn share(&self, pass: &mut Pass<S>, a: u64) -> Shared
        requires desk { pass.old.table ≡ self.now.table }
        requires phase { pass.old.view.phase ≡ Phase.Running }
        requires word { a < length pass.old.view.base }
        ensures desk { pass.new.table ≡ pass.old.table }
        ensures steps { (¬ IsGranted pass.old.view (lock_of_word a))
            → pass.new.steps + flag (has (lock_of_word a) pass.old.view.bits) ≡ pass.old.steps + 2 }
        ensures step { SharedBy (RuleHolds S.Shape self.now) pass.old.view a result pass.new.view }
        ensures granted { result ≡ Shared.Granted → IsGranted pass.new.view (lock_of_word a) }
        ensures met { (j : ℕ) → result ≡ Shared.Met j → MetOn (RuleHolds S.Shape self.now)
            (load_writer_action (number pass.old.view) (lock_of_word a) a)
            pass.old.view (with_bit (lock_of_word a) a pass.old.view) pass.new.view (lock_of_word a)
            j }
        ensures bit { (j : ℕ) → result ≡ Shared.Met j → HasBit pass.new.view (lock_of_word a) }
        ensures held { IsGranted pass.old.view (lock_of_word a)
            → (result ≡ Shared.Granted) × (pass.new ≡ pass.old) }
        ensures held_if { pass.new.view ≡ pass.old.view → IsGranted pass.old.view (lock_of_word a) }
        ensures call { SameCall pass.old.view pass.new.view }
        ensures grants { GrantsStay pass.old.view pass.new.view }
    {
        if pass.is_granted(lock_of(a)) {
            return Shared::Granted;
        }
        self.share_new(pass, a)
    }

    /// Asks for the lock of word a, to read it, which is not held: all that `share` does then, with no test whether it
    /// is held.
    #[inline(always)]
    pub fn share_new(&self, pass: &mut Pass<S>, a: u64) -> Shared
        requires desk { pass.old.table ≡ self.now.table }
        requires phase { pass.old.view.phase ≡ Phase.Running }
        requires word { a < length pass.old.view.base }
        requires free { ¬ IsGranted pass.old.view (lock_of_word a) }
        ensures desk { pass.new.table ≡ pass.old.table }
        ensures steps { pass.new.steps + flag (has (lock_of_word a) pass.old.view.bits) ≡ pass.old.steps + 2 }
        ensures step { SharedBy (RuleHolds S.Shape self.now) pass.old.view a result pass.new.view }
        ensures granted { result ≡ Shared.Granted → IsGranted pass.new.view (lock_of_word a) }
        ensures met { (j : ℕ) → result ≡ Shared.Met j → MetOn (RuleHolds S.Shape self.now)
            (load_writer_action (number pass.old.view) (lock_of_word a) a)
            pass.old.view (with_bit (lock_of_word a) a pass.old.view) pass.new.view (lock_of_word a)
            j }
        ensures bit { (j : ℕ) → result ≡ Shared.Met j → HasBit pass.new.view (lock_of_word a) }
        ensures moves { pass.new.view ≢ pass.old.view }
        ensures call { SameCall pass.old.view pass.new.view }
        ensures grants { GrantsStay pass.old.view pass.new.view }
    {
        pass.make_seen(&self.table, a);
        pass.look(&self.table, a)
    }

    /// Claims the lock of word a, to write it. An own claim takes no step. A claim is an exclusive lock once every
    /// other seat was scanned for it: a reader sets its bit before it looks at the writer word, so one of the two
    /// sees the other.
    #[inline]
    pub fn claim(&self, pass: &mut Pass<S>, a: u64) -> Claimed
        requires desk { pass.old.table ≡ self.now.table }
        requires phase { pass.old.view.phase ≡ Phase.Running }
        requires word { a < length pass.old.view.base }
        ensures desk { pass.new.table ≡ pass.old.table }
        ensures steps { (¬ HasClaim pass.old.view (lock_of_word a)) → pass.new.steps ≡ pass.old.steps + 1 }
        ensures step { ClaimedBy (RuleHolds S.Shape self.now) pass.old.view a result pass.new.view }
        ensures pending { result ≡ Claimed.Pending → HasClaim pass.new.view (lock_of_word a) }
        ensures met { (j : ℕ) → result ≡ Claimed.Met j → MetOn (RuleHolds S.Shape self.now)
            (claim_writer_action (number pass.old.view) (lock_of_word a) a)
            pass.old.view pass.old.view pass.new.view (lock_of_word a) j }
        ensures held { HasClaim pass.old.view (lock_of_word a)
            → (result ≡ Claimed.Pending) × (pass.new ≡ pass.old) }
        ensures held_if { pass.new.view ≡ pass.old.view → HasClaim pass.old.view (lock_of_word a) }
        ensures call { SameCall pass.old.view pass.new.view }
        ensures grants { GrantsStay pass.old.view pass.new.view }
    {
        if pass.has_claim(lock_of(a)) {
            return Claimed::Pending;
        }
        let found = pass.claim_writer(&self.table, a);
        claimed_by(found)
    }

    /// Looks whether the seat `other` has its read bit set, for the own claim on lock k.
    pub fn scan(&self, pass: &mut Pass<S>, k: u32, other: u32) -> Scanned
        requires desk { pass.old.table ≡ self.now.table }
        requires phase { pass.old.view.phase ≡ Phase.Running }
        requires claim { (k < LOCKS) × HasClaim pass.old.view k }
        requires other { (other < pass.old.view.seats) × (other ≢ number pass.old.view) }
        ensures desk { pass.new.table ≡ pass.old.table }
        ensures steps { pass.new.steps ≡ pass.old.steps + 1 }
        ensures step { ScannedBy (RuleHolds S.Shape self.now) pass.old.view k other result
            pass.new.view }
        ensures clear { result ≡ Scanned.Clear → IsScanned pass.new.view k other }
        ensures met { (j : ℕ) → result ≡ Scanned.Met j
            → (j ≡ other) × MetOn (RuleHolds S.Shape self.now)
            (scan_row_action (number pass.old.view) k other) pass.old.view pass.old.view
            pass.new.view k j }
        ensures call { SameCall pass.old.view pass.new.view }
        ensures grants { GrantsStay pass.old.view pass.new.view }
    {
        pass.look_for_bit(&self.table, k, other)
    }

    /// Gives up the own claim on lock k. The call ends with that, unless it gives way. If the call owes the lock its
    /// next version, that is stored before: 1 more than the version that the call found, which nobody can have changed
    /// since.
    pub fn unclaim(&self, pass: &mut Pass<S>, k: u32)
        requires desk { pass.old.table ≡ self.now.table }
        requires claim { (k < LOCKS) × HasClaim pass.old.view k }
        requires undone { (pass.old.view.undo ≡ []) ⊎ (pass.old.view.phase ≡ Phase.Releasing) }
        requires begun { pass.old.view.phase ≢ Phase.Idle }
        ensures desk { pass.new.table ≡ pass.old.table }
        ensures steps { pass.new.steps ≡ pass.old.steps + 1 + flag (has k pass.old.view.owed) }
        ensures step { pass.new.view
            ≡ (release_writer_action (number pass.old.view) k (paid k pass.old.view)).view 0 }
        ensures taken { GaveUp (RuleHolds S.Shape self.now) k pass.old.view pass.new.view }
        ensures gone { ¬ HasClaim pass.new.view k }
    {
        pass.pay_version(&self.table, k);
        pass.release_writer(&self.table, k);
    }

    /// Clears the own read bit on lock k. The call ends with that, unless it gives way.
    pub fn unshare(&self, pass: &mut Pass<S>, k: u32)
        requires desk { pass.old.table ≡ self.now.table }
        requires bit { (k < LOCKS) × HasBit pass.old.view k }
        requires undone { (pass.old.view.undo ≡ []) ⊎ (pass.old.view.phase ≡ Phase.Releasing) }
        requires begun { pass.old.view.phase ≢ Phase.Idle }
        ensures desk { pass.new.table ≡ pass.old.table }
        ensures steps { pass.new.steps ≡ pass.old.steps + 1 }
        ensures step { pass.new.view
            ≡ (clear_read_bit_action (number pass.old.view) k pass.old.view).view 0 }
        ensures taken { (found : ℕ) × TakenIn (RuleHolds S.Shape self.now)
            (clear_read_bit_action (number pass.old.view) k pass.old.view) pass.old.view found
            pass.new.view }
        ensures gone { ¬ HasBit pass.new.view k × ¬ HasReadGrant pass.new.view k }
    {
        pass.clear_read_bit(&self.table, k);
    }

    /// Clears all own read bits, by rising lock, each by a step of its own. The call ends with the first, unless it gives
    /// way. If no bit is set, it takes no step.
    pub fn unshare_all(&self, pass: &mut Pass<S>)
        requires desk { pass.old.table ≡ self.now.table }
        requires undone { (pass.old.view.undo ≡ []) ⊎ (pass.old.view.phase ≡ Phase.Releasing) }
        requires begun { pass.old.view.phase ≢ Phase.Idle }
        ensures desk { pass.new.table ≡ pass.old.table }
        ensures steps { pass.new.steps ≡ pass.old.steps + length (rising pass.old.view.bits) }
        ensures taken { ClearsEach (RuleHolds S.Shape self.now) (rising pass.old.view.bits)
            pass.old.view pass.new.view }
        ensures rest { pass.new.view ≡ record pass.old.view {
          phase = pass.new.view.phase;
          bits = pass.new.view.bits;
          reads = pass.new.view.reads;
        } }
        ensures phase { (pass.new.view.phase ≡ pass.old.view.phase)
            ⊎ (pass.new.view.phase ≡ released_phase pass.old.view.phase) }
        ensures gone { (k : ℕ) → ¬ HasBit pass.new.view k }
        ensures grants { (k : ℕ) → HasBit pass.old.view k → ¬ HasReadGrant pass.new.view k }
    {
        pass.clear_read_bits(&self.table);
    }

    /// Begins the pass's next call, and gives its number, from 1. What the pass has seen is the call's floor.
    pub fn begin(&self, pass: &mut Pass<S>) -> u32
        requires desk { pass.old.table ≡ self.now.table }
        requires phase { pass.old.view.phase ≡ Phase.Idle }
        requires room { pass.old.view.call < LAST_CALL }
        ensures desk { pass.new.table ≡ pass.old.table }
        ensures steps { pass.new.steps ≡ pass.old.steps + 1 }
        ensures number { result ≡ pass.old.view.call + 1 }
        ensures step { pass.new.view
            ≡ (begin_call_action (number pass.old.view) pass.old.view).view 0 }
        ensures taken { (found : ℕ) × TakenIn (RuleHolds S.Shape self.now)
            (begin_call_action (number pass.old.view) pass.old.view) pass.old.view found
            pass.new.view }
        ensures fits { ReadsArranged (AreGoodWords S.Shape self.now)
            self.now.seats self.now.base pass.new.view }
    {
        pass.begin_call(&self.table)
    }

    /// Loads the value of word a, under its lock. It is what the call's own events and all that was committed leave
    /// there, since whoever would change it has to wait. At the attempt's first use of the lock its version is loaded
    /// before, and noted.
    pub fn load(&self, pass: &mut Pass<S>, a: u64) -> u64
        requires desk { pass.old.table ≡ self.now.table }
        requires phase { pass.old.view.phase ≡ Phase.Running }
        requires word { a < length pass.old.view.base }
        requires granted { IsGranted pass.old.view (lock_of_word a) }
        ensures desk { pass.new.table ≡ pass.old.table }
        ensures steps { pass.new.steps + flag (has (lock_of_word a) (locks_found pass.old.view.uses))
            ≡ pass.old.steps + 2 }
        ensures event { pass.new.view
            ≡ record pass.old.view {
              trace = pass.old.view.trace ++ Read a result ∷ [];
              uses = pass.new.view.uses;
            } }
        ensures uses { GainsUse (lock_of_word a) pass.old.view.uses pass.new.view.uses }
        ensures taken { LoadedBy (RuleHolds S.Shape self.now) pass.old.view a result pass.new.view }
        ensures fits { ReadsArranged (AreGoodWords S.Shape self.now)
            self.now.seats self.now.base pass.new.view }
    {
        pass.find_version(&self.table, a);
        self.load_used(pass, a)
    }

    /// Finds the version of the lock of word a, which the attempt holds and has no use of yet: what `load` does first
    /// then.
    #[inline(always)]
    pub fn find_new(&self, pass: &mut Pass<S>, a: u64)
        requires desk { pass.old.table ≡ self.now.table }
        requires phase { pass.old.view.phase ≡ Phase.Running }
        requires granted { IsGranted pass.old.view (lock_of_word a) }
        requires unused { ¬ HasUseOf pass.old.view (lock_of_word a) }
        ensures desk { pass.new.table ≡ pass.old.table }
        ensures steps { pass.new.steps ≡ pass.old.steps + 1 }
        ensures view { pass.new.view ≡ record pass.old.view { uses = pass.new.view.uses } }
        ensures uses { (version : ℕ)
            × (pass.new.view.uses ≡ pass.old.view.uses ++ (lock_of_word a, version) ∷ []) }
        ensures taken { (found : ℕ) × TakenIn (RuleHolds S.Shape self.now)
            (load_version_action (number pass.old.view) (lock_of_word a) pass.old.view)
            pass.old.view found pass.new.view }
        ensures used { HasUseOf pass.new.view (lock_of_word a) }
    {
        pass.load_version(&self.table, a);
    }

    /// Loads the value of word a, whose lock the attempt has a use of: what `load` does then, by one step, with no test
    /// whether there is one.
    #[inline(always)]
    pub fn load_used(&self, pass: &mut Pass<S>, a: u64) -> u64
        requires desk { pass.old.table ≡ self.now.table }
        requires phase { pass.old.view.phase ≡ Phase.Running }
        requires word { a < length pass.old.view.base }
        requires used { HasUseOf pass.old.view (lock_of_word a) }
        ensures desk { pass.new.table ≡ pass.old.table }
        ensures steps { pass.new.steps ≡ pass.old.steps + 1 }
        ensures event { pass.new.view
            ≡ record pass.old.view { trace = pass.old.view.trace ++ Read a result ∷ [] } }
        ensures taken { TakenIn (RuleHolds S.Shape self.now)
            (load_value_action (number pass.old.view) a pass.old.view) pass.old.view result
            pass.new.view }
        ensures fits { ReadsArranged (AreGoodWords S.Shape self.now)
            self.now.seats self.now.base pass.new.view }
    {
        pass.load_value(&self.table, a)
    }

    /// Stores a value to word a in place, under its exclusive lock. The call has just read the word, and the value that
    /// it read is noted, so that the write can be undone.
    pub fn store(&self, pass: &mut Pass<S>, a: u64, value: u64)
        requires desk { pass.old.table ≡ self.now.table }
        requires phase { pass.old.view.phase ≡ Phase.Running }
        requires word { a < length pass.old.view.base }
        requires granted { HasWriteGrant pass.old.view (lock_of_word a) }
        requires read { (before : List Event) × (old : ℕ)
            × (pass.old.view.trace ≡ before ++ Read a old ∷ []) }
        ensures desk { pass.new.table ≡ pass.old.table }
        ensures steps { pass.new.steps ≡ pass.old.steps + 1 }
        ensures step { pass.new.view
            ≡ (store_value_action (number pass.old.view) a value pass.old.view).view 0 }
        ensures noted { (before : List Event) (old : ℕ)
            → pass.old.view.trace ≡ before ++ Read a old ∷ []
            → pass.new.view.undo ≡ pass.old.view.undo ++ (a, old) ∷ [] }
        ensures taken { (found : ℕ) × TakenIn (RuleHolds S.Shape self.now)
            (store_value_action (number pass.old.view) a value pass.old.view) pass.old.view found
            pass.new.view }
    {
        pass.store_value(&self.table, a, value);
    }

    /// Writes the newest note back: word a gets the value that it had before the write. No entry with this write can
    /// follow.
    pub fn undo_store(&self, pass: &mut Pass<S>, a: u64, old: u64)
        requires desk { pass.old.table ≡ self.now.table }
        requires phase { is_open pass.old.view.phase ≡ true }
        requires word { a < length pass.old.view.base }
        requires newest { (older : Notes) × (pass.old.view.undo ≡ older ++ (a, old) ∷ []) }
        ensures desk { pass.new.table ≡ pass.old.table }
        ensures steps { pass.new.steps ≡ pass.old.steps + 1 }
        ensures step { pass.new.view
            ≡ (undo_store_action (number pass.old.view) a old pass.old.view).view 0 }
        ensures undone { (older : Notes) → pass.old.view.undo ≡ older ++ (a, old) ∷ []
            → pass.new.view.undo ≡ older }
        ensures taken { (found : ℕ) × TakenIn (RuleHolds S.Shape self.now)
            (undo_store_action (number pass.old.view) a old pass.old.view) pass.old.view found
            pass.new.view }
    {
        pass.undo_store(&self.table, a, old);
    }

    /// Gives the call its entry: one store to a word of its pass alone, which no other pass writes. The entry knew all that
    /// the pass had seen, and so stands behind that in every arrangement. If `kept` is true
    /// the call's writes stand, and the caller owes that they leave good words; if it is false they are undone
    /// already. The locks are released afterwards (strict two-phase locking), each with its next version if the call
    /// wrote it.
    pub fn commit(&self, pass: &mut Pass<S>, kept: bool)
        requires desk { pass.old.table ≡ self.now.table }
        requires phase { is_attempt pass.old.view.phase ≡ true }
        requires runs { kept ≡ true → pass.old.view.phase ≡ Phase.Running }
        requires leaves_good { kept ≡ true → (words : List ℕ)
            → AreGoodWords S.Shape self.now words
            → IsLegalTrace pass.old.view.trace words
            → AreGoodWords S.Shape self.now (after pass.old.view.trace words) }
        requires undone { kept ≡ false → pass.old.view.undo ≡ [] }
        ensures desk { pass.new.table ≡ pass.old.table }
        ensures steps { pass.new.steps ≡ pass.old.steps + 1 }
        ensures entry { pass.new.view ≡ after_commit kept pass.old.view }
        ensures bounded { AreRestartsBounded self.now.seats (number pass.old.view) pass.old.view }
        ensures taken { (found : ℕ) × TakenIn (RuleHolds S.Shape self.now)
            (commit_call_action (number pass.old.view) kept pass.old.view) pass.old.view found
            pass.new.view }
        ensures knew { (x : Entry) → IsIn x pass.old.view.seen
            → Knew (entry_of kept pass.old.view) x }
    {
        pass.commit_call(&self.table, kept);
    }

    /// Ends the call, once all its locks are released. A call that ends without an entry did nothing.
    pub fn finish_call(&self, pass: &mut Pass<S>)
        requires desk { pass.old.table ≡ self.now.table }
        requires phase { (is_attempt pass.old.view.phase ≡ true)
            ⊎ (pass.old.view.phase ≡ Phase.Releasing) }
        requires no_bit { (k : ℕ) → ¬ HasBit pass.old.view k }
        requires no_claim { (k : ℕ) → ¬ HasClaim pass.old.view k }
        requires undone { pass.old.view.undo ≡ [] }
        ensures desk { pass.new.table ≡ pass.old.table }
        ensures steps { pass.new.steps ≡ pass.old.steps + 1 }
        ensures step { pass.new.view
            ≡ (clear_stamp_action (number pass.old.view) pass.old.view).view 0 }
        ensures bounded { AreRestartsBounded self.now.seats (number pass.old.view) pass.old.view }
        ensures taken { (found : ℕ) × TakenIn (RuleHolds S.Shape self.now)
            (clear_stamp_action (number pass.old.view) pass.old.view) pass.old.view found
            pass.new.view }
    {
        pass.clear_stamp(&self.table);
    }

    /// Draws the call's timestamp from the clock. A call draws one once it met another, and keeps it while it lasts.
    pub fn draw(&self, pass: &mut Pass<S>) -> u64
        requires desk { pass.old.table ≡ self.now.table }
        requires phase { pass.old.view.phase ≡ Phase.Running }
        requires unjudged { pass.old.view.met ≢ [] }
        requires unstamped { pass.old.view.stamp ≡ 0 }
        ensures desk { pass.new.table ≡ pass.old.table }
        ensures steps { pass.new.steps ≡ pass.old.steps + 1 }
        ensures step { pass.new.view
            ≡ record pass.old.view { stamp = result; draws = pass.old.view.draws + 1 } }
        ensures taken { (found : ℕ) × (result ≡ found + 1) × TakenIn (RuleHolds S.Shape self.now)
            (draw_stamp_action (number pass.old.view) pass.old.view) pass.old.view found
            pass.new.view }
    {
        pass.draw_stamp(&self.table)
    }

    /// Shows the call's timestamp to the other seats.
    pub fn announce(&self, pass: &mut Pass<S>)
        requires desk { pass.old.table ≡ self.now.table }
        requires phase { pass.old.view.phase ≡ Phase.Running }
        requires stamped { 0 < pass.old.view.stamp }
        requires unannounced { pass.old.view.announced ≡ false }
        ensures desk { pass.new.table ≡ pass.old.table }
        ensures steps { pass.new.steps ≡ pass.old.steps + 1 }
        ensures step { pass.new.view
            ≡ (announce_stamp_action (number pass.old.view) pass.old.view).view 0 }
        ensures taken { (found : ℕ) × TakenIn (RuleHolds S.Shape self.now)
            (announce_stamp_action (number pass.old.view) pass.old.view) pass.old.view found
            pass.new.view }
    {
        pass.announce_stamp(&self.table);
    }

    /// Looks at the timestamp of a seat that the call met. The attempt gives way exactly if that is above 0 and
    /// below the call's own. It is abandoned then.
    pub fn judge(&self, pass: &mut Pass<S>, other: u32) -> Judged
        requires desk { pass.old.table ≡ self.now.table }
        requires phase { pass.old.view.phase ≡ Phase.Running }
        requires announced { pass.old.view.announced ≡ true }
        requires other { other < pass.old.view.seats }
        requires met { has other pass.old.view.met ≡ true }
        ensures desk { pass.new.table ≡ pass.old.table }
        ensures steps { pass.new.steps ≡ pass.old.steps + 1 }
        ensures step { JudgedBy (RuleHolds S.Shape self.now) pass.old.view other result
            pass.new.view }
        ensures waits { result ≡ Judged.Wait
            → pass.new.view ≡ record pass.old.view { met = without other pass.old.view.met } }
        ensures found { (k : ℕ) → result ≡ Judged.Wait
            → has_pair k other pass.old.view.meetings ≡ true
            → FoundWait (RuleHolds S.Shape self.now) self.now.seats k other pass.new.view }
        ensures yields { (stamp : ℕ) → result ≡ Judged.Yield stamp
            → (0 < stamp) × (stamp < pass.old.view.stamp)
            × GaveWay (record { seat = other; stamp = stamp }) pass.old.view pass.new.view }
        ensures cause { (stamp : ℕ) → result ≡ Judged.Yield stamp
            → newest (past_causes pass.new.view) ≡ Some (record { seat = other; stamp = stamp }) }
        ensures bounded { AreRestartsBounded self.now.seats (number pass.old.view) pass.new.view }
    {
        pass.judge_stamp(&self.table, other)
    }

    /// Whether the cause to which the attempt gave way is gone: its seat shows another timestamp than this. Then the
    /// call makes a new attempt, with the timestamp that it has.
    pub fn gone(&self, pass: &mut Pass<S>, other: u32, stamp: u64) -> bool
        requires desk { pass.old.table ≡ self.now.table }
        requires phase { pass.old.view.phase ≡ Phase.Yielding }
        requires other { other < pass.old.view.seats }
        requires cause { newest (past_causes pass.old.view)
            ≡ Some (record { seat = other; stamp = stamp }) }
        requires no_bit { (k : ℕ) → ¬ HasBit pass.old.view k }
        requires no_claim { (k : ℕ) → ¬ HasClaim pass.old.view k }
        requires undone { pass.old.view.undo ≡ [] }
        ensures desk { pass.new.table ≡ pass.old.table }
        ensures steps { pass.new.steps ≡ pass.old.steps + 1 }
        ensures step { (found : ℕ) × (result ≡ not (found == stamp))
            × TakenIn (RuleHolds S.Shape self.now)
            (load_cause_stamp_action (number pass.old.view) other stamp pass.old.view)
            pass.old.view found pass.new.view }
        ensures restarts { result ≡ true
            → pass.new.view
            ≡ record pass.old.view { phase = Phase.Running; trace = []; uses = [] } }
        ensures waits { result ≡ false
            → pass.new.view ≡ record pass.old.view { waits = pass.old.view.waits + 1 } }
        ensures found { result ≡ false → WaitedForCause (RuleHolds S.Shape self.now) self.now.seats
            (record { seat = other; stamp = stamp }) pass.old.view }
        ensures fits { result ≡ true
            → ReadsArranged (AreGoodWords S.Shape self.now)
            self.now.seats self.now.base pass.new.view }
    {
        let shown = pass.load_cause_stamp(&self.table, other, stamp);
        shown != stamp
    }
}
