//! The laws of the conflict clock, each the contract of a function that does nothing.
//!
//! A call that meets another draws a timestamp, once, and keeps it until it ends. It gives way to a call that showed an
//! earlier one, and waits until that seat shows another number. By then every timestamp that this seat draws is later
//! than its own, since the clock stood at its own or above when it looked. So the seat is no cause of this call again,
//! and the call gives way less often than there are seats. `StampsHold` is what keeps this true between any two steps,
//! and each kind of step has a law here that says so of every state in which the lock invariant holds too.

ghost use Rattle.std.specs.Prelude.{◌≡◌, ℕ, List, [], ◌∷◌};
ghost use Rattle.history_model.specs.declared.view.View.{View};
ghost use Rattle.history_model.specs.Table.{Knows};
ghost use Rattle.locks_rule.specs.Actions.{Action, Keeps, found_by, words_after, views_after};
ghost use Rattle.locks_rule.specs.Joins.{MayTakeNote, left_by_note, note_of, MayMeetNote, after_note, MayJoinSeats, after_joining};
ghost use Rattle.locks_rule.specs.Locks.{LocksHold};
ghost use Rattle.locks_rule.specs.Splits.{MaySplitSeat, left_by_split, given_by_split};
ghost use Rattle.locks_rule.specs.Steps.{MaySetReadBit, MayClearReadBit, MayLoadWriter, MayClaimWriter, MayScanRow, MayReleaseWriter, set_read_bit_action, clear_read_bit_action, load_writer_action, claim_writer_action, scan_row_action, release_writer_action};
ghost use Rattle.stamps_rule.specs.Asides.{IsStampWord, SameStamps, BeginsCall, StoresCall, EndsCall, StoresNoStamp};
ghost use Rattle.stamps_rule.specs.Keeping.{KeepsStamps, KeepsStampsSplit, KeepsStampsJoin};
ghost use Rattle.stamps_rule.specs.Opening.{IsClockUnused};
ghost use Rattle.stamps_rule.specs.Stamps.{StampsHold, AreRestartsBounded};
ghost use Rattle.stamps_rule.specs.Steps.{MayDrawStamp, MayAnnounceStamp, MayJudgeStamp, MayLoadCauseStamp, draw_stamp_action, announce_stamp_action, judge_stamp_action, load_cause_stamp_action};

/// A seat that draws a timestamp keeps both invariants: no call has a later one, and this call had no cause before it.
pub fn draw_stamp()
    ensures locks { (n : ℕ) (base : List ℕ) (j : ℕ)
        → Keeps (LocksHold n base) (MayDrawStamp j) (draw_stamp_action j) }
    ensures stamps { (j : ℕ) → KeepsStamps (MayDrawStamp j) (draw_stamp_action j) }
{}

/// A seat that announces its timestamp keeps both invariants.
pub fn announce_stamp()
    ensures locks { (n : ℕ) (base : List ℕ) (j : ℕ)
        → Keeps (LocksHold n base) (MayAnnounceStamp j) (announce_stamp_action j) }
    ensures stamps { (j : ℕ) → KeepsStamps (MayAnnounceStamp j) (announce_stamp_action j) }
{}

/// A seat that looks at the timestamp of one that it met, and gives way at once if that is a cause, keeps both
/// invariants: the cause is none that it waited for before. It needs no word that all share.
pub fn judge_stamp()
    ensures locks { (n : ℕ) (base : List ℕ) (j i : ℕ)
        → Keeps (LocksHold n base) (MayJudgeStamp j i) (judge_stamp_action j i) }
    ensures stamps { (j i : ℕ) → KeepsStamps (MayJudgeStamp j i) (judge_stamp_action j i) }
{}

/// A seat that looks whether its cause is gone keeps both invariants. If it is, that seat's later timestamps are
/// later than the own.
pub fn load_cause_stamp()
    ensures locks { (n : ℕ) (base : List ℕ) (j i stamp : ℕ)
        → Keeps (LocksHold n base) (MayLoadCauseStamp j i stamp)
        (load_cause_stamp_action j i stamp) }
    ensures stamps { (j i stamp : ℕ)
        → KeepsStamps (MayLoadCauseStamp j i stamp) (load_cause_stamp_action j i stamp) }
{}

/// The timestamp invariant holds of a table as it begins, if the lock invariant does.
pub fn opening()
    ensures { (n : ℕ) (base words : List ℕ) (views : List View)
        → LocksHold n base words views → IsClockUnused n words views → StampsHold n words views }
{}

/// A view that gives up its first number to a new seat keeps the timestamp invariant.
pub fn split_seat()
    ensures { (j : ℕ) → KeepsStampsSplit (MaySplitSeat j) left_by_split given_by_split }
{}

/// A view between calls that gives off a note keeps the timestamp invariant: a note has no number and no timestamp.
pub fn take_note()
    ensures { KeepsStampsSplit MayTakeNote left_by_note note_of }
{}

/// A view that takes in a note keeps the timestamp invariant: both are between calls.
pub fn meet_note()
    ensures { KeepsStampsJoin MayMeetNote after_note }
{}

/// A view that takes in another with its numbers keeps the timestamp invariant: none of them shows a timestamp.
pub fn join_seats()
    ensures { KeepsStampsJoin MayJoinSeats after_joining }
{}

/// A step of any kind keeps the timestamp invariant if its word is not the clock, of no calls and of no timestamp,
/// and the seat then knows the same of timestamps.
pub fn aside()
    ensures { (n : ℕ) (base words : List ℕ) (views : List View) (id : ℕ) (v : View)
        (action : Action)
        → LocksHold n base words views → StampsHold n words views → Knows views id v
        → ¬ IsStampWord n action.at
        → SameStamps v (action.view (found_by action words))
        → StampsHold n (words_after action words) (views_after action id words views) }
{}

/// A step of any kind with which a call begins keeps the timestamp invariant: there is one call more, so the clock
/// leaves a timestamp for it.
pub fn opens()
    ensures { (n : ℕ) (base words : List ℕ) (views : List View) (id j : ℕ) (v : View)
        (action : Action)
        → LocksHold n base words views → StampsHold n words views → Knows views id v
        → StoresCall n j words action
        → BeginsCall j v (action.view (found_by action words))
        → StampsHold n (words_after action words) (views_after action id words views) }
{}

/// A step of any kind with which a call and its timestamp end keeps the timestamp invariant: whoever waits for this
/// seat has its cause gone.
pub fn ends()
    ensures { (n : ℕ) (base words : List ℕ) (views : List View) (id j : ℕ) (v : View)
        (action : Action)
        → LocksHold n base words views → StampsHold n words views → Knows views id v
        → StoresNoStamp n j words action
        → EndsCall j v (action.view (found_by action words))
        → StampsHold n (words_after action words) (views_after action id words views) }
{}

/// A seat that sets its read bit keeps the timestamp invariant.
pub fn set_read_bit()
    ensures { (j k a : ℕ) → KeepsStamps (MaySetReadBit j k a) (set_read_bit_action j k a) }
{}

/// A seat that looks at a writer word keeps the timestamp invariant. Whom it meets is noted in its meetings.
pub fn load_writer()
    ensures { (j k a : ℕ) → KeepsStamps (MayLoadWriter j k a) (load_writer_action j k a) }
{}

/// A seat that claims a writer word keeps the timestamp invariant. Whom it meets is noted in its meetings.
pub fn claim_writer()
    ensures { (j k a : ℕ) → KeepsStamps (MayClaimWriter j k a) (claim_writer_action j k a) }
{}

/// A seat that scans another's row keeps the timestamp invariant. Whom it meets is noted in its meetings.
pub fn scan_row()
    ensures { (j k i : ℕ) → KeepsStamps (MayScanRow j k i) (scan_row_action j k i) }
{}

/// A seat that clears its read bit keeps the timestamp invariant.
pub fn clear_read_bit()
    ensures { (j k : ℕ) → KeepsStamps (MayClearReadBit j k) (clear_read_bit_action j k) }
{}

/// A seat that gives its claim up keeps the timestamp invariant.
pub fn release_writer()
    ensures { (j k : ℕ) → KeepsStamps (MayReleaseWriter j k) (release_writer_action j k) }
{}

/// The restart bound: in every state that both invariants allow, the call of a seat gave way less often than there are
/// seats, each time to another seat that it had met.
pub fn restart_bound()
    ensures { (n : ℕ) (base words : List ℕ) (views : List View) (id j : ℕ) (v : View)
        → LocksHold n base words views → StampsHold n words views → Knows views id v
        → v.who ≡ j ∷ [] → AreRestartsBounded n j v }
{}
