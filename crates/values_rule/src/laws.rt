//! The laws of values, each the contract of a function that does nothing.
//!
//! A seat writes in place, under the exclusive lock of the word, and keeps its locks until its call has its entry
//! (strict two-phase locking). At its first use of a lock an attempt finds the lock's version, and for each lock that a
//! kept call wrote it stores the next version before it gives the lock up. So two calls that used one lock against each
//! other know by the versions that they found which came first, and no word needs to count them. An order of what was
//! done that respects these uses and what each pass had seen is an arrangement. `ValuesHold` says that there is one,
//! and that a word has the value that its newest version leaves. Each kind of step has a law here that says so of every
//! state in which the lock invariant holds too; that the kind keeps the lock invariant is the clause `locks`, if no
//! law of `locks_rule` says it.

ghost use Rattle.std.specs.Prelude.{ℕ, List, Bool};
ghost use Rattle.locks_rule.specs.Actions.{Keeps};
ghost use Rattle.locks_rule.specs.Joins.{MayMeetNote, MayJoinSeats, MayTakeNote, after_note, after_joining, left_by_note, note_of};
ghost use Rattle.locks_rule.specs.Locks.{LocksHold};
ghost use Rattle.locks_rule.specs.Splits.{MaySplitSeat, left_by_split, given_by_split};
ghost use Rattle.locks_rule.specs.Steps.{MaySetReadBit, MayClearReadBit, MayLoadWriter, MayClaimWriter, MayScanRow, set_read_bit_action, clear_read_bit_action, load_writer_action, claim_writer_action, scan_row_action, release_writer_action};
ghost use Rattle.values_rule.specs.Steps.{load_value_action, store_value_action, undo_store_action, clear_stamp_action, begin_call_action};
ghost use Rattle.values_rule.specs.Closing.{OfEveryArrangement, ArePlaced, LeavesGoodWords, AttemptsAreLegal, UndoingRestores, OfOneForAll, AgreeWithTable, HasArrangement, MemoryIsLeft};
ghost use Rattle.values_rule.specs.Keeping.{KeepsValueRule, KeepsValueRuleSplit, KeepsValueRuleJoin, GivingWayKeeps, RestartKeeps, GivingUpKeeps, QuietKeeps, AsideKeeps};
ghost use Rattle.values_rule.specs.Opening.{OpeningHolds};
ghost use Rattle.locks_rule.specs.Versions.{MayLoadVersion, load_version_action, MayStoreVersion, store_version_action, MayReleaseUnowed};
ghost use Rattle.values_rule.specs.Steps.{MayBeginCall, MayLoadValue, MayStoreValue, MayUndoStore, MayCommitCall, commit_call_action, MayClearStamp};

use history_model::Shape;

/// A seat that begins a call keeps both invariants: what its pass has seen is the call's floor.
pub fn begin_call<S: Shape>()
    ensures locks { (n : ℕ) (base : List ℕ) (j : ℕ)
        → Keeps (LocksHold n base) (MayBeginCall j) (begin_call_action j) }
    ensures values { (shape : _) (j : ℕ)
        → KeepsValueRule (S.good shape) (MayBeginCall j) (begin_call_action j) }
{}

/// A seat that loads the version of a lock that it holds keeps both invariants: nobody owes the lock a version, so what
/// it finds is the version that the lock has next.
pub fn load_version<S: Shape>()
    ensures locks { (n : ℕ) (base : List ℕ) (j k : ℕ)
        → Keeps (LocksHold n base) (MayLoadVersion j k) (load_version_action j k) }
    ensures values { (shape : _) (j k : ℕ)
        → KeepsValueRule (S.good shape) (MayLoadVersion j k) (load_version_action j k) }
{}

/// A seat that loads a value under a lock whose version it found keeps both invariants: the value is what its own
/// events and the newest values leave.
pub fn load_value<S: Shape>()
    ensures locks { (n : ℕ) (base : List ℕ) (j a : ℕ)
        → Keeps (LocksHold n base) (MayLoadValue j a) (load_value_action j a) }
    ensures values { (shape : _) (j a : ℕ)
        → KeepsValueRule (S.good shape) (MayLoadValue j a) (load_value_action j a) }
{}

/// A seat that stores a value under the exclusive lock, with the old one noted, keeps both invariants.
pub fn store_value<S: Shape>()
    ensures locks { (n : ℕ) (base : List ℕ) (j a x : ℕ)
        → Keeps (LocksHold n base) (MayStoreValue j a) (store_value_action j a x) }
    ensures values { (shape : _) (j a x : ℕ)
        → KeepsValueRule (S.good shape) (MayStoreValue j a) (store_value_action j a x) }
{}

/// A seat that writes its newest note back keeps both invariants.
pub fn undo_store<S: Shape>()
    ensures locks { (n : ℕ) (base : List ℕ) (j a old : ℕ)
        → Keeps (LocksHold n base) (MayUndoStore j a old) (undo_store_action j a old) }
    ensures values { (shape : _) (j a old : ℕ)
        → KeepsValueRule (S.good shape) (MayUndoStore j a old) (undo_store_action j a old) }
{}

/// A seat that commits keeps both invariants, whether its writes are kept or not, and stores to a word of its own: its
/// entry may stand behind all others, since every version that it used is the newest.
pub fn commit_call<S: Shape>()
    ensures locks { (shape : _) (n : ℕ) (base : List ℕ) (j : ℕ) (kept : Bool)
        → Keeps (LocksHold n base) (MayCommitCall (S.good shape) j kept)
        (commit_call_action j kept) }
    ensures values { (shape : _) (j : ℕ) (kept : Bool)
        → KeepsValueRule (S.good shape) (MayCommitCall (S.good shape) j kept)
        (commit_call_action j kept) }
{}

/// A seat that raises the version of a lock that its kept call wrote keeps both invariants: the version that the lock
/// has next stays, since it was owed.
pub fn store_version<S: Shape>()
    ensures locks { (n : ℕ) (base : List ℕ) (j k x : ℕ)
        → Keeps (LocksHold n base) (MayStoreVersion j k x) (store_version_action j k x) }
    ensures values { (shape : _) (j k x : ℕ)
        → KeepsValueRule (S.good shape) (MayStoreVersion j k x) (store_version_action j k x) }
{}

/// A seat that ends its call keeps both invariants: it has no lock, and nothing to undo.
pub fn clear_stamp<S: Shape>()
    ensures locks { (n : ℕ) (base : List ℕ) (j : ℕ)
        → Keeps (LocksHold n base) (MayClearStamp j) (clear_stamp_action j) }
    ensures values { (shape : _) (j : ℕ)
        → KeepsValueRule (S.good shape) (MayClearStamp j) (clear_stamp_action j) }
{}

/// A seat that sets its read bit keeps the value invariant.
pub fn set_read_bit<S: Shape>()
    ensures { (shape : _) (j k a : ℕ)
        → KeepsValueRule (S.good shape) (MaySetReadBit j k a) (set_read_bit_action j k a) }
{}

/// A seat that looks at a writer word keeps the value invariant.
pub fn load_writer<S: Shape>()
    ensures { (shape : _) (j k a : ℕ)
        → KeepsValueRule (S.good shape) (MayLoadWriter j k a) (load_writer_action j k a) }
{}

/// A seat that claims a writer word keeps the value invariant.
pub fn claim_writer<S: Shape>()
    ensures { (shape : _) (j k a : ℕ)
        → KeepsValueRule (S.good shape) (MayClaimWriter j k a) (claim_writer_action j k a) }
{}

/// A seat that scans another's row keeps the value invariant.
pub fn scan_row<S: Shape>()
    ensures { (shape : _) (j k i : ℕ)
        → KeepsValueRule (S.good shape) (MayScanRow j k i) (scan_row_action j k i) }
{}

/// A seat that clears its read bit keeps the value invariant: nothing is left to undo, and no attempt goes on.
pub fn clear_read_bit<S: Shape>()
    ensures { (shape : _) (j k : ℕ)
        → KeepsValueRule (S.good shape) (MayClearReadBit j k) (clear_read_bit_action j k) }
{}

/// A seat that gives up the claim of a lock that is owed no version keeps the value invariant.
pub fn release_writer<S: Shape>()
    ensures { (shape : _) (j k : ℕ)
        → KeepsValueRule (S.good shape) (MayReleaseUnowed j k) (release_writer_action j k) }
{}

/// A load with which an attempt gives way keeps the value invariant, and reads no word that all share: what the attempt
/// did may stand behind all that was committed.
pub fn gives_way<S: Shape>()
    ensures { (shape : _) → GivingWayKeeps (S.good shape) }
{}

/// A call that makes another attempt keeps the value invariant.
pub fn restarts<S: Shape>()
    ensures { (shape : _) → RestartKeeps (S.good shape) }
{}

/// A call that is given up keeps the value invariant: its attempts wrote nothing, and go out of the items.
pub fn gives_up<S: Shape>()
    ensures { (shape : _) → GivingUpKeeps (S.good shape) }
{}

/// A seat that makes no attempt and gives up a lock, or ends its call, keeps the value invariant.
pub fn quiet<S: Shape>()
    ensures { (shape : _) → QuietKeeps (S.good shape) }
{}

/// A step on a word of another rule, after which the seat knows the same of calls and values and has all locks that it
/// had, keeps the value invariant. A call may have got its timestamp.
pub fn aside<S: Shape>()
    ensures { (shape : _) → AsideKeeps (S.good shape) }
{}

/// A view that gives up its first number to a new seat keeps the value invariant.
pub fn split_seat<S: Shape>()
    ensures { (shape : _) (j : ℕ)
        → KeepsValueRuleSplit (S.good shape) (MaySplitSeat j) left_by_split given_by_split }
{}

/// A view that gives off a note keeps the value invariant: the note has seen what the view has.
pub fn take_note<S: Shape>()
    ensures { (shape : _) → KeepsValueRuleSplit (S.good shape) MayTakeNote left_by_note note_of }
{}

/// A view that takes in a note keeps the value invariant: it has then seen what either had seen, each entry once.
pub fn meet_note<S: Shape>()
    ensures { (shape : _) → KeepsValueRuleJoin (S.good shape) MayMeetNote after_note }
{}

/// A view that takes in another with its numbers keeps the value invariant.
pub fn join_seats<S: Shape>()
    ensures { (shape : _) → KeepsValueRuleJoin (S.good shape) MayJoinSeats after_joining }
{}

/// The value invariant holds of a table as it begins.
pub fn opening<S: Shape>()
    ensures { (shape : _) → OpeningHolds (S.good shape) }
{}

/// In every state every arrangement is a legal history: each item stands where its trace is legal, behind what its pass
/// had seen; each front leaves good words, and so does the whole. What an open attempt has done is legal behind all.
pub fn every_arrangement_legal<S: Shape>()
    ensures placed { (shape : _) → OfEveryArrangement (S.good shape) (ArePlaced (S.good shape)) }
    ensures leaves_good { (shape : _)
        → OfEveryArrangement (S.good shape) (LeavesGoodWords (S.good shape)) }
    ensures attempts_legal { (shape : _) → OfEveryArrangement (S.good shape) AttemptsAreLegal }
{}

/// In every state the memory with all unfinished writes taken back is what every arrangement leaves.
pub fn undoing_restores<S: Shape>()
    ensures { (shape : _) → UndoingRestores (S.good shape) }
{}

/// Once one view between calls has all numbers, its entries are all that were committed: they agree with the versions
/// in the table, they have an arrangement, and the memory is what each of their arrangements leaves.
pub fn closed_by_all<S: Shape>()
    ensures agree { (shape : _) → OfOneForAll (S.good shape) (AgreeWithTable (S.good shape)) }
    ensures arranged { (shape : _) → OfOneForAll (S.good shape) HasArrangement }
    ensures memory { (shape : _) → OfOneForAll (S.good shape) MemoryIsLeft }
{}
