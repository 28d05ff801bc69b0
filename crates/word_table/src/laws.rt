//! The laws of the table, each the contract of a function that does nothing.

ghost use Rattle.std.specs.Prelude.{◌≡◌, ℕ, List, [], ◌∷◌, Some, slice_get};
ghost use Rattle.history_model.specs.declared.view.View.{View};
ghost use Rattle.history_model.specs.Fitting.{IsGood};
ghost use Rattle.history_model.specs.Table.{TableState, Knows};
ghost use Rattle.locks_rule.specs.Actions.{Keeps, words_after, views_after};
ghost use Rattle.locks_rule.specs.Joins.{KeepsJoin, MayTakeNote, left_by_note, note_of, MayMeetNote, MayJoinSeats};
ghost use Rattle.locks_rule.specs.Joins.{after_note, after_joining};
ghost use Rattle.locks_rule.specs.Splits.{KeepsSplit, MaySplitSeat, left_by_split, given_by_split};
ghost use Rattle.word_table.specs.declared.step.Step.{Step};
ghost use Rattle.word_table.specs.Kinds.{action_of, May};
ghost use Rattle.word_table.specs.Meetings.{ClockCountsDraws, EntriesStand, EntriesStay, IsArranged, LaterStandBehind, MeetsInConflict, NeverMeetsApart, NumbersStayBelow, OnlyDrawsMoveClock, ReadsOneState, RestartsFew, SeatsAreDealt, StampsAreKept};
ghost use Rattle.word_table.specs.Runs.{IsOpening, IsRun, Steps};
ghost use Rattle.word_table.specs.Sound.{IsSound};
ghost use Rattle.word_table.specs.Waits.{HasNoCircle, HasNoDeadlock, LooksAreWaits, WaitsArise, WaitsEnd};
ghost use Rattle.word_table.specs.Writes.{HaveNoCommonWord, WritesOwnAndAsked};

use crate::limits::{LAST_CALL, MOST_PASSES, MOST_WORDS};
use history_model::Shape;

/// Every kind of step keeps the whole rule, from every state in which a seat may take it.
pub fn every_step<S: Shape>()
    ensures { (shape : _) (n : ℕ) (base : List ℕ) (step : Step)
        → Keeps (IsSound (IsGood (S.word_count shape) (S.good shape)) n base)
        (May (IsGood (S.word_count shape) (S.good shape)) step) (action_of step) }
{}

/// A view that is cut keeps the whole rule: one that gives up a number to a new seat, and one that gives off a note.
pub fn every_cut<S: Shape>()
    ensures seats { (shape : _) (n : ℕ) (base : List ℕ) (j : ℕ)
        → KeepsSplit (IsSound (IsGood (S.word_count shape) (S.good shape)) n base) (MaySplitSeat j)
        left_by_split given_by_split }
    ensures notes { (shape : _) (n : ℕ) (base : List ℕ)
        → KeepsSplit (IsSound (IsGood (S.word_count shape) (S.good shape)) n base) MayTakeNote
        left_by_note note_of }
{}

/// Two views that are joined keep the whole rule: one that takes in a note, and one that takes in another's numbers.
pub fn every_join<S: Shape>()
    ensures notes { (shape : _) (n : ℕ) (base : List ℕ)
        → KeepsJoin (IsSound (IsGood (S.word_count shape) (S.good shape)) n base) MayMeetNote
        after_note }
    ensures seats { (shape : _) (n : ℕ) (base : List ℕ)
        → KeepsJoin (IsSound (IsGood (S.word_count shape) (S.good shape)) n base) MayJoinSeats
        after_joining }
{}

/// Every state of every run meets the rule: for every shape, every number of seats, every good memory to begin with,
/// and every list of steps in any order of seats. The steps are those that the calls of a desk are made of: all kinds
/// of `Step`, the cut of a view into seats or into a note, and the join of two, of a view and a note or of two seats.
pub fn every_run<S: Shape>()
    ensures { (shape : _) (n : ℕ) (base : List ℕ) (run : List TableState)
        → IsGood (S.word_count shape) (S.good shape) base
        → IsRun (IsGood (S.word_count shape) (S.good shape)) n base run
        → (p : ℕ) (state : TableState) → slice_get run p ≡ Some state
        → IsSound (IsGood (S.word_count shape) (S.good shape)) n base state.words state.views }
{}

/// Of each meeting, in every state of every run: by whatever step a call meets another on a lock, both asked for a
/// word of this lock, and the other's read bit or claim stands on it (`conflict`). So calls whose words share no lock
/// never meet (`apart`).
pub fn every_meeting<S: Shape>()
    ensures conflict { (shape : _) (n : ℕ) (base : List ℕ)
        → MeetsInConflict (IsGood (S.word_count shape) (S.good shape)) n base }
    ensures apart { (shape : _) (n : ℕ) (base : List ℕ)
        → NeverMeetsApart (IsGood (S.word_count shape) (S.good shape)) n base }
{}

/// Of each call, in every state of every run: it gave way less often than there are seats, each time to another seat,
/// which it had met, and never twice to the same (`restarts`). It has one timestamp at most: what it drew it keeps in
/// every later state of the run, until it ends (`stamps`).
pub fn every_call<S: Shape>()
    ensures restarts { (shape : _) (n : ℕ) (base : List ℕ)
        → RestartsFew (IsGood (S.word_count shape) (S.good shape)) n base }
    ensures stamps { (shape : _) (n : ℕ) (base : List ℕ)
        → StampsAreKept (IsGood (S.word_count shape) (S.good shape)) n base }
{}

/// Of the clock, in every state of every run: it says how many timestamps were drawn by all seats (`counts`), and so no
/// step but one that draws a timestamp changes it (`alone`).
pub fn every_draw<S: Shape>()
    ensures counts { (shape : _) (n : ℕ) (base : List ℕ)
        → ClockCountsDraws (IsGood (S.word_count shape) (S.good shape)) n base }
    ensures alone { (shape : _) (n : ℕ) (base : List ℕ)
        → OnlyDrawsMoveClock (IsGood (S.word_count shape) (S.good shape)) n base }
{}

/// Of the numbers in the table, in every state of every run of so many seats as a desk may have: all seats together began
/// fewer than 2^37 calls, and no timestamp and no version is as great.
pub fn every_number<S: Shape>()
    ensures { (shape : _) (n : ℕ) (base : List ℕ)
        → NumbersStayBelow (IsGood (S.word_count shape) (S.good shape)) n base }
{}

/// Of all that was done, in every state of every run: it has an arrangement (`arranged`), and in each one every attempt
/// that gave way, and every entry, stands where its trace is legal and behind all that its pass had seen as the call
/// began (`opacity`). An entry that was made stands in every later state (`stays`), and there in each arrangement if
/// good words come of what stands before it and its trace is legal on them (`entries`). What a pass has seen stands
/// before the entry of each call that it begins later (`later`).
pub fn every_arrangement<S: Shape>()
    ensures arranged { (shape : _) (n : ℕ) (base : List ℕ)
        → IsArranged (IsGood (S.word_count shape) (S.good shape)) n base }
    ensures opacity { (shape : _) (n : ℕ) (base : List ℕ)
        → ReadsOneState (IsGood (S.word_count shape) (S.good shape)) n base }
    ensures stays { (shape : _) (n : ℕ) (base : List ℕ)
        → EntriesStay (IsGood (S.word_count shape) (S.good shape)) n base }
    ensures entries { (shape : _) (n : ℕ) (base : List ℕ)
        → EntriesStand (IsGood (S.word_count shape) (S.good shape)) n base }
    ensures later { (shape : _) (n : ℕ) (base : List ℕ)
        → LaterStandBehind (IsGood (S.word_count shape) (S.good shape)) n base }
{}

/// Of the words that a call writes, in every state of every run: a step is a load, or else its word is one of its seat's
/// own, or one of a lock that the call asked for, or the clock, if the call has met another, whatever is written there
/// (`own`). So two calls that asked for no common lock write no common word but the clock (`apart`).
pub fn every_write<S: Shape>()
    ensures own { (shape : _) (n : ℕ) (base : List ℕ)
        → WritesOwnAndAsked (IsGood (S.word_count shape) (S.good shape)) n base }
    ensures apart { HaveNoCommonWord }
{}

/// Of who waits for whom, in every state of every run: a look that leaves an attempt as it was is a wait for the seat
/// that was looked at (`looks`), and waits do arise (`arise`). No seats wait for one another in a circle (`circle`), and
/// no set of seats is such that each waits for one of them (`deadlock`): from each call waits lead to one that waits for
/// no seat (`ends`). That this one goes on, no clause says.
pub fn every_wait<S: Shape>()
    ensures looks { (shape : _) (n : ℕ) (base : List ℕ)
        → LooksAreWaits (IsGood (S.word_count shape) (S.good shape)) n base }
    ensures arise { (shape : _) (base : List ℕ)
        → WaitsArise (IsGood (S.word_count shape) (S.good shape)) base }
    ensures circle { (shape : _) (n : ℕ) (base : List ℕ)
        → HasNoCircle (IsGood (S.word_count shape) (S.good shape)) n base }
    ensures deadlock { (shape : _) (n : ℕ) (base : List ℕ)
        → HasNoDeadlock (IsGood (S.word_count shape) (S.good shape)) n base }
    ensures ends { (shape : _) (n : ℕ) (base : List ℕ)
        → WaitsEnd (IsGood (S.word_count shape) (S.good shape)) n base }
{}

/// Runs get to where calls begin: for every good memory and every number of seats above 0, some run comes to a state in
/// which each number has a seat of its own that did nothing yet, and the words are as they began.
pub fn every_deal<S: Shape>()
    ensures { (shape : _) (n : ℕ) (base : List ℕ)
        → SeatsAreDealt (IsGood (S.word_count shape) (S.good shape)) n base }
{}

/// The opening alone is a run.
pub fn opening_run<S: Shape>()
    ensures { (shape : _) (n : ℕ) (base : List ℕ) (state : TableState) → IsOpening n base state
        → IsRun (IsGood (S.word_count shape) (S.good shape)) n base (state ∷ []) }
{}

/// A step that a seat may take leads from each state on to the state that the step leaves.
pub fn step_leads<S: Shape>()
    ensures { (shape : _) (state : TableState) (step : Step) (place : ℕ) (view : View)
        → Knows state.views place view → May (IsGood (S.word_count shape) (S.good shape)) step view
        → Steps (IsGood (S.word_count shape) (S.good shape)) state (record {
          words = words_after (action_of step view) state.words;
          views = views_after (action_of step view) place state.words state.views;
        }) }
{}

/// The greatest numbers of passes, of words, and of a pass's calls, in digits. All else cites the constants.
pub fn greatest_sizes()
    ensures passes { MOST_PASSES ≡ 32 }
    ensures words { MOST_WORDS ≡ 1048576 }
    ensures calls { LAST_CALL ≡ 4294967295 }
{}
