//! One transaction.

ghost use Rattle.std.specs.Prelude.{◌≡◌, ℕ, ◌+◌, ◌<◌, ◌≤◌, [], List, length, true, false, None, Some, Ok, IfOk, OnErr, OnOk, ◌⊎◌};
ghost use Rattle.history_model.specs.declared.entry.Entry.{Entry};
ghost use Rattle.history_model.specs.Counts.{is_attempt};
ghost use Rattle.history_model.specs.Fitting.{Fits};
ghost use Rattle.history_model.specs.Legal.{IsIn};
ghost use Rattle.history_model.specs.Traces.{after};
ghost use Rattle.history_model.specs.Views.{number};
ghost use Rattle.locks_rule.specs.Versions.{uses_of};
ghost use Rattle.stamps_rule.specs.Causes.{newest, past_causes};
ghost use Rattle.txn_words.specs.Verdicts.{is_kept, answer_of};
ghost use Rattle.values_rule.specs.Records.{Knew};
ghost use Rattle.values_rule.specs.Steps.{after_commit, entry_of};
ghost use Rattle.word_table.specs.Calls.{ReadsArranged};
ghost use Rattle.word_table.specs.Copies.{HoldsNothing};
ghost use Rattle.word_table.specs.declared.limits.TheConstants.{LAST_CALL};
ghost use Rattle.txn_commit.specs.Uses.{ListsUses};
ghost use Rattle.txn_commit.specs.Inner.Releasing.{Undoes};
ghost use Rattle.txn_commit.specs.Attempts.{IsSoundAttempt, StaysInCall, stop_of};
ghost use Rattle.txn_commit.specs.Transactions.{AsksItsFootprint, EndsWithoutEntry, GetsEntry, IsMeant, LeavesFootprint, SameSeat};
ghost use Rattle.word_table.specs.Desks.{AreGoodWords, RuleHolds};
ghost use Rattle.word_table.specs.Waits.{WaitedForCause};

use crate::attempt::{Attempt, Caller, Halt, UNDO_ROOM, tell};
use crate::release::release_all;
use crate::rollback::{undo_all, undo_unless};
use crossbeam_utils::Backoff;
use history_model::{Cause, LockUse, Phase, Shape};
use io_ends::OutOfMemory;
use std::alloc::Global;
use std::snapshot::Snapshot;
use std::sync::Wait;
use txn_words::{Job, Stop, Verdict};
use undo_log::UndoLog;
use word_table::{Desk, Pass};
use worker_gate::{Gate, OpenGate, Stage};

/// What a transaction came to.
#[derive(Debug, PartialEq, Eq, Drop)]
pub struct Receipt<A> {
    /// Which of its seat's calls it is, from 1.
    pub call: u32,
    /// How many attempts gave way before the one that was committed.
    pub restarts: u32,
    /// The locks that the attempt which was committed used, by rising lock: each with the version that it found there, and
    /// whether a write of it stands.
    pub uses: Vec<LockUse>,
    /// What the job answers.
    pub answer: A,
}

// Waits until the cause to which the attempt gave way is gone. Then the call may make another attempt.
fn wait_out<R: Wait, S: Shape>(rt: &R, desk: &Desk<S>, pass: &mut Pass<S>, cause: Cause)
    requires desk { pass.old.table ≡ desk.now.table }
    requires phase { pass.old.view.phase ≡ Phase.Yielding }
    requires other { cause.seat < pass.old.view.seats }
    requires cause { newest (past_causes pass.old.view) ≡ Some cause }
    requires nothing { HoldsNothing pass.old.view }
    requires undone { pass.old.view.undo ≡ [] }
    ensures desk { pass.new.table ≡ pass.old.table }
    ensures restarts { pass.new.view ≡ record pass.old.view {
      phase = Phase.Running;
      trace = [];
      uses = [];
      waits = pass.new.view.waits;
    } }
    ensures found { (waits : ℕ) → pass.old.view.waits ≤ waits → waits < pass.new.view.waits
        → WaitedForCause (RuleHolds S.Shape desk.now) desk.now.seats cause
        (record pass.old.view { waits = waits }) }
    ensures fits { ReadsArranged (AreGoodWords S.Shape desk.now)
        desk.now.seats desk.now.base pass.new.view }
{
    let backoff = Backoff::new();
    for _ in rt.forever() {
        if desk.gone(pass, cause.seat, cause.stamp) {
            return;
        }
        backoff.snooze();
    }
    unreachable!()
}

// The cause of an attempt that gave way.
fn cause_of(halt: Option<Halt>) -> Cause
    requires { stop_of halt ≡ Some Stop.Yield }
    ensures { halt ≡ Some (Halt.Yield result) }
{
    let Some(Halt::Yield(cause)) = halt else {
        unreachable!()
    };
    cause
}

// Undoes and releases all of an attempt that gave way to this cause, and waits until the cause is gone. Then the
// attempt is set back: the call makes another one.
fn give_way<S: Shape, G: Gate, R: Wait>(attempt: &mut Attempt<S, G, R>, cause: Cause)
    requires sound { IsSoundAttempt S.word_count S.good attempt.old.desk.now attempt.old.began.value
        attempt.old.pass.now attempt.old.undo attempt.old.halt }
    requires halted { attempt.old.halt ≡ Some (Halt.Yield cause) }
    ensures name { attempt.new.pass.ghost_name ≡ attempt.old.pass.ghost_name }
    ensures desk { attempt.new.desk.now ≡ attempt.old.desk.now }
    ensures sound { IsSoundAttempt S.word_count S.good attempt.new.desk.now attempt.new.began.value
        attempt.new.pass.now attempt.new.undo attempt.new.halt }
    ensures going { attempt.new.halt ≡ None }
    ensures began { attempt.new.began.value ≡ attempt.new.pass.now }
    ensures fresh { attempt.new.pass.now.view.trace ≡ [] }
    ensures call { StaysInCall attempt.old.pass.now.view attempt.new.pass.now.view }
    ensures abandoned { attempt.new.pass.now.view.abandoned ≡ attempt.old.pass.now.view.abandoned }
{
    undo_all(attempt.desk, attempt.pass, &mut attempt.undo);
    release_all(attempt.desk, attempt.pass);
    tell(
        attempt,
        Stage::Yielded {
            seat: cause.seat,
            stamp: cause.stamp,
        },
    );
    wait_out(attempt.rt, attempt.desk, attempt.pass, cause);
    attempt.halt = None;
    attempt.began = Snapshot::of(&*attempt.pass);
}

// Keeps the attempt's writes or else undoes them, lists what it used, and commits it. It gives the list. If there is no
// memory for that, all is undone, and there is no entry.
fn commit_or_undo<S: Shape, G: Gate, R: Wait>(
    alloc: Global,
    attempt: &mut Attempt<S, G, R>,
    kept: bool,
) -> Result<Vec<LockUse>, OutOfMemory>
    requires sound { IsSoundAttempt S.word_count S.good attempt.old.desk.now attempt.old.began.value
        attempt.old.pass.now attempt.old.undo attempt.old.halt }
    requires going { attempt.old.halt ≡ None }
    requires leaves_good { kept ≡ true → (s : List ℕ)
        → Fits (S.word_count attempt.old.desk.now.shape) (S.good attempt.old.desk.now.shape)
        attempt.old.pass.now.view.trace s
        → S.good attempt.old.desk.now.shape (after attempt.old.pass.now.view.trace s) }
    ensures name { attempt.new.pass.ghost_name ≡ attempt.old.pass.ghost_name }
    ensures desk { attempt.new.pass.now.table ≡ attempt.old.desk.now.table }
    ensures entry { OnOk result
        (attempt.new.pass.now.view ≡ after_commit kept attempt.old.pass.now.view) }
    ensures uses { IfOk result (λ uses. ListsUses
        (uses_of kept attempt.old.pass.now.view.trace attempt.old.pass.now.view.uses)
        uses.items) }
    ensures knew { OnOk result ((x : Entry) → IsIn x attempt.old.pass.now.view.seen
        → Knew (entry_of kept attempt.old.pass.now.view) x) }
    ensures few { OnOk result
        (length attempt.old.pass.now.view.abandoned < attempt.old.desk.now.seats) }
    ensures undone { OnErr result
        (Undoes attempt.old.pass.now.view attempt.new.pass.now.view) }
{
    undo_unless(attempt.desk, attempt.pass, &mut attempt.undo, kept);
    let Ok(uses) = attempt.pass.uses(alloc) else {
        undo_all(attempt.desk, attempt.pass, &mut attempt.undo);
        return Err(OutOfMemory);
    };
    tell(attempt, Stage::BeforeCommit);
    attempt.desk.commit(attempt.pass, kept);
    tell(attempt, Stage::AfterCommit);
    Ok(uses)
}

// Makes attempts until one need not give way, and commits what the job decided in it. Each attempt that gives way has
// another seat as its cause, so there are no more than seats.
fn run_attempts<S: Shape, G: Gate, R: Wait, J: Job<Shape = S>>(
    alloc: Global,
    attempt: &mut Attempt<S, G, R>,
    job: &J,
    call: u32,
) -> Result<Receipt<J::Answer>, OutOfMemory>
where
    J::Answer: Drop,
    requires sound { IsSoundAttempt S.word_count S.good attempt.old.desk.now attempt.old.began.value
        attempt.old.pass.now attempt.old.undo attempt.old.halt }
    requires job { J.shape job.now ≡ attempt.old.desk.now.shape }
    requires going { attempt.old.halt ≡ None }
    requires began { attempt.old.began.value ≡ attempt.old.pass.now }
    requires fresh { attempt.old.pass.now.view.trace ≡ [] }
    requires call { attempt.old.pass.now.view.call ≡ call }
    requires floor { attempt.old.pass.now.view.floor ≡ length attempt.old.pass.now.view.seen }
    requires first { attempt.old.pass.now.view.abandoned ≡ [] }
    requires seats { 0 < attempt.old.desk.now.seats }
    ensures name { attempt.new.pass.ghost_name ≡ attempt.old.pass.ghost_name }
    ensures desk { attempt.new.pass.now.table ≡ attempt.old.desk.now.table }
    ensures seat { SameSeat attempt.old.pass.now.view attempt.new.pass.now.view }
    ensures call { attempt.new.pass.now.view.call ≡ call }
    ensures undone { attempt.new.pass.now.view.undo ≡ [] }
    ensures entry { IfOk result (λ receipt. GetsEntry
        (AreGoodWords S.Shape attempt.old.desk.now) (J.means job.now)
        (number attempt.old.pass.now.view) call
        attempt.old.pass.now.view.seen attempt.new.pass.now.view.seen receipt) }
    ensures meant { IfOk result (λ receipt. IsMeant
        (AreGoodWords S.Shape attempt.old.desk.now) (J.means job.now) receipt.answer) }
    ensures few { IfOk result (λ receipt. receipt.restarts < attempt.old.desk.now.seats) }
    ensures committed { OnOk result (attempt.new.pass.now.view.phase ≡ Phase.Releasing) }
    ensures seen { OnErr result
        (attempt.new.pass.now.view.seen ≡ attempt.old.pass.now.view.seen) }
    ensures floor { OnErr result
        (attempt.new.pass.now.view.floor ≡ attempt.old.pass.now.view.floor) }
    ensures given_up { OnErr result (is_attempt attempt.new.pass.now.view.phase ≡ true) }
    ensures footprint { OnOk result (AsksItsFootprint attempt.new.pass.now.view) }
    ensures left { OnErr result (LeavesFootprint attempt.new.pass.now.view) }
    ensures last { OnErr result (ReadsArranged
        (AreGoodWords S.Shape attempt.old.desk.now)
        attempt.old.desk.now.seats attempt.old.desk.now.base attempt.new.pass.now.view) }
{
    let seats = attempt.desk.seats();
    for restarts in 0..seats {
        match job.run(attempt) {
            Ok(verdict) => {
                let (kept, answer) = decision(verdict);
                let Ok(uses) = commit_or_undo(alloc, attempt, kept) else {
                    return Err(OutOfMemory);
                };
                return Ok(Receipt {
                    call,
                    restarts,
                    uses,
                    answer,
                });
            }
            Err(Stop::Memory) => {
                undo_all(attempt.desk, attempt.pass, &mut attempt.undo);
                return Err(OutOfMemory);
            }
            Err(Stop::Yield) => {
                let cause = cause_of(attempt.halt);
                give_way(attempt, cause);
            }
        }
    }
    unreachable!()
}

// Whether the writes are kept, and the answer.
fn decision<A>(verdict: Verdict<A>) -> (bool, A)
    ensures kept { result.0 ≡ is_kept verdict }
    ensures answer { result.1 ≡ answer_of verdict }
{
    match verdict {
        Verdict::Keep(answer) => (true, answer),
        Verdict::Revert(answer) => (false, answer),
    }
}

/// Runs the job as one transaction: the pass's next call.
///
/// The job is run in attempts, each with the locks of the words that it touches. If a lock is held by an earlier
/// call, the attempt undoes its writes, gives up its locks, and waits until that call is gone; then the next begins,
/// with the timestamp that the call has. The first that need not give way is committed while it holds all its locks.
/// The call may wait for other threads. That a wait ends, no clause says.
///
/// The receipt has what the job answers. So in a client's `work`, with the job `Enter` of the crate `turnstile`:
///
///     let receipt = transact(rt, alloc, desk, pass, &Enter { room }, gate)?;
///     if receipt.answer {
///         self.entered += 1;
///     }
pub fn transact<S: Shape, G: Gate, R: Wait, J: Job<Shape = S>>(
    rt: &R,
    alloc: Global,
    desk: &Desk<S>,
    pass: &mut Pass<S>,
    job: &J,
    gate: &G,
) -> Result<Receipt<J::Answer>, OutOfMemory>
where
    J::Answer: Drop,
    requires desk { pass.old.table ≡ desk.now.table }
    requires phase { pass.old.view.phase ≡ Phase.Idle }
    requires room { pass.old.view.call < LAST_CALL }
    requires job { J.shape job.now ≡ desk.now.shape }
    ensures desk { pass.new.table ≡ pass.old.table }
    ensures seat { SameSeat pass.old.view pass.new.view }
    ensures idle { pass.new.view.phase ≡ Phase.Idle }
    ensures nothing { HoldsNothing pass.new.view }
    ensures call { OnOk result (pass.new.view.call ≡ pass.old.view.call + 1) }
    ensures entry { IfOk result (λ receipt. GetsEntry
        (AreGoodWords S.Shape desk.now) (J.means job.now)
        (number pass.old.view) (pass.old.view.call + 1)
        pass.old.view.seen pass.new.view.seen receipt) }
    ensures meant { IfOk result (λ receipt. IsMeant
        (AreGoodWords S.Shape desk.now)
        (J.means job.now) receipt.answer) }
    ensures few { IfOk result (λ receipt. receipt.restarts < desk.now.seats) }
    ensures footprint { OnOk result (AsksItsFootprint pass.new.view) }
    ensures err { OnErr result ((pass.new ≡ pass.old)
        ⊎ EndsWithoutEntry (AreGoodWords S.Shape desk.now)
        desk.now.seats desk.now.base pass.old.view pass.new.view) }
{
    pass.rests();
    let undo = UndoLog::with_room(alloc, UNDO_ROOM)?;
    let seat = pass.who();
    let call = desk.begin(pass);
    let began = Snapshot::of(&*pass);
    let mut attempt = Attempt {
        rt,
        desk,
        pass,
        gate,
        caller: Caller {
            seat,
            call,
            tag: job.tag(),
        },
        undo,
        halt: None,
        began,
    };
    let ended = run_attempts(alloc, &mut attempt, job, call);
    let Attempt {
        rt: _rt,
        desk: _desk,
        pass: back,
        gate: _gate,
        caller: _caller,
        undo,
        halt: _halt,
        began,
    } = attempt;
    drop(undo);
    drop(began);
    release_all(desk, back);
    desk.finish_call(back);
    ended
}

/// Runs the job as one transaction: [`transact`] with no gate.
///
///     let receipt = run_job(rt, alloc, desk, pass, &Enter { room })?;
pub fn run_job<J: Job, R: Wait>(
    rt: &R,
    alloc: Global,
    desk: &Desk<J::Shape>,
    pass: &mut Pass<J::Shape>,
    job: &J,
) -> Result<Receipt<J::Answer>, OutOfMemory>
where
    J::Answer: Drop,
    requires desk { pass.old.table ≡ desk.now.table }
    requires phase { pass.old.view.phase ≡ Phase.Idle }
    requires room { pass.old.view.call < LAST_CALL }
    requires job { J.shape job.now ≡ desk.now.shape }
    ensures desk { pass.new.table ≡ pass.old.table }
    ensures seat { SameSeat pass.old.view pass.new.view }
    ensures idle { pass.new.view.phase ≡ Phase.Idle }
    ensures nothing { HoldsNothing pass.new.view }
    ensures call { OnOk result (pass.new.view.call ≡ pass.old.view.call + 1) }
    ensures entry { IfOk result (λ receipt. GetsEntry
        (AreGoodWords J.Shape.Shape desk.now) (J.means job.now)
        (number pass.old.view) (pass.old.view.call + 1)
        pass.old.view.seen pass.new.view.seen receipt) }
    ensures meant { IfOk result (λ receipt. IsMeant
        (AreGoodWords J.Shape.Shape desk.now)
        (J.means job.now) receipt.answer) }
    ensures few { IfOk result (λ receipt. receipt.restarts < desk.now.seats) }
    ensures footprint { OnOk result (AsksItsFootprint pass.new.view) }
    ensures err { OnErr result ((pass.new ≡ pass.old)
        ⊎ EndsWithoutEntry (AreGoodWords J.Shape.Shape desk.now)
        desk.now.seats desk.now.base pass.old.view pass.new.view) }
{
    transact(rt, alloc, desk, pass, job, &OpenGate)
}
