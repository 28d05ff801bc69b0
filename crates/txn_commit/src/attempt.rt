//! One attempt of a transaction, as the words that its job reads and writes.

ghost use Rattle.std.specs.Prelude.{◌≡◌, ◌+◌, ◌<◌, ◌≤◌, [], ◌∷◌, None, length, OnOk, OnErr};
ghost use Rattle.history_model.specs.declared.view.View.{View};
ghost use Rattle.history_model.specs.Locks.{lock_of_word};
ghost use Rattle.history_model.specs.Views.{IsGranted};
ghost use Rattle.lock_or_yield.specs.Asking.{AsksToRead, AsksToWrite};
ghost use Rattle.lock_or_yield.specs.Intents.{MeetsFirst};
ghost use Rattle.word_table.specs.Desks.{RuleHolds};
ghost use Rattle.word_table.specs.Versions.{HasUseOf};
ghost use Rattle.history_model.specs.Marks.{count_writes};
ghost use Rattle.history_model.specs.Traces.{Begins};
ghost use Rattle.txn_words.specs.Marks.{PutsBack, TakesBack};
ghost use Rattle.txn_commit.specs.Attempts.{DidEvents, IsSoundAttempt};
ghost use Rattle.txn_commit.specs.Inner.Asking.{AsksForWord, FindsUse, HasBegun, UsesLock};

use history_model::{Cause, Phase, Shape, lock_of};
use io_ends::OutOfMemory;
use lock_or_yield::{Got, Intent, go_on, want_write};
use std::snapshot::Snapshot;
use std::sync::Wait;
use txn_words::{Mark, Stop, Words};
use undo_log::UndoLog;
use word_table::{Desk, Pass, Shared};
use worker_gate::{Gate, Point, Stage};

/// How many writes an attempt notes without memory.
pub const UNDO_ROOM: usize = 1024;

/// Why an attempt cannot go on.
#[derive(Clone, Copy, Debug, PartialEq, Eq)]
pub enum Halt {
    /// It gives way to this cause.
    Yield(Cause),
    /// There was no memory to note a write.
    Memory,
}

/// What an attempt began from: the table, the name of the pass, and the pass as it was. No value of it is ever made.
pub struct Start<S: Shape> {
    pub desk: Desk<S>,
    pub name: u64,
    pub pass: Pass<S>,
}

// Whose call it is.
#[derive(Clone, Copy)]
pub(crate) struct Caller {
    pub(crate) seat: u32,
    pub(crate) call: u32,
    pub(crate) tag: u64,
}

impl Caller {
    // Where the call is.
    fn at(self, stage: Stage) -> Point {
        Point {
            seat: self.seat,
            call: self.call,
            tag: self.tag,
            stage,
        }
    }
}

/// The words of a table as one attempt of a transaction sees them.
///
/// A read waits until the word's lock is held for reading, and a write until it is held for writing and the old value
/// is noted. Either may give way to an earlier call instead. `transact` alone makes it, and sets it back between two
/// attempts of one call.
#[derive(Drop)]
pub struct Attempt<'a, S: Shape, G: Gate, R: Wait> {
    pub(crate) rt: &'a R,
    pub(crate) desk: &'a Desk<S>,
    pub(crate) pass: &'a mut Pass<S>,
    pub(crate) gate: &'a G,
    pub(crate) caller: Caller,
    pub(crate) undo: UndoLog,
    pub(crate) halt: Option<Halt>,
    pub(crate) began: Snapshot<Pass<S>>,
}

// What asking for the lock of a word came to.
enum Asked {
    // It was held before.
    Held,
    // It is held by now.
    Granted,
    // The attempt gives way, and halts for the cause.
    Yield,
}

// The gate is told that the lock of word a is held, to read it, and the lock's version is found.
#[inline(always)]
fn use_lock<S: Shape, G: Gate, R: Wait>(attempt: &mut Attempt<S, G, R>, a: u64)
    requires desk { attempt.old.pass.now.table ≡ attempt.old.desk.now.table }
    requires phase { attempt.old.pass.now.view.phase ≡ Phase.Running }
    requires granted { IsGranted attempt.old.pass.now.view (lock_of_word a) }
    requires unused { ¬ HasUseOf attempt.old.pass.now.view (lock_of_word a) }
    ensures begun { HasBegun attempt.old.desk.now attempt.old.pass.ghost_name
        attempt.old.began.value attempt.new.desk.now attempt.new.pass.ghost_name attempt.new.began.value }
    ensures log { attempt.new.undo ≡ attempt.old.undo }
    ensures halt { attempt.new.halt ≡ attempt.old.halt }
    ensures table { attempt.new.pass.now.table ≡ attempt.old.pass.now.table }
    ensures finds { FindsUse (lock_of_word a) attempt.old.pass.now.view attempt.new.pass.now.view }
{
    tell(
        attempt,
        Stage::Granted {
            word: a,
            write: false,
        },
    );
    attempt.desk.find_new(attempt.pass, a);
}

// The first use of the lock of word a, once the seat `other` was met: whether the attempt goes on, or gives way.
#[cold]
#[inline(never)]
fn first_use_met<S: Shape, G: Gate, R: Wait>(
    attempt: &mut Attempt<S, G, R>,
    a: u64,
    other: u32,
) -> bool
    requires desk { attempt.old.pass.now.table ≡ attempt.old.desk.now.table }
    requires phase { attempt.old.pass.now.view.phase ≡ Phase.Running }
    requires word { a < length attempt.old.pass.now.view.base }
    requires met { (old : View) × MeetsFirst Intent.Read (RuleHolds S.Shape attempt.old.desk.now) a
        other old attempt.old.pass.now.view }
    requires unused { ¬ HasUseOf attempt.old.pass.now.view (lock_of_word a) }
    ensures begun { HasBegun attempt.old.desk.now attempt.old.pass.ghost_name
        attempt.old.began.value attempt.new.desk.now attempt.new.pass.ghost_name attempt.new.began.value }
    ensures log { attempt.new.undo ≡ attempt.old.undo }
    ensures table { attempt.new.pass.now.table ≡ attempt.old.pass.now.table }
    ensures uses { (old : View)
        → MeetsFirst Intent.Read (RuleHolds S.Shape attempt.old.desk.now) a other old
        attempt.old.pass.now.view
        → UsesLock attempt.old.desk.now.seats a old attempt.old.halt result attempt.new.halt
        attempt.new.pass.now.view }
{
    match go_on(
        attempt.rt,
        attempt.desk,
        attempt.pass,
        a,
        Intent::Read,
        other,
    ) {
        Got::Granted => {
            use_lock(attempt, a);
            true
        }
        Got::Yield(cause) => {
            attempt.halt = Some(Halt::Yield(cause));
            false
        }
    }
}

// The first use of the lock of word a, to read it: it is asked for, if it is not held, and its version is found. It
// answers whether the attempt goes on, or gives way. It stands by itself, so that a read whose lock is in use is short
// enough to stand where it is called; and what comes once a seat was met stands by itself too, so that a lock that is
// granted costs few instructions.
#[inline(never)]
fn first_use<S: Shape, G: Gate, R: Wait>(attempt: &mut Attempt<S, G, R>, a: u64) -> bool
    requires desk { attempt.old.pass.now.table ≡ attempt.old.desk.now.table }
    requires phase { attempt.old.pass.now.view.phase ≡ Phase.Running }
    requires word { a < length attempt.old.pass.now.view.base }
    requires judged { attempt.old.pass.now.view.met ≡ [] }
    requires unused { ¬ HasUseOf attempt.old.pass.now.view (lock_of_word a) }
    ensures begun { HasBegun attempt.old.desk.now attempt.old.pass.ghost_name
        attempt.old.began.value attempt.new.desk.now attempt.new.pass.ghost_name attempt.new.began.value }
    ensures log { attempt.new.undo ≡ attempt.old.undo }
    ensures table { attempt.new.pass.now.table ≡ attempt.old.pass.now.table }
    ensures uses { UsesLock attempt.old.desk.now.seats a attempt.old.pass.now.view attempt.old.halt
        result attempt.new.halt attempt.new.pass.now.view }
{
    if attempt.pass.is_granted(lock_of(a)) {
        attempt.desk.find_new(attempt.pass, a);
        return true;
    }
    match attempt.desk.share_new(attempt.pass, a) {
        Shared::Granted => {
            use_lock(attempt, a);
            true
        }
        Shared::Met(other) => first_use_met(attempt, a, other),
    }
}

// The attempt has a use of the lock of word a by now, or gives way. Without a use it asks for one.
#[inline(always)]
fn use_or_yield<S: Shape, G: Gate, R: Wait>(attempt: &mut Attempt<S, G, R>, a: u64) -> bool
    requires desk { attempt.old.pass.now.table ≡ attempt.old.desk.now.table }
    requires phase { attempt.old.pass.now.view.phase ≡ Phase.Running }
    requires word { a < length attempt.old.pass.now.view.base }
    requires judged { attempt.old.pass.now.view.met ≡ [] }
    ensures begun { HasBegun attempt.old.desk.now attempt.old.pass.ghost_name
        attempt.old.began.value attempt.new.desk.now attempt.new.pass.ghost_name attempt.new.began.value }
    ensures log { attempt.new.undo ≡ attempt.old.undo }
    ensures table { attempt.new.pass.now.table ≡ attempt.old.pass.now.table }
    ensures uses { UsesLock attempt.old.desk.now.seats a attempt.old.pass.now.view attempt.old.halt
        result attempt.new.halt attempt.new.pass.now.view }
{
    if attempt.pass.has_use(lock_of(a)) {
        return true;
    }
    first_use(attempt, a)
}

// Asks for the lock of word a, to write it, if it is not held so.
#[inline(never)]
fn ask_to_write<R: Wait, S: Shape>(
    rt: &R,
    desk: &Desk<S>,
    pass: &mut Pass<S>,
    a: u64,
    halt: &mut Option<Halt>,
) -> Asked
    requires desk { pass.old.table ≡ desk.now.table }
    requires phase { pass.old.view.phase ≡ Phase.Running }
    requires word { a < length pass.old.view.base }
    requires judged { pass.old.view.met ≡ [] }
    ensures desk { pass.new.table ≡ pass.old.table }
    ensures asked { AsksForWord desk.now.seats Intent.Write a pass.old.view halt.old result halt.new
        pass.new.view }
{
    if pass.has_write(lock_of(a)) {
        return Asked::Held;
    }
    match want_write(rt, desk, pass, a) {
        Got::Granted => Asked::Granted,
        Got::Yield(cause) => {
            *halt = Some(Halt::Yield(cause));
            Asked::Yield
        }
    }
}

// Tells the gate how far the transaction has come.
pub(crate) fn tell<S: Shape, G: Gate, R: Wait>(attempt: &Attempt<S, G, R>, stage: Stage) {
    attempt.gate.at(attempt.rt, attempt.caller.at(stage));
}

// Writes the value back that was noted of one write. Its word lies under a lock that is held, so it asks for none.
fn put_back<S: Shape>(
    desk: &Desk<S>,
    pass: &mut Pass<S>,
    undo: &mut UndoLog,
    began: &Snapshot<Pass<S>>,
    place: usize,
) -> Result<(), OutOfMemory>
    requires place { place < count_writes pass.old.view.trace }
    requires sound { IsSoundAttempt S.word_count S.good desk.now began.now.value pass.old undo.old
        None }
    ensures back { OnOk result (PutsBack (S.word_count desk.now.shape) (S.good desk.now.shape) place
        pass.old.view.trace pass.new.view.trace) }
    ensures begins { Begins pass.old.view.trace pass.new.view.trace }
    ensures sound { IsSoundAttempt S.word_count S.good desk.now began.now.value pass.new undo.new
        None }
    ensures events { DidEvents pass.old.view pass.new.view }
    ensures full { OnErr result (UNDO_ROOM ≤ length undo.new.list) }
    ensures memory { OnErr result (undo.old.spare ≡ 0) }
    ensures spare { undo.old.spare ≤ undo.new.spare + 1 }
{
    let (a, old) = undo.at(place);
    let now = desk.load(pass, a);
    if undo.note(a, now).is_err() {
        return Err(OutOfMemory);
    }
    desk.store(pass, a, old);
    Ok(())
}

// Writes the noted values back down to a place, newest first. It waits for nobody.
fn go_back<S: Shape>(
    desk: &Desk<S>,
    pass: &mut Pass<S>,
    undo: &mut UndoLog,
    began: &Snapshot<Pass<S>>,
    to: usize,
) -> Result<(), OutOfMemory>
    requires mark { to ≤ count_writes pass.old.view.trace }
    requires sound { IsSoundAttempt S.word_count S.good desk.now began.now.value pass.old undo.old
        None }
    ensures back { OnOk result (TakesBack (S.word_count desk.now.shape) (S.good desk.now.shape) to
        pass.old.view.trace pass.new.view.trace) }
    ensures begins { Begins pass.old.view.trace pass.new.view.trace }
    ensures sound { IsSoundAttempt S.word_count S.good desk.now began.now.value pass.new undo.new
        None }
    ensures events { DidEvents pass.old.view pass.new.view }
    ensures full { OnErr result (UNDO_ROOM ≤ length undo.new.list) }
    ensures memory { OnErr result (to + undo.old.spare < count_writes pass.old.view.trace) }
{
    let mut place = undo.len();
    while place > to {
        place -= 1;
        if put_back(desk, pass, undo, began, place).is_err() {
            return Err(OutOfMemory);
        }
    }
    Ok(())
}

impl<'a, S: Shape, G: Gate, R: Wait> Words for Attempt<'a, S, G, R> {
    ghost use Rattle.std.specs.Prelude.{◌≡◌, ◌≢◌, ◌+◌, ◌<◌, ◌≤◌, ◌++◌, ◌∷◌, [], None, Err, IfOk, OnOk};
    ghost use Rattle.history_model.specs.declared.event.Event.TheVariants.{Read};
    ghost use Rattle.history_model.specs.Traces.{Begins};
    ghost use Rattle.lock_or_yield.specs.Asking.{GainsAtMost};
    ghost use Rattle.txn_words.specs.declared.words.Stop.TheVariants.{Memory, Yield};
    ghost use Rattle.history_model.specs.Marks.{count_writes};
    ghost use Rattle.txn_words.specs.Marks.{TakesBack};
    ghost use Rattle.txn_words.specs.Steps.{EndsWithWrite, stop_after};
    ghost use Rattle.txn_commit.specs.Attempts.{DidEvents, IsSoundAttempt, start_of, stop_of};

    type Shape = S;

    type Origin = Start<S>;

    ghost shape = { λ a. a.desk.now.shape };

    ghost origin = { λ a. start_of a.desk.now a.pass.ghost_name a.began.value };

    ghost trace = { λ a. a.pass.now.view.trace };

    ghost stop = { λ a. stop_of a.halt };

    ghost is_sound = { λ a. IsSoundAttempt S.word_count S.good a.desk.now a.began.value a.pass.now a.undo a.halt };

    /// The word at place `a`, under its lock. It never finds no memory, and asks for that lock alone.
    #[inline(always)]
    fn read(&mut self, a: u64) -> Result<u64, Stop>
        requires within { a < S.word_count self.old.desk.now.shape }
        requires going { stop_of self.old.halt ≡ None }
        requires sound { IsSoundAttempt S.word_count S.good self.old.desk.now self.old.began.value
            self.old.pass.now self.old.undo self.old.halt }
        ensures value { IfOk result (λ v.
            self.new.pass.now.view.trace ≡ self.old.pass.now.view.trace ++ Read a v ∷ []) }
        ensures begins { Begins self.old.pass.now.view.trace self.new.pass.now.view.trace }
        ensures stops { stop_of self.new.halt ≡ stop_after result }
        ensures shape { self.new.desk.now.shape ≡ self.old.desk.now.shape }
        ensures origin { start_of self.new.desk.now self.new.pass.ghost_name self.new.began.value
            ≡ start_of self.old.desk.now self.old.pass.ghost_name self.old.began.value }
        ensures sound { IsSoundAttempt S.word_count S.good self.new.desk.now self.new.began.value
            self.new.pass.now self.new.undo self.new.halt }

        ensures memory { result ≢ Err Memory }
        ensures asked { GainsAtMost a self.old.pass.now.view.asked self.new.pass.now.view.asked }
        ensures reads { AsksToRead (lock_of_word a) self.old.pass.now.view self.new.pass.now.view }
    {
        if !use_or_yield(self, a) {
            return Err(Stop::Yield);
        }
        Ok(self.desk.load_used(self.pass, a))
    }

    /// Puts `v` into the word at place `a`, under its exclusive lock, once its old value is noted. It finds no memory
    /// only if the undo log has no spare room, which it has for the first 1,024 writes, and asks for that lock
    /// alone.
    fn write(&mut self, a: u64, v: u64) -> Result<(), Stop>
        requires within { a < S.word_count self.old.desk.now.shape }
        requires going { stop_of self.old.halt ≡ None }
        requires sound { IsSoundAttempt S.word_count S.good self.old.desk.now self.old.began.value
            self.old.pass.now self.old.undo self.old.halt }
        ensures value { OnOk result
            (EndsWithWrite self.old.pass.now.view.trace self.new.pass.now.view.trace a v) }
        ensures begins { Begins self.old.pass.now.view.trace self.new.pass.now.view.trace }
        ensures stops { stop_of self.new.halt ≡ stop_after result }
        ensures shape { self.new.desk.now.shape ≡ self.old.desk.now.shape }
        ensures origin { start_of self.new.desk.now self.new.pass.ghost_name self.new.began.value
            ≡ start_of self.old.desk.now self.old.pass.ghost_name self.old.began.value }
        ensures sound { IsSoundAttempt S.word_count S.good self.new.desk.now self.new.began.value
            self.new.pass.now self.new.undo self.new.halt }

        ensures memory { 0 < self.old.undo.spare → result ≢ Err Memory }
        ensures asked { GainsAtMost a self.old.pass.now.view.asked self.new.pass.now.view.asked }
        ensures writes { AsksToWrite (lock_of_word a) self.old.pass.now.view
            self.new.pass.now.view }
    {
        match ask_to_write(self.rt, self.desk, self.pass, a, &mut self.halt) {
            Asked::Held => {}
            Asked::Granted => {
                let stage = Stage::Granted {
                    word: a,
                    write: true,
                };
                self.gate.at(self.rt, self.caller.at(stage));
            }
            Asked::Yield => return Err(Stop::Yield),
        }
        let old = self.desk.load(self.pass, a);
        if self.undo.note(a, old).is_err() {
            self.halt = Some(Halt::Memory);
            return Err(Stop::Memory);
        }
        self.desk.store(self.pass, a, v);
        Ok(())
    }

    /// How many writes the attempt has noted.
    fn mark(&mut self) -> Mark
        requires going { stop_of self.old.halt ≡ None }
        requires sound { IsSoundAttempt S.word_count S.good self.old.desk.now self.old.began.value
            self.old.pass.now self.old.undo self.old.halt }
        ensures writes { result.writes ≡ count_writes self.old.pass.now.view.trace }
        ensures trace { self.new.pass.now.view.trace ≡ self.old.pass.now.view.trace }
        ensures going { stop_of self.new.halt ≡ None }
        ensures shape { self.new.desk.now.shape ≡ self.old.desk.now.shape }
        ensures origin { start_of self.new.desk.now self.new.pass.ghost_name self.new.began.value
            ≡ start_of self.old.desk.now self.old.pass.ghost_name self.old.began.value }
        ensures sound { IsSoundAttempt S.word_count S.good self.new.desk.now self.new.began.value
            self.new.pass.now self.new.undo self.new.halt }

        ensures same { self.new.pass.now ≡ self.old.pass.now }
        ensures log { self.new.undo ≡ self.old.undo }
    {
        Mark {
            writes: self.undo.len(),
        }
    }

    /// Writes the noted values back down to the mark, newest first, each as a write that is noted itself. All these
    /// words lie under locks that the attempt holds, so it asks for none and gives none up. It finds no memory only
    /// if the undo log has not the spare room for so many.
    fn back_to(&mut self, m: Mark) -> Result<(), Stop>
        requires mark { m.writes ≤ count_writes self.old.pass.now.view.trace }
        requires going { stop_of self.old.halt ≡ None }
        requires sound { IsSoundAttempt S.word_count S.good self.old.desk.now self.old.began.value
            self.old.pass.now self.old.undo self.old.halt }
        ensures back { OnOk result
            (TakesBack (S.word_count self.old.desk.now.shape) (S.good self.old.desk.now.shape)
            m.writes self.old.pass.now.view.trace self.new.pass.now.view.trace) }
        ensures begins { Begins self.old.pass.now.view.trace self.new.pass.now.view.trace }
        ensures stops { stop_of self.new.halt ≡ stop_after result }
        ensures shape { self.new.desk.now.shape ≡ self.old.desk.now.shape }
        ensures origin { start_of self.new.desk.now self.new.pass.ghost_name self.new.began.value
            ≡ start_of self.old.desk.now self.old.pass.ghost_name self.old.began.value }
        ensures sound { IsSoundAttempt S.word_count S.good self.new.desk.now self.new.began.value
            self.new.pass.now self.new.undo self.new.halt }
        ensures never_yields { result ≢ Err Yield }

        ensures memory { count_writes self.old.pass.now.view.trace ≤ m.writes + self.old.undo.spare
            → result ≢ Err Memory }
        ensures events { DidEvents self.old.pass.now.view self.new.pass.now.view }
    {
        match go_back(self.desk, self.pass, &mut self.undo, &self.began, m.writes) {
            Ok(()) => Ok(()),
            Err(_) => {
                self.halt = Some(Halt::Memory);
                Err(Stop::Memory)
            }
        }
    }

    ghost fits = { λ a h. h.fits };
}
