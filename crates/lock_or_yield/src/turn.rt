//! One turn of asking for a lock.

ghost use Rattle.std.specs.Prelude.{◌≡◌, ◌≢◌, ◌<◌, ℕ, [], ◌∷◌, length, true, IfSome, IsNone};
ghost use Rattle.history_model.specs.Locks.{lock_of_word};
ghost use Rattle.history_model.specs.Sets.{has_pair};
ghost use Rattle.history_model.specs.Views.{number, HasClaim, HasWriteGrant};
ghost use Rattle.stamps_rule.specs.Stamps.{AreRestartsBounded};
ghost use Rattle.lock_or_yield.specs.Asking.{Asks, AsksToRead, AsksToWrite, draws_once};
ghost use Rattle.lock_or_yield.specs.Intents.{AsksOnce, ComesTo, IsClear, MeetsSeat, TakesTurn, TurnsOnce};
ghost use Rattle.lock_or_yield.specs.Turns.{JudgedToWait, JudgedToYield, JudgesMet, ScansClear, ScansUpTo};
ghost use Rattle.word_table.specs.Desks.{RuleHolds};
ghost use Rattle.word_table.specs.Waits.{FoundWait};

use history_model::{Cause, LOCKS, Phase, Shape, lock_of};
use word_table::{Claimed, Desk, Judged, Pass, Scanned, Shared};

/// What a lock is asked for.
#[derive(Clone, Copy, Debug, PartialEq, Eq)]
pub enum Intent {
    Read,
    Write,
}

/// What one turn of asking for a lock came to.
#[derive(Clone, Copy, Debug, PartialEq, Eq)]
pub enum Tried {
    /// The lock is held.
    Granted,
    /// The attempt gives way to this cause, and has to undo and release all.
    Yield(Cause),
    /// The turn met this seat, to which the call need not give way: it may ask again.
    Wait(u32),
}

// Draws a timestamp, if the call has none.
fn draw_once<S: Shape>(desk: &Desk<S>, pass: &mut Pass<S>)
    requires desk { pass.old.table ≡ desk.now.table }
    requires phase { pass.old.view.phase ≡ Phase.Running }
    requires unjudged { pass.old.view.met ≢ [] }
    ensures desk { pass.new.table ≡ pass.old.table }
    ensures view { pass.new.view ≡ record pass.old.view {
      stamp = pass.new.view.stamp;
      draws = draws_once pass.old.view;
    } }
    ensures stamped { 0 < pass.new.view.stamp }
    ensures kept { 0 < pass.old.view.stamp → pass.new.view.stamp ≡ pass.old.view.stamp }
{
    if pass.stamp() == 0 {
        desk.draw(pass);
    }
}

// Shows the call's timestamp to the others, if it is not shown.
fn announce_once<S: Shape>(desk: &Desk<S>, pass: &mut Pass<S>)
    requires desk { pass.old.table ≡ desk.now.table }
    requires phase { pass.old.view.phase ≡ Phase.Running }
    requires stamped { 0 < pass.old.view.stamp }
    ensures desk { pass.new.table ≡ pass.old.table }
    ensures view { pass.new.view ≡ record pass.old.view { announced = true } }
{
    if !pass.announced() {
        desk.announce(pass);
    }
}

// What a turn comes to that met the seat `other`: the timestamp is shown, and the other's looked at. It stands by
// itself, so that a turn that meets nobody is short enough to stand where it is called.
#[cold]
#[inline(never)]
pub(crate) fn judge_met<S: Shape>(desk: &Desk<S>, pass: &mut Pass<S>, other: u32) -> Tried
    requires desk { pass.old.table ≡ desk.now.table }
    requires phase { pass.old.view.phase ≡ Phase.Running }
    requires other { other < pass.old.view.seats }
    requires met { pass.old.view.met ≡ other ∷ [] }
    ensures desk { pass.new.table ≡ pass.old.table }
    ensures judged { JudgesMet (RuleHolds S.Shape desk.now)
        pass.old.view other result pass.new.view }
    ensures waits { (j : ℕ) → result ≡ Tried.Wait j
        → (j ≡ other) × JudgedToWait pass.old.view pass.new.view }
    ensures found { (k : ℕ) → result ≡ Tried.Wait other
        → has_pair k other pass.old.view.meetings ≡ true
        → FoundWait (RuleHolds S.Shape desk.now) desk.now.seats k other pass.new.view }
    ensures yields { (cause : Cause) → result ≡ Tried.Yield cause → (cause.seat ≡ other)
        × JudgedToYield cause pass.old.view pass.new.view }
    ensures bounded { AreRestartsBounded desk.now.seats (number pass.old.view) pass.new.view }
{
    draw_once(desk, pass);
    announce_once(desk, pass);
    match desk.judge(pass, other) {
        Judged::Wait => Tried::Wait(other),
        Judged::Yield(stamp) => Tried::Yield(Cause { seat: other, stamp }),
    }
}

// Scans the seats that were not yet found clear for the own claim on lock k, up to the first that is met.
fn scan_rest<S: Shape>(desk: &Desk<S>, pass: &mut Pass<S>, k: u32) -> Option<u32>
    requires desk { pass.old.table ≡ desk.now.table }
    requires phase { pass.old.view.phase ≡ Phase.Running }
    requires claim { (k < LOCKS) × HasClaim pass.old.view k }
    ensures desk { pass.new.table ≡ pass.old.table }
    ensures clear { IsNone result
        → ScansClear k pass.old.view pass.new.view × HasWriteGrant pass.new.view k }
    ensures met { IfSome result (λ j. ScansUpTo (RuleHolds S.Shape desk.now) k j
        pass.old.view pass.new.view) }
    ensures held { HasWriteGrant pass.old.view k → IsNone result × (pass.new.view ≡ pass.old.view) }
{
    // The pass has one number, so no seat that is left is its own.
    let _own = pass.who();
    while let Some(other) = pass.unscanned(k) {
        match desk.scan(pass, k, other) {
            Scanned::Clear => {}
            Scanned::Met(seat) => return Some(seat),
        }
    }
    None
}

// Claims the lock of word a and scans the other seats for it, up to the first that is met.
fn claim_and_scan<S: Shape>(desk: &Desk<S>, pass: &mut Pass<S>, a: u64) -> Option<u32>
    requires desk { pass.old.table ≡ desk.now.table }
    requires phase { pass.old.view.phase ≡ Phase.Running }
    requires word { a < length pass.old.view.base }
    ensures desk { pass.new.table ≡ pass.old.table }
    ensures asks { AsksOnce Intent.Write a pass.old.view pass.new.view }
    ensures clear { IsNone result
        → IsClear Intent.Write (lock_of_word a) pass.old.view pass.new.view }
    ensures met { IfSome result (λ j. MeetsSeat Intent.Write (RuleHolds S.Shape desk.now)
        (lock_of_word a) j pass.old.view pass.new.view) }
    ensures held { HasWriteGrant pass.old.view (lock_of_word a)
        → IsNone result × (pass.new.view ≡ pass.old.view) }
{
    match desk.claim(pass, a) {
        Claimed::Pending => scan_rest(desk, pass, lock_of(a)),
        Claimed::Met(seat) => Some(seat),
    }
}

// Asks once for the lock of word a, and tells which seat was met, if one was.
#[inline]
pub(crate) fn ask_once<S: Shape>(
    desk: &Desk<S>,
    pass: &mut Pass<S>,
    a: u64,
    intent: Intent,
) -> Option<u32>
    requires desk { pass.old.table ≡ desk.now.table }
    requires phase { pass.old.view.phase ≡ Phase.Running }
    requires word { a < length pass.old.view.base }
    ensures desk { pass.new.table ≡ pass.old.table }
    ensures once { ComesTo intent (RuleHolds S.Shape desk.now) a pass.old.view result pass.new.view }
{
    match intent {
        Intent::Read => match desk.share(pass, a) {
            Shared::Granted => None,
            Shared::Met(seat) => Some(seat),
        },
        Intent::Write => claim_and_scan(desk, pass, a),
    }
}

// One turn of asking for the lock of word a, with this intent.
pub(crate) fn try_to<S: Shape>(desk: &Desk<S>, pass: &mut Pass<S>, a: u64, intent: Intent) -> Tried
    requires desk { pass.old.table ≡ desk.now.table }
    requires phase { pass.old.view.phase ≡ Phase.Running }
    requires word { a < length pass.old.view.base }
    requires judged { pass.old.view.met ≡ [] }
    ensures desk { pass.new.table ≡ pass.old.table }
    ensures turn { TurnsOnce S.Shape desk.now intent a pass.old.view result pass.new.view }
{
    match ask_once(desk, pass, a, intent) {
        None => Tried::Granted,
        Some(other) => judge_met(desk, pass, other),
    }
}

/// One turn of asking for the lock of word a, to read it. The read bit stays set if the turn waits.
pub fn try_read<S: Shape>(desk: &Desk<S>, pass: &mut Pass<S>, a: u64) -> Tried
    requires desk { pass.old.table ≡ desk.now.table }
    requires phase { pass.old.view.phase ≡ Phase.Running }
    requires word { a < length pass.old.view.base }
    requires judged { pass.old.view.met ≡ [] }
    ensures desk { pass.new.table ≡ pass.old.table }
    ensures asks { Asks a pass.old.view pass.new.view }
    ensures reads { AsksToRead (lock_of_word a) pass.old.view pass.new.view }
    ensures judged { pass.new.view.met ≡ [] }
    ensures turn { TakesTurn S.Shape desk.now Intent.Read (lock_of_word a) pass.old.view result
        pass.new.view }
{
    try_to(desk, pass, a, Intent::Read)
}

/// One turn of asking for the lock of word a, to write it. The lock is claimed, and the other seats are scanned for
/// it, up to the first that is met. A claim stays if the turn waits, and the next turn goes on from there.
pub fn try_write<S: Shape>(desk: &Desk<S>, pass: &mut Pass<S>, a: u64) -> Tried
    requires desk { pass.old.table ≡ desk.now.table }
    requires phase { pass.old.view.phase ≡ Phase.Running }
    requires word { a < length pass.old.view.base }
    requires judged { pass.old.view.met ≡ [] }
    ensures desk { pass.new.table ≡ pass.old.table }
    ensures asks { Asks a pass.old.view pass.new.view }
    ensures writes { AsksToWrite (lock_of_word a) pass.old.view pass.new.view }
    ensures judged { pass.new.view.met ≡ [] }
    ensures turn { TakesTurn S.Shape desk.now Intent.Write (lock_of_word a) pass.old.view result
        pass.new.view }
{
    try_to(desk, pass, a, Intent::Write)
}
