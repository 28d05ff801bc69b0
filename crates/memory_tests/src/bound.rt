//! The restart bound, reached by asking for locks: of three calls the last gives way to each of the others.

ghost use Rattle.std.specs.Prelude.{◌≡◌, ◌<◌, ◌+◌, ℕ, [], ◌∷◌, ◌++◌, length, List, Some, IfSome, OnSome, IsTrue};
ghost use Rattle.history_model.specs.declared.entry.Entry.{Entry};
ghost use Rattle.history_model.specs.Views.{HasBit, HasClaim};
ghost use Rattle.stamps_rule.specs.Causes.{newest, past_causes};
ghost use Rattle.word_table.specs.Copies.{fresh_pass};

use crate::opening::{Triple, open_three};
use history_model::{Cause, Phase};
use io_ends::OutOfMemory;
use lock_or_yield::{Tried, try_write};
use std::alloc::Global;
use word_table::{Desk, Pass};

// A turn of asking to write.
fn ask(desk: &Desk<Triple>, pass: &mut Pass<Triple>, a: u64) -> Tried
    requires desk { pass.old.table ≡ desk.now.table }
    requires words { (a < 3) × (length pass.old.view.base ≡ 3) }
    requires fresh { (pass.old.view.phase ≡ Phase.Running) × (pass.old.view.undo ≡ [])
        × (pass.old.view.met ≡ []) }
    ensures desk { (pass.new.table ≡ desk.now.table) × (length pass.new.view.base ≡ 3) }
    ensures rest { (pass.new.view.undo ≡ []) × (pass.new.view.met ≡ []) }
    ensures granted { result ≡ Tried.Granted
        → (pass.new.view.phase ≡ Phase.Running)
        × (pass.new.view.abandoned ≡ pass.old.view.abandoned) }
    ensures waits { (j : ℕ) → result ≡ Tried.Wait j
        → (pass.new.view.phase ≡ Phase.Running)
        × (pass.new.view.abandoned ≡ pass.old.view.abandoned) }
    ensures yields { (cause : Cause) → result ≡ Tried.Yield cause
        → (pass.new.view.phase ≡ Phase.Yielding) × (cause.seat < pass.new.view.seats)
        × (newest (past_causes pass.new.view) ≡ Some cause)
        × (length pass.new.view.abandoned ≡ length pass.old.view.abandoned + 1) }
{
    try_write(desk, pass, a)
}

// Each call begins, and holds the lock of a word of its own.
fn hold_own(
    desk: &Desk<Triple>,
    zero: &mut Pass<Triple>,
    one: &mut Pass<Triple>,
    two: &mut Pass<Triple>,
) -> bool
    requires words { length desk.now.base ≡ 3 }
    requires zero { zero.old
        ≡ fresh_pass desk.now.table desk.now.base 3 0 }
    requires one { one.old ≡ fresh_pass desk.now.table desk.now.base 3 1 }
    requires two { two.old ≡ fresh_pass desk.now.table desk.now.base 3 2 }
    ensures zero { (zero.new.table ≡ desk.now.table) × (length zero.new.view.base ≡ 3) }
    ensures one { (one.new.table ≡ desk.now.table) × (length one.new.view.base ≡ 3) }
    ensures two { (two.new.table ≡ desk.now.table) × (length two.new.view.base ≡ 3) }
    ensures run { IsTrue result
        → (zero.new.view.phase ≡ Phase.Running) × (one.new.view.phase ≡ Phase.Running)
        × (two.new.view.phase ≡ Phase.Running) }
    ensures undone { IsTrue result
        → (zero.new.view.undo ≡ []) × (one.new.view.undo ≡ []) × (two.new.view.undo ≡ []) }
    ensures judged { IsTrue result
        → (zero.new.view.met ≡ []) × (one.new.view.met ≡ []) × (two.new.view.met ≡ []) }
    ensures fresh { IsTrue result → two.new.view.abandoned ≡ [] }
{
    let _ = desk.begin(zero);
    let _ = desk.begin(one);
    let _ = desk.begin(two);
    let Tried::Granted = ask(desk, zero, 0) else {
        return false;
    };
    let Tried::Granted = ask(desk, one, 1) else {
        return false;
    };
    matches!(ask(desk, two, 2), Tried::Granted)
}

// Asks for word 2: for whom the call waits, and its timestamp then.
fn wait_for_third(desk: &Desk<Triple>, pass: &mut Pass<Triple>) -> Option<(u32, u64)>
    requires desk { (pass.old.table ≡ desk.now.table) × (length pass.old.view.base ≡ 3) }
    requires fresh { (pass.old.view.phase ≡ Phase.Running) × (pass.old.view.undo ≡ [])
        × (pass.old.view.met ≡ []) }
    ensures desk { (pass.new.table ≡ desk.now.table) × (length pass.new.view.base ≡ 3) }
    ensures runs { OnSome result (pass.new.view.phase ≡ Phase.Running) }
    ensures rest { (pass.new.view.undo ≡ []) × (pass.new.view.met ≡ []) }
{
    let Tried::Wait(other) = ask(desk, pass, 2) else {
        return None;
    };
    Some((other, pass.stamp()))
}

// Asks for word a: to which cause the call gives way, and its timestamp then.
fn give_way(desk: &Desk<Triple>, pass: &mut Pass<Triple>, a: u64) -> Option<(Cause, u64)>
    requires desk { (pass.old.table ≡ desk.now.table) × (length pass.old.view.base ≡ 3) }
    requires word { a < 3 }
    requires fresh { (pass.old.view.phase ≡ Phase.Running) × (pass.old.view.undo ≡ [])
        × (pass.old.view.met ≡ []) }
    ensures desk { (pass.new.table ≡ desk.now.table) × (length pass.new.view.base ≡ 3) }
    ensures yields { IfSome result
        (λ gave. (pass.new.view.phase ≡ Phase.Yielding) × (gave.0.seat < pass.new.view.seats)
        × (newest (past_causes pass.new.view) ≡ Some gave.0)) }
    ensures more { OnSome result
        (length pass.new.view.abandoned ≡ length pass.old.view.abandoned + 1) }
    ensures rest { (pass.new.view.undo ≡ []) × (pass.new.view.met ≡ []) }
{
    let Tried::Yield(cause) = ask(desk, pass, a) else {
        return None;
    };
    Some((cause, pass.stamp()))
}

// Whether the pass has no lock.
fn has_none(pass: &Pass<Triple>) -> bool
    ensures no_claim { IsTrue result → (k : ℕ) → ¬ HasClaim pass.now.view k }
    ensures no_bit { IsTrue result → (k : ℕ) → ¬ HasBit pass.now.view k }
{
    if pass.next_claim().is_some() {
        return false;
    }
    pass.next_bit().is_none()
}

// Gives up the claim on this lock, if it is the pass's least, and tells whether it was the last lock.
fn give_up(desk: &Desk<Triple>, pass: &mut Pass<Triple>, lock: u32) -> bool
    requires desk { (pass.old.table ≡ desk.now.table) × (length pass.old.view.base ≡ 3) }
    requires yields { (pass.old.view.phase ≡ Phase.Yielding) × (pass.old.view.undo ≡ []) }
    ensures desk { (pass.new.table ≡ desk.now.table) × (length pass.new.view.base ≡ 3) }
    ensures rest { pass.new.view ≡ record pass.old.view {
      claims = pass.new.view.claims;
      scans = pass.new.view.scans;
      owed = pass.new.view.owed;
    } }
    ensures no_claim { IsTrue result → (k : ℕ) → ¬ HasClaim pass.new.view k }
    ensures no_bit { IsTrue result → (k : ℕ) → ¬ HasBit pass.new.view k }
{
    let Some(least) = pass.next_claim() else {
        return false;
    };
    if least != lock {
        return false;
    }
    desk.unclaim(pass, least);
    has_none(pass)
}

// The call commits, gives up the claim on this lock, which is its last, and ends.
fn end(desk: &Desk<Triple>, pass: &mut Pass<Triple>, lock: u32) -> bool
    requires desk { (pass.old.table ≡ desk.now.table) × (length pass.old.view.base ≡ 3) }
    requires runs { (pass.old.view.phase ≡ Phase.Running) × (pass.old.view.undo ≡ []) }
{
    desk.commit(pass, true);
    let Some(least) = pass.next_claim() else {
        return false;
    };
    if least != lock {
        return false;
    }
    desk.unclaim(pass, least);
    if !has_none(pass) {
        return false;
    }
    desk.finish_call(pass);
    true
}

// A call that gave way makes another attempt, once its cause is gone, and gives way again, at word a.
fn give_way_again(
    desk: &Desk<Triple>,
    pass: &mut Pass<Triple>,
    cause: Cause,
    a: u64,
) -> Option<(Cause, u64)>
    requires desk { (pass.old.table ≡ desk.now.table) × (length pass.old.view.base ≡ 3) }
    requires word { a < 3 }
    requires yields { (pass.old.view.phase ≡ Phase.Yielding) × (pass.old.view.undo ≡ [])
        × (pass.old.view.met ≡ []) }
    requires cause { (cause.seat < pass.old.view.seats)
        × (newest (past_causes pass.old.view) ≡ Some cause) }
    requires no_claim { (k : ℕ) → ¬ HasClaim pass.old.view k }
    requires no_bit { (k : ℕ) → ¬ HasBit pass.old.view k }
    ensures desk { (pass.new.table ≡ desk.now.table) × (length pass.new.view.base ≡ 3) }
    ensures yields { IfSome result
        (λ gave. (pass.new.view.phase ≡ Phase.Yielding) × (gave.0.seat < pass.new.view.seats)
        × (newest (past_causes pass.new.view) ≡ Some gave.0)) }
    ensures more { OnSome result
        (length pass.new.view.abandoned ≡ length pass.old.view.abandoned + 1) }
    ensures undone { OnSome result (pass.new.view.undo ≡ []) }
    ensures no_claim { OnSome result ((k : ℕ) → ¬ HasClaim pass.new.view k) }
    ensures no_bit { OnSome result ((k : ℕ) → ¬ HasBit pass.new.view k) }
{
    if !desk.gone(pass, cause.seat, cause.stamp) {
        return None;
    }
    let gave = give_way(desk, pass, a)?;
    if !has_none(pass) {
        return None;
    }
    Some(gave)
}

// A call that gave way commits, once its cause is gone. Its entry tells of as many attempts that gave way.
fn commit_again(desk: &Desk<Triple>, pass: &mut Pass<Triple>, cause: Cause) -> bool
    requires desk { (pass.old.table ≡ desk.now.table) × (length pass.old.view.base ≡ 3) }
    requires yields { (pass.old.view.phase ≡ Phase.Yielding) × (pass.old.view.undo ≡ []) }
    requires cause { (cause.seat < pass.old.view.seats)
        × (newest (past_causes pass.old.view) ≡ Some cause) }
    requires no_claim { (k : ℕ) → ¬ HasClaim pass.old.view k }
    requires no_bit { (k : ℕ) → ¬ HasBit pass.old.view k }
    ensures entry { IsTrue result → (earlier : List Entry) × (entry : Entry)
        × (pass.new.view.seen ≡ earlier ++ entry ∷ [])
        × (length entry.abandoned ≡ length pass.old.view.abandoned) }
{
    if !desk.gone(pass, cause.seat, cause.stamp) {
        return false;
    }
    desk.commit(pass, true);
    true
}

// What the calls met before the first of them ended: for whom the first two wait, with their timestamps, and to which
// cause the third gives way, with its own.
fn ask_for_others(
    desk: &Desk<Triple>,
    zero: &mut Pass<Triple>,
    one: &mut Pass<Triple>,
    two: &mut Pass<Triple>,
) -> Option<((u32, u64), (u32, u64), (Cause, u64))>
    requires words { length desk.now.base ≡ 3 }
    requires zero { zero.old
        ≡ fresh_pass desk.now.table desk.now.base 3 0 }
    requires one { one.old ≡ fresh_pass desk.now.table desk.now.base 3 1 }
    requires two { two.old ≡ fresh_pass desk.now.table desk.now.base 3 2 }
    ensures zero { OnSome result
        ((zero.new.table ≡ desk.now.table) × (length zero.new.view.base ≡ 3)
        × (zero.new.view.phase ≡ Phase.Running) × (zero.new.view.undo ≡ [])) }
    ensures one { OnSome result ((one.new.table ≡ desk.now.table) × (length one.new.view.base ≡ 3)
        × (one.new.view.phase ≡ Phase.Running) × (one.new.view.undo ≡ [])) }
    ensures two { OnSome result ((two.new.table ≡ desk.now.table) × (length two.new.view.base ≡ 3)
        × (two.new.view.undo ≡ []) × (two.new.view.met ≡ [])) }
    ensures yields { IfSome result
        (λ met. (two.new.view.phase ≡ Phase.Yielding) × (met.2.0.seat < two.new.view.seats)
        × (newest (past_causes two.new.view) ≡ Some met.2.0)) }
    ensures once { OnSome result (length two.new.view.abandoned ≡ 1) }
{
    if !hold_own(desk, zero, one, two) {
        return None;
    }
    let first = wait_for_third(desk, zero)?;
    let second = wait_for_third(desk, one)?;
    let third = give_way(desk, two, 0)?;
    Some((first, second, third))
}

// The first call ends, the third gives way to the second, the second ends, and the third commits: to which cause it gave
// way the second time, with its timestamp. Its entry tells of two attempts that gave way, one less than there are passes.
fn end_in_turn(
    desk: &Desk<Triple>,
    zero: &mut Pass<Triple>,
    one: &mut Pass<Triple>,
    two: &mut Pass<Triple>,
    cause: Cause,
) -> Option<(Cause, u64)>
    requires zero { (zero.old.table ≡ desk.now.table) × (length zero.old.view.base ≡ 3)
        × (zero.old.view.phase ≡ Phase.Running) × (zero.old.view.undo ≡ []) }
    requires one { (one.old.table ≡ desk.now.table) × (length one.old.view.base ≡ 3)
        × (one.old.view.phase ≡ Phase.Running) × (one.old.view.undo ≡ []) }
    requires two { (two.old.table ≡ desk.now.table) × (length two.old.view.base ≡ 3)
        × (two.old.view.phase ≡ Phase.Yielding) × (two.old.view.undo ≡ [])
        × (two.old.view.met ≡ []) }
    requires cause { (cause.seat < two.old.view.seats)
        × (newest (past_causes two.old.view) ≡ Some cause) }
    requires once { length two.old.view.abandoned ≡ 1 }
    ensures entry { OnSome result ((earlier : List Entry) × (entry : Entry)
        × (two.new.view.seen ≡ earlier ++ entry ∷ []) × (length entry.abandoned ≡ 2)) }
{
    if !give_up(desk, two, 2) {
        return None;
    }
    if !end(desk, zero, 0) {
        return None;
    }
    let gave = give_way_again(desk, two, cause, 1)?;
    if !end(desk, one, 1) {
        return None;
    }
    if !commit_again(desk, two, gave.0) {
        return None;
    }
    Some(gave)
}

// All three calls, until the third has its entry, which tells of two attempts that gave way.
fn reach_bound(
    desk: &Desk<Triple>,
    zero: &mut Pass<Triple>,
    one: &mut Pass<Triple>,
    two: &mut Pass<Triple>,
) -> Option<((u32, u64), (u32, u64), (Cause, u64), (Cause, u64))>
    requires words { length desk.now.base ≡ 3 }
    requires zero { zero.old
        ≡ fresh_pass desk.now.table desk.now.base 3 0 }
    requires one { one.old ≡ fresh_pass desk.now.table desk.now.base 3 1 }
    requires two { two.old ≡ fresh_pass desk.now.table desk.now.base 3 2 }
    ensures entry { OnSome result ((earlier : List Entry) × (entry : Entry)
        × (two.new.view.seen ≡ earlier ++ entry ∷ []) × (length entry.abandoned ≡ 2)) }
{
    let (first, second, third) = ask_for_others(desk, zero, one, two)?;
    let again = end_in_turn(desk, zero, one, two, third.0)?;
    Some((first, second, third, again))
}

// Whether the first two wait for the third, and it gives way to the first, and then to the second.
fn is_reached(alloc: Global) -> Result<bool, OutOfMemory> {
    let (desk, mut zero, mut one, mut two) = open_three(alloc)?;
    let reached = reach_bound(&desk, &mut zero, &mut one, &mut two);
    let first = Cause { seat: 0, stamp: 1 };
    let second = Cause { seat: 1, stamp: 2 };
    Ok(reached == Some(((2, 1), (2, 2), (first, 3), (second, 3))))
}

#[test]
fn restart_bound_is_reached_by_three_passes(rt: HostRuntime) {
    assert!(rt; matches!(is_reached(rt.alloc()), Ok(true)));
}
