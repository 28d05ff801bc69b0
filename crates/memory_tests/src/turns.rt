//! The worked row of asking for locks: who is granted, who waits, and who gives way.

ghost use Rattle.std.specs.Prelude.{◌≡◌, ◌<◌, ◌+◌, ℕ, [], ◌∷◌, ◌++◌, length, List, Some, IfSome, OnSome, IsTrue};
ghost use Rattle.history_model.specs.declared.entry.Entry.{Entry};
ghost use Rattle.history_model.specs.Views.{HasBit, HasClaim};
ghost use Rattle.stamps_rule.specs.Causes.{newest, past_causes};
ghost use Rattle.word_table.specs.Copies.{fresh_pass};

use crate::opening::{Pair, open_two};
use history_model::{Cause, Phase};
use io_ends::OutOfMemory;
use lock_or_yield::{Got, Tried, try_read, try_write, want_read, want_write};
use std::alloc::Global;
use std::sync::Wait;
use word_table::{Desk, Pass};

// A turn of asking to write.
fn ask(desk: &Desk<Pair>, pass: &mut Pass<Pair>, a: u64) -> Tried
    requires desk { pass.old.table ≡ desk.now.table }
    requires words { (a < 2) × (length pass.old.view.base ≡ 2) }
    requires fresh { (pass.old.view.phase ≡ Phase.Running) × (pass.old.view.undo ≡ [])
        × (pass.old.view.met ≡ []) }
    ensures desk { (pass.new.table ≡ desk.now.table) × (length pass.new.view.base ≡ 2) }
    ensures rest { (pass.new.view.undo ≡ []) × (pass.new.view.met ≡ []) }
    ensures granted { result ≡ Tried.Granted
        → (pass.new.view.phase ≡ Phase.Running)
        × (pass.new.view.abandoned ≡ pass.old.view.abandoned) }
    ensures waits { (j : ℕ) → result ≡ Tried.Wait j
        → (pass.new.view.phase ≡ Phase.Running)
        × (pass.new.view.abandoned ≡ pass.old.view.abandoned) }
    ensures yields { (cause : Cause) → result ≡ Tried.Yield cause
        → (pass.new.view.phase ≡ Phase.Yielding) × (cause.seat < pass.new.view.seats)
        × (newest (past_causes pass.new.view) ≡ Some cause)
        × (length pass.new.view.abandoned ≡ length pass.old.view.abandoned + 1) }
{
    try_write(desk, pass, a)
}

// Two calls, each of which asks for the word that the other holds: whom the first waits for, and to which cause the
// second gives way.
fn ask_for_each_others(
    desk: &Desk<Pair>,
    zero: &mut Pass<Pair>,
    one: &mut Pass<Pair>,
) -> Option<(u32, Cause)>
    requires words { length desk.now.base ≡ 2 }
    requires zero { zero.old
        ≡ fresh_pass desk.now.table desk.now.base 2 0 }
    requires one { one.old ≡ fresh_pass desk.now.table desk.now.base 2 1 }
    ensures zero { (zero.new.table ≡ desk.now.table) × (length zero.new.view.base ≡ 2) }
    ensures one { (one.new.table ≡ desk.now.table) × (length one.new.view.base ≡ 2) }
    ensures waits { OnSome result
        ((zero.new.view.phase ≡ Phase.Running) × (zero.new.view.undo ≡ [])
        × (zero.new.view.met ≡ [])) }
    ensures yields { IfSome result
        (λ met. (one.new.view.phase ≡ Phase.Yielding) × (one.new.view.undo ≡ [])
        × (met.1.seat < one.new.view.seats)
        × (newest (past_causes one.new.view) ≡ Some met.1) × (length one.new.view.abandoned ≡ 1)) }
{
    let _ = desk.begin(zero);
    let _ = desk.begin(one);
    let Tried::Granted = ask(desk, zero, 0) else {
        return None;
    };
    let Tried::Granted = ask(desk, one, 1) else {
        return None;
    };
    let Tried::Wait(other) = ask(desk, zero, 1) else {
        return None;
    };
    let Tried::Yield(cause) = ask(desk, one, 0) else {
        return None;
    };
    Some((other, cause))
}

// Gives up the claim of an attempt that gives way, and tells whether that was the last lock.
fn release(desk: &Desk<Pair>, pass: &mut Pass<Pair>) -> bool
    requires desk { (pass.old.table ≡ desk.now.table) × (length pass.old.view.base ≡ 2) }
    requires yields { (pass.old.view.phase ≡ Phase.Yielding) × (pass.old.view.undo ≡ []) }
    ensures desk { (pass.new.table ≡ desk.now.table) × (length pass.new.view.base ≡ 2) }
    ensures yields { (pass.new.view.phase ≡ Phase.Yielding) × (pass.new.view.undo ≡ []) }
    ensures rest { (pass.new.view.seats ≡ pass.old.view.seats)
        × (pass.new.view.abandoned ≡ pass.old.view.abandoned) }
    ensures no_claim { IsTrue result → (k : ℕ) → ¬ HasClaim pass.new.view k }
    ensures no_bit { IsTrue result → (k : ℕ) → ¬ HasBit pass.new.view k }
{
    let Some(lock) = pass.next_claim() else {
        return pass.next_bit().is_none();
    };
    desk.unclaim(pass, lock);
    if pass.next_claim().is_some() {
        return false;
    }
    pass.next_bit().is_none()
}

// Releases both claims and ends the call, if no lock is left.
fn end(desk: &Desk<Pair>, pass: &mut Pass<Pair>) -> bool
    requires desk { pass.old.table ≡ desk.now.table }
    requires ended { (pass.old.view.phase ≡ Phase.Releasing) × (pass.old.view.undo ≡ []) }
{
    if let Some(first) = pass.next_claim() {
        desk.unclaim(pass, first);
    }
    if let Some(second) = pass.next_claim() {
        desk.unclaim(pass, second);
    }
    if pass.next_claim().is_some() || pass.next_bit().is_some() {
        return false;
    }
    desk.finish_call(pass);
    true
}

// Asks for word 1, commits, and ends the call.
fn take_and_end(desk: &Desk<Pair>, pass: &mut Pass<Pair>) -> Option<()>
    requires desk { (pass.old.table ≡ desk.now.table) × (length pass.old.view.base ≡ 2) }
    requires fresh { (pass.old.view.phase ≡ Phase.Running) × (pass.old.view.undo ≡ [])
        × (pass.old.view.met ≡ []) }
{
    let Tried::Granted = ask(desk, pass, 1) else {
        return None;
    };
    desk.commit(pass, true);
    if !end(desk, pass) {
        return None;
    }
    Some(())
}

// Commits a call that gave way once, once its cause is gone. The entry tells of one attempt that gave way.
fn commit_again(desk: &Desk<Pair>, pass: &mut Pass<Pair>, cause: Cause) -> Option<()>
    requires desk { (pass.old.table ≡ desk.now.table) × (length pass.old.view.base ≡ 2) }
    requires yields { (pass.old.view.phase ≡ Phase.Yielding) × (pass.old.view.undo ≡ []) }
    requires cause { (cause.seat < pass.old.view.seats)
        × (newest (past_causes pass.old.view) ≡ Some cause) }
    requires no_claim { (k : ℕ) → ¬ HasClaim pass.old.view k }
    requires no_bit { (k : ℕ) → ¬ HasBit pass.old.view k }
    requires restarts { length pass.old.view.abandoned ≡ 1 }
    ensures entry { OnSome result ((earlier : List Entry) × (entry : Entry)
        × (pass.new.view.seen ≡ earlier ++ entry ∷ []) × (length entry.abandoned ≡ 1)) }
{
    if !desk.gone(pass, cause.seat, cause.stamp) {
        return None;
    }
    desk.commit(pass, true);
    Some(())
}

// The first call ends, and after it the second, which gave way to the first.
fn end_in_turn(
    desk: &Desk<Pair>,
    zero: &mut Pass<Pair>,
    one: &mut Pass<Pair>,
    cause: Cause,
) -> Option<()>
    requires zero { (zero.old.table ≡ desk.now.table) × (length zero.old.view.base ≡ 2) }
    requires runs { (zero.old.view.phase ≡ Phase.Running) × (zero.old.view.undo ≡ [])
        × (zero.old.view.met ≡ []) }
    requires one { (one.old.table ≡ desk.now.table) × (length one.old.view.base ≡ 2) }
    requires yields { (one.old.view.phase ≡ Phase.Yielding) × (one.old.view.undo ≡ [])
        × (cause.seat < one.old.view.seats)
        × (newest (past_causes one.old.view) ≡ Some cause) × (length one.old.view.abandoned ≡ 1) }
    ensures entry { OnSome result ((earlier : List Entry) × (entry : Entry)
        × (one.new.view.seen ≡ earlier ++ entry ∷ []) × (length entry.abandoned ≡ 1)) }
{
    if !release(desk, one) {
        return None;
    }
    if desk.gone(one, cause.seat, cause.stamp) {
        return None;
    }
    take_and_end(desk, zero)?;
    commit_again(desk, one, cause)?;
    Some(())
}

// Both calls, until they end: whom the first waits for, to which cause the second gives way, and the timestamps that
// they have then.
fn cross(
    desk: &Desk<Pair>,
    zero: &mut Pass<Pair>,
    one: &mut Pass<Pair>,
) -> Option<(u32, Cause, (u64, u64))>
    requires words { length desk.now.base ≡ 2 }
    requires zero { zero.old
        ≡ fresh_pass desk.now.table desk.now.base 2 0 }
    requires one { one.old ≡ fresh_pass desk.now.table desk.now.base 2 1 }
{
    let (other, cause) = ask_for_each_others(desk, zero, one)?;
    let stamps = (zero.stamp(), one.stamp());
    end_in_turn(desk, zero, one, cause)?;
    Some((other, cause, stamps))
}

// Whether the first waits for the second, and the second gives way to the first and keeps its timestamp.
fn is_crossed(alloc: Global) -> Result<bool, OutOfMemory> {
    let base = vec![in alloc; 0u64, 0]?;
    let (desk, mut zero, mut one) = open_two(alloc, Pair, base)?;
    let crossed = cross(&desk, &mut zero, &mut one);
    let cause = Cause { seat: 0, stamp: 1 };
    Ok(crossed == Some((1, cause, (1, 2))) && one.stamp() == 2)
}

#[test]
fn older_waits_and_younger_gives_way(rt: HostRuntime) {
    assert!(rt; matches!(is_crossed(rt.alloc()), Ok(true)));
}

// A call that asks for word 0 to read it, twice, and then for word 1 to write it: whether all is granted.
fn has_free<R: Wait>(rt: &R, desk: &Desk<Pair>, pass: &mut Pass<Pair>) -> bool
    requires desk { pass.old.table ≡ desk.now.table }
    requires words { length pass.old.view.base ≡ 2 }
    requires fresh { (pass.old.view.phase ≡ Phase.Idle) × (pass.old.view.met ≡ []) }
    requires room { pass.old.view.call ≡ 0 }
{
    let _ = desk.begin(pass);
    let Tried::Granted = try_read(desk, pass, 0) else {
        return false;
    };
    let Got::Granted = want_read(rt, desk, pass, 0) else {
        return false;
    };
    matches!(want_write(rt, desk, pass, 1), Got::Granted)
}

// Whether all is granted to the only call of a desk, and it has no timestamp then.
fn is_granted<R: Wait>(rt: &R, alloc: Global) -> Result<bool, OutOfMemory> {
    let base = vec![in alloc; 0u64, 0]?;
    let (desk, mut zero, _) = open_two(alloc, Pair, base)?;
    Ok(has_free(rt, &desk, &mut zero) && zero.stamp() == 0)
}

#[test]
fn locks_that_nobody_has_are_granted_without_a_timestamp(rt: HostRuntime) {
    assert!(rt; matches!(is_granted(&rt, rt.alloc()), Ok(true)));
}
