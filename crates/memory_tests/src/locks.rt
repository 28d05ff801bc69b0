//! The worked rows of locks: a scan that meets a reader, and a reader that meets a writer.

ghost use Rattle.std.specs.Prelude.{◌≡◌, ◌≢◌, [], length};

use crate::opening::{Wide, open_two, used};
use history_model::{LOCKS, LockUse, Phase};
use io_ends::OutOfMemory;
use std::alloc::Global;
use word_table::{Claimed, Desk, Pass, Scanned, Shared};

// Clears all read bits.
fn unshare_all(desk: &Desk<Wide>, pass: &mut Pass<Wide>)
    requires desk { pass.old.table ≡ desk.now.table }
    requires undo { pass.old.view.undo ≡ [] }
    requires begun { pass.old.view.phase ≢ Phase.Idle }
    ensures begun { (pass.new.table ≡ desk.now.table) × (pass.new.view.undo ≡ [])
        × (pass.new.view.phase ≢ Phase.Idle) }
    ensures words { pass.new.view.base ≡ pass.old.view.base }
{
    for _ in 0..LOCKS {
        let Some(lock) = pass.next_bit() else {
            return;
        };
        desk.unshare(pass, lock);
    }
}

// What a pass tells of lock 5, and of all its locks.
#[derive(Clone, Copy)]
enum Told {
    HasRead(bool),
    HasWrite(bool),
    Unscanned(Option<u32>),
    NextBit(Option<u32>),
    NextClaim(Option<u32>),
    Phase(Phase),
}

// Whether the pass tells this.
fn is_told(pass: &Pass<Wide>, told: &Told) -> bool {
    match *told {
        Told::HasRead(answer) => pass.has_read(5) == answer,
        Told::HasWrite(answer) => pass.has_write(5) == answer,
        Told::Unscanned(answer) => pass.unscanned(5) == answer,
        Told::NextBit(answer) => pass.next_bit() == answer,
        Told::NextClaim(answer) => pass.next_claim() == answer,
        Told::Phase(answer) => pass.phase() == answer,
    }
}

// A call of a desk for a pass, and what it answers.
#[derive(Clone, Copy)]
enum Call {
    Share(u64, Shared),
    Claim(u64, Claimed),
    // Scans the first seat that was not yet scanned, which is this, for the claim on lock 5.
    Scan(u32, Scanned),
    UnshareAll,
    // What is told of the use of lock 5, before and after word 5 is read, which has this value.
    Load(Option<LockUse>, u64, Option<LockUse>),
    Tell(Told),
}

// Whether the call answers so, in an attempt. No more is said of it than that another may follow.
fn is_taken(desk: &Desk<Wide>, pass: &mut Pass<Wide>, call: &Call) -> bool
    requires desk { pass.old.table ≡ desk.now.table }
    requires begun { (pass.old.view.undo ≡ []) × (pass.old.view.phase ≡ Phase.Running) }
    requires words { length pass.old.view.base ≡ 1030 }
    ensures desk { pass.new.table ≡ desk.now.table }
    ensures begun { (pass.new.view.undo ≡ []) × (pass.new.view.phase ≢ Phase.Idle) }
    ensures words { length pass.new.view.base ≡ 1030 }
{
    match *call {
        Call::Share(a, answer) => a < 1030 && desk.share(pass, a) == answer,
        Call::Claim(a, answer) => a < 1030 && desk.claim(pass, a) == answer,
        Call::Scan(seat, answer) => {
            let Some(other) = pass.unscanned(5) else {
                return false;
            };
            other == seat && other != pass.who() && desk.scan(pass, 5, other) == answer
        }
        Call::Load(before, value, after) => {
            if !pass.has_read(5) || pass.use_of(5) != before {
                return false;
            }
            desk.load(pass, 5) == value && pass.use_of(5) == after
        }
        _ => false,
    }
}

// Whether the call answers so.
fn is_answered(desk: &Desk<Wide>, pass: &mut Pass<Wide>, call: &Call) -> bool
    requires desk { pass.old.table ≡ desk.now.table }
    requires begun { (pass.old.view.undo ≡ []) × (pass.old.view.phase ≢ Phase.Idle) }
    requires words { length pass.old.view.base ≡ 1030 }
    ensures desk { pass.new.table ≡ desk.now.table }
    ensures begun { (pass.new.view.undo ≡ []) × (pass.new.view.phase ≢ Phase.Idle) }
    ensures words { length pass.new.view.base ≡ 1030 }
{
    match call {
        Call::Tell(told) => is_told(pass, told),
        Call::UnshareAll => {
            unshare_all(desk, pass);
            true
        }
        _ => pass.phase() == Phase::Running && is_taken(desk, pass, call),
    }
}

// The number of the first call that answers otherwise, if the passes make them by turns, each the one with its number.
fn first_wrong(
    desk: &Desk<Wide>,
    zero: &mut Pass<Wide>,
    one: &mut Pass<Wide>,
    calls: &[(u32, Call)],
) -> Option<usize>
    requires desk { (zero.old.table ≡ desk.now.table) × (one.old.table ≡ desk.now.table) }
    requires zero { (zero.old.view.undo ≡ []) × (zero.old.view.phase ≢ Phase.Idle) }
    requires one { (one.old.view.undo ≡ []) × (one.old.view.phase ≢ Phase.Idle) }
    requires words { (length zero.old.view.base ≡ 1030) × (length one.old.view.base ≡ 1030) }
{
    for (number, (seat, call)) in calls.iter().enumerate() {
        let right = if *seat == 0 {
            is_answered(desk, zero, call)
        } else {
            is_answered(desk, one, call)
        };
        if !right {
            return Some(number);
        }
    }
    None
}

// The same at a desk of 1,030 words, all 0, where both passes began a call.
fn first_wrong_anew(alloc: Global, calls: &[(u32, Call)]) -> Result<Option<usize>, OutOfMemory> {
    let base = vec![in alloc; 0u64; 1030]?;
    let (desk, mut zero, mut one) = open_two(alloc, Wide, base)?;
    let _ = desk.begin(&mut zero);
    let _ = desk.begin(&mut one);
    Ok(first_wrong(&desk, &mut zero, &mut one, calls))
}

#[test]
fn scan_meets_a_reader_and_share_meets_a_writer(rt: HostRuntime) {
    let reader = &[
        (0, Call::Share(5, Shared::Granted)),
        (0, Call::Tell(Told::HasRead(true))),
        (0, Call::Load(None, 0, Some(used(5, 0, false)))),
        (1, Call::Claim(1029, Claimed::Pending)),
        (1, Call::Scan(0, Scanned::Met(0))),
        (1, Call::Tell(Told::Unscanned(Some(0)))),
        (1, Call::Tell(Told::HasWrite(false))),
        (0, Call::UnshareAll),
        (0, Call::Tell(Told::NextBit(None))),
        (0, Call::Tell(Told::Phase(Phase::Releasing))),
        (1, Call::Scan(0, Scanned::Clear)),
        (1, Call::Tell(Told::HasWrite(true))),
        // Who has the lock to write has it to read too.
        (1, Call::Share(5, Shared::Granted)),
        (1, Call::Tell(Told::NextBit(None))),
        (1, Call::Tell(Told::NextClaim(Some(5)))),
    ];
    let wrong = first_wrong_anew(rt.alloc(), reader);
    assert!(rt; matches!(wrong, Ok(None)));
    let writer = &[
        (1, Call::Claim(5, Claimed::Pending)),
        (0, Call::Share(1029, Shared::Met(1))),
        (0, Call::Tell(Told::HasRead(false))),
        (0, Call::Tell(Told::NextBit(Some(5)))),
    ];
    let wrong = first_wrong_anew(rt.alloc(), writer);
    assert!(rt; matches!(wrong, Ok(None)));
}
