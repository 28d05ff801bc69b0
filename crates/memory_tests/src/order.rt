//! The order that is rebuilt from the uses of locks, by hand.

ghost use Rattle.std.specs.Prelude.{◌<◌};

use crate::opening::used;
use history_model::{LockUse, Placed};
use io_ends::OutOfMemory;
use order_rebuild::{Readers, order_counted, order_of};
use std::alloc::Global;

// A call by hand.
#[derive(Clone, Copy)]
struct Call<'a> {
    caller: u32,
    index: u32,
    uses: &'a [LockUse],
}

impl Placed for Call<'_> {
    ghost use Rattle.history_model.specs.declared.placed.Spot.{Spot};

    ghost spot = { λ c. record { caller = c.caller; index = c.index; uses = c.uses.now } };

    fn caller(&self) -> u32 {
        self.caller
    }

    fn index(&self) -> u32 {
        self.index
    }

    fn uses(&self) -> &[LockUse] {
        self.uses
    }
}

// A call with these uses.
fn call_of(caller: u32, index: u32, uses: &[LockUse]) -> Call<'_> {
    Call {
        caller,
        index,
        uses,
    }
}

// Whether the calls are put in this order.
fn is_order(alloc: Global, calls: &[Call<'_>], order: &[usize]) -> Result<bool, OutOfMemory> {
    Ok(order_of(alloc, calls)?.as_slice() == order)
}

// Whether the order is 2, 0, 1, 3: those of lock 3 by their versions, and each as soon as it may come.
fn are_four_in_order(alloc: Global) -> Result<bool, OutOfMemory> {
    let read = [used(3, 1, false)];
    let wrote = [used(3, 1, true)];
    let first = [used(3, 0, true)];
    let calls = &[
        call_of(1, 0, &read),
        call_of(0, 0, &wrote),
        call_of(2, 0, &first),
        call_of(0, 1, &[]),
    ];
    is_order(alloc, calls, &[2, 0, 1, 3])
}

// Whether the order is 2, 1, 0, 3 of versions with gaps, up to the last one, and of the last lock.
fn are_far_in_order(alloc: Global) -> Result<bool, OutOfMemory> {
    let wrote = [used(9, u64::MAX, true)];
    let read = [used(9, u64::MAX, false)];
    let first = [used(9, 5, true)];
    let other = [used(u32::MAX, 1, true)];
    let calls = &[
        call_of(0, 0, &wrote),
        call_of(1, 0, &read),
        call_of(2, 0, &first),
        call_of(3, 0, &other),
    ];
    is_order(alloc, calls, &[2, 1, 0, 3])
}

// A call of a random day, with uses of its own.
#[derive(Drop)]
struct Made {
    caller: u32,
    index: u32,
    uses: Vec<LockUse>,
}

// A number below four, by a linear congruential generator.
fn next_below_four(seed: &mut u64) -> u32
    ensures { result < 4 }
{
    *seed = seed
        .wrapping_mul(6_364_136_223_846_793_005)
        .wrapping_add(1_442_695_040_888_963_407);
    ((*seed >> 33) % 4) as u32
}

// The uses of a call on locks 0 to 3: none of a lock, or a read, or a write, which raises its version.
fn random_uses(
    alloc: Global,
    seed: &mut u64,
    versions: &mut [u64; 4],
) -> Result<Vec<LockUse>, OutOfMemory> {
    let mut uses = Vec::new(alloc);
    for lock in 0..4 {
        let chance = next_below_four(seed);
        if chance > 1 {
            let wrote = chance == 3;
            let version = versions[lock as usize];
            uses.push(used(lock, version, wrote))?;
            versions[lock as usize] = version.saturating_add(u64::from(wrote));
        }
    }
    Ok(uses)
}

// Calls of four callers, one after another.
fn random_day(alloc: Global, seed: u64) -> Result<Vec<Made>, OutOfMemory> {
    let mut seed = seed;
    let mut versions = [0; 4];
    let mut indexes = [0u32; 4];
    let mut made = Vec::new(alloc);
    for _ in 0..32 {
        let caller = next_below_four(&mut seed);
        let index = indexes[caller as usize];
        let uses = random_uses(alloc, &mut seed, &mut versions)?;
        made.push(Made {
            caller,
            index,
            uses,
        })?;
        indexes[caller as usize] = index.saturating_add(1);
    }
    Ok(made)
}

// The calls as workers leave them: those of each caller side by side, in their order.
fn listed(alloc: Global, made: &[Made]) -> Result<Vec<Call<'_>>, OutOfMemory> {
    let mut calls = Vec::new(alloc);
    for caller in [2, 0, 3, 1] {
        add_caller(&mut calls, made, caller)?;
    }
    Ok(calls)
}

fn add_caller<'a>(
    calls: &mut Vec<Call<'a>>,
    made: &'a [Made],
    caller: u32,
) -> Result<(), OutOfMemory> {
    for it in made {
        if it.caller == caller {
            calls.push(call_of(caller, it.index, &it.uses))?;
        }
    }
    Ok(())
}

// Whether a use comes before another.
fn is_before(one: &LockUse, other: &LockUse) -> bool {
    one.lock == other.lock
        && (one.version < other.version
            || one.version == other.version && !one.wrote && other.wrote)
}

fn is_before_some(one: &LockUse, uses: &[LockUse]) -> bool {
    for other in uses {
        if is_before(one, other) {
            return true;
        }
    }
    false
}

// Whether a call has to come before another.
fn precedes(one: &Call<'_>, other: &Call<'_>) -> bool {
    for it in one.uses {
        if is_before_some(it, other.uses) {
            return true;
        }
    }
    one.caller == other.caller && one.index < other.index
}

// Whether a call may come behind those at these places.
fn may_come(calls: &[Call<'_>], placed: &[usize], place: usize, call: &Call<'_>) -> bool {
    for (other, before) in calls.iter().enumerate() {
        if other != place && !placed.contains(&other) && precedes(before, call) {
            return false;
        }
    }
    !placed.contains(&place)
}

// Of the calls that may come the one of the least caller.
fn next_of(calls: &[Call<'_>], placed: &[usize]) -> Option<usize> {
    let mut next: Option<(usize, u32)> = None;
    for (place, call) in calls.iter().enumerate() {
        let is_less = match next {
            Some((_, caller)) => call.caller < caller,
            None => true,
        };
        if is_less && may_come(calls, placed, place, call) {
            next = Some((place, call.caller));
        }
    }
    match next {
        Some((place, _)) => Some(place),
        None => None,
    }
}

// The order by its definition, without regard to time.
fn plain_order(alloc: Global, calls: &[Call<'_>]) -> Result<Vec<usize>, OutOfMemory> {
    let mut placed = Vec::new(alloc);
    for _ in 0..calls.len() {
        if let Some(place) = next_of(calls, &placed) {
            placed.push(place)?;
        }
    }
    Ok(placed)
}

// Who read what, counted by two workers.
fn readers_of(alloc: Global, calls: &[Call<'_>]) -> Result<Readers, OutOfMemory> {
    let mut readers = Readers::new(alloc)?;
    let mut others = Readers::new(alloc)?;
    for call in calls {
        if call.caller < 2 {
            readers.count(call.uses);
        } else {
            others.count(call.uses);
        }
    }
    readers.add(&others);
    Ok(readers)
}

// Whether a random day is put in the order that the definition gives, whoever counted its readers.
fn is_random_day_in_order(alloc: Global, seed: u64) -> Result<bool, OutOfMemory> {
    let made = random_day(alloc, seed)?;
    let calls = listed(alloc, &made)?;
    let plain = plain_order(alloc, &calls)?;
    let readers = readers_of(alloc, &calls)?;
    Ok(
        plain.len() == calls.len()
            && is_order(alloc, &calls, &plain)?
            && order_counted(alloc, &calls, &readers)?.as_slice() == plain.as_slice(),
    )
}

#[test]
fn random_days_are_in_the_order_of_the_definition(rt: HostRuntime) {
    for seed in 0..16 {
        assert!(rt; matches!(is_random_day_in_order(rt.alloc(), seed), Ok(true)));
    }
}

#[test]
fn order_of_four_items_by_versions(rt: HostRuntime) {
    assert!(rt; matches!(are_four_in_order(rt.alloc()), Ok(true)));
    assert!(rt; matches!(are_far_in_order(rt.alloc()), Ok(true)));
}
