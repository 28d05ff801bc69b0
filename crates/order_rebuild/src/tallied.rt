//! The order of a list whose uses follow the versions of their locks one by one.
//!
//! How many uses only read each version of a lock is counted before (`readers`). Then of each lock two numbers are kept:
//! the version that it has by what is placed, and how many readers of that version are left. A use may come if it found
//! that version and, if it wrote, no reader is left. What was counted is not trusted: each item that is placed is looked
//! at once more, and once all are placed what was counted is what the list has.

ghost use Rattle.std.specs.Prelude.{◌≡◌, ◌↔◌, ℕ, ◌+◌, ◌<◌, ◌≤◌, IsTrue, IfSome, OnSome, map, length, slice_get, slice_index, slice_index_or, take, Some, replicate, true, false, []};
ghost use Rattle.order_rebuild.specs.Order.{IsOrder, IsNext};
ghost use Rattle.order_rebuild.specs.Lanes.{AreLanes};
ghost use Rattle.order_rebuild.specs.Tallied.{IsStep, MayUse};
ghost use Rattle.order_rebuild.specs.Tallies.{no_tally, row_at, version_at, left_at, MayUseBelow, MayUseAll, AreKnownOf, AreKnownUses, MayStart, AreFresh};

use crate::lanes::{Lane, first_with_items, lanes_of, take_first};
use crate::readers::Readers;
use history_model::{LockUse, Placed};
use std::alloc::Global;

/// What is placed of a lock's uses: the version that it has, and how many that only read it are left.
#[derive(Clone, Copy)]
pub(crate) struct Tally {
    pub(crate) version: u64,
    pub(crate) readers: u32,
}

/// How many uses of the row's lock only read the version.
fn readers_of(row: &[u32], version: u64) -> u32
    ensures { result ≡ slice_index row.now version }
{
    if version < row.len() as u64 {
        row[version as usize]
    } else {
        0
    }
}

/// The tallies of the locks before the first item.
fn tallies_of(alloc: Global, rows: &[Vec<u32>]) -> Option<Vec<Tally>>
    ensures { IfSome result (λ tallies. AreFresh rows.now tallies.items) }
{
    let mut tallies = Vec::with_capacity(alloc, rows.len()).ok()?;
    for k in 0..rows.len() {
        let readers = readers_of(&rows[k], 0);
        tallies
            .push(Tally {
                version: 0,
                readers,
            })
            .ok()?;
    }
    Some(tallies)
}

/// The tally of a lock; one that has none stands as it did before the first item.
fn tally_of(tallies: &[Tally], lock: u32) -> Tally
    ensures { result ≡ slice_index_or tallies.now lock no_tally }
{
    if lock as usize >= tallies.len() {
        return Tally {
            version: 0,
            readers: 0,
        };
    }
    tallies[lock as usize]
}

/// Whether a use may come.
fn may_use(tallies: &[Tally], lock_use: &LockUse) -> bool
    ensures { IsTrue result ↔ MayUse (version_at tallies.now) (left_at tallies.now) lock_use.now }
{
    let tally = tally_of(tallies, lock_use.lock);
    tally.version == lock_use.version && (!lock_use.wrote || tally.readers == 0)
}

/// Whether an item may come by its uses, of which the first `known` are known to be such.
fn is_due(tallies: &[Tally], uses: &[LockUse], known: &mut usize) -> bool
    ensures known { MayUseBelow tallies.now uses.now known.old → MayUseBelow tallies.now uses.now known.new }
    ensures is { MayUseBelow tallies.now uses.now known.old → IsTrue result ↔ MayUseAll tallies.now uses.now }
{
    for i in *known..uses.len() {
        if !may_use(tallies, &uses[i]) {
            return false;
        }
        *known = i + 1;
    }
    true
}

/// Goes on by one use; None if it may not come.
fn place_use(tally: &mut Tally, row: &[u32], lock_use: &LockUse) -> Option<()>
    ensures found { OnSome result (lock_use.now.version ≡ tally.old.version) }
    ensures wrote { OnSome result (lock_use.now.wrote ≡ true → (tally.old.readers ≡ 0)
        × ((tally.new.version ≡ tally.old.version + 1)
        × (tally.new.readers ≡ slice_index row.now (tally.old.version + 1)))) }
    ensures read { OnSome result (lock_use.now.wrote ≡ false
        → (tally.new.version ≡ tally.old.version) × (tally.old.readers ≡ tally.new.readers + 1)) }
{
    if tally.version != lock_use.version {
        return None;
    }
    if !lock_use.wrote {
        tally.readers = tally.readers.checked_sub(1)?;
        return Some(());
    }
    if tally.readers != 0 {
        return None;
    }
    let version = tally.version.checked_add(1)?;
    *tally = Tally {
        version,
        readers: readers_of(row, version),
    };
    Some(())
}

/// Goes on by the uses of an item; None if one of them may not come.
fn place_uses(tallies: &mut [Tally], rows: &[Vec<u32>], uses: &[LockUse]) -> Option<()>
    requires { length tallies.old ≡ length rows.now }
    ensures count { length tallies.new ≡ length tallies.old }
    ensures step { OnSome result (IsStep uses.now (row_at rows.now) (version_at tallies.old) (left_at tallies.old)
        (version_at tallies.new) (left_at tallies.new)) }
{
    let mut from: usize = 0;
    for i in 0..uses.len() {
        let lock = uses[i].lock as usize;
        if lock < from || lock >= tallies.len() {
            return None;
        }
        place_use(&mut tallies[lock], &rows[lock], &uses[i])?;
        from = lock + 1;
    }
    Some(())
}

/// Whether the first item of the lane may come, of whose uses the first `known` are known to be such.
fn may_start<P: Placed>(done: &[P], tallies: &[Tally], lane: &Lane, known: &mut usize) -> bool
    requires { lane.now.end ≤ length done.now }
    ensures known { AreKnownOf (map P.spot done.now) tallies.now lane.now known.old
        → AreKnownOf (map P.spot done.now) tallies.now lane.now known.new }
    ensures some { IsTrue result → lane.now.next < lane.now.end }
    ensures is { AreKnownOf (map P.spot done.now) tallies.now lane.now known.old
        → IsTrue result ↔ MayStart (map P.spot done.now) tallies.now lane.now }
{
    if lane.next >= lane.end {
        return false;
    }
    is_due(tallies, done[lane.next].uses(), known)
}

/// The first lane from this one on whose first item may come.
fn first_open<P: Placed>(
    done: &[P],
    tallies: &[Tally],
    lanes: &[Lane],
    known: &mut [usize],
    from: usize,
) -> Option<usize>
    requires count { length known.old ≡ length lanes.now }
    requires inside { (i : ℕ) (lane : _) → slice_get lanes.now i ≡ Some lane
        → lane.end ≤ length done.now }
    ensures count { length known.new ≡ length lanes.now }
    ensures known { AreKnownUses (map P.spot done.now) tallies.now lanes.now known.old
        → AreKnownUses (map P.spot done.now) tallies.now lanes.now known.new }
    ensures low { (at : ℕ) → result ≡ Some at → from ≤ at }
    ensures some { (at : ℕ) → result ≡ Some at
        → (lane : _) × (slice_get lanes.now at ≡ Some lane) × (lane.next < lane.end) }
    ensures may { (at : ℕ) (lane : _) → result ≡ Some at → slice_get lanes.now at ≡ Some lane
        → AreKnownUses (map P.spot done.now) tallies.now lanes.now known.old
        → MayStart (map P.spot done.now) tallies.now lane }
    ensures first { (at i : ℕ) (lane : _) → result ≡ Some at → from ≤ i → i < at
        → AreKnownUses (map P.spot done.now) tallies.now lanes.now known.old
        → slice_get lanes.now i ≡ Some lane
        → MayStart (map P.spot done.now) tallies.now lane → ⊥ }
{
    for at in from..lanes.len() {
        if may_start(done, tallies, &lanes[at], &mut known[at]) {
            return Some(at);
        }
    }
    None
}

/// Whether none is left.
fn are_placed(left: &[bool]) -> bool
    ensures { IsTrue result → (q : ℕ) → slice_get left.now q ≡ Some true → ⊥ }
{
    !left.contains(&true)
}

/// Puts all items in order, one that may come after another; None if items are left of which none may come.
fn place_all<P: Placed>(
    done: &[P],
    rows: &[Vec<u32>],
    lanes: &mut [Lane],
    known: &mut [usize],
    tallies: &mut [Tally],
    left: &mut [bool],
    out: &mut Vec<usize>,
) -> Option<()>
    requires fresh { AreFresh rows.now tallies.old }
    requires lanes { AreLanes (map P.spot done.now) left.old lanes.old }
    requires left { left.old ≡ replicate (length done.now) true }
    requires open { known.old ≡ replicate (length lanes.old) 0 }
    requires out { out.old.items ≡ [] }
    ensures { OnSome result (IsOrder (map P.spot done.now) out.new.items) }
{
    let mut from = 0;
    'all: while let Some(at) = first_open(done, tallies, lanes, known, from) {
        let p = take_first(&mut lanes[at]);
        known[at] = 0;
        left[p] = false;
        out.push(p).ok()?;
        place_uses(tallies, rows, done[p].uses())?;
        from = first_with_items(from, at, &lanes[at]);
    }
    if !are_placed(left) {
        return None;
    }
    Some(())
}

/// The order of a list, by how many read each version; None if it cannot be found so, and then nothing is said of the
/// list.
pub(crate) fn tallied_order<P: Placed>(
    alloc: Global,
    done: &[P],
    readers: &Readers,
) -> Option<Vec<usize>>
    ensures { IfSome result (λ out. IsOrder (map P.spot done.now) out.items) }
{
    if readers.lost {
        return None;
    }
    let mut lanes = lanes_of(alloc, done)?;
    let mut known = vec![in alloc; 0; lanes.len()].ok()?;
    let mut tallies = tallies_of(alloc, &readers.rows)?;
    let mut left = vec![in alloc; true; done.len()].ok()?;
    let mut out = Vec::with_capacity(alloc, done.len()).ok()?;
    place_all(
        done,
        &readers.rows,
        &mut lanes,
        &mut known,
        &mut tallies,
        &mut left,
        &mut out,
    )?;
    Some(out)
}

/// The order of a list whose readers are counted first; None if it cannot be found so, and then nothing is said of the
/// list.
pub(crate) fn counted_order<P: Placed>(alloc: Global, done: &[P]) -> Option<Vec<usize>>
    ensures { IfSome result (λ out. IsOrder (map P.spot done.now) out.items) }
{
    let readers = Readers::of(alloc, done).ok()?;
    tallied_order(alloc, done, &readers)
}
