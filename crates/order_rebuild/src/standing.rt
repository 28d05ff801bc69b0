//! A list that stands in its order already, as one worker leaves it.
//!
//! Callers rise along it, each caller's items by rising index, and each use finds its lock at no lower version than the
//! uses before left it at. That is seen in one look at each use, with one number for each lock.

ghost use Rattle.std.specs.Prelude.{◌≡◌, ℕ, ◌<◌, ◌≤◌, IsTrue, IfSome, OnSome, map, length, slice_get, slice_index, Some};
ghost use Rattle.order_rebuild.specs.Order.{IsOrder};
ghost use Rattle.order_rebuild.specs.Standing.{InTurn, AreInTurn, KeepUses, IsPast};

use crate::placing::numbers;
use history_model::{LOCKS, LockUse, Placed};
use std::alloc::Global;

/// Whether y is of a greater caller than x, or of the same one and has a greater index.
fn is_behind<P: Placed>(x: &P, y: &P) -> bool
    ensures { IsTrue result → InTurn (P.spot x.now) (P.spot y.now) }
{
    x.caller() < y.caller() || (x.caller() == y.caller() && x.index() < y.index())
}

/// Whether each item is of a greater caller than the one before, or of the same one and has a greater index.
fn are_in_turn<P: Placed>(done: &[P]) -> bool
    ensures { IsTrue result → AreInTurn (map P.spot done.now) }
{
    for p in 1..done.len() {
        if !is_behind(&done[p - 1], &done[p]) {
            return false;
        }
    }
    true
}

/// Raises the version of each lock to what the uses of an item leave; None if one finds a lower one.
fn go_through(versions: &mut [u64], uses: &[LockUse]) -> Option<()>
    ensures rises { (k : ℕ) → slice_index versions.old k ≤ slice_index versions.new k }
    ensures found { OnSome result ((j : ℕ) (u : _) → slice_get uses.now j ≡ Some u
        → slice_index versions.old u.lock ≤ u.version) }
    ensures past { OnSome result
        ((j : ℕ) (u : _) → slice_get uses.now j ≡ Some u → IsPast versions.new u) }
{
    for i in 0..uses.len() {
        let lock = uses[i].lock as usize;
        if lock >= versions.len() || uses[i].version < versions[lock] {
            return None;
        }
        versions[lock] = uses[i].version.checked_add(uses[i].wrote as u64)?;
    }
    Some(())
}

/// Goes through the uses of all items; None if an item comes by its uses before one that stands earlier.
fn go_through_all<P: Placed>(versions: &mut [u64], done: &[P]) -> Option<()>
    ensures { OnSome result (KeepUses (map P.spot done.now)) }
{
    for p in 0..done.len() {
        go_through(versions, done[p].uses())?;
    }
    Some(())
}

/// The places of a list as they are, if that is its order; None if it is not, and then nothing is said of the list.
pub(crate) fn standing_order<P: Placed>(alloc: Global, done: &[P]) -> Option<Vec<usize>>
    ensures { IfSome result (λ out. IsOrder (map P.spot done.now) out.items) }
{
    if !are_in_turn(done) {
        return None;
    }
    let mut versions = vec![in alloc; 0; LOCKS as usize].ok()?;
    go_through_all(&mut versions, done)?;
    let Ok(out) = numbers(alloc, done.len()) else {
        return None;
    };
    Some(out)
}
