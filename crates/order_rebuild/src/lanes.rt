//! The items that are left, caller by caller.

ghost use Rattle.std.specs.Prelude.{◌≡◌, ◌⊎◌, ◌^◌, ℕ, ◌+◌, ◌-◌, ◌<◌, ◌≤◌, IsTrue, IfSome, map, length, slice_get, Some, replicate, true};
ghost use Rattle.order_rebuild.specs.Lanes.{AreCut, AreLanes, shorter};

use history_model::Placed;
use std::alloc::Global;

/// The items of one caller that are left: they stand side by side in the list, by rising index.
#[derive(Clone, Copy)]
pub(crate) struct Lane {
    pub(crate) caller: u32,
    /// The first of them.
    pub(crate) next: usize,
    /// The place behind the last.
    pub(crate) end: usize,
}

/// The place behind the items from `start` on that have one caller, and each a greater index than the one before.
fn end_of_lane<P: Placed>(done: &[P], start: usize) -> usize
    requires inside { start < length done.now }
    ensures above { start < result }
    ensures inside { result ≤ length done.now }
    ensures steps { (p : ℕ) (x y : _) → start < p → p < result
        → slice_get (map P.spot done.now) (p - 1) ≡ Some x
        → slice_get (map P.spot done.now) p ≡ Some y
        → (x.caller ≡ y.caller) × (x.index < y.index) }
{
    for p in start + 1..done.len() {
        let (x, before) = (&done[p], &done[p - 1]);
        if x.caller() != before.caller() || x.index() <= before.index() {
            return p;
        }
    }
    done.len()
}

/// The lanes of a list in its order.
fn cut<P: Placed>(alloc: Global, done: &[P]) -> Option<Vec<Lane>>
    ensures { IfSome result (λ lanes. AreCut (map P.spot done.now) (length done.now) lanes.items) }
{
    let mut lanes = Vec::new(alloc);
    let mut next = 0;
    'on: while next < done.len() {
        let end = end_of_lane(done, next);
        let caller = done[next].caller();
        lanes.push(Lane { caller, next, end }).ok()?;
        next = end;
    }
    Some(lanes)
}

/// Whether each lane has a greater caller than the one before.
fn are_rising(lanes: &[Lane]) -> bool
    ensures { IsTrue result → (i j : ℕ) (a b : _) → slice_get lanes.now i ≡ Some a
        → slice_get lanes.now j ≡ Some b → i < j → a.caller < b.caller }
{
    for i in 1..lanes.len() {
        if lanes[i].caller <= lanes[i - 1].caller {
            return false;
        }
    }
    true
}

/// The lanes by rising caller; None if the items of a caller do not stand side by side by rising index.
pub(crate) fn lanes_of<P: Placed>(alloc: Global, done: &[P]) -> Option<Vec<Lane>>
    ensures { IfSome result (λ lanes.
        AreLanes (map P.spot done.now) (replicate (length done.now) true) lanes.items) }
{
    let mut lanes = cut(alloc, done)?;
    lanes.sort_by_key(|lane| lane.caller).ok()?;
    if !are_rising(&lanes) {
        return None;
    }
    Some(lanes)
}

/// Takes the first item out of the lane.
pub(crate) fn take_first(lane: &mut Lane) -> usize
    requires { lane.old.next < lane.old.end }
    ensures is { result ≡ lane.old.next }
    ensures lane { lane.new ≡ shorter lane.old }
{
    let first = lane.next;
    lane.next = first + 1;
    first
}

/// From where on lanes have items, after one was taken out of the lane at `at`; those below `from` have none.
pub(crate) fn first_with_items(from: usize, at: usize, lane: &Lane) -> usize
    requires { at < 2 ^ 63 }
    ensures { (result ≡ from)
        ⊎ ((result ≡ from + 1) × (at ≡ from) × (lane.now.next ≡ lane.now.end)) }
{
    if at == from && lane.next == lane.end {
        from + 1
    } else {
        from
    }
}
