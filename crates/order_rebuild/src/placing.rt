//! The loop that places one item after another.

ghost use Rattle.std.specs.Prelude.{◌≡◌, map, IfOk, vec_len, ℕ, ◌<◌, List, [], OnOk, length, slice_get, slice_index, Some, true};
ghost use Rattle.std.specs.BinaryHeap.{heap_items};
ghost use Rattle.history_model.specs.declared.placed.Spot.{Spot};
ghost use Rattle.order_rebuild.specs.Order.{IsOrder, Orderable};
ghost use Rattle.order_rebuild.specs.Lines.{places, items, AreRows, AreLines};

use crate::lines::Lines;
use crate::ready::{Ready, let_go, queue_all};
use history_model::Placed;
use io_ends::OutOfMemory;
use std::alloc::Global;
use std::collections::BinaryHeap;

/// Puts all items in order, from a state in which none is placed.
pub(crate) fn place_all(
    lines: &Lines,
    left: &mut [bool],
    next: &mut [usize],
    wait: &mut [usize],
    mut ready: Ready,
    out: &mut Vec<usize>,
) -> Result<(), OutOfMemory>
    requires rows { AreRows lines.now }
    requires sized { length left.old ≡ items lines.now }
    requires left { (q : ℕ) → q < items lines.now → slice_get left.old q ≡ Some true }
    requires next { length next.old ≡ places lines.now }
    requires first { (i : ℕ) → i < places lines.now → slice_index next.old i ≡ i }
    requires wait { wait.old ≡ lines.now.last.items }
    requires ready { heap_items ready ≡ [] }
    requires out { out.old.items ≡ [] }
    ensures { (list : List Spot) → AreLines list lines.now → Orderable list
        → OnOk result (IsOrder list out.new.items) }
{
    queue_all(lines, next, wait, &mut ready)?;
    'all: while let Some(comer) = ready.pop() {
        let p = comer.0.1;
        left[p] = false;
        out.push(p)?;
        let_go(lines, left, next, wait, &mut ready, p)?;
    }
    Ok(())
}

/// The order of a list, by its lines.
pub(crate) fn sorted_order<P: Placed>(alloc: Global, done: &[P]) -> Result<Vec<usize>, OutOfMemory>
    ensures { Orderable (map P.spot done.now)
        → IfOk result (λ out. IsOrder (map P.spot done.now) out.items) }
{
    let lines = Lines::of(alloc, done)?;
    let mut left = vec![in alloc; true; done.len()]?;
    let mut next = numbers(alloc, lines.item.len())?;
    let mut wait = Vec::from_slice(alloc, lines.last.as_slice())?;
    let mut out = Vec::new(alloc);
    place_all(
        &lines,
        &mut left,
        &mut next,
        &mut wait,
        BinaryHeap::new(alloc),
        &mut out,
    )?;
    Ok(out)
}

/// The numbers below n.
pub(crate) fn numbers(alloc: Global, n: usize) -> Result<Vec<usize>, OutOfMemory>
    ensures count { IfOk result (λ v. vec_len v ≡ n) }
    ensures each { IfOk result (λ v. (i : ℕ) → i < n → slice_index v.items i ≡ i) }
{
    let mut numbers = Vec::with_capacity(alloc, n)?;
    for i in 0..n {
        numbers.push(i)?;
    }
    Ok(numbers)
}
