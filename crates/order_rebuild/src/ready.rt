//! Who may come, kept up to date while items are placed.
//!
//! A line goes on, past the places of items that are placed, as far as it can; the first place that it has not gone past
//! and all that stand level with it are open. Each item waits at the last of its places that is not open; one that waits
//! at none may come. When a line goes on to new places, the items that wait there look for another place to wait at. So
//! each place is looked at a bounded number of times over all.

ghost use Rattle.std.specs.Prelude.{◌≡◌, ◌≢◌, ◌↔◌, ℕ, suc, ◌+◌, ◌<◌, ◌≤◌, IsTrue, OnOk, length, slice_get, slice_index, Some, false};
ghost use Rattle.std.specs.BinaryHeap.{heap_items};
ghost use Rattle.order_rebuild.specs.Lines.{places, items, item_at, base_at, first_at, last_of, AreRows};
ghost use Rattle.order_rebuild.specs.Going.{IsOpen, AreGone, IsStopped, AreStopped, AreWaits, AreClosed, KeepsReady};

use crate::lines::Lines;
use io_ends::OutOfMemory;
use std::cmp::Reverse;
use std::collections::BinaryHeap;

/// Items that may come, each beside its caller, the least caller first.
pub(crate) type Ready = BinaryHeap<Reverse<(u32, usize)>>;

fn is_open(lines: &Lines, next: &[usize], i: usize) -> bool
    requires rows { AreRows lines.now }
    requires inside { i < places lines.now }
    requires next { length next.now ≡ places lines.now }
    ensures { IsTrue result ↔ IsOpen lines.now next.now i }
{
    lines.first[i] <= next[lines.base[i]]
}

/// From a place of the item down its places, one more than the first that is not open, or 0.
fn first_closed(lines: &Lines, next: &[usize], q: usize, from: usize) -> usize
    requires rows { AreRows lines.now }
    requires next { length next.now ≡ places lines.now }
    requires inside { q < items lines.now }
    requires own { (e : ℕ) → from ≡ suc e → (e < places lines.now) × (item_at lines.now e ≡ q) }
    requires above { (i : ℕ) → i < places lines.now → item_at lines.now i ≡ q → from ≤ i
        → IsOpen lines.now next.now i }
    ensures own { (e : ℕ) → result ≡ suc e → (e < places lines.now) × (item_at lines.now e ≡ q) }
    ensures above { (i : ℕ) → i < places lines.now → item_at lines.now i ≡ q → result ≤ i
        → IsOpen lines.now next.now i }
    ensures closed { (e : ℕ) → result ≡ suc e → IsOpen lines.now next.now e → ⊥ }
{
    let mut at = from;
    'down: while at > 0 {
        if !is_open(lines, next, at - 1) {
            return at;
        }
        at = lines.before[at - 1];
    }
    at
}

/// Queues the item: it waits at a place that is not open, or comes among those that may come.
fn queue_item(
    lines: &Lines,
    next: &[usize],
    wait: &mut [usize],
    ready: &mut Ready,
    q: usize,
) -> Result<(), OutOfMemory>
    requires rows { AreRows lines.now }
    requires inside { q < items lines.now }
    requires next { length next.now ≡ places lines.now }
    requires waits { AreWaits lines.now next.now wait.old }
    ensures waits { OnOk result (AreWaits lines.now next.now wait.new) }
    ensures closed { OnOk result
        ((e : ℕ) → slice_index wait.new q ≡ suc e → IsOpen lines.now next.now e → ⊥) }
    ensures others { OnOk result
        ((p : ℕ) → p ≢ q → slice_index wait.new p ≡ slice_index wait.old p) }
    ensures ready { OnOk result
        (KeepsReady lines.now wait.old (heap_items ready.old) wait.new (heap_items ready.new)) }
{
    let from = wait[q];
    if from == 0 {
        return Ok(());
    }
    let at = first_closed(lines, next, q, from);
    wait[q] = at;
    if at == 0 {
        ready.push(Reverse((lines.callers[q], q)))?;
    }
    Ok(())
}

/// Queues the items that stand level from this place on.
fn queue_level(
    lines: &Lines,
    next: &[usize],
    wait: &mut [usize],
    ready: &mut Ready,
    start: usize,
) -> Result<(), OutOfMemory>
    requires rows { AreRows lines.now }
    requires next { length next.now ≡ places lines.now }
    requires waits { AreWaits lines.now next.now wait.old }
    requires closed { AreClosed lines.now next.now wait.old (λ e. first_at lines.now e ≡ start) }
    ensures waits { OnOk result (AreWaits lines.now next.now wait.new) }
    ensures closed { OnOk result (AreClosed lines.now next.now wait.new (λ e. ⊥)) }
    ensures ready { OnOk result
        (KeepsReady lines.now wait.old (heap_items ready.old) wait.new (heap_items ready.new)) }
{
    for i in start..lines.item.len() {
        if lines.first[i] != start {
            return Ok(());
        }
        queue_item(lines, next, wait, ready, lines.item[i])?;
    }
    Ok(())
}

/// Queues every item.
pub(crate) fn queue_all(
    lines: &Lines,
    next: &[usize],
    wait: &mut [usize],
    ready: &mut Ready,
) -> Result<(), OutOfMemory>
    requires rows { AreRows lines.now }
    requires next { length next.now ≡ places lines.now }
    requires waits { AreWaits lines.now next.now wait.old }
    ensures waits { OnOk result (AreWaits lines.now next.now wait.new) }
    ensures closed { OnOk result (AreClosed lines.now next.now wait.new (λ e. ⊥)) }
    ensures ready { OnOk result
        (KeepsReady lines.now wait.old (heap_items ready.old) wait.new (heap_items ready.new)) }
{
    for i in 0..lines.item.len() {
        queue_item(lines, next, wait, ready, lines.item[i])?;
    }
    Ok(())
}

/// Whether place `i` is one of the line, of an item that is placed.
fn is_passed(lines: &Lines, left: &[bool], line: usize, i: usize) -> bool
    requires rows { AreRows lines.now }
    requires left { length left.now ≡ items lines.now }
    ensures { IsTrue result
        ↔ ((i < places lines.now) × (base_at lines.now i ≡ line)
        × (slice_get left.now (item_at lines.now i) ≡ Some false)) }
{
    i < lines.item.len() && lines.base[i] == line && !left[lines.item[i]]
}

/// Lets the line go on as far as it can.
fn advance(
    lines: &Lines,
    left: &[bool],
    next: &mut [usize],
    wait: &mut [usize],
    ready: &mut Ready,
    line: usize,
) -> Result<(), OutOfMemory>
    requires rows { AreRows lines.now }
    requires left { length left.now ≡ items lines.now }
    requires inside { line < places lines.now }
    requires line { base_at lines.now line ≡ line }
    requires gone { AreGone lines.now left.now next.old }
    requires waits { AreWaits lines.now next.old wait.old }
    requires closed { AreClosed lines.now next.old wait.old (λ e. ⊥) }
    ensures gone { OnOk result (AreGone lines.now left.now next.new) }
    ensures waits { OnOk result (AreWaits lines.now next.new wait.new) }
    ensures closed { OnOk result (AreClosed lines.now next.new wait.new (λ e. ⊥)) }
    ensures stopped { OnOk result (IsStopped lines.now left.now next.new line) }
    ensures others { OnOk result
        ((b : ℕ) → b ≢ line → slice_index next.new b ≡ slice_index next.old b) }
    ensures ready { OnOk result
        (KeepsReady lines.now wait.old (heap_items ready.old) wait.new (heap_items ready.new)) }
{
    'on: while is_passed(lines, left, line, next[line]) {
        let start = next[line] + 1;
        next[line] = start;
        queue_level(lines, next, wait, ready, start)?;
    }
    Ok(())
}

/// Lets the lines of an item that was placed go on.
pub(crate) fn let_go(
    lines: &Lines,
    left: &[bool],
    next: &mut [usize],
    wait: &mut [usize],
    ready: &mut Ready,
    p: usize,
) -> Result<(), OutOfMemory>
    requires rows { AreRows lines.now }
    requires left { length left.now ≡ items lines.now }
    requires inside { p < items lines.now }
    requires gone { AreGone lines.now left.now next.old }
    requires stopped { AreStopped lines.now left.now next.old p (places lines.now) }
    requires waits { AreWaits lines.now next.old wait.old }
    requires closed { AreClosed lines.now next.old wait.old (λ e. ⊥) }
    ensures gone { OnOk result (AreGone lines.now left.now next.new) }
    ensures stopped { OnOk result (AreStopped lines.now left.now next.new p 0) }
    ensures waits { OnOk result (AreWaits lines.now next.new wait.new) }
    ensures closed { OnOk result (AreClosed lines.now next.new wait.new (λ e. ⊥)) }
    ensures ready { OnOk result
        (KeepsReady lines.now wait.old (heap_items ready.old) wait.new (heap_items ready.new)) }
{
    let mut at = lines.last[p];
    'down: while at > 0 {
        advance(lines, left, next, wait, ready, lines.base[at - 1])?;
        at = lines.before[at - 1];
    }
    Ok(())
}
