//! What no worker took, once all threads have joined.

ghost use Rattle.std.specs.Prelude.{ℕ, ◌≡◌, ◌<◌, ◌+◌, length, All, OnOk};
ghost use Rattle.crossbeam_deque.specs.Handles.{worker_view, worker_flavor};
ghost use Rattle.worker_pool.specs.Counting.{times};
ghost use Rattle.worker_pool.specs.Inner.Ends.{AreGuests, HasAll, HaveMore, owners_dealt, owners_took, stolen};
ghost use Rattle.worker_pool.specs.Inner.Finishing.{IsReturning, IsWholeRow, rows_stole};

use crate::ends::{take_back, take_own};
use crate::rule::{ALL_PARTS, DequePass, Owner};
use io_ends::OutOfMemory;
use std::sync::Wait;

// Gives each owner back the pass of this row at its deque.
fn take_row_back(owners: &mut Vec<Owner>, mut row: Vec<DequePass>)
    requires guests { AreGuests owners.old.items row.items }
    requires whole { length row.items ≡ length owners.old.items }
    ensures owners { HaveMore 1 owners.old.items owners.new.items }
    ensures took { (x : ℕ) → owners_took owners.new.items x
        ≡ owners_took owners.old.items x + stolen row.items x }
{
    while let Some(pass) = row.pop() {
        let k = row.len();
        take_back(&mut owners[k], pass);
    }
}

// Gives each owner back all passes at its deque.
fn take_rows_back(owners: &mut Vec<Owner>, rows: Vec<Vec<DequePass>>)
    requires rows { All (λ row. IsWholeRow owners.old.items row.items) rows.items }
    ensures owners { HaveMore (length rows.items) owners.old.items owners.new.items }
    ensures took { (x : ℕ) → owners_took owners.new.items x
        ≡ owners_took owners.old.items x + rows_stole rows.items x }
{
    for row in rows {
        take_row_back(owners, row);
    }
}

// Takes what the owner's deque still holds. Then all that was dealt to it was taken.
fn drain<R: Wait>(rt: &R, mut owner: Owner, left: &mut Vec<u32>) -> Result<(), OutOfMemory>
    requires all { (worker_view owner).parts ≡ ALL_PARTS }
    requires fifo { worker_flavor owner ≡ 0 }
    ensures { OnOk result ((x : ℕ) → times x (worker_view owner).taken + times x left.new.items
        ≡ times x (worker_view owner).dealt + times x left.old.items) }
{
    for _ in rt.forever() {
        let Some(caller) = take_own(&mut owner) else {
            return Ok(());
        };
        left.push(caller)?;
    }
    unreachable!()
}

// Takes what all deques still hold.
fn drain_all<R: Wait>(rt: &R, owners: Vec<Owner>, left: &mut Vec<u32>) -> Result<(), OutOfMemory>
    requires all { All HasAll owners.items }
    requires fifo { All (λ owner. worker_flavor owner ≡ 0) owners.items }
    ensures { OnOk result ((x : ℕ) → owners_took owners.items x + times x left.new.items
        ≡ owners_dealt owners.items x + times x left.old.items) }
{
    for owner in owners {
        drain(rt, owner, left)?;
    }
    Ok(())
}

/// Every pass goes back to its owner, and every owner takes what its deque still holds: it joins the list.
pub(crate) fn take_what_is_left<R: Wait>(
    rt: &R,
    mut owners: Vec<Owner>,
    rows: Vec<Vec<DequePass>>,
    left: &mut Vec<u32>,
) -> Result<(), OutOfMemory>
    requires owners { All (IsReturning (length rows.items)) owners.items }
    requires rows { All (λ row. IsWholeRow owners.items row.items) rows.items }
    ensures { OnOk result ((x : ℕ) → owners_took owners.items x + rows_stole rows.items x
        + times x left.new.items ≡ owners_dealt owners.items x + times x left.old.items) }
{
    take_rows_back(&mut owners, rows);
    drain_all(rt, owners, left)
}
