//! How seats are made: the table begins with one view that has all numbers, and is cut until each has one.

ghost use Rattle.std.specs.Prelude.{◌≡◌, ◌<◌, ◌≤◌, ◌+◌, ◌-◌, ℕ, [], ◌∷◌, length, IfOk, Some, slice_get};
ghost use Rattle.history_model.specs.Table.{table_words};
ghost use Rattle.locks_rule.specs.Splits.{opening_view, left_by_split, given_by_split};
ghost use Rattle.word_table.specs.Sound.{numbers};
ghost use Rattle.word_table.specs.Copies.{fresh_pass};

use crate::limits::{MOST_PASSES, MOST_WORDS};
use crate::pass::Pass;
use crate::step::{TableSeat, TableWords, split};
use atomic_table::Split;
use history_model::{LOCKS, Shape, View};
use io_ends::OutOfMemory;
use std::alloc::Global;

/// A view gives up its first number to a new seat.
pub(crate) struct FirstNumber;

impl Split<View> for FirstNumber {
    ghost left = { left_by_split };

    ghost right = { given_by_split };
}

// The seat that deals gives up its first number, j.
fn deal_one<S: Shape>(table: &TableWords<S>, seat: &mut TableSeat, n: u32, j: u32) -> TableSeat
    requires counts { (j + 1 < n) × (n ≡ table.now.key.seats) × (0 < table.now.table_id.words) }
    requires table { seat.old.table_id ≡ table.now.table_id }
    requires steps { seat.old.steps ≡ 0 }
    requires seat { seat.old.me
        ≡ (opening_view table.now.key.base.items n (numbers j (n - j)) [], []) }
    ensures table { (seat.new.table_id ≡ seat.old.table_id)
        × (result.table_id ≡ seat.old.table_id) }
    ensures steps { (seat.new.steps ≡ 0) × (result.steps ≡ 0) }
    ensures left { seat.new.me
        ≡ (opening_view table.now.key.base.items n (numbers (j + 1) (n - (j + 1))) [], []) }
    ensures dealt { result.me ≡ (opening_view table.now.key.base.items n (j ∷ []) [], []) }
{
    split::<S, FirstNumber>(table, seat)
}

/// A pass for each of n seats, of a seat that has all their numbers. The last pass is that seat itself.
pub(crate) fn deal<S: Shape>(
    alloc: Global,
    table: &TableWords<S>,
    mut seat: TableSeat,
    n: u32,
) -> Result<Vec<Pass<S>>, OutOfMemory>
    requires counts { (1 ≤ n) × (n ≤ MOST_PASSES) × (n ≡ table.now.key.seats) }
    requires base { length table.now.key.base.items ≤ MOST_WORDS }
    requires table { (seat.table_id ≡ table.now.table_id)
        × (seat.table_id.words ≡ table_words n (length table.now.key.base.items)) }
    requires steps { seat.steps ≡ 0 }
    requires seat { seat.me ≡ (opening_view table.now.key.base.items n (numbers 0 n) [], []) }
    ensures count { IfOk result (λ passes. length passes.items ≡ n) }
    ensures passes { IfOk result (λ passes. (j : ℕ) → j < n
        → slice_get passes.items j
        ≡ Some (fresh_pass table.now.table_id table.now.key.base.items n j)) }
{
    let mut passes = Vec::new(alloc);
    for j in 0..n - 1 {
        let scans = vec![in alloc; 0u64; LOCKS as usize]?;
        let found = vec![in alloc; 0u64; LOCKS as usize]?;
        let own = deal_one(table, &mut seat, n, j);
        passes.push(Pass::of(own, n, j, scans, found))?;
    }
    let scans = vec![in alloc; 0u64; LOCKS as usize]?;
    let found = vec![in alloc; 0u64; LOCKS as usize]?;
    passes.push(Pass::of(seat, n, n - 1, scans, found))?;
    Ok(passes)
}
