//! The end of a table: all passes come together, and its words are taken out.

ghost use Rattle.std.specs.Prelude.{◌≡◌, ◌<◌, ◌+◌, ℕ, true, [], ◌∷◌, ◌++◌, length, drop, IfOk};
ghost use Rattle.std.specs.Slots.{slots_items, slots_len, IsFull};
ghost use Rattle.history_model.specs.declared.view.Phase.TheVariants.{Idle};
ghost use Rattle.history_model.specs.Sets.{has};
ghost use Rattle.locks_rule.specs.Joins.{after_joining};
ghost use Rattle.word_table.specs.Closing.{AreAllPasses};
ghost use Rattle.word_table.specs.Gathering.{IsGathered};

use crate::desk::Desk;
use crate::pass::Pass;
use crate::step::{TableSeat, TableWords, join};
use atomic_table::Join;
use history_model::{Shape, View};
use io_ends::OutOfMemory;
use std::alloc::Global;
use std::marker::Model;
use std::snapshot::Snapshot;

/// A closed table: the words that it left. `Desk::close` alone makes one.
///
/// Contracts see the table that it was, too: the words that it began with, the number of its passes, its shape, and the
/// records of all calls that have an entry.
#[derive(Drop)]
pub struct Closed<S: Shape> {
    pub(crate) words: Vec<u64>,
    pub(crate) made: Snapshot<TableWords<S>>,
    pub(crate) last: Snapshot<TableSeat>,
}

impl<S: Shape> Model for Closed<S> {
    ghost use Rattle.word_table.specs.Closing.{ClosedView};

    ghost Value = { ClosedView S };

    ghost view = { λ c. record {
      base = c.made.value.key.base.items;
      seats = c.made.value.key.seats;
      shape = c.made.value.key.shape;
      records = c.last.value.me.0.seen;
      words = c.words.items;
    } };
}

impl<S: Shape> Closed<S> {
    /// The words that the table left.
    pub fn words(&self) -> &[u64]
        ensures { result.now ≡ self.now.words }
    {
        self.words.as_slice()
    }
}

/// There was no memory for the words of a table. Nothing was closed: desk and passes are as they were.
#[derive(Drop)]
pub struct CloseRefused<S: Shape> {
    pub desk: Desk<S>,
    pub passes: Vec<Pass<S>>,
}

/// A view takes in another with its numbers, and the other is spent.
pub(crate) struct JoinsSeats;

impl Join<View> for JoinsSeats {
    ghost use Rattle.locks_rule.specs.Joins.{spent_view};
    ghost use Rattle.locks_rule.specs.Joins.{after_joining};

    ghost both = { after_joining };

    ghost spent = { spent_view };
}

/// So many words, for what the memory leaves.
pub(crate) fn room_for(alloc: Global, count: usize) -> Result<Vec<u64>, OutOfMemory>
    ensures { IfOk result (λ words. length words.items ≡ count) }
{
    Ok(vec![in alloc; 0u64; count]?)
}

// The seat takes in another with its numbers.
fn join_one<S: Shape>(table: &TableWords<S>, seat: &mut TableSeat, other: TableSeat)
    requires table { (seat.old.table_id ≡ table.now.table_id)
        × (other.table_id ≡ table.now.table_id) }
    requires words { 0 < table.now.table_id.words }
    requires seat { (seat.old.me.0.phase ≡ Idle) × (j : ℕ) × (has j seat.old.me.0.who ≡ true) }
    requires other { (other.me.1 ≡ []) × (other.me.0.phase ≡ Idle) × (j : ℕ)
        × (has j other.me.0.who ≡ true) }
    ensures table { seat.new.table_id ≡ seat.old.table_id }
    ensures seat { seat.new.me ≡ (after_joining seat.old.me.0 other.me.0, seat.old.me.1) }
{
    join::<S, JoinsSeats>(table, seat, other);
}

/// All passes as one seat, which has all their numbers, and what each had seen.
pub(crate) fn join_passes<S: Shape>(
    table: &TableWords<S>,
    first: Pass<S>,
    mut passes: Vec<Pass<S>>,
) -> TableSeat
    requires words { 0 < table.now.table_id.words }
    requires all { AreAllPasses table.now.table_id table.now.key.seats
        (passes.items ++ first ∷ []) }
    ensures { IsGathered table.now.table_id (passes.items ++ first ∷ []) [] result.table_id
        result.me }
{
    let mut seat = first.into_seat();
    while let Some(pass) = passes.pop() {
        join_one(table, &mut seat, pass.into_seat());
    }
    seat
}

/// The words of a closed table from the first on.
pub(crate) fn copy_words(
    closed: &atomic_table::Closed<(), Global>,
    first: usize,
    words: &mut Vec<u64>,
)
    requires full { IsFull closed.now.words }
    requires count { first + length words.old.items ≡ slots_len closed.now.words }
    ensures { words.new.items ≡ drop first (slots_items closed.now.words) }
{
    for a in 0..words.len() {
        words[a] = closed.word(first + a);
    }
}
