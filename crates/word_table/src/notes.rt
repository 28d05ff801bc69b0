//! Notes: what one pass has seen, to be told to another.

use crate::step::TableSeat;
use atomic_table::{Join, Split};
use history_model::View;
use std::marker::{Model, PhantomData};

/// What a pass had seen when the note was taken.
///
/// It may go to another thread. A pass that meets it has seen all that the note has, and whatever that pass commits
/// later stands behind that in every arrangement.
#[derive(Drop)]
pub struct Note<S> {
    pub(crate) seat: TableSeat,
    pub(crate) shape: PhantomData<S>,
}

impl<S> Model for Note<S> {
    ghost use Rattle.word_table.specs.Notes.{NoteView, IsNote};

    ghost Value = { NoteView };

    ghost view = { λ n. record { table = n.seat.table_id; seen = n.seat.me.0.seen } };

    ghost invariant = { λ n. IsNote n.seat.me };
}

/// A view gives off a note, and stays as it is.
pub(crate) struct GivesNote;

impl Split<View> for GivesNote {
    ghost use Rattle.locks_rule.specs.Joins.{left_by_note, note_of};

    ghost left = { left_by_note };

    ghost right = { note_of };
}

/// A view takes in a note, which is spent.
pub(crate) struct MeetsNote;

impl Join<View> for MeetsNote {
    ghost use Rattle.locks_rule.specs.Joins.{spent_view};
    ghost use Rattle.locks_rule.specs.Joins.{after_note};

    ghost both = { after_note };

    ghost spent = { spent_view };
}
