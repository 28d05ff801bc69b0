//! The steps of a pass between calls: it gives off a note, and takes one in.

ghost use Rattle.std.specs.Prelude.{◌≡◌, []};
ghost use Rattle.locks_rule.specs.Joins.{gains};

use super::Pass;
use crate::notes::{GivesNote, MeetsNote, Note};
use crate::step::{self, TableWords};
use history_model::{Phase, Shape};
use std::marker::PhantomData;

impl<S: Shape> Pass<S> {
    // The making of a seat with which the pass gives off a note.
    pub(crate) fn take_note(&mut self, table: &TableWords<S>) -> Note<S>
        requires table { self.old.table ≡ table.now.table_id }
        requires phase { self.old.view.phase ≡ Phase.Idle }
        ensures pass { self.new ≡ self.old }
        ensures table { result.table ≡ table.now.table_id }
        ensures seen { result.seen ≡ self.old.view.seen }
    {
        let seat = step::split::<S, GivesNote>(table, &mut self.seat);
        Note {
            seat,
            shape: PhantomData,
        }
    }

    // The joining of a seat with which the pass takes in the note.
    pub(crate) fn meet_note(&mut self, table: &TableWords<S>, note: Note<S>)
        requires table { self.old.table ≡ table.now.table_id }
        requires note { note.table ≡ table.now.table_id }
        requires phase { self.old.view.phase ≡ Phase.Idle }
        ensures table { self.new.table ≡ self.old.table }
        ensures steps { self.new.steps ≡ self.old.steps }
        ensures view { self.new.view
            ≡ record self.old.view { seen = gains self.old.view.seen note.seen; met = [] } }
    {
        let Note { seat, shape: _ } = note;
        step::join::<S, MeetsNote>(table, &mut self.seat, seat);
    }
}
