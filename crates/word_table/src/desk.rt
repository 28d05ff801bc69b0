//! The shared table, and the calls that a program makes: it opens a table, lends its passes, and closes it. Between calls a
//! pass may note what it has seen, for another to meet.

ghost use Rattle.std.specs.Prelude.{◌≡◌, ◌↔◌, ◌⊎◌, ◌<◌, ◌≤◌, ℕ, [], ◌∷◌, length, IfOk, IfErr, Some, slice_get};
ghost use Rattle.history_model.specs.declared.entry.Entry.{Entry};
ghost use Rattle.history_model.specs.Fitting.{IsGood};
ghost use Rattle.history_model.specs.Legal.{IsIn};
ghost use Rattle.locks_rule.specs.Joins.{gains};
ghost use Rattle.word_table.specs.Closing.{AreAllPasses, AreRecords, AreSeenBy, IsCoherent, IsLegalInEachOrder};
ghost use Rattle.word_table.specs.Desks.{AreGoodWords};
ghost use Rattle.word_table.specs.Sound.{opening_words};
ghost use Rattle.word_table.specs.Copies.{fresh_pass};

use crate::closing::{CloseRefused, Closed, copy_words, join_passes, room_for};
use crate::deal::deal;
use crate::layout::place_of_values;
use crate::limits::{MOST_PASSES, MOST_WORDS};
use crate::notes::Note;
use crate::pass::Pass;
use crate::rule::Ground;
use crate::step::{TableWords, close_with, lay_table, word_count};
use history_model::{Phase, Shape, View};
use io_ends::OutOfMemory;
use std::alloc::Global;
use std::marker::Model;
use std::snapshot::Snapshot;

mod steps;

// The words of a table for n seats: those of the locks are 0, and the memory's come last.
fn lay(alloc: Global, base: &Vec<u64>, n: u32) -> Result<Vec<u64>, OutOfMemory>
    requires { (n ≤ MOST_PASSES) × (length base.now.items ≤ MOST_WORDS) }
    ensures { IfOk result (λ words. words.items ≡ opening_words n base.now.items) }
{
    let mut words = vec![in alloc; 0u64; place_of_values(n)]?;
    words.extend_from_slice(base.as_slice())?;
    Ok(words)
}

/// The shared table. Any number of threads may step on it, each with a pass of its own.
#[derive(Drop)]
pub struct Desk<S: Shape> {
    table: TableWords<S>,
    seats: u32,
}

impl<S: Shape> Model for Desk<S> {
    ghost use Rattle.word_table.specs.declared.limits.TheConstants.{MOST_PASSES};
    ghost use Rattle.std.specs.Prelude.{◌≡◌, ◌≤◌, length};
    ghost use Rattle.history_model.specs.Fitting.{IsGood};
    ghost use Rattle.history_model.specs.Table.{table_words};
    ghost use Rattle.word_table.specs.Desks.{DeskView};

    ghost Value = { DeskView S };

    ghost view = { λ d. record {
      table = d.table.table_id;
      base = d.table.key.base.items;
      seats = d.table.key.seats;
      shape = d.table.key.shape;
    } };

    ghost invariant = { λ d.
        (d.table.table_id.slots ≡ 0)
        × (d.table.table_id.words ≡ table_words d.table.key.seats (length d.table.key.base.items))
        × (d.seats ≡ d.table.key.seats) × (1 ≤ d.seats) × (d.seats ≤ MOST_PASSES)
        × IsGood (S.word_count d.table.key.shape) (S.good d.table.key.shape) d.table.key.base.items };
}

impl<S: Shape> Desk<S> {
    /// A desk over the words `base`, and a pass for each of n seats. Pass j has the number j.
    pub fn new(
        alloc: Global,
        shape: S,
        base: Vec<u64>,
        n: u32,
    ) -> Result<(Desk<S>, Vec<Pass<S>>), OutOfMemory>
        requires good { IsGood (S.word_count shape) (S.good shape) base.items }
        requires words { (1 ≤ length base.items) × (length base.items ≤ MOST_WORDS) }
        requires seats { (1 ≤ n) × (n ≤ MOST_PASSES) }
        ensures desk { IfOk result
            (λ made. (made.0.base ≡ base.items) × (made.0.seats ≡ n) × (made.0.shape ≡ shape)) }
        ensures count { IfOk result (λ made. length made.1.items ≡ n) }
        ensures passes { IfOk result (λ made. (j : ℕ) → j < n
            → slice_get made.1.items j
            ≡ Some (fresh_pass made.0.table base.items n j)) }
        ensures all { IfOk result (λ made. AreAllPasses made.0.table made.0.seats made.1.items) }
    {
        let words = lay(alloc, &base, n)?;
        let ground = Ground {
            seats: n,
            base,
            shape,
        };
        let (table, seat) = lay_table(alloc, words.as_slice(), &ground)?;
        let passes = deal(alloc, &table, seat, n)?;
        Ok((Desk { table, seats: n }, passes))
    }

    /// The words that the table began with are good. It does nothing.
    pub fn began_good(&self)
        ensures { AreGoodWords S.Shape self.now self.now.base }
    {
        let _ = &self.seats;
    }

    /// How many seats share the table: one for each pass that it was made with.
    pub fn seats(&self) -> u32
        ensures { result ≡ self.now.seats }
    {
        self.seats
    }

    /// A note of what the pass has seen, for another pass to meet.
    pub fn note(&self, pass: &mut Pass<S>) -> Note<S>
        requires desk { pass.old.table ≡ self.now.table }
        requires phase { pass.old.view.phase ≡ Phase.Idle }
        ensures pass { pass.new ≡ pass.old }
        ensures desk { result.table ≡ self.now.table }
        ensures seen { result.seen ≡ pass.old.view.seen }
    {
        pass.take_note(&self.table)
    }

    /// The pass has then seen exactly the records that it or the note had seen, each once. What it commits later stands
    /// behind them in every arrangement.
    pub fn meet(&self, pass: &mut Pass<S>, note: Note<S>)
        requires desk { pass.old.table ≡ self.now.table }
        requires note { note.table ≡ self.now.table }
        requires phase { pass.old.view.phase ≡ Phase.Idle }
        ensures desk { pass.new.table ≡ pass.old.table }
        ensures steps { pass.new.steps ≡ pass.old.steps }
        ensures exactly { pass.new.view
            ≡ record pass.old.view { seen = gains pass.old.view.seen note.seen; met = [] } }
        ensures both { (e : Entry) → IsIn e pass.new.view.seen
            ↔ (IsIn e pass.old.view.seen ⊎ IsIn e note.seen) }
    {
        pass.meet_note(&self.table, note);
    }

    // How many words the memory has.
    fn memory_words(&self) -> usize
        ensures { result ≡ length self.now.base }
    {
        word_count(&self.table) - place_of_values(self.seats)
    }

    // Brings all passes together and takes the words out, into room that was taken before.
    fn close_into(self, mut words: Vec<u64>, mut passes: Vec<Pass<S>>) -> Closed<S>
        requires room { length words.items ≡ length self.base }
        requires all { AreAllPasses self.table self.seats passes.items }
        ensures desk { (result.base ≡ self.base) × (result.seats ≡ self.seats)
            × (result.shape ≡ self.shape) }
        ensures coherent { IsCoherent (AreGoodWords S.Shape self) result }
        ensures legal { IsLegalInEachOrder (AreGoodWords S.Shape self) result }
        ensures records { AreRecords result }
        ensures seen { AreSeenBy passes.items result.records }
    {
        let Desk { table, seats } = self;
        let Some(last_pass) = passes.pop() else {
            unreachable!()
        };
        let seat = join_passes(&table, last_pass, passes);
        let made = Snapshot::of(&table);
        let last = Snapshot::of(&seat);
        let closed = close_with(table, seat);
        copy_words(&closed, place_of_values(seats), &mut words);
        closed.free();
        Closed { words, made, last }
    }

    /// Closes the table, with all its passes. The words that it leaves are what each arrangement of all that was done
    /// leaves of the words that it began with. Memory is taken first, and if there is none, nothing was done.
    pub fn close(self, alloc: Global, passes: Vec<Pass<S>>) -> Result<Closed<S>, CloseRefused<S>>
        requires all { AreAllPasses self.table self.seats passes.items }
        ensures desk { IfOk result
            (λ closed. (closed.base ≡ self.base) × (closed.seats ≡ self.seats)
            × (closed.shape ≡ self.shape)) }
        ensures coherent { IfOk result (λ closed.
            IsCoherent (AreGoodWords S.Shape self) closed) }
        ensures legal { IfOk result (λ closed.
            IsLegalInEachOrder (AreGoodWords S.Shape self) closed) }
        ensures records { IfOk result (λ closed. AreRecords closed) }
        ensures seen { IfOk result (λ closed. AreSeenBy passes.items closed.records) }
        ensures refused { IfErr result
            (λ refused. (refused.desk ≡ self) × (refused.passes ≡ passes)) }
    {
        match room_for(alloc, self.memory_words()) {
            Ok(words) => Ok(self.close_into(words, passes)),
            Err(OutOfMemory) => Err(CloseRefused { desk: self, passes }),
        }
    }
}
