//! Words in a plain list.

ghost use Rattle.std.specs.Prelude.{◌≡◌, ◌<◌, ◌≤◌, ◌++◌, ◌∷◌, ℕ, [], None, slice_set, OnOk, OnErr};
ghost use Rattle.history_model.specs.declared.event.Event.TheVariants.{Read, Write};
ghost use Rattle.history_model.specs.Traces.{after, Begins, IsLegalTrace};
ghost use Rattle.history_model.specs.Fitting.{Fits, IsGood};
ghost use Rattle.history_model.specs.Undoing.{written_back};
ghost use Rattle.history_model.specs.Marks.{count_writes};
ghost use Rattle.txn_words.specs.Marks.{PutsBack, TakesBack};
ghost use Rattle.txn_words.specs.Plainly.{IsSoundPlain};

use crate::words::{Mark, Stop, Words};
use history_model::{Event, Shape};
use io_ends::OutOfMemory;
use std::alloc::Global;
use std::marker::Model;
use std::snapshot::Snapshot;
use undo_log::UndoLog;

/// What a `Plain` began from, which contracts see as its word list. No value is ever made.
#[derive(Drop)]
pub struct WordList {
    words: Vec<u64>,
}

impl Model for WordList {
    ghost use Rattle.std.specs.Prelude.{ℕ, List};

    ghost Value = { List ℕ };

    ghost view = { λ list. list.words.items };
}

/// Words in a list of one's own, with the trace of all that was done to them, and an undo log.
///
/// It gives way to nobody, and stops only if it is out of memory for its trace or its log. Contracts see its shape, the
/// list that it was made from, the trace and the stop; the words are what the trace leaves of the list.
#[derive(Drop)]
pub struct Plain<S: Shape> {
    shape: S,
    words: Vec<u64>,
    trace: Vec<Event>,
    undo: UndoLog,
    stop: Option<Stop>,
    start: Snapshot<Vec<u64>>,
}

impl<S: Shape> Model for Plain<S> {
    ghost use Rattle.txn_words.specs.Plainly.{PlainView, Follows};

    ghost Value = { PlainView S };

    ghost view = { λ p. record {
      shape = p.shape;
      origin = p.start.value.items;
      trace = p.trace.items;
      stop = p.stop;
    } };

    ghost invariant = { λ p. Follows (S.word_count p.shape) (S.good p.shape)
        p.start.value.items p.trace.items p.undo.list p.words.items };
}

impl<S: Shape> Plain<S> {
    /// Words that begin with the list, and no event. The trace grows on `alloc`; nothing is taken of it yet.
    #[tactic(auto, unfolding(history_model::specs::Traces::after, history_model::specs::Traces::IsLegalTrace, history_model::specs::Undoing::notes_of))]
    pub fn new(alloc: Global, shape: S, words: Vec<u64>) -> Plain<S>
        requires { IsGood (S.word_count shape) (S.good shape) words.items }
        ensures view { result ≡ record {
          shape = shape;
          origin = words.items;
          trace = [];
          stop = None;
        } }
        ensures sound { IsSoundPlain (S.word_count result.shape) (S.good result.shape) result }
    {
        let start = Snapshot::of(&words);
        Plain {
            shape,
            words,
            trace: Vec::new(alloc),
            undo: UndoLog::new(alloc),
            stop: None,
            start,
        }
    }

    /// The words as they are: what the trace leaves of the list that they were made from.
    pub fn words(&self) -> &[u64]
        ensures { result.now ≡ after self.now.trace self.now.origin }
    {
        &self.words
    }

    /// Gives the words back as they are, after a `Stop` too. Nothing is copied.
    pub fn into_words(self) -> Vec<u64>
        ensures { result.items ≡ after self.trace self.origin }
    {
        self.words
    }

    /// Gives the words back as they were when it was made, after a `Stop` too. Each write is undone, newest first, and
    /// nothing is copied.
    pub fn into_origin(self) -> Vec<u64>
        ensures { result.items ≡ self.origin }
    {
        write_back(self.undo, self.words)
    }

    /// What was done so far, oldest first.
    pub fn trace(&self) -> &[Event]
        ensures value { result.now ≡ self.now.trace }
        ensures legal { IsLegalTrace result.now self.now.origin }
    {
        &self.trace
    }
}

impl<S: Shape> Plain<S> {
    // Notes the old value, and writes. A refusal changes nothing.
    fn put(&mut self, a: u64, v: u64) -> Result<(), OutOfMemory>
        requires within { a < S.word_count self.old.shape }
        ensures ok { OnOk result ((was : ℕ)
            × (self.new
            ≡ record self.old { trace = self.old.trace ++ Read a was ∷ Write a v ∷ [] })) }
        ensures err { OnErr result (self.new ≡ self.old) }
        ensures fits { Fits (S.word_count self.new.shape) (S.good self.new.shape) self.new.trace
            self.new.origin }
    {
        let old = self.words[a as usize];
        self.trace.reserve(2)?;
        self.undo.note(a, old)?;
        let _ = self.trace.push(Event::Read(a, old));
        let _ = self.trace.push(Event::Write(a, v));
        self.words[a as usize] = v;
        Ok(())
    }

    // How many writes were noted.
    fn noted(&self) -> usize
        ensures { result ≡ count_writes self.now.trace }
    {
        self.undo.len()
    }

    // Writes the value back that was noted of one write. A refusal changes nothing.
    fn put_back(&mut self, place: usize) -> Result<(), OutOfMemory>
        requires place { place < count_writes self.old.trace }
        ensures back { OnOk result
            (PutsBack (S.word_count self.old.shape) (S.good self.old.shape) place
            self.old.trace self.new.trace) }
        ensures same { self.new ≡ record self.old { trace = self.new.trace } }
        ensures err { OnErr result (self.new ≡ self.old) }
        ensures fits { Fits (S.word_count self.new.shape) (S.good self.new.shape) self.new.trace
            self.new.origin }
    {
        let (a, old) = self.undo.at(place);
        self.put(a, old)
    }
}

// Writes the noted values back down to a place, newest first.
fn go_back<S: Shape>(plain: &mut Plain<S>, to: usize) -> Result<(), OutOfMemory>
    requires mark { to ≤ count_writes plain.old.trace }
    requires fits { Fits (S.word_count plain.old.shape) (S.good plain.old.shape) plain.old.trace
        plain.old.origin }
    ensures back { OnOk result (TakesBack (S.word_count plain.old.shape) (S.good plain.old.shape) to
        plain.old.trace plain.new.trace) }
    ensures same { plain.new ≡ record plain.old { trace = plain.new.trace } }
    ensures begins { Begins plain.old.trace plain.new.trace }
    ensures fits { Fits (S.word_count plain.new.shape) (S.good plain.new.shape) plain.new.trace
        plain.new.origin }
{
    let mut place = plain.noted();
    while place > to {
        place -= 1;
        plain.put_back(place)?;
    }
    Ok(())
}

// The words with the log written back, newest first.
fn write_back(mut undo: UndoLog, mut words: Vec<u64>) -> Vec<u64>
    ensures { result.items ≡ written_back undo.list words.items }
{
    while let Some((a, old)) = undo.newest() {
        set_word(&mut words, a, old);
        undo.drop_newest();
    }
    words
}

// Puts the value at the place, if the list has this place.
fn set_word(words: &mut Vec<u64>, a: u64, v: u64)
    ensures { words.new.items ≡ slice_set words.old.items a v }
{
    if a < words.len() as u64 {
        words[a as usize] = v;
    }
}

impl<S: Shape> Words for Plain<S> {
    ghost use Rattle.std.specs.Prelude.{◌≡◌, ◌≢◌, ◌<◌, ◌≤◌, ◌++◌, ◌∷◌, [], None, Err, IfOk, OnOk};
    ghost use Rattle.history_model.specs.declared.event.Event.TheVariants.{Read};
    ghost use Rattle.history_model.specs.Traces.{Begins};
    ghost use Rattle.history_model.specs.Marks.{count_writes};
    ghost use Rattle.txn_words.specs.Marks.{TakesBack};
    ghost use Rattle.txn_words.specs.Steps.{EndsWithWrite, stop_after};
    ghost use Rattle.txn_words.specs.Plainly.{IsSoundPlain};

    type Shape = S;

    type Origin = WordList;

    ghost shape = { λ p. p.shape };

    ghost origin = { λ p. p.origin };

    ghost trace = { λ p. p.trace };

    ghost stop = { λ p. p.stop };

    ghost is_sound = { λ p. IsSoundPlain (S.word_count p.shape) (S.good p.shape) p };

    fn read(&mut self, a: u64) -> Result<u64, Stop>
        requires within { a < S.word_count self.old.shape }
        requires going { self.old.stop ≡ None }
        requires sound { IsSoundPlain (S.word_count self.old.shape) (S.good self.old.shape)
            self.old }
        ensures value { IfOk result (λ v. self.new.trace ≡ self.old.trace ++ Read a v ∷ []) }
        ensures begins { Begins self.old.trace self.new.trace }
        ensures stops { self.new.stop ≡ stop_after result }
        ensures shape { self.new.shape ≡ self.old.shape }
        ensures origin { self.new.origin ≡ self.old.origin }
        ensures sound { IsSoundPlain (S.word_count self.new.shape) (S.good self.new.shape)
            self.new }
        ensures never_yields { result ≢ Err Stop.Yield }
    {
        let v = self.words[a as usize];
        match self.trace.push(Event::Read(a, v)) {
            Ok(()) => Ok(v),
            Err(_) => {
                self.stop = Some(Stop::Memory);
                Err(Stop::Memory)
            }
        }
    }

    fn write(&mut self, a: u64, v: u64) -> Result<(), Stop>
        requires within { a < S.word_count self.old.shape }
        requires going { self.old.stop ≡ None }
        requires sound { IsSoundPlain (S.word_count self.old.shape) (S.good self.old.shape)
            self.old }
        ensures value { OnOk result (EndsWithWrite self.old.trace self.new.trace a v) }
        ensures begins { Begins self.old.trace self.new.trace }
        ensures stops { self.new.stop ≡ stop_after result }
        ensures shape { self.new.shape ≡ self.old.shape }
        ensures origin { self.new.origin ≡ self.old.origin }
        ensures sound { IsSoundPlain (S.word_count self.new.shape) (S.good self.new.shape)
            self.new }
        ensures never_yields { result ≢ Err Stop.Yield }
    {
        match self.put(a, v) {
            Ok(()) => Ok(()),
            Err(OutOfMemory) => {
                self.stop = Some(Stop::Memory);
                Err(Stop::Memory)
            }
        }
    }

    fn mark(&mut self) -> Mark
        requires going { self.old.stop ≡ None }
        requires sound { IsSoundPlain (S.word_count self.old.shape) (S.good self.old.shape)
            self.old }
        ensures writes { result.writes ≡ count_writes self.old.trace }
        ensures same { self.new ≡ self.old }
    {
        Mark {
            writes: self.noted(),
        }
    }

    fn back_to(&mut self, m: Mark) -> Result<(), Stop>
        requires mark { m.writes ≤ count_writes self.old.trace }
        requires going { self.old.stop ≡ None }
        requires sound { IsSoundPlain (S.word_count self.old.shape) (S.good self.old.shape)
            self.old }
        ensures back { OnOk result (TakesBack (S.word_count self.old.shape) (S.good self.old.shape)
            m.writes self.old.trace self.new.trace) }
        ensures begins { Begins self.old.trace self.new.trace }
        ensures stops { self.new.stop ≡ stop_after result }
        ensures shape { self.new.shape ≡ self.old.shape }
        ensures origin { self.new.origin ≡ self.old.origin }
        ensures sound { IsSoundPlain (S.word_count self.new.shape) (S.good self.new.shape)
            self.new }
        ensures never_yields { result ≢ Err Stop.Yield }
    {
        match go_back(self, m.writes) {
            Ok(()) => Ok(()),
            Err(OutOfMemory) => {
                self.stop = Some(Stop::Memory);
                Err(Stop::Memory)
            }
        }
    }

    ghost fits = { λ p h. (p.origin, h.fits) };
}
