//! Words that are only read: neither a copy of them is kept, nor a trace.

ghost use Rattle.std.specs.Prelude.{◌≡◌, [], None};
ghost use Rattle.history_model.specs.Fitting.{IsGood};
ghost use Rattle.history_model.specs.Marks.{count_writes};
ghost use Rattle.txn_words.specs.Plainly.{IsSoundPlain};

use crate::read_trace::ReadTrace;
use history_model::Shape;
use std::marker::Model;
use txn_words::plain::WordList;
use txn_words::{Mark, Stop, Words};

/// Words of another's, to be read.
///
/// It borrows them as `&[u64]`, so it cannot write them. It keeps nothing of what was read, so a search takes no memory. It
/// gives way to nobody. A write stops it, as if no memory were left: whoever writes takes a `Plain`. Contracts see what they
/// see of a `Plain`.
#[derive(Drop)]
pub struct ReadOnly<'a, S: Shape> {
    shape: S,
    words: &'a [u64],
    trace: ReadTrace,
    stop: Option<Stop>,
}

impl<'a, S: Shape> Model for ReadOnly<'a, S> {
    ghost use Rattle.std.specs.Prelude.{[]};
    ghost use Rattle.txn_words.specs.Plainly.{PlainView, Follows};

    ghost Value = { PlainView S };

    ghost view = { λ p. record {
      shape = p.shape;
      origin = p.words.now;
      trace = p.trace;
      stop = p.stop;
    } };

    ghost invariant = { λ p. Follows (S.word_count p.shape) (S.good p.shape)
        p.words.now p.trace [] p.words.now };
}

impl<'a, S: Shape> ReadOnly<'a, S> {
    /// These words, with no event yet.
    pub fn new(shape: S, words: &'a [u64]) -> ReadOnly<'a, S>
        requires { IsGood (S.word_count shape) (S.good shape) words.now }
        ensures view { result ≡ record {
          shape = shape;
          origin = words.now;
          trace = [];
          stop = None;
        } }
        ensures sound { IsSoundPlain (S.word_count result.shape) (S.good result.shape) result }
    {
        ReadOnly {
            shape,
            words,
            trace: ReadTrace::new(),
            stop: None,
        }
    }

    // How many writes there were: none.
    fn writes(&self) -> usize
        ensures none { result ≡ 0 }
        ensures all { result ≡ count_writes self.now.trace }
    {
        let _words = self.words;
        0
    }
}

impl<'a, S: Shape> Words for ReadOnly<'a, S> {
    ghost use Rattle.std.specs.Prelude.{◌≡◌, ◌≢◌, ◌<◌, ◌≤◌, ◌++◌, ◌∷◌, [], None, Err, IfOk, OnOk};
    ghost use Rattle.history_model.specs.declared.event.Event.TheVariants.{Read};
    ghost use Rattle.txn_words.specs.Plainly.{IsSoundPlain};

    type Shape = S;

    type Origin = WordList;

    ghost shape = { λ p. p.shape };

    ghost origin = { λ p. p.origin };

    ghost trace = { λ p. p.trace };

    ghost stop = { λ p. p.stop };

    ghost is_sound = { λ p. IsSoundPlain (S.word_count p.shape) (S.good p.shape) p };

    fn read(&mut self, a: u64) -> Result<u64, Stop> {
        let words = self.words;
        let v = words[a as usize];
        self.trace = self.trace.and(a, v);
        Ok(v)
    }

    fn write(&mut self, _a: u64, _v: u64) -> Result<(), Stop> {
        self.stop = Some(Stop::Memory);
        Err(Stop::Memory)
    }

    fn mark(&mut self) -> Mark {
        Mark {
            writes: self.writes(),
        }
    }

    // Nothing was written, so nothing goes back.
    fn back_to(&mut self, _m: Mark) -> Result<(), Stop> {
        let _none = self.writes();
        Ok(())
    }

    ghost fits = { λ p h. (p.origin, h.fits) };
}
