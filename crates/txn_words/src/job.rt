//! A transaction as a job over any words.

ghost use Rattle.std.specs.Prelude.{◌≡◌, ◌↔◌, ℕ, [], List, Bool, true, None, Some, Err, IfOk, OnOk};
ghost use Rattle.history_model.specs.Traces.{after};
ghost use Rattle.history_model.specs.Fitting.{Fits, SomeFits};
ghost use Rattle.txn_words.specs.Verdicts.{is_kept, answer_of};

use crate::words::{Stop, Words};
use history_model::Shape;

/// What a job decided, with its answer.
#[derive(Debug, PartialEq, Eq, Drop)]
pub enum Verdict<A> {
    /// Its writes count.
    Keep(A),
    /// Its writes count for nothing, and whoever runs it undoes them.
    Revert(A),
}

/// A transaction, as a job that runs over any words of its shape.
///
/// It is proved once, over every `Words`. Whoever runs it over some words then knows its meaning there: on a plain
/// list that list's, over a shared table that of every state that fits what the job read.
pub trait Job {
    type Shape: Shape;

    type Answer;

    /// The shape on whose words the job runs.
    ghost shape: { Self → Self.Shape };

    /// What the job is to do with a good list: whether its writes are kept, its answer, and what is left of the list.
    /// If the writes are not kept, nothing is read off what is left.
    ghost means: { Self → List ℕ → Bool → Self.Answer → List ℕ → Type 0 };

    /// The job's number, for those who watch a run. Nothing else uses it.
    fn tag(&self) -> u64 {
        0
    }

    /// Runs the job once. A `Stop` that the words answer is handed on; the job may itself answer `Memory`, and says
    /// nothing of what it did then.
    fn run<W: Words<Shape = Self::Shape>>(&self, w: &mut W) -> Result<Verdict<Self::Answer>, Stop>
        requires shape { W.shape w.old ≡ shape self.now }
        requires fresh { W.trace w.old ≡ [] }
        requires going { W.stop w.old ≡ None }
        requires sound { W.is_sound w.old }

        // For every good list that fits what was done, verdict and answer are the job's meaning ..
        ensures meaning { IfOk result (λ v. (s : List ℕ)
            → Fits (Self.Shape.word_count (shape self.now)) (Self.Shape.good (shape self.now))
            (W.trace w.new) s
            → means self.now s (is_kept v) (answer_of v) (after (W.trace w.new) s)) }

        // .. and what is kept is good.
        ensures good { IfOk result (λ v. is_kept v ≡ true → (s : List ℕ)
            → Fits (Self.Shape.word_count (shape self.now)) (Self.Shape.good (shape self.now))
            (W.trace w.new) s
            → Self.Shape.good (shape self.now) (after (W.trace w.new) s)) }

        // It goes on to the end unless the words stop, and yields exactly if they do.
        ensures done { OnOk result (W.stop w.new ≡ None) }
        ensures yields { (result ≡ Err Stop.Yield) ↔ (W.stop w.new ≡ Some Stop.Yield) }

        ensures shape { W.shape w.new ≡ W.shape w.old }
        ensures origin { W.origin w.new ≡ W.origin w.old }
        ensures sound { W.is_sound w.new };
}

/// Some good list fits what was done so far. It does nothing: a job calls it if it relies on what good lists have in
/// common, as when a number has to fit.
pub fn some_fits<W: Words>(w: &W, shape: &W::Shape)
    requires shape { W.shape w.now ≡ shape.now }
    requires sound { W.is_sound w.now }
    ensures some { SomeFits (W.Shape.word_count shape.now) (W.Shape.good shape.now) (W.trace w.now) }
{}
