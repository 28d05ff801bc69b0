//! Jobs on a plain list.

ghost use Rattle.std.specs.Prelude.{◌≡◌, true, IfOk};
ghost use Rattle.history_model.specs.Traces.{after};
ghost use Rattle.history_model.specs.Fitting.{IsGood};
ghost use Rattle.txn_words.specs.Verdicts.{is_kept, answer_of};

use crate::job::{Job, Verdict};
use crate::plain::Plain;
use crate::words::Stop;
use history_model::Shape;
use io_ends::OutOfMemory;
use std::alloc::Global;

/// Runs a job on a good list of its shape, and gives its verdict with the words as the job left them, reverted or not.
pub fn run_on_plain<S: Shape, J: Job<Shape = S>>(
    alloc: Global,
    shape: S,
    words: Vec<u64>,
    job: &J,
) -> Result<(Verdict<J::Answer>, Plain<S>), OutOfMemory>
    requires good { IsGood (S.word_count shape) (S.good shape) words.items }
    requires job { J.shape job.now ≡ shape }
    ensures origin { IfOk result (λ r. r.1.origin ≡ words.items) }
    ensures meaning { IfOk result
        (λ r. J.means job.now words.items (is_kept r.0) (answer_of r.0)
        (after r.1.trace words.items)) }
    ensures kept_good { IfOk result
        (λ r. is_kept r.0 ≡ true → S.good shape (after r.1.trace words.items)) }
{
    let mut plain = Plain::new(alloc, shape, words);
    match job.run(&mut plain) {
        Ok(verdict) => Ok((verdict, plain)),
        Err(Stop::Memory) => Err(OutOfMemory),
        Err(Stop::Yield) => unreachable!(),
    }
}
