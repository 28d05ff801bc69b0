//! The counter's jobs on a plain list.

ghost use Rattle.std.specs.Prelude.{◌≡◌, false, IfOk, length};
ghost use Rattle.transfers.specs.Counting.{Counts};

use crate::increment::{CounterShape, Increment};
use std::alloc::Global;
use txn::{OutOfMemory, Verdict, run_on_plain};

/// What came of adding one: whether it was kept, what the counter was, and the words afterwards.
#[derive(Debug, Drop)]
pub struct Counted {
    pub kept: bool,
    pub answer: u64,
    pub words: Vec<u64>,
}

/// Adds one to the counter in a list of one word.
pub fn increment_plain(alloc: Global, words: &[u64]) -> Result<Counted, OutOfMemory>
    requires one_word { length words.now ≡ 1 }
    ensures meaning { IfOk result (λ c. Counts words.now c.kept c.answer c.words.items) }
    ensures reverted { IfOk result (λ c. c.kept ≡ false → c.words.items ≡ words.now) }
{
    let list = Vec::from_slice(alloc, words)?;
    let (verdict, plain) = run_on_plain(alloc, CounterShape, list, &Increment)?;
    match verdict {
        Verdict::Keep(answer) => Ok(Counted {
            kept: true,
            answer,
            words: plain.into_words(),
        }),
        Verdict::Revert(answer) => Ok(Counted {
            kept: false,
            answer,
            words: plain.into_origin(),
        }),
    }
}
