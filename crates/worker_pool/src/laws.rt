//! Facts that hold of every deque.

ghost use Rattle.std.specs.Prelude.{◌≡◌};
ghost use Rattle.script_reader.specs.declared.limits.TheConstants.{MOST_WORKERS};
ghost use Rattle.word_table.specs.declared.limits.TheConstants.{MOST_PASSES};
ghost use Rattle.worker_pool.specs.Deques.{DealtIsThereOrTaken};

use crate::rule::ALL_PARTS;

/// The parts of a deque, in digits. All else cites the constant.
pub fn greatest_sizes()
    ensures parts { ALL_PARTS ≡ 64 }
{}

/// As many workers may be asked for as a desk has passes.
pub fn as_many_workers()
    ensures { MOST_WORKERS ≡ MOST_PASSES }
{}

/// Whatever steps its handles take, each caller is in a deque or was taken from it, together as often as it was dealt to
/// it. Whoever has all parts back and finds it empty has taken all that was dealt.
pub fn dealt_is_there_or_taken()
    ensures { DealtIsThereOrTaken }
{}
