//! What the tests begin and end with: desks with two or three passes that have done nothing, and the words that a desk
//! with two passes leaves.

ghost use Rattle.std.specs.Prelude.{◌≡◌, ◌≤◌, [], ◌∷◌, length, IfOk};
ghost use Rattle.history_model.specs.declared.view.Phase.TheVariants.{Idle};
ghost use Rattle.history_model.specs.Fitting.{IsGood};
ghost use Rattle.word_table.specs.declared.limits.TheConstants.{MOST_WORDS};
ghost use Rattle.word_table.specs.Copies.{fresh_pass};

use history_model::{LockUse, Shape};
use io_ends::OutOfMemory;
use std::alloc::Global;
use word_table::{Desk, Pass};

/// Any two words are good.
#[derive(Clone, Copy)]
pub(crate) struct Pair;

impl Shape for Pair {
    ghost use Rattle.std.specs.Prelude.{⊤};

    ghost word_count = { λ _. 2 };

    ghost good = { λ _ _. ⊤ };
}

/// Any three words are good.
#[derive(Clone, Copy)]
pub(crate) struct Triple;

impl Shape for Triple {
    ghost use Rattle.std.specs.Prelude.{⊤};

    ghost word_count = { λ _. 3 };

    ghost good = { λ _ _. ⊤ };
}

/// Any 1,030 words are good.
#[derive(Clone, Copy)]
pub(crate) struct Wide;

impl Shape for Wide {
    ghost use Rattle.std.specs.Prelude.{⊤};

    ghost word_count = { λ _. 1030 };

    ghost good = { λ _ _. ⊤ };
}

/// A desk over these words, with two passes.
pub(crate) fn open_two<S: Shape>(
    alloc: Global,
    shape: S,
    base: Vec<u64>,
) -> Result<(Desk<S>, Pass<S>, Pass<S>), OutOfMemory>
    requires good { IsGood (S.word_count shape) (S.good shape) base.items }
    requires words { (1 ≤ length base.items) × (length base.items ≤ MOST_WORDS) }
    ensures words { IfOk result (λ opened. opened.0.base ≡ base.items) }
    ensures seats { IfOk result (λ opened. opened.0.seats ≡ 2) }
    ensures zero { IfOk result (λ opened. opened.1 ≡ fresh_pass opened.0.table opened.0.base 2 0) }
    ensures one { IfOk result (λ opened. opened.2 ≡ fresh_pass opened.0.table opened.0.base 2 1) }
{
    let (desk, mut passes) = Desk::new(alloc, shape, base, 2)?;
    let Some(one) = passes.pop() else {
        unreachable!()
    };
    let Some(zero) = passes.pop() else {
        unreachable!()
    };
    Ok((desk, zero, one))
}

/// A desk of three words, all 0, with three passes.
pub(crate) fn open_three(
    alloc: Global,
) -> Result<(Desk<Triple>, Pass<Triple>, Pass<Triple>, Pass<Triple>), OutOfMemory>
    ensures words { IfOk result (λ opened. length opened.0.base ≡ 3) }
    ensures zero { IfOk result
        (λ opened. opened.1
        ≡ fresh_pass opened.0.table opened.0.base 3 0) }
    ensures one { IfOk result
        (λ opened. opened.2
        ≡ fresh_pass opened.0.table opened.0.base 3 1) }
    ensures two { IfOk result
        (λ opened. opened.3
        ≡ fresh_pass opened.0.table opened.0.base 3 2) }
{
    let base = vec![in alloc; 0u64, 0, 0]?;
    let (desk, mut passes) = Desk::new(alloc, Triple, base, 3)?;
    let Some(two) = passes.pop() else {
        unreachable!()
    };
    let Some(one) = passes.pop() else {
        unreachable!()
    };
    let Some(zero) = passes.pop() else {
        unreachable!()
    };
    Ok((desk, zero, one, two))
}

/// The words that a desk with these two passes leaves.
pub(crate) fn close_two<S: Shape>(
    alloc: Global,
    desk: Desk<S>,
    zero: Pass<S>,
    one: Pass<S>,
) -> Result<Vec<u64>, OutOfMemory>
    requires seats { desk.seats ≡ 2 }
    requires zero { (zero.table ≡ desk.table) × (zero.view.who ≡ 0 ∷ [])
        × (zero.view.phase ≡ Idle) }
    requires one { (one.table ≡ desk.table) × (one.view.who ≡ 1 ∷ []) × (one.view.phase ≡ Idle) }
{
    let passes = vec![in alloc; zero, one]?;
    match desk.close(alloc, passes) {
        Ok(closed) => Ok(closed.words().to_vec(alloc)?),
        Err(_) => Err(OutOfMemory),
    }
}

/// The use of a lock at this version.
pub(crate) fn used(lock: u32, version: u64, wrote: bool) -> LockUse {
    LockUse {
        lock,
        version,
        wrote,
    }
}
