//! A note between two transactions: the pass that meets it sees what the other wrote, and finds the version that it left.

ghost use Rattle.std.specs.Prelude.{◌≡◌, ◌<◌};
ghost use Rattle.history_model.specs.declared.view.Phase.TheVariants.{Idle};

use crate::opening::{Pair, close_two, open_two, used};
use io_ends::OutOfMemory;
use std::alloc::Global;
use std::sync::Wait;
use txn_commit::{Receipt, run_job};
use txn_words::{Job, Stop, Verdict, Words};
use word_table::{Desk, Pass};

// What a job does to word 0.
pub(crate) enum Turn {
    Write,
    Read,
}

impl Job for Turn {
    ghost use Rattle.std.specs.Prelude.{⊤};

    type Shape = Pair;

    type Answer = u64;

    ghost shape = { λ _. record {} };

    ghost means = { λ _ _ _ _ _. ⊤ };

    fn run<W: Words<Shape = Pair>>(&self, w: &mut W) -> Result<Verdict<u64>, Stop> {
        match self {
            Turn::Write => {
                w.write(0, 9)?;
                Ok(Verdict::Keep(0))
            }
            Turn::Read => Ok(Verdict::Keep(w.read(0)?)),
        }
    }
}

// A pass's first call.
pub(crate) fn call<R: Wait>(
    rt: &R,
    alloc: Global,
    desk: &Desk<Pair>,
    pass: &mut Pass<Pair>,
    job: &Turn,
) -> Result<Receipt<u64>, OutOfMemory>
    requires desk { pass.old.table ≡ desk.now.table }
    requires idle { pass.old.view.phase ≡ Idle }
    requires room { pass.old.view.call < 1 }
    ensures desk { pass.new.table ≡ desk.now.table }
    ensures idle { (pass.new.view.phase ≡ Idle) × (pass.new.view.who ≡ pass.old.view.who) }
{
    run_job(rt, alloc, desk, pass, job)
}

// One pass writes and gives the other a note, and the other reads.
fn tell<R: Wait>(
    rt: &R,
    alloc: Global,
    desk: &Desk<Pair>,
    zero: &mut Pass<Pair>,
    one: &mut Pass<Pair>,
) -> Result<(Receipt<u64>, Receipt<u64>), OutOfMemory>
    requires desk { (zero.old.table ≡ desk.now.table) × (one.old.table ≡ desk.now.table) }
    requires idle { (zero.old.view.phase ≡ Idle) × (one.old.view.phase ≡ Idle) }
    requires room { (zero.old.view.call < 1) × (one.old.view.call < 1) }
    ensures desk { (zero.new.table ≡ desk.now.table) × (one.new.table ≡ desk.now.table) }
    ensures idle { (zero.new.view.phase ≡ Idle) × (one.new.view.phase ≡ Idle) }
    ensures who { (zero.new.view.who ≡ zero.old.view.who) × (one.new.view.who ≡ one.old.view.who) }
{
    let written = call(rt, alloc, desk, zero, &Turn::Write)?;
    let note = desk.note(zero);
    desk.meet(one, note);
    let read = call(rt, alloc, desk, one, &Turn::Read)?;
    Ok((written, read))
}

// Whether the first wrote the version 0 of lock 0, and the second read 9 at its version 1, and the words are left as 9, 4.
fn is_shown<R: Wait>(rt: &R, alloc: Global) -> Result<bool, OutOfMemory> {
    let base = vec![in alloc; 3u64, 4]?;
    let (desk, mut zero, mut one) = open_two(alloc, Pair, base)?;
    let (written, read) = tell(rt, alloc, &desk, &mut zero, &mut one)?;
    let words = close_two(alloc, desk, zero, one)?;
    let wrote = written.uses.as_slice() == [used(0, 0, true)].as_slice();
    let looked = read.answer == 9 && read.uses.as_slice() == [used(0, 1, false)].as_slice();
    Ok(wrote && looked && words.as_slice() == [9, 4].as_slice())
}

#[test]
fn note_shows_a_commit_to_another_pass(rt: HostRuntime) {
    assert!(rt; matches!(is_shown(&rt, rt.alloc()), Ok(true)));
}
