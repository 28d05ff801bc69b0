//! The worked rows of transactions by one thread: two words of one lock, a job that finds no memory, one that takes back
//! what it wrote, one that goes back to a mark, and writes for which the undo log has no room at first.

ghost use Rattle.std.specs.Prelude.{◌≡◌, ◌≤◌, None};
ghost use Rattle.history_model.specs.declared.view.Phase.TheVariants.{Idle};
ghost use Rattle.history_model.specs.Traces.{Begins};
ghost use Rattle.txn_words.specs.Steps.{stop_after};

use crate::opening::{Wide, close_two, open_two};
use history_model::LockUse;
use io_ends::OutOfMemory;
use std::alloc::Global;
use std::sync::Wait;
use txn_commit::{Receipt, run_job};
use txn_words::{Job, Stop, Verdict, Words};
use word_table::{Desk, Pass};

// What a job does, to words of which 5 and 1029 share a lock.
enum Step {
    Write,
    Read,
    WriteAndFail,
    WriteAndRevert,
    // Tries many writes and takes them back, between two that stand.
    Try,
    WriteMany,
}

// Writes 1 into each of the words below this.
fn write_below<W: Words<Shape = Wide>>(w: &mut W, end: u64) -> Result<(), Stop>
    requires end { end ≤ 1030 }
    requires going { W.stop w.old ≡ None }
    requires sound { W.is_sound w.old }
    ensures begins { Begins (W.trace w.old) (W.trace w.new) }
    ensures stops { W.stop w.new ≡ stop_after result }
    ensures shape { W.shape w.new ≡ W.shape w.old }
    ensures origin { W.origin w.new ≡ W.origin w.old }
    ensures sound { W.is_sound w.new }
{
    for a in 0..end {
        w.write(a, 1)?;
    }
    Ok(())
}

// Writes a word, tries more writes than the undo log has room for at first and takes them back, and writes another word.
fn try_many<W: Words<Shape = Wide>>(w: &mut W) -> Result<(), Stop>
    requires going { W.stop w.old ≡ None }
    requires sound { W.is_sound w.old }
    ensures stops { W.stop w.new ≡ stop_after result }
    ensures shape { W.shape w.new ≡ W.shape w.old }
    ensures origin { W.origin w.new ≡ W.origin w.old }
    ensures sound { W.is_sound w.new }
{
    w.write(5, 5)?;
    let mark = w.mark();
    w.write(1029, 8)?;
    write_below(w, 600)?;
    w.back_to(mark)?;
    w.write(1, 9)
}

impl Job for Step {
    ghost use Rattle.std.specs.Prelude.{⊤};

    type Shape = Wide;

    type Answer = u64;

    ghost shape = { λ _. record {} };

    ghost means = { λ _ _ _ _ _. ⊤ };

    fn run<W: Words<Shape = Wide>>(&self, w: &mut W) -> Result<Verdict<u64>, Stop> {
        match self {
            Step::Write => {
                w.write(5, 5)?;
                w.write(1029, 6)?;
            }
            Step::Read => return Ok(Verdict::Keep(w.read(5)?)),
            Step::WriteAndFail => {
                w.write(5, 7)?;
                return Err(Stop::Memory);
            }
            Step::WriteAndRevert => {
                w.write(5, 7)?;
                return Ok(Verdict::Revert(0));
            }
            Step::Try => try_many(w)?,
            Step::WriteMany => write_below(w, 1_025)?,
        }
        Ok(Verdict::Keep(0))
    }
}

// What a pass makes of these jobs, one after another: the receipt of each that found memory.
fn make_calls<R: Wait>(
    rt: &R,
    alloc: Global,
    desk: &Desk<Wide>,
    pass: &mut Pass<Wide>,
    steps: &[Step],
) -> Result<Vec<Option<Receipt<u64>>>, OutOfMemory>
    requires desk { pass.old.table ≡ desk.now.table }
    requires idle { pass.old.view.phase ≡ Idle }
    ensures desk { pass.new.table ≡ desk.now.table }
    ensures idle { (pass.new.view.phase ≡ Idle) × (pass.new.view.who ≡ pass.old.view.who) }
{
    let mut ended = Vec::new(alloc);
    for step in steps {
        if pass.calls_left() > 0 {
            ended.push(run_job(rt, alloc, desk, pass, step).ok())?;
        }
    }
    Ok(ended)
}

// The same at a desk of 1,030 words, all 0, with the words that it leaves.
fn run_steps<R: Wait>(
    rt: &R,
    alloc: Global,
    steps: &[Step],
) -> Result<(Vec<Option<Receipt<u64>>>, Vec<u64>), OutOfMemory> {
    let base = vec![in alloc; 0u64; 1030]?;
    let (desk, mut zero, one) = open_two(alloc, Wide, base)?;
    let ended = make_calls(rt, alloc, &desk, &mut zero, steps)?;
    let words = close_two(alloc, desk, zero, one)?;
    Ok((ended, words))
}

// What a call is to tell: its number, its answer, and the locks that it used, if they are few.
#[derive(Clone, Copy)]
struct Told<'a> {
    call: u32,
    answer: u64,
    uses: Option<&'a [LockUse]>,
}

// Whether a call told this, without a restart; or found no memory, if it is to tell nothing.
fn is_told(ended: &Option<Receipt<u64>>, wanted: &Option<Told<'_>>) -> bool {
    match (ended, wanted) {
        (None, None) => true,
        (Some(receipt), Some(told)) => {
            let same = match told.uses {
                None => true,
                Some(uses) => receipt.uses.as_slice() == uses,
            };
            same && (receipt.call, receipt.restarts, receipt.answer) == (told.call, 0, told.answer)
        }
        _ => false,
    }
}

// Whether each call told what it was to tell.
fn are_told(ended: &[Option<Receipt<u64>>], wanted: &[Option<Told<'_>>]) -> bool {
    ended.len() == wanted.len() && ended.iter().zip(wanted).all(|(e, w)| is_told(e, w))
}

// Whether the words from the first to before the second place hold the value, of each row, and all others 0.
fn are_left(words: &[u64], rows: &[(usize, usize, u64)]) -> bool {
    for (a, word) in words.iter().enumerate() {
        let mut value = 0;
        for (from, to, left) in rows {
            if *from <= a && a < *to {
                value = *left;
            }
        }
        if *word != value {
            return false;
        }
    }
    true
}

// Whether the calls tell what they are to tell, and the words that are left are these.
fn end_so<R: Wait>(
    rt: &R,
    alloc: Global,
    steps: &[Step],
    wanted: &[Option<Told<'_>>],
    rows: &[(usize, usize, u64)],
) -> Result<bool, OutOfMemory> {
    let (ended, words) = run_steps(rt, alloc, steps)?;
    Ok(are_told(ended.as_slice(), wanted) && are_left(words.as_slice(), rows))
}

// Lock 5 as it was at first: with a write that stands, and without one.
const WROTE: LockUse = LockUse {
    lock: 5,
    version: 0,
    wrote: true,
};

const LOOKED: LockUse = LockUse {
    lock: 5,
    version: 0,
    wrote: false,
};

// What the call that writes two words of one lock tells, and what it leaves.
const TWO: &[Option<Told<'_>>] = &[Some(Told {
    call: 1,
    answer: 0,
    uses: Some(&[WROTE]),
})];

const TWO_LEFT: &[(usize, usize, u64)] = &[(5, 6, 5), (1029, 1030, 6)];

#[test]
fn two_words_of_one_lock_in_one_transaction(rt: HostRuntime) {
    let ended = end_so(&rt, rt.alloc(), &[Step::Write], TWO, TWO_LEFT);
    assert!(rt; matches!(ended, Ok(true)));
}

// If the call finds no memory, it has no entry and left no word.
fn is_written_or_not<R: Wait>(rt: &R, alloc: Global) -> Result<bool, OutOfMemory> {
    let (ended, words) = run_steps(rt, alloc, &[Step::Write])?;
    let written = are_told(ended.as_slice(), TWO) && are_left(words.as_slice(), TWO_LEFT);
    let refused = are_told(ended.as_slice(), &[None]) && are_left(words.as_slice(), &[]);
    Ok(written || refused)
}

// It is run with each allocation refused in turn, too.
#[test]
fn two_words_are_written_or_no_memory_is_found(rt: HostRuntime) {
    let ended = is_written_or_not(&rt, rt.alloc());
    assert!(rt; matches!(ended, Ok(true) | Err(OutOfMemory)));
}

// What a second call tells that reads a word as it was at first.
const READS: Option<Told<'_>> = Some(Told {
    call: 2,
    answer: 0,
    uses: Some(&[LOOKED]),
});

#[test]
fn job_out_of_memory_leaves_an_idle_pass(rt: HostRuntime) {
    let steps = &[Step::WriteAndFail, Step::Read];
    let ended = end_so(&rt, rt.alloc(), steps, &[None, READS], &[]);
    assert!(rt; matches!(ended, Ok(true)));
}

// What a first call tells that uses more locks than are looked at.
const MANY: &[Option<Told<'_>>] = &[Some(Told {
    call: 1,
    answer: 0,
    uses: None,
})];

#[test]
fn undo_log_grows_past_its_reserve(rt: HostRuntime) {
    let ended = end_so(&rt, rt.alloc(), &[Step::WriteMany], MANY, &[(0, 1_025, 1)]);
    assert!(rt; matches!(ended, Ok(true)));
}

// What a job goes back from, and what it reverts whole. That has its entry and its uses, and who reads the word finds
// it as it was, at the version as it was.
#[test]
fn what_was_tried_is_taken_back(rt: HostRuntime) {
    let tried = end_so(&rt, rt.alloc(), &[Step::Try], MANY, &[(1, 2, 9), (5, 6, 5)]);
    assert!(rt; matches!(tried, Ok(true)));
    let steps = &[Step::WriteAndRevert, Step::Read];
    let told = Some(Told {
        call: 1,
        answer: 0,
        uses: Some(&[LOOKED]),
    });
    let reverted = end_so(&rt, rt.alloc(), steps, &[told, READS], &[]);
    assert!(rt; matches!(reverted, Ok(true)));
}
