//! Lists of jobs on workers: two that cross and wait for each other at a gate, two on different locks, of which one is
//! held until a job of the other stands in the history, and four that add to both words in either order.

ghost use Rattle.std.specs.Prelude.{◌≡◌, ◌≤◌, ◌<◌, None};
ghost use Rattle.txn_commit.specs.Lists.{jobs_of_first};
ghost use Rattle.txn_words.specs.Steps.{stop_after};
ghost use Rattle.word_table.specs.declared.limits.TheConstants.{LAST_CALL};

use crate::opening::{Pair, used};
use crossbeam_utils::atomic::AtomicCell;
use io_ends::OutOfMemory;
use std::alloc::Global;
use std::sync::Wait;
use std::thread::Threads;
use txn_commit::{Done, Lists, Receipt, run_in_order, run_lists, transact};
use txn_words::{Job, Stop, Verdict, Words};
use word_table::{Desk, Pass};
use worker_gate::{Gate, OpenGate, Point, Stage};

// What a job does to two words. It answers what the first of them was.
#[derive(Clone, Copy, PartialEq, Eq)]
enum Add {
    // Adds one to the left word, or to the right one.
    Left,
    Right,
    // Adds one to both.
    LeftFirst,
    RightFirst,
    // The left one first. Then both are written, and that is taken back.
    TryLeftFirst,
    // Reads both.
    Look,
}

// Adds one to a word: what it was.
fn add_one<W: Words<Shape = Pair>>(w: &mut W, a: u64) -> Result<u64, Stop>
    requires word { a < 2 }
    requires going { W.stop w.old ≡ None }
    requires sound { W.is_sound w.old }
    ensures stops { W.stop w.new ≡ stop_after result }
    ensures shape { W.shape w.new ≡ W.shape w.old }
    ensures origin { W.origin w.new ≡ W.origin w.old }
    ensures sound { W.is_sound w.new }
{
    let value = w.read(a)?;
    w.write(a, value.wrapping_add(1))?;
    Ok(value)
}

// Writes both words, and takes that back.
fn try_both<W: Words<Shape = Pair>>(w: &mut W) -> Result<(), Stop>
    requires going { W.stop w.old ≡ None }
    requires sound { W.is_sound w.old }
    ensures stops { W.stop w.new ≡ stop_after result }
    ensures shape { W.shape w.new ≡ W.shape w.old }
    ensures origin { W.origin w.new ≡ W.origin w.old }
    ensures sound { W.is_sound w.new }
{
    let mark = w.mark();
    w.write(0, 50)?;
    w.write(1, 60)?;
    w.back_to(mark)
}

// Adds one to the first word, then does what is to be tried, and adds one to the second: what the first was.
fn add_to_both<W: Words<Shape = Pair>>(
    w: &mut W,
    first: u64,
    second: u64,
    tries: bool,
) -> Result<u64, Stop>
    requires words { (first < 2) × (second < 2) }
    requires going { W.stop w.old ≡ None }
    requires sound { W.is_sound w.old }
    ensures stops { W.stop w.new ≡ stop_after result }
    ensures shape { W.shape w.new ≡ W.shape w.old }
    ensures origin { W.origin w.new ≡ W.origin w.old }
    ensures sound { W.is_sound w.new }
{
    let value = add_one(w, first)?;
    if tries {
        try_both(w)?;
    }
    let _ = add_one(w, second)?;
    Ok(value)
}

impl Job for Add {
    ghost use Rattle.std.specs.Prelude.{⊤};

    type Shape = Pair;

    type Answer = u64;

    ghost shape = { λ _. record {} };

    ghost means = { λ _ _ _ _ _. ⊤ };

    fn tag(&self) -> u64 {
        match self {
            Add::Left => 0,
            _ => 1,
        }
    }

    fn run<W: Words<Shape = Pair>>(&self, w: &mut W) -> Result<Verdict<u64>, Stop> {
        Ok(Verdict::Keep(match self {
            Add::Left => add_one(w, 0)?,
            Add::Right => add_one(w, 1)?,
            Add::LeftFirst => add_to_both(w, 0, 1, false)?,
            Add::RightFirst => add_to_both(w, 1, 0, false)?,
            Add::TryLeftFirst => add_to_both(w, 0, 1, true)?,
            Add::Look => {
                let value = w.read(0)?;
                let _ = w.read(1)?;
                value
            }
        }))
    }
}

// Callers, each with a job of its own that it runs so many times.
#[derive(Drop)]
struct Adding<'a, G> {
    each: &'a [Add],
    callers: u32,
    times: u32,
    gate: &'a G,
}

impl<'a, G: Gate> Lists for Adding<'a, G> {
    ghost use Rattle.std.specs.Prelude.{⊤};

    type Shape = Pair;

    type Answer = u64;

    ghost shape = { λ _. record {} };

    ghost callers = { λ lists. lists.callers };

    ghost jobs = { λ lists _. lists.times };

    ghost means = { λ _ _ _ _ _ _ _. ⊤ };

    fn shape(&self) -> Pair {
        Pair
    }

    fn callers(&self) -> u32 {
        self.callers
    }

    fn jobs(&self, _caller: u32) -> u32 {
        self.times
    }

    fn run<R: Wait>(
        &self,
        rt: &R,
        alloc: Global,
        desk: &Desk<Pair>,
        pass: &mut Pass<Pair>,
        caller: u32,
        _index: u32,
    ) -> Result<Receipt<u64>, OutOfMemory> {
        let job = match self.each.get(caller as usize) {
            Some(job) => *job,
            None => Add::Look,
        };
        transact(rt, alloc, desk, pass, &job, self.gate)
    }
}

// The first callers with these jobs.
fn lists_of<'a, G>(each: &'a [Add], callers: u32, times: u32, gate: &'a G) -> Adding<'a, G>
    requires room { jobs_of_first (λ _. times) callers ≤ LAST_CALL }
    ensures room { jobs_of_first (λ _. result.times) result.callers ≤ LAST_CALL }
{
    Adding {
        each,
        callers,
        times,
        gate,
    }
}

// A gate that lets nobody pass with a lock, to read or to write a word, until two came so far. It looks a hundred
// million times. It counts how often it is told that an attempt gave way.
#[derive(Drop)]
struct Meeting {
    write: bool,
    arrived: AtomicCell<u32>,
    yielded: AtomicCell<u32>,
}

impl Gate for Meeting {
    fn at<R: Wait>(&self, _rt: &R, point: Point) {
        match point.stage {
            Stage::Yielded { .. } => {
                self.yielded.fetch_add(1);
            }
            Stage::Granted { write, .. } if write == self.write => {
                self.arrived.fetch_add(1);
                for _ in 0..100_000_000u32 {
                    if self.arrived.load() >= 2 {
                        return;
                    }
                }
            }
            _ => {}
        }
    }
}

// What two jobs come to that wait for each other with their first locks, to read or to write: how many restarts they had,
// how often the gate was told that one gave way, and whether both words hold this at the end.
fn meet<R: Threads + Wait + Sync>(
    rt: &R,
    alloc: Global,
    each: &[Add],
    write: bool,
    left: u64,
) -> Result<(u32, u32, bool), OutOfMemory> {
    let gate = Meeting {
        write,
        arrived: AtomicCell::new(0),
        yielded: AtomicCell::new(0),
    };
    let words = vec![in alloc; 0u64, 0]?;
    let end = run_lists(rt, alloc, &lists_of(each, 2, 1, &gate), words, 2)?;
    let mut restarts = 0;
    for ran in &end.done {
        restarts = ran.restarts.wrapping_add(restarts);
    }
    let same = end.closed.words() == [left, left].as_slice();
    Ok((restarts, gate.yielded.load(), same))
}

// Of two that write both words one gives way once, also if whoever has the left word tries to write the right one,
// for which the other holds the lock, and takes it back when it has it. Two that read hold both locks at once.
#[test]
fn of_two_calls_that_cross_one_gives_way_once(rt: HostRuntime) {
    let alloc = rt.alloc();
    let crossed = meet(&rt, alloc, &[Add::LeftFirst, Add::RightFirst], true, 2);
    assert!(rt; matches!(crossed, Ok((1, 1, true))));
    let tried = meet(&rt, alloc, &[Add::TryLeftFirst, Add::RightFirst], true, 2);
    assert!(rt; matches!(tried, Ok((1, 1, true))));
    let looked = meet(&rt, alloc, &[Add::Look, Add::Look], false, 0);
    assert!(rt; matches!(looked, Ok((0, 0, true))));
}

// A gate that lets nobody pass who has the left word until the right one was written. It looks a hundred million times,
// and counts how often it saw that.
#[derive(Drop)]
struct Holding {
    written: AtomicCell<u32>,
    saw: AtomicCell<u32>,
}

impl Gate for Holding {
    fn at<R: Wait>(&self, _rt: &R, point: Point) {
        match point.stage {
            Stage::AfterCommit if point.tag == 1 => {
                self.written.fetch_add(1);
            }
            Stage::Granted { .. } if point.tag == 0 => {
                for _ in 0..100_000_000u32 {
                    if self.written.load() > 0 {
                        self.saw.fetch_add(1);
                        return;
                    }
                }
            }
            _ => {}
        }
    }
}

// How often the gate saw it, and whether both words hold 1 at the end.
fn hold_left<R: Threads + Wait + Sync>(rt: &R, alloc: Global) -> Result<(u32, bool), OutOfMemory> {
    let gate = Holding {
        written: AtomicCell::new(0),
        saw: AtomicCell::new(0),
    };
    let words = vec![in alloc; 0u64, 0]?;
    let lists = lists_of(&[Add::Left, Add::Right], 2, 1, &gate);
    let end = run_lists(rt, alloc, &lists, words, 2)?;
    Ok((gate.saw.load(), end.closed.words() == [1, 1].as_slice()))
}

// The job on the left word is held as it gets the lock to read, and again as it gets the one to write. Who runs both
// lists on one thread holds it with the left word, and sees nothing.
#[test]
fn lists_on_different_locks_run_at_the_same_time(rt: HostRuntime) {
    let held = hold_left(&rt, rt.alloc());
    assert!(rt; matches!(held, Ok((2, true))));
}

// The jobs of eight callers: all but the fifth write both words.
const EIGHT: &[Add] = &[
    Add::LeftFirst,
    Add::RightFirst,
    Add::LeftFirst,
    Add::RightFirst,
    Add::Look,
    Add::RightFirst,
    Add::RightFirst,
    Add::LeftFirst,
];

// Whether each job found in both words, and as the versions of their locks, the number of those before it that write.
fn rise_by_one(done: &[Done<u64>]) -> bool {
    let mut next = 0;
    for ran in done {
        let wrote = ran.caller != 4;
        let uses = [used(0, next, wrote), used(1, next, wrote)];
        if ran.reply != next || ran.uses.as_slice() != uses.as_slice() {
            return false;
        }
        if wrote {
            next = next.wrapping_add(1);
        }
    }
    true
}

// Eight callers run their jobs 250 times, on four threads: whether values and versions rise by one a kept write, and both
// words hold 1,750 at the end.
fn add_on_four<R: Threads + Wait + Sync>(rt: &R, alloc: Global) -> Result<bool, OutOfMemory> {
    let words = vec![in alloc; 0u64, 0]?;
    let lists = lists_of(EIGHT, 8, 250, &OpenGate);
    let end = run_in_order(rt, alloc, &lists, words, 4)?;
    let risen = rise_by_one(end.done.as_slice());
    Ok(risen && end.done.len() == 2_000 && end.closed.words() == [1_750, 1_750].as_slice())
}

#[test]
fn versions_rise_by_one_a_kept_write(rt: HostRuntime) {
    let risen = add_on_four(&rt, rt.alloc());
    assert!(rt; matches!(risen, Ok(true)));
}
