//! Days of more workers than one: two that a gate holds until both are under way, and days whose commits it counts.

use crate::tests::{is_text, printed};
use crossbeam_utils::atomic::AtomicCell;
use io_ends::OutOfMemory;
use std::alloc::Global;
use std::process::Abort;
use std::sync::Wait;
use std::test::Fail;
use std::thread::Threads;
use worker_gate::{Gate, Point, Stage};

// Two accounts without cash.
pub(crate) const TWO_ACCOUNTS: &str =
    "books 1 blocks 2 instruments 1 ring 1\naccount 1 0\naccount 2 0\n";

// Two callers who want both accounts, in opposite order.
pub(crate) const CROSSING: &str =
    "scripts\nscript ann\ndeposit 1 5\ndeposit 2 5\nend\nscript bob\ndeposit 2 5\ndeposit 1 5\nend\nfinish\n";

// How often a gate looks before it gives up.
const LOOKS: u32 = 100_000_000;

// Waits until the mark is a number from 1 on, or gives up, and says so.
fn await_mark(mark: &AtomicCell<u64>, gave_up: &AtomicCell<bool>) {
    for _ in 0..LOOKS {
        if mark.load() > 0 {
            return;
        }
    }
    gave_up.store(true);
}

// Holds the first caller's script at its first lock until another script, by its tag, is committed.
#[derive(Drop)]
pub(crate) struct OtherFirst {
    other: u64,
    // The seat that committed the other script.
    pub(crate) seat: AtomicCell<u32>,
    // Which of the seat's calls that was, once it is committed.
    pub(crate) call: AtomicCell<u64>,
    pub(crate) gave_up: AtomicCell<bool>,
}

impl OtherFirst {
    pub(crate) fn new(other: u64) -> OtherFirst {
        OtherFirst {
            other,
            seat: AtomicCell::new(0),
            call: AtomicCell::new(0),
            gave_up: AtomicCell::new(false),
        }
    }
}

impl Gate for OtherFirst {
    fn at<R: Wait>(&self, _rt: &R, point: Point) {
        match point.stage {
            Stage::Granted { .. } if point.tag == 0 => {
                await_mark(&self.call, &self.gave_up);
            }
            Stage::AfterCommit if point.tag == self.other => {
                self.seat.store(point.seat);
                self.call.store(u64::from(point.call));
            }
            _ => {}
        }
    }
}

// Holds each of two callers' scripts at its first lock to write until the other has one too.
#[derive(Drop)]
pub(crate) struct BothWrite {
    // The word that the first caller's script was granted last, to write.
    first: AtomicCell<u64>,
    // That of the second caller's.
    second: AtomicCell<u64>,
    // How often one of two seats gave way to the other.
    yields: AtomicCell<u64>,
    gave_up: AtomicCell<bool>,
}

impl BothWrite {
    pub(crate) fn new() -> BothWrite {
        BothWrite {
            first: AtomicCell::new(0),
            second: AtomicCell::new(0),
            yields: AtomicCell::new(0),
            gave_up: AtomicCell::new(false),
        }
    }
}

impl Gate for BothWrite {
    fn at<R: Wait>(&self, _rt: &R, point: Point) {
        match point.stage {
            Stage::Granted { word, write: true } => {
                let (own, other) = if point.tag == 0 {
                    (&self.first, &self.second)
                } else {
                    (&self.second, &self.first)
                };
                own.store(word);
                await_mark(other, &self.gave_up);
            }
            Stage::Yielded { seat: 0, stamp } if point.seat == 1 && stamp > 0 => {
                let _ = self.yields.fetch_add(1);
            }
            Stage::Yielded { seat: 1, stamp } if point.seat == 0 && stamp > 0 => {
                let _ = self.yields.fetch_add(1);
            }
            _ => {}
        }
    }
}

// Whether the second caller's script is committed while the first's is under way, and so comes first in the journal.
fn second_comes_first<R: Abort + Threads + Wait + Sync>(
    rt: &R,
    alloc: Global,
    command: &str,
    gate: &OtherFirst,
) -> Result<bool, OutOfMemory> {
    let input = &[
        TWO_ACCOUNTS,
        "scripts\nscript ann\ndeposit 1 5\nshow 2\nend\nscript bob\ndeposit 2 7\nend\nfinish\n",
    ];
    let taken = printed(rt, alloc, command, input, gate)?;
    let output = &[
        "journal\n1 bob 1 0 done ok\n2 ann 1 0 done ok 7\n",
        "books 2 blocks 2 instruments 1 ring 1\naccount 1 5\naccount 2 7\nfinish\n",
    ];
    Ok(is_text(&taken, output) && !gate.gave_up.load())
}

// The second worker, whose deque the second caller is dealt to, runs it with its first call: the first worker is held.
#[test]
fn two_workers_run_at_once(rt: HostRuntime) -> Result<(), Fail> {
    let gate = OtherFirst::new(65_536);
    assert!(rt; second_comes_first(&rt, rt.alloc(), "run 2", &gate)?);
    assert_eq!(rt; (gate.seat.load(), gate.call.load()), (1, 1));
    Ok(())
}

// Two of the four deques hold no caller, and two of the workers find none.
#[test]
fn workers_that_find_no_caller_leave_the_day_to_others(rt: HostRuntime) -> Result<(), Fail> {
    let gate = OtherFirst::new(65_536);
    assert!(rt; second_comes_first(&rt, rt.alloc(), "run 4", &gate)?);
    Ok(())
}

// The first and the third caller are dealt to one worker, which the gate holds until the third caller's script is
// committed: so the other worker stole it.
#[test]
fn idle_worker_steals_a_caller(rt: HostRuntime) -> Result<(), Fail> {
    let gate = OtherFirst::new(131_072);
    let input = &[
        "books 1 blocks 3 instruments 1 ring 1\naccount 1 0\naccount 2 0\naccount 3 0\nscripts\n",
        "script ann\ndeposit 1 1\nshow 2\nshow 3\nend\nscript bob\ndeposit 2 1\nend\n",
        "script cid\ndeposit 3 1\nend\nfinish\n",
    ];
    let taken = printed(&rt, rt.alloc(), "run 2", input, &gate)?;
    let output = &[
        "journal\n1 bob 1 0 done ok\n2 cid 1 0 done ok\n3 ann 1 0 done ok 1 1\n",
        "books 2 blocks 3 instruments 1 ring 1\naccount 1 1\naccount 2 1\naccount 3 1\nfinish\n",
    ];
    assert!(rt; is_text(&taken, output) && !gate.gave_up.load());
    Ok(())
}

// Each holds an account that the other wants next: one of them gives way, once, and its script comes second. The cash
// of account 1 is word 1 of block 1, which begins at word 281, and that of account 2 word 1 of block 0, at word 277.
#[test]
fn of_two_that_cross_one_gives_way(rt: HostRuntime) -> Result<(), Fail> {
    let gate = BothWrite::new();
    let input = &[TWO_ACCOUNTS, CROSSING];
    let taken = printed(&rt, rt.alloc(), "run 2", input, &gate)?;
    let closing = "books 2 blocks 2 instruments 1 ring 1\naccount 1 10\naccount 2 10\nfinish\n";
    let first = &[
        "journal\n1 ann 1 0 done ok ok\n2 bob 1 1 done ok ok\n",
        closing,
    ];
    let second = &[
        "journal\n1 bob 1 0 done ok ok\n2 ann 1 1 done ok ok\n",
        closing,
    ];
    assert!(rt; is_text(&taken, first) || is_text(&taken, second));
    assert_eq!(rt; (gate.first.load(), gate.second.load()), (278, 282));
    assert_eq!(rt; (gate.yields.load(), gate.gave_up.load()), (1, false));
    Ok(())
}

// Counts the scripts that are committed, and sums up what it is told of them.
#[derive(Drop)]
struct Commits {
    // How many were about to be committed.
    before: AtomicCell<u64>,
    // How many were committed.
    after: AtomicCell<u64>,
    tags: AtomicCell<u64>,
    seats: AtomicCell<u32>,
    calls: AtomicCell<u32>,
}

impl Commits {
    fn new() -> Commits {
        Commits {
            before: AtomicCell::new(0),
            after: AtomicCell::new(0),
            tags: AtomicCell::new(0),
            seats: AtomicCell::new(0),
            calls: AtomicCell::new(0),
        }
    }
}

impl Gate for Commits {
    fn at<R: Wait>(&self, _rt: &R, point: Point) {
        match point.stage {
            Stage::BeforeCommit => {
                let _ = self.before.fetch_add(1);
            }
            Stage::AfterCommit => {
                let _ = self.after.fetch_add(1);
                let _ = self.tags.fetch_add(point.tag);
                let _ = self.seats.fetch_add(point.seat);
                let _ = self.calls.fetch_add(point.call);
            }
            _ => {}
        }
    }
}

// Four callers with five scripts each: the tags are 65536 c + i for c below 4 and i below 5. Of the two seats each runs
// its callers whole, and numbers its calls from 1 on: if seat 1 runs 5 scripts of the 20, the numbers sum to 120 + 15.
#[test]
fn a_drill_commits_each_script_once(rt: HostRuntime) -> Result<(), Fail> {
    let gate = Commits::new();
    let _ = printed(&rt, rt.alloc(), "drill 2 0 4 5", &[], &gate)?;
    assert_eq!(rt; (gate.before.load(), gate.after.load()), (20, 20));
    assert_eq!(rt; gate.tags.load(), 1_966_120);
    let seats_and_calls = (gate.seats.load(), gate.calls.load());
    assert!(rt; matches!(seats_and_calls, (0 | 20, 210) | (5 | 15, 135) | (10, 110)));
    Ok(())
}

// Two workers with ten rounds each: the tags are 65536 c + r for c below 2 and r below 10.
#[test]
fn each_round_commits_once(rt: HostRuntime) -> Result<(), Fail> {
    let gate = Commits::new();
    let _ = printed(&rt, rt.alloc(), "cells 2 10", &[], &gate)?;
    assert_eq!(rt; (gate.after.load(), gate.tags.load()), (20, 655_450));
    Ok(())
}

// Two who read the same empty store; the first is held at its first lock until the second has committed. The journal is
// the same in either order, so what the gate saw tells that it was told.
#[test]
fn record_workers_overlap(rt: HostRuntime) -> Result<(), Fail> {
    let gate = OtherFirst::new(65_536);
    let input =
        "records 1 blocks 4\nscripts\nscript ann\nget 1\nend\nscript bob\nget 1\nend\nfinish\n";
    let taken = printed(&rt, rt.alloc(), "records 2", &[input], &gate)?;
    let output =
        "journal\n1 ann 1 0 declined 1 absent\n2 bob 1 0 declined 1 absent\nrecords 1 blocks 4\nfinish\n";
    assert!(rt; taken.as_slice() == output.as_bytes() && !gate.gave_up.load());
    assert_eq!(rt; (gate.seat.load(), gate.call.load()), (1, 1));
    Ok(())
}

// Two who ask for the best prices of two instruments; the first is held at its first lock until the second has committed.
#[test]
fn order_workers_overlap(rt: HostRuntime) -> Result<(), Fail> {
    let gate = OtherFirst::new(65_536);
    let input =
        "orders 1 blocks 4 instruments 2\nscripts\nscript ann\nbest 1\nend\nscript bob\nbest 2\nend\nfinish\n";
    let taken = printed(&rt, rt.alloc(), "orders 2", &[input], &gate)?;
    let output =
        "journal\n1 ann 1 0 done 0:0\n2 bob 1 0 done 0:0\norders 1 blocks 4 instruments 2\nfinish\n";
    assert!(rt; taken.as_slice() == output.as_bytes() && !gate.gave_up.load());
    assert_eq!(rt; (gate.seat.load(), gate.call.load()), (1, 1));
    Ok(())
}
