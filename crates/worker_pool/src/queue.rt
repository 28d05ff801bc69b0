//! A worker's queue: its way to all deques.

ghost use Rattle.std.specs.Prelude.{◌≡◌, ◌<◌, ◌+◌, length, IfSome, IfNone};
ghost use Rattle.script_reader.specs.declared.limits.TheConstants.{MOST_CALLERS as most_callers};
ghost use Rattle.worker_pool.specs.declared.rule.TheConstants.{ALL_PARTS};
ghost use Rattle.worker_pool.specs.Counting.{HadOneMore};
ghost use Rattle.worker_pool.specs.Inner.Ends.{AreAtEach, stolen, HadSame};
ghost use Rattle.worker_pool.specs.Inner.Queues.{dealt_to, had, IsQueueOf};

use crate::ends::{steal, take_own};
use crate::rule::{DequePass, Owner, Stealer};
use script_reader::limits::MOST_CALLERS;
use std::sync::Wait;

/// A worker's queue: its own deque, and a pass at each deque, its own among them.
#[derive(Drop)]
pub(crate) struct Queue {
    pub own: Owner,
    pub passes: Vec<DequePass>,
    /// Which of the deques is its own, from 0.
    pub seat: usize,
    /// How many callers were taken through it.
    pub count: usize,
}

// Takes a caller from the deque of this number.
fn steal_at<R: Wait>(
    rt: &R,
    stealers: &[Stealer],
    passes: &mut Vec<DequePass>,
    k: usize,
) -> Option<u32>
    requires fits { AreAtEach stealers.now passes.old.items }
    requires place { k < length stealers.now }
    ensures fits { AreAtEach stealers.now passes.new.items }
    ensures some { IfSome result
        (λ caller. HadOneMore (stolen passes.old.items) (stolen passes.new.items) caller) }
    ensures none { IfNone result (HadSame (stolen passes.old.items) (stolen passes.new.items)) }
{
    steal(rt, &stealers[k], &mut passes[k])
}

// Tries the other workers' deques, from the next on, until one gives a caller.
fn steal_round<R: Wait>(
    rt: &R,
    stealers: &[Stealer],
    passes: &mut Vec<DequePass>,
    seat: usize,
) -> Option<u32>
    requires fits { AreAtEach stealers.now passes.old.items }
    requires seat { (seat < length stealers.now) × (length stealers.now < ALL_PARTS) }
    ensures fits { AreAtEach stealers.now passes.new.items }
    ensures some { IfSome result
        (λ caller. HadOneMore (stolen passes.old.items) (stolen passes.new.items) caller) }
    ensures none { IfNone result (HadSame (stolen passes.old.items) (stolen passes.new.items)) }
{
    for step in 1..stealers.len() {
        if let Some(caller) = steal_at(rt, stealers, passes, (seat + step) % stealers.len()) {
            return Some(caller);
        }
    }
    None
}

impl Queue {
    // Takes a caller from the own deque, or else from the others.
    fn take<R: Wait>(&mut self, rt: &R, stealers: &[Stealer]) -> Option<u32>
        requires queue { IsQueueOf stealers.now self.old.seat self.old }
        ensures queue { IsQueueOf stealers.now self.old.seat self.new }
        ensures dealt { dealt_to self.new ≡ dealt_to self.old }
        ensures count { self.new.count ≡ self.old.count }
        ensures some { IfSome result (λ caller. HadOneMore (had self.old) (had self.new) caller) }
        ensures none { IfNone result (HadSame (had self.old) (had self.new)) }
    {
        if let Some(caller) = take_own(&mut self.own) {
            return Some(caller);
        }
        steal_round(rt, stealers, &mut self.passes, self.seat)
    }

    /// The next caller for this worker, or none, once it found all deques empty in one round, or took as many callers
    /// as an input may have.
    pub(crate) fn next<R: Wait>(&mut self, rt: &R, stealers: &[Stealer]) -> Option<u32>
        requires queue { IsQueueOf stealers.now self.old.seat self.old }
        ensures queue { IsQueueOf stealers.now self.old.seat self.new }
        ensures dealt { dealt_to self.new ≡ dealt_to self.old }
        ensures count { IfSome result (λ _. self.new.count ≡ self.old.count + 1) }
        ensures few { IfSome result (λ _. self.old.count < most_callers) }
        ensures some { IfSome result (λ caller. HadOneMore (had self.old) (had self.new) caller) }
        ensures none { IfNone result (HadSame (had self.old) (had self.new)) }
        ensures still { IfNone result (self.new.count ≡ self.old.count) }
    {
        if self.count == MOST_CALLERS {
            return None;
        }
        let caller = self.take(rt, stealers)?;
        self.count += 1;
        Some(caller)
    }
}
