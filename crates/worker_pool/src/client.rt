//! A worker as a client of the day's table.

ghost use Rattle.worker_pool.specs.Inner.Workers.{worker_of, MayBegin, DoesItsPart};

use crate::rule::Stealer;
use crate::work::Work;
use crate::worker::Worker;
use crossbeam_utils::CachePadded;
use io_ends::OutOfMemory;
use script_reader::Input;
use std::alloc::Global;
use std::sync::Wait;
use txn_books::BooksShape;
use txn_threads::Client;
use word_table::{Desk, Pass};
use worker_gate::Gate;

/// A worker, and what all of them work with: it runs scripts with the pass that it is lent.
///
/// Workers stand apart: each writes what it has at every step, and a cache line that two of them shared would go to and
/// fro between their threads.
#[derive(Drop)]
pub(crate) struct WorkerClient<'a, G: Gate> {
    pub worker: CachePadded<Worker>,
    pub shape: BooksShape,
    pub stealers: &'a [Stealer],
    pub input: &'a Input,
    pub gate: &'a G,
}

impl<'a, G: Gate + Sync> Client for WorkerClient<'a, G> {
    ghost use Rattle.worker_pool.specs.Inner.Workers.{worker_of, MayBegin, DoesItsPart};

    type Shape = BooksShape;

    ghost shape = { λ client. client.shape };

    ghost can_begin = { λ client. MayBegin client.stealers.now client.input.now client.shape
        (worker_of client.worker) };

    ghost does = { λ desk old new _ after. DoesItsPart old.stealers.now desk old.input.now
        (worker_of old.worker) (worker_of new.worker) after };

    fn work<R: Wait>(
        &mut self,
        rt: &R,
        alloc: Global,
        desk: &Desk<BooksShape>,
        pass: &mut Pass<BooksShape>,
    ) -> Result<(), OutOfMemory> {
        let work = Work {
            rt,
            alloc,
            desk,
            shape: self.shape,
            stealers: self.stealers,
            input: self.input,
            gate: self.gate,
        };
        self.worker.run(&work, pass)
    }
}
