//! Lists of jobs of one type, on threads.

ghost use Rattle.std.specs.Prelude.{◌≡◌, ◌↔◌, ◌≤◌, ◌<◌, All, Err, IfOk, IsTrue, length};
ghost use Rattle.history_model.specs.Fitting.{IsGood};
ghost use Rattle.word_table.specs.declared.limits.TheConstants.{LAST_CALL, MOST_PASSES, MOST_WORDS};
ghost use Rattle.txn_commit.specs.Lists.{AreDealt, AreOnceInOrder, HaveRecords};
ghost use Rattle.txn_commit.specs.Ordered.{IsSerial};
ghost use Rattle.txn_commit.specs.Jobs.{count_jobs, count_at, list_at, means_at, AreTooMany};

use crate::lists::{Done, Lists, ListsEnd};
use crate::ordered::run_in_order;
use crate::transaction::{Receipt, run_job};
use io_ends::OutOfMemory;
use std::alloc::{AllocError, AllocFailed, Global};
use std::error::Error;
use std::fmt;
use std::sync::Wait;
use std::thread::Threads;
use txn_words::Job;
use word_table::{Closed, Desk, LAST_CALL, MOST_PASSES, Pass};

/// Why lists of jobs were not run.
#[derive(Clone, Copy, Debug, PartialEq, Eq)]
pub enum RunStop {
    /// There is no thread, or there are more threads, lists or jobs than a table takes (`AreTooMany`).
    TooMany,
    /// No memory was found.
    OutOfMemory,
}

impl fmt::Display for RunStop {
    fn fmt<W: fmt::Write>(&self, f: &mut fmt::Formatter<W>) -> fmt::Result {
        match self {
            RunStop::TooMany => f.write_str(
                "no thread, or more threads, lists or jobs than a table takes",
            ),
            RunStop::OutOfMemory => f.write_str("out of memory"),
        }
    }
}

impl Error for RunStop {}

impl From<OutOfMemory> for RunStop {
    ghost use Rattle.std.specs.Prelude.{◌≡◌};
    ghost use Rattle.txn_commit.specs.declared.jobs.RunStop.{RunStop};

    ghost from_gives = { λ _ e. e ≡ RunStop.OutOfMemory };

    fn from(_: OutOfMemory) -> Self {
        RunStop::OutOfMemory
    }
}

impl From<AllocError> for RunStop {
    ghost use Rattle.std.specs.Prelude.{◌≡◌};
    ghost use Rattle.txn_commit.specs.declared.jobs.RunStop.{RunStop};

    ghost from_gives = { λ _ e. e ≡ RunStop.OutOfMemory };

    fn from(_: AllocError) -> Self {
        RunStop::OutOfMemory
    }
}

impl<T: Drop> From<AllocFailed<T>> for RunStop {
    ghost use Rattle.std.specs.Prelude.{◌≡◌};
    ghost use Rattle.txn_commit.specs.declared.jobs.RunStop.{RunStop};

    ghost from_gives = { λ _ e. e ≡ RunStop.OutOfMemory };

    fn from(_: AllocFailed<T>) -> Self {
        RunStop::OutOfMemory
    }
}

/// What lists of jobs leave: the closed table, and an item for each job that was run, in an order in which one thread alone
/// would have done the same.
#[derive(Drop)]
pub struct JobsEnd<J: Job>
where
    J::Answer: Drop,
{
    /// The table, whose words are what the last job left.
    pub closed: Closed<J::Shape>,
    /// What was run.
    pub done: Vec<Done<J::Answer>>,
}

// Jobs of one shape, a list for each caller, no more than a table takes.
#[derive(Drop)]
pub(crate) struct JobLists<'a, J: Job> {
    pub shape: J::Shape,
    pub lists: &'a [Vec<J>],
    ghost few: { length lists.now ≤ LAST_CALL },
    ghost room: { count_jobs lists.now ≤ LAST_CALL },
    ghost shapes: { ∥ All (λ list. All (λ job. J.shape job ≡ shape) list.items) lists.now ∥₁ },
}

impl<'a, J: Job> JobLists<'a, J> {
    ghost use Rattle.txn_commit.specs.Jobs.{list_at};

    // The jobs of a caller.
    fn list(&self, caller: u32) -> &[J]
        requires { caller < length self.now.lists.now }
        ensures { result.now ≡ list_at self.now.lists.now caller }
    {
        self.lists[caller as usize].as_slice()
    }
}

impl<'a, J: Job> Lists for JobLists<'a, J>
where
    J::Answer: Drop,
{
    ghost use Rattle.std.specs.Prelude.{length};
    ghost use Rattle.txn_commit.specs.Jobs.{count_at, means_at};

    type Shape = J::Shape;

    type Answer = J::Answer;

    ghost shape = { λ it. it.shape };

    ghost callers = { λ it. length it.lists.now };

    ghost jobs = { λ it caller. count_at it.lists.now caller };

    ghost means = { λ it caller index s kept answer t.
        means_at J.means it.lists.now caller index s kept answer t };

    fn shape(&self) -> J::Shape {
        self.shape
    }

    fn callers(&self) -> u32 {
        self.lists.len() as u32
    }

    fn jobs(&self, caller: u32) -> u32 {
        self.list(caller).len() as u32
    }

    fn run<R: Wait>(
        &self,
        rt: &R,
        alloc: Global,
        desk: &Desk<J::Shape>,
        pass: &mut Pass<J::Shape>,
        caller: u32,
        index: u32,
    ) -> Result<Receipt<J::Answer>, OutOfMemory> {
        let job = &self.list(caller)[index as usize];
        run_job(rt, alloc, desk, pass, job)
    }
}

// Whether the lists have no more jobs than this together.
fn have_at_most<J>(lists: &[Vec<J>], most: usize) -> bool
    ensures { IsTrue result ↔ (count_jobs lists.now ≤ most) }
{
    let mut left = most;
    for list in lists {
        if list.len() > left {
            return false;
        }
        left -= list.len();
    }
    true
}

/// Runs each job of the lists once, as one transaction over these words: the jobs of a list in their order, the lists side
/// by side on so many threads.
///
/// It answers the closed table, and an item with the reply of each job, in an order in which one thread alone would have
/// done the same:
///
/// ```text
/// let lists = vec![in alloc; of_ann, of_bob]?;
/// let JobsEnd { closed, done } = run_jobs(rt, alloc, shape, words, lists.as_slice(), 2)?;
/// for job in done.as_slice() {
///     let answered = &job.reply;    // to job `job.index` of list `job.caller`, both from 0
///     let tries = job.restarts;     // it gave way so often, below 2
/// }
/// let left = closed.words();        // what the last of them left
/// ```
///
/// `TooMany` comes exactly if there is no thread, or there are more than `MOST_PASSES`, or more than `LAST_CALL` lists, or
/// more than `LAST_CALL` jobs in all lists together; then nothing was run. `OutOfMemory` may come before or after jobs
/// were run: what they did is lost. In both cases the words are dropped. A thread may wait for others: that a wait ends,
/// no clause says.
pub fn run_jobs<J: Job + Sync, R: Threads + Wait + Sync>(
    rt: &R,
    alloc: Global,
    shape: J::Shape,
    words: Vec<u64>,
    lists: &[Vec<J>],
    threads: u32,
) -> Result<JobsEnd<J>, RunStop>
where
    J::Shape: Send + Sync,
    J::Answer: Send + Drop,
    requires words { (1 ≤ length words.items) × (length words.items ≤ MOST_WORDS) }
    requires good { IsGood (J.Shape.word_count shape) (J.Shape.good shape) words.items }
    requires shapes { All (λ list. All (λ job. J.shape job ≡ shape) list.items) lists.now }
    ensures too_many { (result ≡ Err RunStop.TooMany) ↔ AreTooMany lists.now threads }
    // The table is the one that was asked for, and its words are good at the end.
    ensures closed { IfOk result (λ end. (end.closed.base ≡ words.items)
        × (end.closed.seats ≡ threads) × (end.closed.shape ≡ shape)) }
    ensures good { IfOk result (λ end.
        IsGood (J.Shape.word_count shape) (J.Shape.good shape) end.closed.words) }
    // Each job of each list was run once, and those of a list stand in their order.
    ensures once { IfOk result (λ end.
        AreOnceInOrder (length lists.now) (count_at lists.now) end.done.items) }
    // Thread t ran the lists whose number, modulo the threads, is t.
    ensures dealt { IfOk result (λ end. AreDealt threads end.done.items) }
    // The records are theirs: so each tells its call, how often it gave way and what it used.
    ensures entries { IfOk result (λ end. HaveRecords end.closed.records end.done.items) }
    // They ran as if one after another, each as it means, from the words that were handed in to the closed ones.
    ensures serial { IfOk result (λ end. IsSerial
        (IsGood (J.Shape.word_count shape) (J.Shape.good shape))
        (means_at J.means lists.now) words.items end.closed.words end.done.items) }
    ensures few { IfOk result (λ end. All (λ ran. ran.restarts < threads) end.done.items) }
{
    if threads == 0 || threads > MOST_PASSES || lists.len() > LAST_CALL as usize {
        return Err(RunStop::TooMany);
    }
    if !have_at_most(lists, LAST_CALL as usize) {
        return Err(RunStop::TooMany);
    }
    let jobs = JobLists { shape, lists };
    let ListsEnd { closed, done } = run_in_order(rt, alloc, &jobs, words, threads)?;
    Ok(JobsEnd { closed, done })
}
