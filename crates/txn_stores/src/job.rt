//! A script as a job over any words of a shape.

ghost use Rattle.std.specs.Prelude.{◌≡◌, IfOk};
ghost use Rattle.txn_words.specs.Calls.{InEachState, IsReady, LeadsTo};
ghost use Rattle.txn_words.specs.Verdicts.{answer_of, is_kept};
ghost use Rattle.txn_stores.specs.Standing.{is_done, HandsOn, StandsForSome};
ghost use Rattle.txn_stores.specs.Inner.Scripts.{IfDone, Runs};

use crate::store::Store;
use books_report::stores::{OperationList, Outcome, StoreReply, StoreValues};
use std::alloc::Global;
use std::marker::Model;
use txn_words::{Job, Stop, Verdict, Words};

/// A script on the words of a store, as a transaction. Its answer is what the script replies, and its writes are kept if
/// that is `Done`.
///
/// Contracts see the shape, the operations and the number.
#[derive(Drop)]
pub struct StoreJob<'s, S: Store> {
    // What the values of the reply are gathered on.
    alloc: Global,
    shape: S,
    script: &'s OperationList<S::Op>,
    tag: u64,
}

impl<'s, S: Store> Model for StoreJob<'s, S> {
    ghost use Rattle.txn_stores.specs.Standing.{ScriptOn};

    ghost Value = { ScriptOn S S.Op };

    ghost view = { λ job. record { shape = job.shape; script = job.script.now; tag = job.tag } };

    ghost invariant = { λ job. S.is_script job.shape job.script.now };
}

impl<'s, S: Store> StoreJob<'s, S> {
    /// The job of a script that is lent to it, under a number of the caller's own. The values of its reply are
    /// gathered on `alloc`, each time that it runs; nothing is taken of it yet.
    pub fn new(
        alloc: Global,
        shape: S,
        script: &'s OperationList<S::Op>,
        tag: u64,
    ) -> StoreJob<'s, S>
        requires range { S.is_script shape script.now }
        ensures { result ≡ record { shape = shape; script = script.now; tag = tag } }
    {
        StoreJob {
            alloc,
            shape,
            script,
            tag,
        }
    }
}

impl<'s, S: Store> Job for StoreJob<'s, S> {
    ghost use Rattle.std.specs.Prelude.{◌≡◌};
    ghost use Rattle.txn_stores.specs.Standing.{ScriptMeans};

    type Shape = S;

    type Answer = StoreReply<S::Value>;

    ghost shape = { λ job. job.shape };

    ghost means = { λ job. ScriptMeans (S.stands job.shape) (S.step job.shape) job.script };

    fn tag(&self) -> u64
        ensures { result ≡ self.now.tag }
    {
        self.tag
    }

    fn run<W: Words<Shape = S>>(&self, w: &mut W) -> Result<Verdict<StoreReply<S::Value>>, Stop> {
        let reply = run_script(self.alloc, w, &self.shape, self.script)?;
        Ok(verdict_on(reply))
    }
}

// Runs the operations in order, up to the first that is refused. What that one wrote stands, as all before it.
fn run_script<W: Words, S: Store>(
    alloc: Global,
    w: &mut W,
    shape: &S,
    script: &OperationList<S::Op>,
) -> Result<StoreReply<S::Value>, Stop>
    requires ready { IsReady W.Words w.old }
    requires stands { InEachState W.Words W.Shape.Shape w.old (StandsForSome (S.stands shape.now)) }
    requires range { S.is_script shape.now script.now }
    ensures runs { IfOk result (λ answer. LeadsTo W.Words W.Shape.Shape w.old w.new
        (Runs (S.stands shape.now) (S.step shape.now) script.now answer)) }
    ensures stands { IfOk result (λ answer. IfDone answer
        (InEachState W.Words W.Shape.Shape w.new (StandsForSome (S.stands shape.now)))) }
    ensures hands_on { HandsOn W.Words w.old w.new result }
{
    let mut values = StoreValues::new(alloc);
    let mut number = 1;
    for operation in script {
        match shape.run_operation(alloc, w, *operation)? {
            Outcome::Gives(value) => values.push(value)?,
            Outcome::Absent => return Ok(StoreReply::Declined(number)),
            Outcome::Full => return Ok(StoreReply::Full(number)),
        }
        number += 1;
    }
    Ok(StoreReply::Done(values))
}

// The writes are kept if the script was done.
fn verdict_on<V: Drop>(reply: StoreReply<V>) -> Verdict<StoreReply<V>>
    ensures answer { answer_of result ≡ reply }
    ensures kept { is_kept result ≡ is_done reply }
{
    match reply {
        StoreReply::Done(_) => Verdict::Keep(reply),
        StoreReply::Declined(_) | StoreReply::Full(_) => Verdict::Revert(reply),
    }
}
