//! A script as a job over any words of a shape.

ghost use Rattle.std.specs.Prelude.{◌≡◌, ◌≤◌, ◌+◌, ◌++◌, ◌∷◌, [], length, All, IfOk, OnOk};
ghost use Rattle.books_model.specs.declared.limits.TheConstants.{MOST_OPERATIONS};
ghost use Rattle.books_model.specs.Interpreter.{after_values, run_from, run_part, run_parts};
ghost use Rattle.txn_words.specs.Calls.{IsReady, InEachState, LeadsTo};
ghost use Rattle.txn_words.specs.Verdicts.{is_kept, answer_of};
ghost use Rattle.txn_books.specs.Standing.{IsGoodFor};
ghost use Rattle.txn_books.specs.Meaning.{IsScriptIn, is_done};
ghost use Rattle.txn_books.specs.Operating.{IsOperationIn};
ghost use Rattle.txn_books.specs.Inner.Scripts.{Runs, HandsOn};

use crate::operations::{Outcome, run_operation};
use crate::shape::BooksShape;
use books_model::{Ops, Part, Reply, Script, Value, Values};
use std::alloc::Global;
use std::marker::Model;
use txn_words::{Job, Stop, Verdict, Words};

/// A script on the words of books of a shape, as a transaction. Its answer is what the script replies, and its writes
/// are kept if that is `Done`.
///
/// Contracts see the shape, the operations and the number.
#[derive(Drop)]
pub struct ScriptJob<'s> {
    // What the values of the reply are gathered on.
    alloc: Global,
    shape: BooksShape,
    script: &'s Script,
    tag: u64,
}

impl<'s> Model for ScriptJob<'s> {
    ghost use Rattle.txn_books.specs.Meaning.{ScriptOn, IsScriptIn};

    ghost Value = { ScriptOn };

    ghost view = { λ job. record { shape = job.shape; script = job.script.now; tag = job.tag } };

    ghost invariant = { λ job. IsScriptIn job.shape job.script.now };
}

impl<'s> ScriptJob<'s> {
    /// The job of a script that is lent to it, under a number of the caller's own. The values of its reply are
    /// gathered on `alloc`, each time that it runs; nothing is taken of it yet.
    pub fn new(alloc: Global, shape: BooksShape, script: &'s Script, tag: u64) -> ScriptJob<'s>
        requires range { IsScriptIn shape script.now }
        ensures { result ≡ record { shape = shape; script = script.now; tag = tag } }
    {
        ScriptJob {
            alloc,
            shape,
            script,
            tag,
        }
    }
}

impl<'s> Job for ScriptJob<'s> {
    ghost use Rattle.std.specs.Prelude.{◌≡◌};
    ghost use Rattle.txn_books.specs.Meaning.{ScriptMeans};

    type Shape = BooksShape;

    type Answer = Reply;

    ghost shape = { λ job. job.shape };

    ghost means = { λ job. ScriptMeans job.shape job.script };

    fn tag(&self) -> u64
        ensures { result ≡ self.now.tag }
    {
        self.tag
    }

    fn run<W: Words<Shape = BooksShape>>(&self, w: &mut W) -> Result<Verdict<Reply>, Stop> {
        let reply = run_script(self.alloc, w, &self.shape, self.script)?;
        Ok(verdict_on(reply))
    }
}

// Runs operations in order, up to the first that is refused. The first has this number, and these are the values so far.
// What the one that is refused wrote stands, as all before it.
fn run_operations<W: Words>(
    w: &mut W,
    shape: &BooksShape,
    operations: &Ops,
    first: u32,
    so_far: Values,
) -> Result<Reply, Stop>
    requires ready { IsReady W.Words w.old }
    requires stands { InEachState W.Words W.Shape.Shape w.old (IsGoodFor shape.now) }
    requires few { first + length operations.now ≤ MOST_OPERATIONS + 1 }
    requires range { All (IsOperationIn shape.now) operations.now }
    ensures runs { IfOk result (λ answer. LeadsTo W.Words W.Shape.Shape w.old w.new
        (Runs shape.now (λ books. after_values so_far (run_from first operations.now books))
        answer)) }
    ensures stands { OnOk result (InEachState W.Words W.Shape.Shape w.new (IsGoodFor shape.now)) }
    ensures hands_on { HandsOn W.Words w.old w.new result }
{
    let mut values = so_far;
    let mut number = first;
    for operation in operations {
        match run_operation(w, shape, *operation)? {
            Outcome::Gives(value) => values.push(value)?,
            Outcome::Declines(why) => return Ok(Reply::Declined(number, why)),
            Outcome::FindsNoBlock => return Ok(Reply::Full(number)),
        }
        number += 1;
    }
    Ok(Reply::Done(values))
}

// Runs the first branch of an alternative. If it is refused, its writes go back, and the second is run.
fn run_either<W: Words>(
    alloc: Global,
    w: &mut W,
    shape: &BooksShape,
    first: &Ops,
    second: &Ops,
    number: u32,
) -> Result<Reply, Stop>
    requires ready { IsReady W.Words w.old }
    requires stands { InEachState W.Words W.Shape.Shape w.old (IsGoodFor shape.now) }
    requires few { number + length first.now + length second.now ≤ MOST_OPERATIONS + 1 }
    requires range { All (IsOperationIn shape.now) (first.now ++ second.now) }
    ensures runs { IfOk result (λ answer. LeadsTo W.Words W.Shape.Shape w.old w.new
        (Runs shape.now (run_part number (Part.Either first.now second.now)) answer)) }
    ensures stands { OnOk result (InEachState W.Words W.Shape.Shape w.new (IsGoodFor shape.now)) }
    ensures hands_on { HandsOn W.Words w.old w.new result }
{
    let named = Values::only(alloc, Value::First)?;
    let before = w.mark();
    if let Reply::Done(values) = run_operations(w, shape, first, number, named)? {
        return Ok(Reply::Done(values));
    }
    w.back_to(before)?;
    let named = Values::only(alloc, Value::Second)?;
    run_operations(w, shape, second, number + first.len() as u32, named)
}

// Runs the parts in order, up to the first that is refused.
fn run_script<W: Words>(
    alloc: Global,
    w: &mut W,
    shape: &BooksShape,
    script: &Script,
) -> Result<Reply, Stop>
    requires ready { IsReady W.Words w.old }
    requires stands { InEachState W.Words W.Shape.Shape w.old (IsGoodFor shape.now) }
    requires range { IsScriptIn shape.now script.now }
    ensures runs { IfOk result (λ answer. LeadsTo W.Words W.Shape.Shape w.old w.new
        (Runs shape.now (run_parts 1 script.now) answer)) }
    ensures stands { OnOk result (InEachState W.Words W.Shape.Shape w.new (IsGoodFor shape.now)) }
    ensures hands_on { HandsOn W.Words w.old w.new result }
{
    // Room is asked for before any lock is held.
    let mut values = Values::with_room(alloc, script.len())?;
    let mut number = 1;
    for part in script {
        match part {
            Part::One(operation) => {
                match run_operation(w, shape, *operation)? {
                    Outcome::Gives(value) => values.push(value)?,
                    Outcome::Declines(why) => return Ok(Reply::Declined(number, why)),
                    Outcome::FindsNoBlock => return Ok(Reply::Full(number)),
                }
                number += 1;
            }
            Part::Either(first, second) => {
                match run_either(alloc, w, shape, first, second, number)? {
                    Reply::Done(more) => values.append(&more)?,
                    refused => return Ok(refused),
                }
                number += (first.len() + second.len()) as u32;
            }
        }
    }
    Ok(Reply::Done(values))
}

// The writes are kept if the script was done.
fn verdict_on(reply: Reply) -> Verdict<Reply>
    ensures answer { answer_of result ≡ reply }
    ensures kept { is_kept result ≡ is_done reply }
{
    match reply {
        Reply::Done(_) => Verdict::Keep(reply),
        Reply::Declined(..) | Reply::Full(_) => Verdict::Revert(reply),
    }
}
