//! The plain interpreter: one script at a time, on books in memory.

ghost use Rattle.std.specs.Prelude.{◌≡◌, ◌≤◌, ◌+◌, ◌++◌, ◌∷◌, [], length, All, IfOk, OnOk, OnErr};
ghost use Rattle.books_model.specs.Books.{HaveSameSizes};
ghost use Rattle.books_model.specs.Ranges.{IsOperationFor, IsScriptFor};
ghost use Rattle.books_model.specs.Interpreter.{after_values, outcome_of, run_from, run_part, run_parts};
ghost use Rattle.books_model.specs.Inner.Steps.{run_with};

use crate::books::Books;
use crate::draft::{Draft, Outcome};
use crate::limits::MOST_OPERATIONS;
use crate::reply::{Reply, Value, Values};
use crate::script::{Ops, Part, Script};
use io_ends::OutOfMemory;
use std::alloc::Global;

/// Runs a script. Its changes are gathered beside the books and put in at its end, so that the books are as they were
/// after a refusal, and out of memory.
pub fn run_plain(alloc: Global, script: &Script, books: &mut Books) -> Result<Reply, OutOfMemory>
    requires range { IsScriptFor books.old script.now }
    ensures reply { IfOk result (λ reply. reply ≡ (outcome_of script.now books.old).0) }
    ensures books { OnOk result (books.new ≡ (outcome_of script.now books.old).1) }
    ensures err { OnErr result (books.new ≡ books.old) }
    // What the next script is run on has the same sizes.
    ensures sizes { HaveSameSizes books.old books.new }
{
    let mut draft = Draft::new(alloc, books);
    let reply = run_all(alloc, script, &mut draft)?;
    let changes = draft.into_changes();
    if let Reply::Done(_) = &reply {
        books.put_in(&changes)?;
    }
    Ok(reply)
}

// Runs operations in order, up to the first that is refused. The first has this number, and these are the values so far.
fn run_operations(
    operations: &Ops,
    first: u32,
    draft: &mut Draft<'_>,
    so_far: Values,
) -> Result<Reply, OutOfMemory>
    requires few { first + length operations.now ≤ MOST_OPERATIONS + 1 }
    requires range { All (IsOperationFor draft.old.before) operations.now }
    ensures run { IfOk result (λ reply. after_values so_far
        (run_from first operations.now draft.old.after) ≡ run_with reply draft.new.after) }
    ensures before { draft.new.before ≡ draft.old.before }
{
    let mut values = so_far;
    let mut number = first;
    for operation in operations {
        match draft.run(*operation)? {
            Outcome::Gives(value) => values.push(value)?,
            Outcome::Declines(why) => return Ok(Reply::Declined(number, why)),
            Outcome::FindsNoBlock => return Ok(Reply::Full(number)),
        }
        number += 1;
    }
    Ok(Reply::Done(values))
}

// Runs the first branch of an alternative on a copy of the draft, and if it is refused the second on the draft.
fn run_either(
    alloc: Global,
    first: &Ops,
    second: &Ops,
    number: u32,
    draft: &mut Draft<'_>,
) -> Result<Reply, OutOfMemory>
    requires few { number + length first.now + length second.now ≤ MOST_OPERATIONS + 1 }
    requires range { All (IsOperationFor draft.old.before) (first.now ++ second.now) }
    ensures run { IfOk result (λ reply. run_part number (Part.Either first.now second.now) draft.old.after
        ≡ run_with reply draft.new.after) }
    ensures before { draft.new.before ≡ draft.old.before }
{
    let mut trial = draft.copy()?;
    let named = Values::only(alloc, Value::First)?;
    if let Reply::Done(values) = run_operations(first, number, &mut trial, named)? {
        *draft = trial;
        return Ok(Reply::Done(values));
    }
    let named = Values::only(alloc, Value::Second)?;
    run_operations(second, number + first.len() as u32, draft, named)
}

// Runs the parts in order, up to the first that is refused.
fn run_all(alloc: Global, script: &Script, draft: &mut Draft<'_>) -> Result<Reply, OutOfMemory>
    requires range { IsScriptFor draft.old.before script.now }
    ensures run { IfOk result (λ reply. run_parts 1 script.now draft.old.after
        ≡ run_with reply draft.new.after) }
    ensures before { draft.new.before ≡ draft.old.before }
{
    let mut values = Values::new(alloc);
    let mut number = 1;
    for part in script {
        match part {
            Part::One(operation) => {
                match draft.run(*operation)? {
                    Outcome::Gives(value) => values.push(value)?,
                    Outcome::Declines(why) => return Ok(Reply::Declined(number, why)),
                    Outcome::FindsNoBlock => return Ok(Reply::Full(number)),
                }
                number += 1;
            }
            Part::Either(first, second) => {
                match run_either(alloc, first, second, number, draft)? {
                    Reply::Done(more) => values.append(&more)?,
                    refused => return Ok(refused),
                }
                number += (first.len() + second.len()) as u32;
            }
        }
    }
    Ok(Reply::Done(values))
}
