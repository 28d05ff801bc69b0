//! A drill: an input that the program makes, runs and checks.

ghost use Rattle.std.specs.Prelude.{◌≡◌, ◌++◌, IfOk, OnOk, codes, length};
ghost use Rattle.std.specs.String.{string_bytes};
ghost use Rattle.books_model.specs.Laws.{all_cash};
ghost use Rattle.books_model.specs.Ranges.{IsWithin};
ghost use Rattle.input_maker.specs.Days.{all_quantities};
ghost use Rattle.input_maker.specs.Statements.{AreForMake};
ghost use Rattle.script_reader.specs.declared.limits.TheConstants.{MOST_WORKERS};
ghost use Rattle.twoplsf.specs.Check.{agrees_line};
ghost use Rattle.twoplsf.specs.Day.{IsDayOf, closing_books};
ghost use Rattle.twoplsf.specs.Made.{drill_text, planned_input, sum_line};

use crate::agreement::{Agreement, agree};
use crate::answer::closing_of;
use crate::command::Plan;
use crate::day::run_day;
use crate::sums::{cash_of_all, quantity_of_all};
use books_model::Books;
use input_maker::laws::{made_days, made_inputs_are_inputs};
use input_maker::make_input;
use io_ends::OutOfMemory;
use script_reader::{Input, InputFault, read_input};
use std::alloc::{AllocError, Global};
use std::sync::Wait;
use std::thread::Threads;
use worker_gate::Gate;
use worker_pool::DayEnd;

// The input of a plan, read from its text.
fn input_of(alloc: Global, plan: Plan) -> Result<Input, OutOfMemory>
    requires { AreForMake plan.seed plan.callers plan.scripts }
    ensures { IfOk result (λ input. input ≡ planned_input plan) }
{
    // The text has no fault.
    made_inputs_are_inputs();
    let text = make_input(alloc, plan.seed, plan.callers, plan.scripts)?;
    match read_input(alloc, &text) {
        Ok(input) => Ok(input),
        Err(InputFault::OutOfMemory) => Err(OutOfMemory),
        Err(InputFault::Line { .. }) => unreachable!(),
    }
}

// Appends a line with a number.
fn write_sum(text: &mut String, name: &str, sum: u128) -> Result<(), AllocError>
    ensures { OnOk result
        (string_bytes text.new ≡ string_bytes text.old ++ sum_line name.now sum) }
{
    write!(text, "{name} {sum}\n")
}

// What is said of a drill whose output agrees: how many scripts it ran, and what its closing books come to.
fn summary_of(
    alloc: Global,
    _agreement: Agreement,
    scripts: u64,
    closing: &Books,
) -> Result<Vec<u8>, OutOfMemory>
    ensures { IfOk result (λ text. text.items
        ≡ sum_line (codes "scripts") scripts ++ sum_line (codes "cash") (all_cash closing.now)
        ++ sum_line (codes "quantity") (all_quantities closing.now) ++ agrees_line) }
{
    let mut text = String::new(alloc);
    write_sum(&mut text, "scripts", u128::from(scripts))?;
    write_sum(&mut text, "cash", cash_of_all(closing))?;
    write_sum(&mut text, "quantity", u128::from(quantity_of_all(closing)))?;
    text.push_str("agrees\n")?;
    Ok(text.into_bytes())
}

// Compares the output of a day with its input, and sums up its closing books.
fn summary_of_day(
    alloc: Global,
    input: &Input,
    workers: u32,
    day: &DayEnd,
) -> Result<Vec<u8>, OutOfMemory>
    requires workers { IsWithin 1 MOST_WORKERS workers }
    requires day { IsDayOf input.now workers day.now }
    ensures { IfOk result (λ text. text.items
        ≡ sum_line (codes "scripts") (length day.now.done.items)
        ++ sum_line (codes "cash") (all_cash (closing_books input.now day.now))
        ++ sum_line (codes "quantity") (all_quantities (closing_books input.now day.now))
        ++ agrees_line) }
{
    let closing = closing_of(alloc, input, workers, day)?;
    let agreement = agree(alloc, input, workers, day, &closing)?;
    let scripts = day.done.len() as u64;
    summary_of(alloc, agreement, scripts, &closing)
}

/// Runs the input of a plan by so many workers, makes its output and checks that, and sums up the closing books.
pub fn drill<R: Threads + Wait + Sync, G: Gate + Sync>(
    rt: &R,
    alloc: Global,
    workers: u32,
    plan: Plan,
    gate: &G,
) -> Result<(Vec<u8>, DayEnd), OutOfMemory>
    requires workers { IsWithin 1 MOST_WORKERS workers }
    requires plan { AreForMake plan.seed plan.callers plan.scripts }
    ensures text { IfOk result (λ r. r.0.items ≡ drill_text plan.seed plan.callers plan.scripts) }
    ensures day { IfOk result (λ r. IsDayOf (planned_input plan) workers r.1) }
{
    // What the closing books come to, whatever the order of the scripts.
    made_days();
    let input = input_of(alloc, plan)?;
    let day = run_day(rt, alloc, &input, workers, gate)?;
    let text = summary_of_day(alloc, &input, workers, &day)?;
    Ok((text, day))
}
