//! The lines of a journal, by several threads.

ghost use Rattle.std.specs.Prelude.{◌≡◌, ℕ, ◌+◌, ◌<◌, ◌≤◌, ◌^◌, ◌++◌, All, IfOk, length, map};
ghost use Rattle.std.specs.String.{string_bytes};
ghost use Rattle.std.specs.Thread.{IsSync};
ghost use Rattle.script_reader.specs.Journal.{IsPlace};
ghost use Rattle.books_report.specs.Journals.{journal_lines};
ghost use Rattle.worker_pool.specs.Days.{place_of_item};
ghost use Rattle.twoplsf.specs.Day.{ran_of_item};
ghost use Rattle.books_report.specs.Words.{reply_words};

use books_report::journal::write_lines;
use io_ends::OutOfMemory;
use script_reader::Input;
use std::alloc::Global;
use std::thread::{Threads, join};
use txn_stores::{lines_of, replies_of};
use worker_pool::Done;

// Appends the lines of these items to a text, the first with this serial number.
fn write_items(
    alloc: Global,
    text: String,
    input: &Input,
    first: u64,
    done: &[Done],
) -> Result<String, OutOfMemory>
    requires places { All (λ item. IsPlace input.now (place_of_item item)) done.now }
    requires numbers { first + length done.now < 2 ^ 64 }
    ensures { IfOk result (λ whole. string_bytes whole ≡ string_bytes text
        ++ journal_lines reply_words input.now.callers first (map ran_of_item done.now)) }
{
    let mut text = text;
    let lines = lines_of(alloc, done)?;
    let replies = replies_of(alloc, done)?;
    write_lines(&mut text, input, first, &lines, &replies)?;
    Ok(text)
}

/// Appends a journal's lines of these items to a text, the first with this serial number, by so many threads: each half of
/// them writes its half of the lines, and the caller joins them. If no thread can be started the caller writes that half.
pub(crate) fn write_shared<R: Threads + Sync>(
    rt: &R,
    alloc: Global,
    text: String,
    input: &Input,
    first: u64,
    done: &[Done],
    threads: u32,
) -> Result<String, OutOfMemory>
    requires places { All (λ item. IsPlace input.now (place_of_item item)) done.now }
    requires numbers { first + length done.now < 2 ^ 64 }
    ensures { IfOk result (λ whole. string_bytes whole ≡ string_bytes text
        ++ journal_lines reply_words input.now.callers first (map ran_of_item done.now)) }
{
    if threads < 2 {
        return write_items(alloc, text, input, first, done);
    }
    let half = threads / 2;
    let others = threads - half;
    let (front, back) = done.split_at(done.len() / 2);
    let second = first + front.len() as u64;
    let (whole, more) = join(
        rt,
        ||
            requires { IsSync R.row × (first + length front.now < 2 ^ 64)
                × All (λ item. IsPlace input.now (place_of_item item)) front.now }
            ensures { IfOk result (λ whole. string_bytes whole ≡ string_bytes text
                ++ journal_lines reply_words input.entry.now.callers first (map ran_of_item front.entry.now)) }
        { write_shared(rt, alloc, text, input, first, front, others) },
        ||
            requires { IsSync R.row × (second + length back.now < 2 ^ 64)
                × All (λ item. IsPlace input.now (place_of_item item)) back.now }
            ensures { IfOk result (λ more. string_bytes more
                ≡ journal_lines reply_words input.entry.now.callers second (map ran_of_item back.entry.now)) }
        { write_shared(rt, alloc, String::new(alloc), input, second, back, half) },
    );
    let mut whole = whole?;
    whole.push_str(&more?)?;
    Ok(whole)
}
