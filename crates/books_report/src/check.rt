//! Whether a text is an output of an input.

ghost use Rattle.std.specs.Prelude.{◌≡◌, ◌≢◌, ℕ, ◌+◌, ◌<◌, ◌≤◌, ◌==◌, ◌^◌, List, ◌∷◌, ◌++◌, Ok, Some, codes, length, replicate, count_by, slice_index, IfOk, IfSome, IfNone, IsSomeAnd, OnOk};
ghost use Rattle.std.specs.List.{concat};
ghost use Rattle.script_reader.specs.Gathered.{caller_at};
ghost use Rattle.script_reader.specs.declared.text.words.TheConstants.{SPACE, LINE_FEED};
ghost use Rattle.script_reader.specs.Lines.{IsFreeOf};
ghost use Rattle.script_reader.specs.Text.{number};
ghost use Rattle.script_reader.specs.Input.{IsInput};
ghost use Rattle.script_reader.specs.Journal.{IsPlace};
ghost use Rattle.books_report.specs.Output.{Ran, IsOutput};
ghost use Rattle.books_report.specs.Lines.{place_of_line};
ghost use Rattle.books_report.specs.Checking.{closing_lines, IsFirstWrongLine};
ghost use Rattle.books_report.specs.Inner.Audit.{IsFor, HasRun, BeginsWithLine, BeginsWithNone, four_words, StopsAfter, in_common, IsFound};

use crate::books::write_books;
use crate::journal::write_line;
use crate::limits::{MOST_CLOSING_LINES, RESTARTS_BELOW};
use crate::line::Line;
use books_model::laws::{scripts_go_by_instruments, scripts_keep_sizes};
use books_model::{Books, run_plain};
use io_ends::OutOfMemory;
use script_reader::Input;
use script_reader::text::words::{LINE_FEED, SPACE};
use std::alloc::Global;
use std::str;

/// What the check of a text finds.
#[derive(Clone, Copy, Debug, PartialEq, Eq)]
pub enum Checked {
    /// The text is an output of the input.
    Agrees,
    /// It is none, and the line with this number, from 1, is the first that is wrong.
    Differs(u32),
}

// The first word of a text and what stands behind the space after it.
fn first_word_and_rest(text: &[u8]) -> Option<(&[u8], &[u8])>
    ensures found { IfSome result (λ parts. (text.now ≡ parts.0.now ++ SPACE ∷ parts.1.now)
        × IsFreeOf SPACE parts.0.now) }
    ensures none { IfNone result (IsFreeOf SPACE text.now) }
{
    let end = text.iter().position(|b| *b == SPACE)?;
    let (word, after) = text.split_at(end);
    Some((word, &after[1..]))
}

// The second and the fourth word of a text.
fn second_and_fourth_word(text: &[u8]) -> Option<(&[u8], &[u8])>
    ensures { (a b c d rest : List ℕ) → text.now ≡ four_words a b c d rest
        → IsFreeOf SPACE a → IsFreeOf SPACE b → IsFreeOf SPACE c → IsFreeOf SPACE d
        → IsSomeAnd result (λ words. (words.0.now ≡ b) × (words.1.now ≡ d)) }
{
    let (_, text) = first_word_and_rest(text)?;
    let (second, text) = first_word_and_rest(text)?;
    let (_, text) = first_word_and_rest(text)?;
    let (fourth, _) = first_word_and_rest(text)?;
    Some((second, fourth))
}

// The caller whose name a word is.
fn caller_of(input: &Input, word: &[u8]) -> Option<u32>
    requires valid { IsInput input.now }
    ensures within { IfSome result (λ caller. caller < length input.now.callers) }
    ensures named { (caller : ℕ) → caller < length input.now.callers
        → word.now ≡ (caller_at input.now.callers caller).name → result ≡ Some caller }
{
    let Ok(name) = str::from_utf8(word) else {
        return None;
    };
    input.caller_named(name)
}

// The number that a word is, if it is small.
fn number_of(word: &[u8]) -> Option<u32>
    ensures { (n : ℕ) → n < 2 ^ 32 → word.now ≡ number n → result ≡ Some n }
{
    let Ok(digits) = str::from_utf8(word) else {
        return None;
    };
    digits.parse().ok()
}

// The line of the next script of a caller, if the first words of a text name it, its restarts are below their limit and
// the caller has a script left.
fn named_line(input: &Input, done: &[u32], text: &[u8]) -> Option<Line>
    requires valid { IsInput input.now }
    requires even { length done.now ≡ length input.now.callers }
    ensures found { IfSome result (λ line. IsPlace input.now (place_of_line line)
        × (line.index ≡ slice_index done.now line.caller) × (line.restarts < RESTARTS_BELOW)
        × (line.index + 1 < 2 ^ 32)) }
    ensures named { (serial caller index restarts : ℕ) (rest : List ℕ)
        → caller < length input.now.callers
        → slice_index done.now caller < length (caller_at input.now.callers caller).scripts
        → restarts < RESTARTS_BELOW
        → text.now ≡ four_words (number serial) (caller_at input.now.callers caller).name
        (number index) (number restarts) rest
        → result ≡ Some (record {
          caller = caller;
          index = slice_index done.now caller;
          restarts = restarts;
        }) }
{
    let (name, restarts) = second_and_fourth_word(text)?;
    let caller = caller_of(input, name)?;
    let restarts = number_of(restarts)?;
    let index = done[caller as usize];
    if index < input.scripts_of(caller) && restarts < RESTARTS_BELOW {
        Some(Line {
            caller,
            index,
            restarts,
        })
    } else {
        None
    }
}

// What stands behind the front of a text.
fn text_behind<'a>(text: &'a [u8], front: &[u8]) -> Option<&'a [u8]>
    ensures begins { IfSome result (λ left. text.now ≡ front.now ++ left.now) }
    ensures none { IfNone result ((left : List ℕ) → text.now ≢ front.now ++ left) }
{
    text.strip_prefix(front)
}

// Runs the script that the next line of a text names, on the books that the scripts so far leave, and counts it as done.
// What is left stands behind the line, if that is right.
fn run_next_line<'a>(
    alloc: Global,
    input: &Input,
    books: &mut Books,
    done: &mut [u32],
    serial: u32,
    text: &'a [u8],
) -> Result<Option<&'a [u8]>, OutOfMemory>
    requires valid { IsInput input.now }
    requires fits { IsFor input.now books.old done.old }
    ensures fits { OnOk result (IsFor input.now books.new done.new) }
    ensures right { IfOk result (λ found. IfSome found (λ left. (scripts : List Ran)
        → length scripts + 1 ≡ serial → HasRun input.now scripts books.old done.old
        → BeginsWithLine input.now scripts text.now left.now books.new done.new)) }
    ensures wrong { IfOk result (λ found. IfNone found ((scripts : List Ran)
        → length scripts + 1 ≡ serial → HasRun input.now scripts books.old done.old
        → BeginsWithNone input.now scripts text.now)) }
{
    // By the laws of the language.
    scripts_go_by_instruments();
    scripts_keep_sizes();
    let Some(line) = named_line(input, done, text) else {
        return Ok(None);
    };
    let script = input.script(line.caller, line.index);
    let reply = run_plain(alloc, script, books)?;
    done[line.caller as usize] = line.index + 1;
    let mut expected = String::new(alloc);
    let name = input.name(line.caller);
    write_line(&mut expected, u64::from(serial), name, line, &reply)?;
    Ok(text_behind(text, expected.as_bytes()))
}

// How many lines two texts have in common, from the first.
fn lines_in_common(expected: &[u8], text: &[u8]) -> usize
    ensures { result ≡ count_by (λ b. b == LINE_FEED) (in_common expected.now text.now) }
{
    let mut lines = 0;
    for (wanted, found) in expected.iter().zip(text) {
        if *wanted != *found {
            return lines;
        }
        if *wanted == LINE_FEED {
            lines += 1;
        }
    }
    lines
}

// How many lines of a text are those of the closing books and the last one, if the text is not all of them.
fn check_closing(alloc: Global, books: &Books, text: &[u8]) -> Result<Option<u32>, OutOfMemory>
    ensures same { IfOk result (λ lines. IfNone lines
        (text.now ≡ concat (closing_lines books.now))) }
    ensures stops { IfOk result (λ lines. IfSome lines
        (λ lines. StopsAfter (closing_lines books.now) text.now lines)) }
    ensures few { IfOk result (λ lines. IfSome lines (λ lines. lines ≤ MOST_CLOSING_LINES)) }
{
    books.ranges();
    let mut expected = String::new(alloc);
    write_books(&mut expected, books)?;
    expected.push_str("finish\n")?;
    let expected = expected.as_bytes();
    if text == expected {
        return Ok(None);
    }
    Ok(Some(lines_in_common(expected, text) as u32))
}

// What the check of a text finds behind its first line, from the opening books on and with no script done.
fn check_journal(
    alloc: Global,
    input: &Input,
    books: &mut Books,
    done: &mut [u32],
    journal: &[u8],
) -> Result<Checked, OutOfMemory>
    requires valid { IsInput input.now }
    requires opening { books.old ≡ input.now.books }
    requires nothing_done { done.old ≡ replicate (length input.now.callers) 0 }
    ensures { IfOk result (λ checked.
        IsFound input.now (codes "journal\n" ++ journal.now) checked) }
{
    let mut left = journal;
    for run in 0..input.scripts() {
        match run_next_line(alloc, input, books, done, run + 1, left)? {
            Some(after) => left = after,
            None => return Ok(Checked::Differs(run + 2)),
        }
    }
    match check_closing(alloc, books, left)? {
        None => Ok(Checked::Agrees),
        Some(lines) => Ok(Checked::Differs(input.scripts() + lines + 2)),
    }
}

// What the check of a text finds, out of memory aside.
fn check_lines(alloc: Global, input: &Input, text: &[u8]) -> Result<Checked, OutOfMemory>
    requires valid { IsInput input.now }
    ensures { IfOk result (λ checked. IsFound input.now text.now checked) }
{
    let Some(journal) = text_behind(text, b"journal\n") else {
        return Ok(Checked::Differs(1));
    };
    let mut books = input.books().copy()?;
    let mut done = vec![in alloc; 0; input.callers() as usize]?;
    check_journal(alloc, input, &mut books, &mut done, journal)
}

/// Whether a text is an output of an input, whatever the order of its scripts and the restarts below their limit. Each
/// script is run once, and each byte looked at a few times. Out of memory is the only other answer.
pub fn check_text(alloc: Global, input: &Input, text: &[u8]) -> Result<Checked, OutOfMemory>
    ensures agrees { result ≡ Ok Checked.Agrees → IsOutput input.now RESTARTS_BELOW text.now }
    ensures output { IsOutput input.now RESTARTS_BELOW text.now
        → IfOk result (λ checked. checked ≡ Checked.Agrees) }
    ensures differs { (line : ℕ) → result ≡ Ok (Checked.Differs line)
        → IsFirstWrongLine input.now RESTARTS_BELOW text.now line }
    ensures wrong { (line : ℕ) → IsFirstWrongLine input.now RESTARTS_BELOW text.now line
        → IfOk result (λ checked. checked ≡ Checked.Differs line) }
{
    // That an input is valid.
    let _ = input.callers();
    check_lines(alloc, input, text)
}
