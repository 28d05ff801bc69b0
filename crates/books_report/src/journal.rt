//! The text of a journal and of closing books.

ghost use Rattle.std.specs.Prelude.{◌≡◌, ◌+◌, ◌<◌, ◌^◌, [], ◌∷◌, ◌++◌, length, All, IfOk, OnOk};
ghost use Rattle.std.specs.String.{string_bytes};
ghost use Rattle.script_reader.specs.declared.text.words.TheConstants.{SPACE};
ghost use Rattle.script_reader.specs.declared.books.version.Version.TheVariants.{Two};
ghost use Rattle.script_reader.specs.Text.{books_lines, finish_line, number};
ghost use Rattle.script_reader.specs.Journal.{IsPlace};
ghost use Rattle.books_report.specs.Journals.{journal_line, journal_lines};
ghost use Rattle.books_report.specs.Output.{text_of};
ghost use Rattle.books_report.specs.Lines.{lent, place_of_line, ran_of_line, scripts_of};
ghost use Rattle.books_report.specs.Words.{reply_words};

use crate::books::write_books;
use crate::line::Line;
use crate::words::write_reply;
use books_model::{Books, Reply};
use io_ends::OutOfMemory;
use script_reader::Input;
use script_reader::text::decimal::{push_next, push_number};
use std::alloc::{AllocError, Global};

/// Appends what stands before the reply in a journal's line, with the space behind it.
pub fn write_place(text: &mut String, serial: u64, name: &str, line: Line) -> Result<(), AllocError>
    ensures { OnOk result
        (string_bytes text.new
        ≡ string_bytes text.old
        ++ number serial
        ++ SPACE ∷ (name.now
        ++ SPACE ∷ (number (line.index + 1) ++ SPACE ∷ (number line.restarts ++ SPACE ∷ [])))) }
{
    let index = u64::from(line.index) + 1;
    push_number(text, serial)?;
    text.push(' ')?;
    text.push_str(name)?;
    push_next(text, index)?;
    push_next(text, u64::from(line.restarts))?;
    text.push(' ')
}

pub(crate) fn write_line(
    text: &mut String,
    serial: u64,
    name: &str,
    line: Line,
    reply: &Reply,
) -> Result<(), AllocError>
    ensures { OnOk result
        (string_bytes text.new
        ≡ string_bytes text.old
        ++ journal_line reply_words serial name.now (ran_of_line line reply.now)) }
{
    write_place(text, serial, name, line)?;
    write_reply(text, reply)?;
    text.push('\n')
}

/// Appends a journal line for each line and reply, in their order, the first with this serial number.
pub fn write_lines(
    text: &mut String,
    input: &Input,
    first: u64,
    lines: &[Line],
    replies: &[&Reply],
) -> Result<(), AllocError>
    requires beside { length lines.now ≡ length replies.now }
    requires places { All (λ l. IsPlace input.now (place_of_line l)) lines.now }
    requires numbers { first + length lines.now < 2 ^ 64 }
    ensures { OnOk result (string_bytes text.new ≡ string_bytes text.old
        ++ journal_lines reply_words input.now.callers first (scripts_of lines.now (lent replies.now))) }
{
    let mut serial = first;
    for (line, reply) in lines.iter().zip(replies) {
        let name = input.name(line.caller);
        write_line(text, serial, name, *line, reply)?;
        serial += 1;
    }
    Ok(())
}

/// The whole output, of which the text before the closing books is given: behind it come these, and `finish`.
pub fn with_closing(text: String, closing: &Books) -> Result<Vec<u8>, OutOfMemory>
    ensures { IfOk result (λ bytes. bytes.items
        ≡ string_bytes text ++ books_lines Two closing.now ++ finish_line) }
{
    let mut text = text;
    write_books(&mut text, closing)?;
    text.push_str("finish\n")?;
    Ok(text.into_bytes())
}

/// The whole output: a journal line for each line and reply, in their order, the closing books, and `finish`.
pub fn journal_text(
    alloc: Global,
    input: &Input,
    lines: &[Line],
    replies: &[&Reply],
    closing: &Books,
) -> Result<Vec<u8>, OutOfMemory>
    requires beside { length lines.now ≡ length replies.now }
    requires places { All (λ l. IsPlace input.now (place_of_line l)) lines.now }
    ensures { IfOk result (λ text. text.items
        ≡ text_of input.now (scripts_of lines.now (lent replies.now)) closing.now) }
{
    let mut text = String::from_str(alloc, "journal\n")?;
    write_lines(&mut text, input, 1, lines, replies)?;
    with_closing(text, closing)
}
