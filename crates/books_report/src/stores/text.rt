//! The text of a journal.

ghost use Rattle.std.specs.Prelude.{◌≡◌, ◌∷◌, ◌++◌, length, All, OnOk};
ghost use Rattle.std.specs.String.{string_bytes};
ghost use Rattle.std.specs.List.{flat_map, join_with_byte};
ghost use Rattle.script_reader.specs.declared.text.words.TheConstants.{SPACE};
ghost use Rattle.books_report.specs.Lines.{place_of_line, lent, ran_of_line, scripts_of};
ghost use Rattle.script_reader.specs.Journal.{IsPlaceOf};
ghost use Rattle.books_report.specs.Journals.{journal_line, journal_lines};
ghost use Rattle.books_report.specs.Stores.Output.{store_reply_words};

use crate::journal::write_place;
use crate::line::Line;
use crate::stores::reply::{StoreReply, StoreValues};
use crate::stores::script::OperationList;
use script_reader::Gathered;
use script_reader::text::decimal::push_next;
use std::alloc::AllocError;

/// A value that a reply tells in one word.
pub trait ToldValue: Drop {
    ghost use Rattle.std.specs.Prelude.{ℕ, List};

    /// The word, as bytes.
    ghost word: { Self → List ℕ };

    /// Appends the word. If memory runs out, a part of it may stand there.
    fn write(&self, text: &mut String) -> Result<(), AllocError>
        ensures { OnOk result (string_bytes text.new ≡ string_bytes text.old ++ word self.now) };
}

fn write_value<V: ToldValue>(text: &mut String, value: &V) -> Result<(), AllocError>
    ensures { OnOk result
        (string_bytes text.new ≡ string_bytes text.old ++ SPACE ∷ V.word value.now) }
{
    text.push(' ')?;
    value.write(text)
}

fn write_values<V: ToldValue>(text: &mut String, values: &StoreValues<V>) -> Result<(), AllocError>
    ensures { OnOk result
        (string_bytes text.new
        ≡ string_bytes text.old ++ flat_map (λ v. SPACE ∷ V.word v) values.now) }
{
    for value in values.iter() {
        write_value(text, value)?;
    }
    Ok(())
}

/// Appends the words of a reply, separated by spaces. If memory runs out, a part of them may stand there.
pub fn write_reply<V: ToldValue>(text: &mut String, reply: &StoreReply<V>) -> Result<(), AllocError>
    ensures { OnOk result (string_bytes text.new
        ≡ string_bytes text.old ++ join_with_byte SPACE (store_reply_words V.word reply.now)) }
{
    match reply {
        StoreReply::Done(values) => {
            text.push_str("done")?;
            write_values(text, values)
        }
        StoreReply::Declined(number) => {
            text.push_str("declined")?;
            push_next(text, u64::from(*number))?;
            text.push_str(" absent")
        }
        StoreReply::Full(number) => {
            text.push_str("full")?;
            push_next(text, u64::from(*number))
        }
    }
}

fn write_line<V: ToldValue>(
    text: &mut String,
    serial: u64,
    name: &str,
    line: Line,
    reply: &StoreReply<V>,
) -> Result<(), AllocError>
    ensures { OnOk result
        (string_bytes text.new
        ≡ string_bytes text.old
        ++ journal_line (store_reply_words V.word) serial name.now (ran_of_line line reply.now)) }
{
    write_place(text, serial, name, line)?;
    write_reply(text, reply)?;
    text.push('\n')
}

/// Appends a journal line for each line and reply, in their order.
pub fn write_journal<O: Drop, V: ToldValue>(
    text: &mut String,
    callers: &Gathered<OperationList<O>>,
    lines: &[Line],
    replies: &[&StoreReply<V>],
) -> Result<(), AllocError>
    requires beside { length lines.now ≡ length replies.now }
    requires places { All (λ l. IsPlaceOf callers.now (place_of_line l)) lines.now }
    ensures { OnOk result (string_bytes text.new ≡ string_bytes text.old
        ++ journal_lines (store_reply_words V.word) callers.now 1 (scripts_of lines.now (lent replies.now))) }
{
    let mut serial = 1;
    for (line, reply) in lines.iter().zip(replies) {
        let name = callers.name(line.caller);
        write_line(text, serial, name, *line, reply)?;
        serial += 1;
    }
    Ok(())
}
