//! The text of a journal and of closing records.

ghost use Rattle.std.specs.Prelude.{◌≡◌, ℕ, ◌++◌, length, All, IfOk, OnOk};
ghost use Rattle.std.specs.String.{string_bytes};
ghost use Rattle.std.specs.List.{flat_map};
ghost use Rattle.books_report.specs.Lines.{place_of_line, lent, scripts_of};
ghost use Rattle.record_text.specs.Journal.{IsRecordPlace};
ghost use Rattle.record_text.specs.Output.{AreByRank, AreRun, IsRecordOutput, closing_of, record_header_line, record_line, text_of};

use crate::input::RecordInput;
use crate::reply::RecordReply;
use books_report::Line;
use books_report::stores::write_journal;
use io_ends::OutOfMemory;
use script_reader::text::decimal::{push_next, write_size};
use std::alloc::{AllocError, Global};

fn write_header(text: &mut String, input: &RecordInput) -> Result<(), AllocError>
    ensures { OnOk result
        (string_bytes text.new ≡ string_bytes text.old ++ record_header_line input.now) }
{
    text.push_str("records 1")?;
    write_size(text, "blocks", input.blocks())?;
    text.push('\n')
}

fn write_record(text: &mut String, id: u32, rank: u32, content: u64) -> Result<(), AllocError>
    ensures { OnOk result
        (string_bytes text.new ≡ string_bytes text.old ++ record_line (id, rank, content)) }
{
    text.push_str("record")?;
    push_next(text, u64::from(id))?;
    push_next(text, u64::from(rank))?;
    push_next(text, content)?;
    text.push('\n')
}

fn write_records(text: &mut String, closing: &[(u32, u32, u64)]) -> Result<(), AllocError>
    ensures { OnOk result
        (string_bytes text.new ≡ string_bytes text.old ++ flat_map record_line closing.now) }
{
    for (id, rank, content) in closing {
        write_record(text, *id, *rank, *content)?;
    }
    Ok(())
}

/// The whole output: a journal line for each line and reply, in their order, the closing records, each with its identifier,
/// its rank and its data, and `finish`. The records of a store are by rank as its index lists them (`printed_of`).
pub fn records_text(
    alloc: Global,
    input: &RecordInput,
    lines: &[Line],
    replies: &[&RecordReply],
    closing: &[(u32, u32, u64)],
) -> Result<Vec<u8>, OutOfMemory>
    requires beside { length lines.now ≡ length replies.now }
    requires places { All (λ l. IsRecordPlace input.now (place_of_line l)) lines.now }
    requires by_rank { AreByRank closing.now }
    ensures text { IfOk result (λ text. text.items
        ≡ text_of input.now (scripts_of lines.now (lent replies.now)) closing.now) }
    ensures output { IfOk result (λ text. (limit : ℕ)
        → AreRun input.now limit (scripts_of lines.now (lent replies.now))
        → closing.now ≡ closing_of input.now (scripts_of lines.now (lent replies.now))
        → IsRecordOutput input.now limit text.items) }
{
    let mut text = String::from_str(alloc, "journal\n")?;
    write_journal(&mut text, input, lines, replies)?;
    write_header(&mut text, input)?;
    write_records(&mut text, closing)?;
    text.push_str("finish\n")?;
    Ok(text.into_bytes())
}
