//! The answer to the bytes of an input and of a text behind it.

ghost use Rattle.std.specs.Prelude.{◌≡◌, IfOk};
ghost use Rattle.script_reader.specs.Faults.{IsFrontFault};
ghost use Rattle.script_reader.specs.Grammar.{AreTwoTexts};
ghost use Rattle.twoplsf.specs.Answer.{Answers, IsComparisonOf, IsTextAlone};
ghost use Rattle.twoplsf.specs.Check.{agrees_line, differs_line};

use crate::answer::{Answer, refusal};
use crate::status::Status;
use books_report::{Checked, check_text};
use io_ends::OutOfMemory;
use script_reader::{Input, InputFault, read_front};
use std::alloc::Global;

// That a text is an output.
fn agrees(alloc: Global) -> Result<Answer, OutOfMemory>
    ensures { IfOk result (IsTextAlone Status.Done agrees_line) }
{
    Ok(Answer::Text {
        status: Status::Done,
        text: String::from_str(alloc, "agrees\n")?.into_bytes(),
    })
}

// That it is none, by its first wrong line.
fn differs(alloc: Global, line: u32) -> Result<Answer, OutOfMemory>
    ensures { IfOk result (IsTextAlone Status.Differs (differs_line line)) }
{
    let mut text = String::from_str(alloc, "differs line ")?;
    write!(text, "{line}")?;
    text.push_str("\n")?;
    Ok(Answer::Text {
        status: Status::Differs,
        text: text.into_bytes(),
    })
}

// Compares a text with the input that it is to be an output of.
fn compare(alloc: Global, input: &Input, text: &[u8]) -> Result<Answer, OutOfMemory>
    ensures { IfOk result (IsComparisonOf (input.now, text.now)) }
{
    match check_text(alloc, input, text)? {
        Checked::Agrees => agrees(alloc),
        Checked::Differs(line) => differs(alloc, line),
    }
}

/// Reads an input, and says whether what stands behind it is an output of it; or refuses the bytes. The input ends with
/// the line feed after its first line `finish`.
pub fn check_answer(alloc: Global, bytes: &[u8]) -> Result<Answer, OutOfMemory>
    ensures { IfOk result (Answers (λ bytes two. AreTwoTexts bytes two.0 two.1) IsFrontFault
        IsComparisonOf bytes.now) }
{
    let (input, end) = match read_front(alloc, bytes) {
        Ok(front) => front,
        Err(InputFault::Line { line, why }) => return refusal(alloc, line, why),
        Err(InputFault::OutOfMemory) => return Err(OutOfMemory),
    };
    compare(alloc, &input, &bytes[end..])
}
