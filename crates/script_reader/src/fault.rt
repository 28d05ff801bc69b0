//! Why a text is refused.

ghost use Rattle.std.specs.Prelude.{◌≡◌, ◌≢◌, ◌+◌, ◌<◌, ◌^◌};

use io_ends::OutOfMemory;
use std::alloc::AllocError;
use std::error::Error;
use std::fmt;

/// What is wrong with a line.
#[derive(Clone, Copy, Debug, PartialEq, Eq)]
pub enum Fault {
    /// The first line is no header.
    Header,
    /// A word in a number's place is no number.
    Number,
    /// The first word is none that may stand there, the line has too few or too many words, or a name is misspelt.
    Word,
    /// A line of its kind may not stand there any more, or it does not rise.
    Order,
    /// A number is out of its range, or there are too many lines of a kind.
    Limit,
    /// A position is of an account that was not given.
    Account,
    /// A position is of an instrument that has no price.
    Price,
    /// More blocks are used than the books have.
    Blocks,
    /// The text ends too early, or goes on after its end.
    End,
}

impl fmt::Display for Fault {
    ghost use Rattle.std.specs.Prelude.{Some};
    ghost use Rattle.script_reader.specs.FaultWords.{fault_word};

    ghost output = { λ why. Some (fault_word why) };

    fn fmt<W: fmt::Write>(&self, f: &mut fmt::Formatter<W>) -> fmt::Result {
        f.write_str(self.word())
    }
}

impl Fault {
    ghost use Rattle.std.specs.Prelude.{◌≡◌};
    ghost use Rattle.script_reader.specs.FaultWords.{fault_word};

    // What is printed of it.
    fn word(&self) -> &'static str
        ensures { result.now ≡ fault_word self.now }
    {
        match self {
            Fault::Header => "header",
            Fault::Number => "number",
            Fault::Word => "word",
            Fault::Order => "order",
            Fault::Limit => "limit",
            Fault::Account => "account",
            Fault::Price => "price",
            Fault::Blocks => "blocks",
            Fault::End => "end",
        }
    }
}

impl Error for Fault {}

/// Why no input was read.
#[derive(Clone, Copy, Debug, PartialEq, Eq)]
pub enum InputFault {
    /// The line with this number, from 1, is the first with a fault.
    Line { line: u32, why: Fault },
    /// No memory was found.
    OutOfMemory,
}

impl fmt::Display for InputFault {
    ghost use Rattle.std.specs.Prelude.{Some};
    ghost use Rattle.script_reader.specs.FaultWords.{input_fault_words};

    ghost output = { λ why. Some (input_fault_words why) };

    fn fmt<W: fmt::Write>(&self, f: &mut fmt::Formatter<W>) -> fmt::Result {
        match self {
            InputFault::Line { line, why } => write!(f, "line {line} {why}"),
            InputFault::OutOfMemory => write!(f, "out of memory"),
        }
    }
}

impl Error for InputFault {}

// Why a part of a text was not read. The number of the line is added if the whole text is read.
#[derive(Clone, Copy)]
pub(crate) enum Refusal {
    // The line that was read last has this fault, or with `Fault::End` the line after it.
    LineFault(Fault),
    // No memory was found.
    OutOfMemory,
}

impl From<Fault> for Refusal {
    ghost use Rattle.std.specs.Prelude.{◌≡◌};
    ghost use Rattle.script_reader.specs.declared.fault.Refusal.TheVariants as refusal;

    ghost from_gives = { λ why stop. stop ≡ refusal.LineFault why };

    fn from(why: Fault) -> Refusal {
        Refusal::LineFault(why)
    }
}

impl From<OutOfMemory> for Refusal {
    ghost use Rattle.std.specs.Prelude.{◌≡◌};
    ghost use Rattle.script_reader.specs.declared.fault.Refusal.TheVariants as refusal;

    ghost from_gives = { λ _ stop. stop ≡ refusal.OutOfMemory };

    fn from(_error: OutOfMemory) -> Refusal {
        Refusal::OutOfMemory
    }
}

impl From<AllocError> for Refusal {
    ghost use Rattle.std.specs.Prelude.{◌≡◌};
    ghost use Rattle.script_reader.specs.declared.fault.Refusal.TheVariants as refusal;

    ghost from_gives = { λ _ stop. stop ≡ refusal.OutOfMemory };

    fn from(_error: AllocError) -> Refusal {
        Refusal::OutOfMemory
    }
}

// The number of the line with a fault, from 1, where so many lines were read. A line that is missing is the next.
pub(crate) fn faulty_line(read: usize, why: Fault) -> u32
    requires { read + 1 < 2 ^ 32 }
    ensures missing { why ≡ Fault.End → result ≡ read + 1 }
    ensures whole { why ≢ Fault.End → result ≡ read }
{
    match why {
        Fault::End => read as u32 + 1,
        _ => read as u32,
    }
}
