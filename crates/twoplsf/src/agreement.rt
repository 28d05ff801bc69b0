//! The comparison of a day's output with its input.

ghost use Rattle.std.specs.Prelude.{◌≡◌};
ghost use Rattle.books_model.specs.Ranges.{IsWithin};
ghost use Rattle.script_reader.specs.declared.limits.TheConstants.{MOST_WORKERS};
ghost use Rattle.twoplsf.specs.Day.{IsDayOf, closing_books};

use crate::answer::output_of;
use books_model::Books;
use books_report::{Checked, check_text};
use io_ends::OutOfMemory;
use script_reader::Input;
use std::alloc::Global;
use worker_pool::DayEnd;

/// The output of a day was compared with its input, and agrees. `agree` alone makes one, so who has one has compared.
#[derive(Drop)]
pub struct Agreement {
    compared: (),
}

// Makes the output of a day, and compares it with the input. It agrees.
pub(crate) fn agree(
    alloc: Global,
    input: &Input,
    workers: u32,
    day: &DayEnd,
    closing: &Books,
) -> Result<Agreement, OutOfMemory>
    requires workers { IsWithin 1 MOST_WORKERS workers }
    requires day { IsDayOf input.now workers day.now }
    requires closing { closing.now ≡ closing_books input.now day.now }
{
    let output = output_of(alloc, input, workers, day, closing)?;
    match check_text(alloc, input, &output)? {
        Checked::Agrees => Ok(Agreement { compared: () }),
        Checked::Differs(_) => unreachable!(),
    }
}
