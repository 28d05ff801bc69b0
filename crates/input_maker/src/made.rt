//! The text of a generated input.

ghost use Rattle.std.specs.Prelude.{◌≡◌, IfOk};
ghost use Rattle.input_maker.specs.Made.{made_input_text};
ghost use Rattle.input_maker.specs.Statements.{AreForMake};

use crate::books::write_opening;
use crate::scripts::write_scripts;
use io_ends::OutOfMemory;
use std::alloc::Global;

/// The text of the input that a seed gives: fixed opening books, and so many scripts of each caller, one of each by turns.
/// The seed goes up to 2,147,483,647. There are up to 1,024 callers, and up to 65,536 scripts altogether.
pub fn make_input(
    alloc: Global,
    seed: u32,
    callers: u32,
    scripts: u32,
) -> Result<Vec<u8>, OutOfMemory>
    requires { AreForMake seed callers scripts }
    ensures { IfOk result (λ text. text.items ≡ made_input_text seed callers scripts) }
{
    let mut text = String::new(alloc);
    write_opening(&mut text)?;
    text.push_str("scripts\n")?;
    write_scripts(&mut text, seed, callers, callers * scripts)?;
    text.push_str("finish\n")?;
    Ok(text.into_bytes())
}
