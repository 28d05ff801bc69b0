//! Scripts: how they are drawn, and their lines.

ghost use Rattle.std.specs.Prelude.{◌≡◌, ◌<◌, [], ◌∷◌, ◌++◌, OnOk, codes};
ghost use Rattle.std.specs.String.{string_bytes};
ghost use Rattle.std.specs.List.{flat_map};
ghost use Rattle.script_reader.specs.Text.{end_line, line};
ghost use Rattle.input_maker.specs.Lines.{operation_lines};
ghost use Rattle.script_reader.specs.Grammar.{submission_lines};
ghost use Rattle.input_maker.specs.Made.{caller_name, letter, operations_from, script_operations, state_after_operations, state_after_script, submissions_to};

use crate::generator::Generator;
use crate::operations::{next_operation, write_operation};
use std::alloc::AllocError;

fn push_letter(text: &mut String, digit: u32) -> Result<(), AllocError>
    requires { digit < 26 }
    ensures { OnOk result (string_bytes text.new ≡ string_bytes text.old ++ letter digit ∷ []) }
{
    text.push((b'a' + digit as u8) as char)
}

#[tactic(auto, unfolding(crate::specs::Made::caller_name))]
fn write_name(text: &mut String, caller: u32) -> Result<(), AllocError>
    requires { caller < 17576 }
    ensures { OnOk result (string_bytes text.new ≡ string_bytes text.old ++ caller_name caller) }
{
    text.push('c')?;
    push_letter(text, caller / 676)?;
    push_letter(text, caller / 26 % 26)?;
    push_letter(text, caller % 26)
}

fn write_operations(
    text: &mut String,
    generator: &mut Generator,
    kind: u32,
    count: u32,
) -> Result<(), AllocError>
    ensures state { OnOk result
        (generator.new.state ≡ state_after_operations count generator.old.state) }
    ensures text { OnOk result (string_bytes text.new ≡ string_bytes text.old
        ++ operation_lines (operations_from kind generator.old.state count)) }
{
    for place in 0..count {
        let operation = next_operation(generator, kind);
        write_operation(text, operation)?;
    }
    Ok(())
}

#[tactic(auto, unfolding(crate::specs::Made::script_operations, crate::specs::Made::state_after_script))]
fn write_body(text: &mut String, generator: &mut Generator) -> Result<(), AllocError>
    ensures state { OnOk result
        (generator.new.state ≡ state_after_script generator.old.state) }
    ensures text { OnOk result (string_bytes text.new
        ≡ string_bytes text.old ++ operation_lines (script_operations generator.old.state)) }
{
    let kind = generator.draw(2);
    let count = 1 + generator.draw(3);
    write_operations(text, generator, kind, count)
}

fn write_script(text: &mut String, generator: &mut Generator, caller: u32) -> Result<(), AllocError>
    requires { caller < 17576 }
    ensures state { OnOk result
        (generator.new.state ≡ state_after_script generator.old.state) }
    ensures text { OnOk result (string_bytes text.new ≡ string_bytes text.old
        ++ (line (codes "script" ∷ caller_name caller ∷ [])
        ++ operation_lines (script_operations generator.old.state) ++ end_line)) }
{
    text.push_str("script ")?;
    write_name(text, caller)?;
    text.push('\n')?;
    write_body(text, generator)?;
    text.push_str("end\n")
}

// Appends so many scripts, of the callers by turns.
pub(crate) fn write_scripts(
    text: &mut String,
    seed: u32,
    callers: u32,
    count: u32,
) -> Result<(), AllocError>
    requires some { 0 < callers }
    requires few { callers < 17576 }
    ensures { OnOk result (string_bytes text.new ≡ string_bytes text.old
        ++ flat_map submission_lines (submissions_to seed callers count)) }
{
    let mut generator = Generator::new(seed);
    for place in 0..count {
        write_script(text, &mut generator, place % callers)?;
    }
    Ok(())
}
