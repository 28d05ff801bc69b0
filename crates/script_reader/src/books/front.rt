//! A whole text, or a prefix of it.

ghost use Rattle.std.specs.Prelude.{◌≡◌, ◌≢◌, ◌⊎◌, ℕ, ◌+◌, ◌≤◌, ◌<◌, ◌^◌, [], IfOk, MatchResult, Err, length, take};
ghost use Rattle.script_reader.specs.declared.fault.Fault.{Fault as AnyFault};
ghost use Rattle.script_reader.specs.declared.text.words.TheConstants.{LINE_FEED};
ghost use Rattle.script_reader.specs.Input.{ClearingInput};
ghost use Rattle.script_reader.specs.Grammar.{Spells};
ghost use Rattle.script_reader.specs.Inner.Scripts.{HasFront};
ghost use Rattle.script_reader.specs.Faults.{IsFaultyBehind, IsFrontFault, IsFirstFault};

use crate::books::books_of;
use crate::books::input::Input;
use crate::books::scripts::scripts_of;
use crate::fault::{Fault, InputFault, Refusal, faulty_line};
use crate::language::gathered::Gathered;
use crate::text::lines::Lines;
use crate::text::words::{LINE_FEED, occurrences};
use std::alloc::Global;

/// Reads opening books and scripts, all of the bytes. What a text spells is read, unless memory runs out, and nothing else is.
/// The fault of a text that is refused is its first.
pub fn read_input(alloc: Global, bytes: &[u8]) -> Result<Input, InputFault>
    ensures ok { IfOk result (λ input. Spells bytes.now input) }
    ensures read { (input : ClearingInput) → Spells bytes.now input
        → MatchResult result (λ found. found ≡ input) (λ fault. fault ≡ InputFault.OutOfMemory) }
    ensures refused { (number : ℕ) (why : AnyFault) → result ≡ Err (InputFault.Line number why)
        → IsFirstFault bytes.now number why }
    ensures faulty { (number : ℕ) (why : AnyFault) → IsFirstFault bytes.now number why
        → MatchResult result (λ _. ⊥)
        (λ fault. (fault ≡ InputFault.Line number why) ⊎ (fault ≡ InputFault.OutOfMemory)) }
{
    let (input, end) = read_front(alloc, bytes)?;
    if end < bytes.len() {
        return Err(InputFault::Line {
            line: occurrences(&bytes[..end], LINE_FEED) as u32 + 1,
            why: Fault::End,
        });
    }
    Ok(input)
}

/// Reads opening books and scripts, up to the line feed after `finish`, and tells where the rest of the bytes begins.
/// The fault of a text that is refused is the first before that.
pub fn read_front(alloc: Global, bytes: &[u8]) -> Result<(Input, usize), InputFault>
    ensures ok { IfOk result
        (λ front. (front.1 ≤ length bytes.now) × Spells (take front.1 bytes.now) front.0) }
    ensures read { (input : ClearingInput) (end : ℕ) → end ≤ length bytes.now
        → Spells (take end bytes.now) input
        → MatchResult result (λ front. (front.0 ≡ input) × (front.1 ≡ end))
        (λ fault. fault ≡ InputFault.OutOfMemory) }
    ensures refused { (number : ℕ) (why : AnyFault) → result ≡ Err (InputFault.Line number why)
        → IsFrontFault bytes.now number why }
    ensures faulty { (number : ℕ) (why : AnyFault) → IsFrontFault bytes.now number why
        → MatchResult result (λ _. ⊥)
        (λ fault. (fault ≡ InputFault.Line number why) ⊎ (fault ≡ InputFault.OutOfMemory)) }
{
    let mut lines = Lines::new(bytes);
    match input_of(alloc, &mut lines) {
        Ok(input) => Ok((input, bytes.len() - lines.len())),
        Err(Refusal::OutOfMemory) => Err(InputFault::OutOfMemory),
        Err(Refusal::LineFault(why)) => {
            let read = occurrences(&bytes[..bytes.len() - lines.len()], LINE_FEED);
            let line = faulty_line(read, why);
            Err(InputFault::Line { line, why })
        }
    }
}

// The input of the next lines, up to the last one.
fn input_of(alloc: Global, lines: &mut Lines<'_>) -> Result<Input, Refusal>
    ensures found { IfOk result (λ input. HasFront input lines.old lines.new) }
    ensures fault { (why : AnyFault) → result ≡ Err (Refusal.LineFault why)
        → IsFaultyBehind [] lines.old lines.new why }
{
    let (version, books) = books_of(alloc, lines)?;
    let callers = scripts_of(alloc, lines, version, &books)?;
    Ok(Input::new(books, Gathered::new(callers)))
}
