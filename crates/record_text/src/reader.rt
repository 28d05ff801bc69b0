//! Whole texts.

ghost use Rattle.std.specs.Prelude.{◌≡◌, ◌⊎◌, ℕ, IfOk, MatchResult, Err};
ghost use Rattle.script_reader.specs.declared.fault.Fault.{Fault};
ghost use Rattle.record_text.specs.Input.{StoreInput};
ghost use Rattle.record_text.specs.Grammar.{SpellsRecords, IsRecordFault};

use crate::input::RecordInput;
use crate::language::Records;
use script_reader::{InputFault, read_text};
use std::alloc::Global;

/// Reads the input of a record store, all of the bytes. What a text spells is read, unless memory runs out, and nothing else
/// is. The fault of a text that is refused is its first.
pub fn read_records(alloc: Global, bytes: &[u8]) -> Result<RecordInput, InputFault>
    ensures ok { IfOk result (λ input. SpellsRecords bytes.now input) }
    ensures read { (input : StoreInput) → SpellsRecords bytes.now input
        → MatchResult result (λ found. found ≡ input) (λ fault. fault ≡ InputFault.OutOfMemory) }
    ensures refused { (number : ℕ) (why : Fault) → result ≡ Err (InputFault.Line number why)
        → IsRecordFault bytes.now number why }
    ensures faulty { (number : ℕ) (why : Fault) → IsRecordFault bytes.now number why
        → MatchResult result (λ _. ⊥)
        (λ fault. (fault ≡ InputFault.Line number why) ⊎ (fault ≡ InputFault.OutOfMemory)) }
{
    let (blocks, callers) = read_text::<Records>(alloc, bytes)?;
    Ok(RecordInput::new(blocks as u32, callers))
}
