//! Whole texts.

ghost use Rattle.std.specs.Prelude.{◌≡◌, ◌⊎◌, ℕ, IfOk, MatchResult, Err};
ghost use Rattle.script_reader.specs.declared.fault.Fault.{Fault};
ghost use Rattle.order_text.specs.Input.{BookInput};
ghost use Rattle.order_text.specs.Grammar.{SpellsOrders, IsOrderFault};

use crate::input::OrderInput;
use crate::language::Orders;
use script_reader::{InputFault, read_text};
use std::alloc::Global;

/// Reads the input of a limit order book, all of the bytes. What a text spells is read, unless memory runs out, and nothing
/// else is. The fault of a text that is refused is its first.
pub fn read_orders(alloc: Global, bytes: &[u8]) -> Result<OrderInput, InputFault>
    ensures ok { IfOk result (λ input. SpellsOrders bytes.now input) }
    ensures read { (input : BookInput) → SpellsOrders bytes.now input
        → MatchResult result (λ found. found ≡ input) (λ fault. fault ≡ InputFault.OutOfMemory) }
    ensures refused { (number : ℕ) (why : Fault) → result ≡ Err (InputFault.Line number why)
        → IsOrderFault bytes.now number why }
    ensures faulty { (number : ℕ) (why : Fault) → IsOrderFault bytes.now number why
        → MatchResult result (λ _. ⊥)
        (λ fault. (fault ≡ InputFault.Line number why) ⊎ (fault ≡ InputFault.OutOfMemory)) }
{
    let (sizes, callers) = read_text::<Orders>(alloc, bytes)?;
    Ok(OrderInput::new(sizes.0 as u32, sizes.1 as u32, callers))
}
