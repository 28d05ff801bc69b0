//! What a text gives: the blocks of a store, and callers with their scripts.

ghost use Rattle.std.specs.Prelude.{◌≡◌, length};

use crate::script::RecordScript;
use script_reader::Gathered;
use std::marker::Model;
use std::ops::Deref;

/// The blocks of a store that begins empty, and callers in the order in which they were first seen, each with its scripts
/// in their order.
#[derive(Drop)]
pub struct RecordInput {
    blocks: u32,
    callers: Gathered<RecordScript>,
}

impl Model for RecordInput {
    ghost use Rattle.record_text.specs.Input.{StoreInput, IsStoreInput};
    ghost use Rattle.record_text.specs.Inner.InputCode.{store_input_code};

    ghost Value = { StoreInput };

    ghost coded = { store_input_code };

    ghost view = { λ i. record { blocks = i.blocks; callers = i.callers } };

    ghost invariant = { λ i. IsStoreInput (record { blocks = i.blocks; callers = i.callers }) };
}

impl RecordInput {
    ghost use Rattle.record_text.specs.Input.{IsStoreInput};

    // The input of blocks and of callers that were gathered.
    pub(crate) fn new(blocks: u32, callers: Gathered<RecordScript>) -> RecordInput
        requires { IsStoreInput (record { blocks = blocks; callers = callers }) }
        ensures { result ≡ record { blocks = blocks; callers = callers } }
    {
        RecordInput { blocks, callers }
    }

    /// How many blocks the store has.
    pub fn blocks(&self) -> u32
        ensures { result ≡ self.now.blocks }
    {
        self.blocks
    }

    /// How many callers there are.
    pub fn callers(&self) -> u32
        ensures value { result ≡ length self.now.callers }
        // What holds of all inputs.
        ensures valid { IsStoreInput self.now }
    {
        self.callers.callers()
    }
}

/// The callers with their scripts, as they were gathered.
impl Deref for RecordInput {
    type Target = Gathered<RecordScript>;

    ghost deref_gives = { λ input callers. callers ≡ input.callers };

    fn deref(&self) -> &Gathered<RecordScript> {
        &self.callers
    }
}
