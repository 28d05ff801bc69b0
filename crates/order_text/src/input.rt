//! What a text gives: the sizes of a limit order book, and callers with their scripts.

ghost use Rattle.std.specs.Prelude.{◌≡◌, length};

use crate::script::OrderScript;
use script_reader::Gathered;
use std::marker::Model;
use std::ops::Deref;

/// The blocks and the instruments of a book that begins empty, and callers in the order in which they were first seen, each
/// with its scripts in their order.
#[derive(Drop)]
pub struct OrderInput {
    blocks: u32,
    instruments: u32,
    callers: Gathered<OrderScript>,
}

impl Model for OrderInput {
    ghost use Rattle.order_text.specs.Input.{BookInput, IsBookInput};
    ghost use Rattle.order_text.specs.Inner.InputCode.{book_input_code};

    ghost Value = { BookInput };

    ghost coded = { book_input_code };

    ghost view = { λ i.
        record { blocks = i.blocks; instruments = i.instruments; callers = i.callers } };

    ghost invariant = { λ i. IsBookInput
        (record { blocks = i.blocks; instruments = i.instruments; callers = i.callers }) };
}

impl OrderInput {
    ghost use Rattle.order_text.specs.Input.{IsBookInput};

    // The input of sizes and of callers that were gathered.
    pub(crate) fn new(blocks: u32, instruments: u32, callers: Gathered<OrderScript>) -> OrderInput
        requires { IsBookInput
            (record { blocks = blocks; instruments = instruments; callers = callers }) }
        ensures { result ≡ record { blocks = blocks; instruments = instruments; callers = callers } }
    {
        OrderInput {
            blocks,
            instruments,
            callers,
        }
    }

    /// How many blocks the book has.
    pub fn blocks(&self) -> u32
        ensures { result ≡ self.now.blocks }
    {
        self.blocks
    }

    /// How many instruments there are.
    pub fn instruments(&self) -> u32
        ensures { result ≡ self.now.instruments }
    {
        self.instruments
    }

    /// How many callers there are.
    pub fn callers(&self) -> u32
        ensures value { result ≡ length self.now.callers }
        // What holds of all inputs.
        ensures valid { IsBookInput self.now }
    {
        self.callers.callers()
    }
}

/// The callers with their scripts, as they were gathered.
impl Deref for OrderInput {
    type Target = Gathered<OrderScript>;

    ghost deref_gives = { λ input callers. callers ≡ input.callers };

    fn deref(&self) -> &Gathered<OrderScript> {
        &self.callers
    }
}
