//! The lines of a text of a limit order book.

ghost use Rattle.std.specs.Prelude.{◌≡◌, [], ◌∷◌, Some, IfOk, IfErr, length};
ghost use Rattle.order_text.specs.Language.{order_forms, order_language};
ghost use Rattle.script_reader.specs.ListLanguage.{AreSizes, IsOperationIn, operation_words};
ghost use Rattle.script_reader.specs.Rows.{row_fault};

use crate::limits::{GREATEST_ORDER, LEAST_BLOCKS, MOST_BLOCKS};
use crate::script::{OrderOp, OrderScript};
use books_model::limits::{GREATEST_PRICE, GREATEST_QUANTITY, MOST_INSTRUMENTS};
use io_ends::OutOfMemory;
use script_reader::{Fault, Language, Words};
use std::alloc::Global;

// The least and the greatest of each kind of number.
const BLOCKS: (u64, u64) = (LEAST_BLOCKS as u64, MOST_BLOCKS as u64);

const INSTRUMENTS: (u64, u64) = (1, MOST_INSTRUMENTS as u64);

const PRICES: (u64, u64) = (1, GREATEST_PRICE);

const QUANTITIES: (u64, u64) = (1, GREATEST_QUANTITY);

const ORDERS: (u64, u64) = (1, GREATEST_ORDER as u64);

/// The language of the texts: `orders 1 blocks B instruments S`, and the operations `buy I P Q`, `sell I P Q`, `cancel N`
/// and `best I`. Its sizes are the blocks and the instruments.
pub struct Orders;

impl Language for Orders {
    ghost use Rattle.std.specs.Prelude.{[], ◌∷◌};
    ghost use Rattle.order_text.specs.Language.{order_language, order_language_lawful};

    type Sizes = (u64, u64);

    type Operation = OrderOp;

    type Script = OrderScript;

    ghost language = { order_language };

    ghost sizes_of = { λ sizes. sizes.0 ∷ sizes.1 ∷ [] };

    fn sizes(words: &Words<'_>) -> Result<(u64, u64), Fault> {
        words.two_sizes(b"orders", b"blocks", BLOCKS, b"instruments", INSTRUMENTS)
    }

    fn operation(words: &Words<'_>, sizes: (u64, u64)) -> Result<OrderOp, Fault> {
        match words.len() {
            2 => with_one_number(words, sizes),
            4 => limit_order_of(words, sizes),
            _ => Err(Fault::Word),
        }
    }

    fn empty(alloc: Global) -> OrderScript {
        OrderScript::new(alloc)
    }

    fn add(script: &mut OrderScript, operation: OrderOp) -> Result<(), OutOfMemory> {
        script.push(operation)
    }

    ghost lawful = { order_language_lawful };
}

// The operation of a line of two words.
fn with_one_number(words: &Words<'_>, sizes: (u64, u64)) -> Result<OrderOp, Fault>
    requires two { length words.now ≡ 2 }
    requires sized { AreSizes order_language (sizes.0 ∷ sizes.1 ∷ []) }
    ensures found { IfOk result (λ op. IsOperationIn order_language (sizes.0 ∷ sizes.1 ∷ []) op
        × (words.now ≡ operation_words order_language op)) }
    ensures err { IfErr result (λ why. row_fault (order_forms sizes.1) words.now ≡ Some why) }
{
    if words.is_row(b"cancel", 2) {
        let number = words.one_number(ORDERS)?;
        return Ok(OrderOp::Cancel(number as u32));
    }
    if words.is_row(b"best", 2) {
        let instrument = words.one_number((1, sizes.1))?;
        return Ok(OrderOp::Best(instrument as u32));
    }
    Err(Fault::Word)
}

// The operation of a line of four words.
fn limit_order_of(words: &Words<'_>, sizes: (u64, u64)) -> Result<OrderOp, Fault>
    requires four { length words.now ≡ 4 }
    requires sized { AreSizes order_language (sizes.0 ∷ sizes.1 ∷ []) }
    ensures found { IfOk result (λ op. IsOperationIn order_language (sizes.0 ∷ sizes.1 ∷ []) op
        × (words.now ≡ operation_words order_language op)) }
    ensures err { IfErr result (λ why. row_fault (order_forms sizes.1) words.now ≡ Some why) }
{
    if words.is_row(b"buy", 4) {
        let (instrument, price, quantity) = words.three_numbers((1, sizes.1), PRICES, QUANTITIES)?;
        return Ok(OrderOp::Buy(instrument as u32, price, quantity));
    }
    if words.is_row(b"sell", 4) {
        let (instrument, price, quantity) = words.three_numbers((1, sizes.1), PRICES, QUANTITIES)?;
        return Ok(OrderOp::Sell(instrument as u32, price, quantity));
    }
    Err(Fault::Word)
}
