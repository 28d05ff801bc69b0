//! The text of a journal and of closing orders.

ghost use Rattle.std.specs.Prelude.{◌≡◌, ℕ, ◌∷◌, ◌++◌, length, All, IfOk, OnOk};
ghost use Rattle.std.specs.String.{string_bytes};
ghost use Rattle.std.specs.List.{flat_map};
ghost use Rattle.books_report.specs.Lines.{place_of_line, lent, scripts_of};
ghost use Rattle.script_reader.specs.declared.text.words.TheConstants.{SPACE};
ghost use Rattle.order_text.specs.Journal.{IsOrderPlace};
ghost use Rattle.order_text.specs.Output.{AreByNumber, AreRun, IsOrderOutput, closing_of, order_header_line, order_line, side_word, text_of};

use crate::input::OrderInput;
use crate::order::Resting;
use crate::reply::OrderReply;
use books_report::Line;
use books_report::stores::write_journal;
use io_ends::OutOfMemory;
use script_reader::text::decimal::{push_next, write_size};
use std::alloc::{AllocError, Global};

fn write_header(text: &mut String, input: &OrderInput) -> Result<(), AllocError>
    ensures { OnOk result
        (string_bytes text.new ≡ string_bytes text.old ++ order_header_line input.now) }
{
    text.push_str("orders 1")?;
    write_size(text, "blocks", input.blocks())?;
    write_size(text, "instruments", input.instruments())?;
    text.push('\n')
}

fn write_side(text: &mut String, buys: bool) -> Result<(), AllocError>
    ensures { OnOk result
        (string_bytes text.new ≡ string_bytes text.old ++ SPACE ∷ side_word buys) }
{
    if buys {
        text.push_str(" buy")
    } else {
        text.push_str(" sell")
    }
}

fn write_order(text: &mut String, order: &Resting) -> Result<(), AllocError>
    ensures { OnOk result
        (string_bytes text.new ≡ string_bytes text.old ++ order_line order.now) }
{
    text.push_str("order")?;
    push_next(text, u64::from(order.number))?;
    push_next(text, u64::from(order.instrument))?;
    write_side(text, order.buys)?;
    push_next(text, order.price)?;
    push_next(text, order.quantity)?;
    text.push('\n')
}

fn write_orders(text: &mut String, closing: &[Resting]) -> Result<(), AllocError>
    ensures { OnOk result
        (string_bytes text.new ≡ string_bytes text.old ++ flat_map order_line closing.now) }
{
    for order in closing {
        write_order(text, order)?;
    }
    Ok(())
}

/// The whole output: a journal line for each line and reply, in their order, the header, the closing orders, each with its
/// number, its instrument, its side, its price and its quantity, and `finish`. The orders of a book are by rising number.
pub fn orders_text(
    alloc: Global,
    input: &OrderInput,
    lines: &[Line],
    replies: &[&OrderReply],
    closing: &[Resting],
) -> Result<Vec<u8>, OutOfMemory>
    requires beside { length lines.now ≡ length replies.now }
    requires places { All (λ l. IsOrderPlace input.now (place_of_line l)) lines.now }
    requires by_number { AreByNumber closing.now }
    ensures text { IfOk result (λ text. text.items
        ≡ text_of input.now (scripts_of lines.now (lent replies.now)) closing.now) }
    ensures output { IfOk result (λ text. (limit : ℕ)
        → AreRun input.now limit (scripts_of lines.now (lent replies.now))
        → closing.now ≡ closing_of input.now (scripts_of lines.now (lent replies.now))
        → IsOrderOutput input.now limit text.items) }
{
    let mut text = String::from_str(alloc, "journal\n")?;
    write_journal(&mut text, input, lines, replies)?;
    write_header(&mut text, input)?;
    write_orders(&mut text, closing)?;
    text.push_str("finish\n")?;
    Ok(text.into_bytes())
}
