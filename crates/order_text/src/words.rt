//! The words of values.

ghost use Rattle.std.specs.Prelude.{◌≡◌, ◌++◌, OnOk, codes};
ghost use Rattle.std.specs.String.{string_bytes};
ghost use Rattle.std.specs.List.{flat_map};
ghost use Rattle.script_reader.specs.Text.{number};
ghost use Rattle.order_text.specs.Words.{next_trade, trade_word};

use crate::reply::{OrderValue, Trade, Trades};
use books_report::stores::ToldValue;
use script_reader::text::decimal::push_number;
use std::alloc::AllocError;

/// What stands in front of each trade of an order.
pub const COMMA: u8 = b',';

fn write_price(text: &mut String, order: u32, price: u64) -> Result<(), AllocError>
    ensures { OnOk result
        (string_bytes text.new
        ≡ string_bytes text.old ++ number order ++ codes "@" ++ number price) }
{
    push_number(text, u64::from(order))?;
    text.push('@')?;
    push_number(text, price)
}

fn write_trade(text: &mut String, trade: Trade) -> Result<(), AllocError>
    ensures { OnOk result
        (string_bytes text.new ≡ string_bytes text.old ++ trade_word trade) }
{
    write_price(text, trade.order, trade.price)?;
    text.push('*')?;
    push_number(text, trade.quantity)
}

fn write_next(text: &mut String, trade: Trade) -> Result<(), AllocError>
    ensures { OnOk result
        (string_bytes text.new ≡ string_bytes text.old ++ next_trade trade) }
{
    text.push(',')?;
    write_trade(text, trade)
}

fn write_trades(text: &mut String, trades: &Trades) -> Result<(), AllocError>
    ensures { OnOk result
        (string_bytes text.new ≡ string_bytes text.old ++ flat_map next_trade trades.now) }
{
    for trade in trades.iter() {
        write_next(text, *trade)?;
    }
    Ok(())
}

fn write_entered(text: &mut String, order: u32, trades: &Trades) -> Result<(), AllocError>
    ensures { OnOk result
        (string_bytes text.new
        ≡ string_bytes text.old ++ number order ++ flat_map next_trade trades.now) }
{
    push_number(text, u64::from(order))?;
    write_trades(text, trades)
}

fn write_prices(text: &mut String, buy: u64, sell: u64) -> Result<(), AllocError>
    ensures { OnOk result
        (string_bytes text.new
        ≡ string_bytes text.old ++ number buy ++ codes ":" ++ number sell) }
{
    push_number(text, buy)?;
    text.push(':')?;
    push_number(text, sell)
}

impl ToldValue for OrderValue {
    ghost use Rattle.order_text.specs.Words.{value_word};

    ghost word = { value_word };

    fn write(&self, text: &mut String) -> Result<(), AllocError> {
        match self {
            OrderValue::Entered(order, trades) => write_entered(text, *order, trades),
            OrderValue::Cancelled(quantity) => push_number(text, *quantity),
            OrderValue::Prices(buy, sell) => write_prices(text, *buy, *sell),
        }
    }
}
