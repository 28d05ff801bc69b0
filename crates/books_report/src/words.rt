//! The words of replies.

ghost use Rattle.std.specs.Prelude.{◌≡◌, ◌∷◌, ◌++◌, OnOk, codes};
ghost use Rattle.std.specs.String.{string_bytes};
ghost use Rattle.std.specs.List.{flat_map, join_with_byte};
ghost use Rattle.script_reader.specs.declared.text.words.TheConstants.{SPACE};
ghost use Rattle.script_reader.specs.Text.{number};
ghost use Rattle.books_model.specs.Words.{word_of_value};
ghost use Rattle.books_report.specs.Words.{reply_words};

use books_model::{Reply, Value, Values};
use script_reader::text::decimal::{push_next, push_next_wide, push_number};
use std::alloc::AllocError;

fn write_taken(text: &mut String, account: u32, shortfall: u64) -> Result<(), AllocError>
    ensures { OnOk result
        (string_bytes text.new
        ≡ string_bytes text.old ++ SPACE ∷ (number account ++ codes ":" ++ number shortfall)) }
{
    push_next(text, u64::from(account))?;
    text.push(':')?;
    push_number(text, shortfall)
}

fn write_value(text: &mut String, value: Value) -> Result<(), AllocError>
    ensures { OnOk result
        (string_bytes text.new ≡ string_bytes text.old ++ SPACE ∷ word_of_value value) }
{
    match value {
        Value::Done => text.push_str(" ok"),
        Value::Number(number) => push_next_wide(text, number),
        Value::Call(account, shortfall) => write_taken(text, account, shortfall),
        Value::Nothing => text.push_str(" none"),
        Value::First => text.push_str(" first"),
        Value::Second => text.push_str(" second"),
    }
}

fn write_values(text: &mut String, values: &Values) -> Result<(), AllocError>
    ensures { OnOk result
        (string_bytes text.new
        ≡ string_bytes text.old ++ flat_map (λ v. SPACE ∷ word_of_value v) values.now) }
{
    for value in values {
        write_value(text, *value)?;
    }
    Ok(())
}

/// Appends the words of a reply, separated by spaces.
pub fn write_reply(text: &mut String, reply: &Reply) -> Result<(), AllocError>
    ensures { OnOk result
        (string_bytes text.new
        ≡ string_bytes text.old ++ join_with_byte SPACE (reply_words reply.now)) }
{
    match reply {
        Reply::Done(values) => {
            text.push_str("done")?;
            write_values(text, values)
        }
        Reply::Declined(number, why) => {
            text.push_str("declined")?;
            push_next(text, u64::from(*number))?;
            write!(text, " {why}")
        }
        Reply::Full(number) => {
            text.push_str("full")?;
            push_next(text, u64::from(*number))
        }
    }
}
