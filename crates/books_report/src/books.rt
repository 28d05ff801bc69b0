//! The text of clearing books.

ghost use Rattle.std.specs.Prelude.{◌≡◌, ◌++◌, IfOk, OnOk};
ghost use Rattle.std.specs.String.{string_bytes};
ghost use Rattle.std.specs.List.{flat_map};
ghost use Rattle.std.specs.FinMap.{entries};
ghost use Rattle.books_model.specs.Ranges.{AreInRange};
ghost use Rattle.script_reader.specs.declared.books.version.Version.TheVariants.{Two};
ghost use Rattle.script_reader.specs.Text.{account_line, books_lines, call_line, header_line, position_line, price_line};

use books_model::Books;
use io_ends::OutOfMemory;
use script_reader::text::decimal::{push_next, write_size};
use std::alloc::{AllocError, Global};

fn write_header(text: &mut String, books: &Books) -> Result<(), AllocError>
    ensures { OnOk result
        (string_bytes text.new ≡ string_bytes text.old ++ header_line Two books.now) }
{
    text.push_str("books 2")?;
    write_size(text, "blocks", books.blocks())?;
    write_size(text, "instruments", books.instruments())?;
    write_size(text, "ring", books.ring())?;
    text.push('\n')
}

/// Appends the line of an account. If memory runs out, a part of it may stand there.
pub fn write_account(text: &mut String, account: u32, cash: u64) -> Result<(), AllocError>
    ensures { OnOk result
        (string_bytes text.new ≡ string_bytes text.old ++ account_line (account, cash)) }
{
    text.push_str("account")?;
    push_next(text, u64::from(account))?;
    push_next(text, cash)?;
    text.push('\n')
}

fn write_accounts(text: &mut String, books: &Books) -> Result<(), AllocError>
    requires { AreInRange books.now }
    ensures { OnOk result
        (string_bytes text.new
        ≡ string_bytes text.old ++ flat_map account_line (entries books.now.accounts)) }
{
    let mut last = 0;
    while let Some((account, cash)) = books.account_after(last) {
        write_account(text, account, cash)?;
        last = account;
    }
    Ok(())
}

/// Appends the line of an instrument's price. If memory runs out, a part of it may stand there.
pub fn write_price(text: &mut String, instrument: u32, price: u64) -> Result<(), AllocError>
    ensures { OnOk result
        (string_bytes text.new ≡ string_bytes text.old ++ price_line (instrument, price)) }
{
    text.push_str("price")?;
    push_next(text, u64::from(instrument))?;
    push_next(text, price)?;
    text.push('\n')
}

fn write_prices(text: &mut String, books: &Books) -> Result<(), AllocError>
    requires { AreInRange books.now }
    ensures { OnOk result
        (string_bytes text.new
        ≡ string_bytes text.old ++ flat_map price_line (entries books.now.prices)) }
{
    let mut last = 0;
    while let Some((instrument, price)) = books.price_after(last) {
        write_price(text, instrument, price)?;
        last = instrument;
    }
    Ok(())
}

/// Appends the line of what an account holds of an instrument. If memory runs out, a part of it may stand there.
pub fn write_position(
    text: &mut String,
    account: u32,
    instrument: u32,
    quantity: u64,
) -> Result<(), AllocError>
    ensures { OnOk result
        (string_bytes text.new
        ≡ string_bytes text.old ++ position_line ((account, instrument), quantity)) }
{
    text.push_str("position")?;
    push_next(text, u64::from(account))?;
    push_next(text, u64::from(instrument))?;
    push_next(text, quantity)?;
    text.push('\n')
}

fn write_positions(text: &mut String, books: &Books) -> Result<(), AllocError>
    requires { AreInRange books.now }
    ensures { OnOk result
        (string_bytes text.new
        ≡ string_bytes text.old ++ flat_map position_line (entries books.now.positions)) }
{
    let mut last = (0, 0);
    while let Some((account, instrument, quantity)) = books.position_after(last.0, last.1) {
        write_position(text, account, instrument, quantity)?;
        last = (account, instrument);
    }
    Ok(())
}

fn write_call(text: &mut String, account: u32, shortfall: u64) -> Result<(), AllocError>
    ensures { OnOk result
        (string_bytes text.new ≡ string_bytes text.old ++ call_line (account, shortfall)) }
{
    text.push_str("call")?;
    push_next(text, u64::from(account))?;
    push_next(text, shortfall)?;
    text.push('\n')
}

fn write_calls(text: &mut String, books: &Books) -> Result<(), AllocError>
    ensures { OnOk result
        (string_bytes text.new ≡ string_bytes text.old ++ flat_map call_line books.now.calls) }
{
    for place in 0..books.calls() {
        let (account, shortfall) = books.call_at(place);
        write_call(text, account, shortfall)?;
    }
    Ok(())
}

/// Appends the lines of the books, as those of a text of version 2.
pub fn write_books(text: &mut String, books: &Books) -> Result<(), AllocError>
    ensures { OnOk result (string_bytes text.new ≡ string_bytes text.old ++ books_lines Two books.now) }
{
    books.ranges();
    write_header(text, books)?;
    write_accounts(text, books)?;
    write_prices(text, books)?;
    write_positions(text, books)?;
    write_calls(text, books)
}

/// The lines of the books, as those of a text of version 2: the header, accounts, prices and positions in rising order, and the queue of margin calls.
pub fn books_text(alloc: Global, books: &Books) -> Result<Vec<u8>, OutOfMemory>
    ensures { IfOk result (λ text. text.items ≡ books_lines Two books.now) }
{
    let mut text = String::new(alloc);
    write_books(&mut text, books)?;
    Ok(text.into_bytes())
}
