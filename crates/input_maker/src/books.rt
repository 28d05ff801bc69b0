//! The lines of the opening books.

ghost use Rattle.std.specs.Prelude.{◌≡◌, ◌++◌, OnOk};
ghost use Rattle.std.specs.String.{string_bytes};
ghost use Rattle.std.specs.List.{flat_map};
ghost use Rattle.books_model.specs.Books.{empty_books};
ghost use Rattle.script_reader.specs.declared.books.version.Version.TheVariants.{One};
ghost use Rattle.script_reader.specs.Text.{account_line, books_lines, header_line, position_line, price_line};
ghost use Rattle.input_maker.specs.Made.{accounts_to, made_books, positions_in, positions_to, prices_to};

use books_report::books::{write_account, write_position, write_price};
use script_reader::text::decimal::write_size;
use std::alloc::AllocError;

const BLOCKS: u32 = 4_096;

const RING: u32 = 64;

pub(crate) const ACCOUNTS: u32 = 200;

pub(crate) const INSTRUMENTS: u32 = 8;

const CASH: u64 = 1_000_000;

const QUANTITY: u64 = 100;

fn write_header(
    text: &mut String,
    blocks: u32,
    instruments: u32,
    ring: u32,
) -> Result<(), AllocError>
    ensures { OnOk result (string_bytes text.new
        ≡ string_bytes text.old ++ header_line One (empty_books blocks instruments ring)) }
{
    text.push_str("books 1")?;
    write_size(text, "blocks", blocks)?;
    write_size(text, "instruments", instruments)?;
    write_size(text, "ring", ring)?;
    text.push('\n')
}

fn write_accounts(text: &mut String) -> Result<(), AllocError>
    ensures { OnOk result (string_bytes text.new ≡ string_bytes text.old
        ++ flat_map account_line (accounts_to 200)) }
{
    for place in 0..ACCOUNTS {
        write_account(text, place + 1, CASH)?;
    }
    Ok(())
}

fn write_prices(text: &mut String) -> Result<(), AllocError>
    ensures { OnOk result (string_bytes text.new ≡ string_bytes text.old
        ++ flat_map price_line (prices_to 8)) }
{
    for place in 0..INSTRUMENTS {
        let instrument = place + 1;
        write_price(text, instrument, u64::from(100 * instrument))?;
    }
    Ok(())
}

fn write_positions_of(text: &mut String, account: u32) -> Result<(), AllocError>
    ensures { OnOk result (string_bytes text.new ≡ string_bytes text.old
        ++ flat_map position_line (positions_in account 8)) }
{
    for place in 0..INSTRUMENTS {
        write_position(text, account, place + 1, QUANTITY)?;
    }
    Ok(())
}

fn write_positions(text: &mut String) -> Result<(), AllocError>
    ensures { OnOk result (string_bytes text.new ≡ string_bytes text.old
        ++ flat_map position_line (positions_to 200)) }
{
    for place in 0..ACCOUNTS {
        write_positions_of(text, place + 1)?;
    }
    Ok(())
}

// Appends the lines of the opening books, as those of a text of version 1.
pub(crate) fn write_opening(text: &mut String) -> Result<(), AllocError>
    ensures { OnOk result
        (string_bytes text.new ≡ string_bytes text.old ++ books_lines One made_books) }
{
    write_header(text, BLOCKS, INSTRUMENTS, RING)?;
    write_accounts(text)?;
    write_prices(text)?;
    write_positions(text)
}
