//! The books of a text.

ghost use Rattle.std.specs.Prelude.{◌≡◌, IsTrue, ◌+◌, nat_le, None, ◌∷◌, [], ◌++◌, ◌&&◌, ◌||◌, ◌==◌, true, false, length, codes, IfOk, IfErr, OnOk, Some, Err};
ghost use Rattle.std.specs.FinMap as map;
ghost use Rattle.std.specs.List.{flat_map, list_any};
ghost use Rattle.books_model.specs.Ranges.{AreInRange};
ghost use Rattle.script_reader.specs.declared.fault.Fault.{Fault as AnyFault};
ghost use Rattle.script_reader.specs.declared.books.version.Version.{Version as AnyVersion};
ghost use Rattle.script_reader.specs.Text.{line};
ghost use Rattle.script_reader.specs.Inner.LinesAsWords.{books_words};
ghost use Rattle.script_reader.specs.Versions.{AreBooksWithin};
ghost use Rattle.script_reader.specs.Inner.BooksRows.{Fits, IsRow, with_row};
ghost use Rattle.script_reader.specs.Forms.{begins, has_header_words, is_only, is_header, word_value};
ghost use Rattle.script_reader.specs.Faults.{header_fault, header_version, fault_of, IsFaultyBehind};

pub(crate) mod front;
pub mod input;
mod operations;
pub mod pieces;
mod rows;
mod scripts;
pub mod version;

use crate::books::rows::{
    ACCOUNTS, INSTRUMENTS, PRICES, QUANTITIES, RINGS, SHORTFALLS, instruments_of,
};
use crate::books::version::Version;
use crate::fault::{Fault, Refusal};
use crate::text::lines::Lines;
use crate::text::numbers::{both_within, within};
use crate::text::words::Words;
use books_model::Books;
use io_ends::OutOfMemory;
use std::alloc::Global;

// A row of books: what a line adds to them.
#[derive(Clone, Copy)]
pub(crate) enum Row {
    // An account and its cash.
    Account(u32, u64),
    // An instrument and its price.
    Price(u32, u64),
    // An account, an instrument and a quantity.
    Position(u32, u32, u64),
    // An account and a shortfall.
    Call(u32, u64),
}

// The version and the books of the next lines, and the line that begins the scripts.
pub(crate) fn books_of(alloc: Global, lines: &mut Lines<'_>) -> Result<(Version, Books), Refusal>
    ensures range { IfOk result (λ found. AreInRange found.1) }
    ensures within { IfOk result (λ found. AreBooksWithin found.0 found.1) }
    ensures text { IfOk result
        (λ found. lines.old ≡ flat_map line (books_words found.0 found.1)
        ++ (line (codes "scripts" ∷ []) ++ lines.new)) }
    ensures fault { (why : AnyFault) → result ≡ Err (Refusal.LineFault why)
        → IsFaultyBehind [] lines.old lines.new why }
{
    let words = lines.words()?;
    let (version, mut books) = header_of(alloc, &words)?;
    fill(lines, version, &mut books)?;
    Ok((version, books))
}

// Adds to the books what the next lines give, up to the line that begins the scripts.
fn fill(lines: &mut Lines<'_>, version: Version, books: &mut Books) -> Result<(), Refusal>
    requires within { AreBooksWithin version books.old }
    ensures range { OnOk result (AreInRange books.new) }
    ensures within { OnOk result (AreBooksWithin version books.new) }
    ensures text { OnOk result (flat_map line (books_words version books.old) ++ lines.old
        ≡ flat_map line (books_words version books.new)
        ++ (line (codes "scripts" ∷ []) ++ lines.new)) }
    ensures fault { (why : AnyFault) → result ≡ Err (Refusal.LineFault why)
        → IsFaultyBehind (books_words version books.old) lines.old lines.new why }
{
    loop {
        books.ranges();
        let words = lines.words()?;
        if words.is_only(b"scripts") {
            return Ok(());
        }
        let row = row_of(version, books, &words)?;
        add_row(books, row)?;
    }
}

// The version of a header, and its empty books.
fn header_of(alloc: Global, words: &Words<'_>) -> Result<(Version, Books), Fault>
    ensures found { IfOk result (λ found. books_words found.0 found.1 ≡ words.now ∷ []) }
    ensures within { IfOk result (λ found. AreBooksWithin found.0 found.1) }
    ensures version { IfOk result (λ found. found.0 ≡ header_version words.now) }
    ensures fine { OnOk result (header_fault words.now ≡ None) }
    ensures err { IfErr result (λ why. header_fault words.now ≡ Some why) }
{
    let version = version_of(words)?;
    let (blocks, instruments, ring) = sizes_of(words, version)?;
    Ok((version, Books::new(alloc, blocks, instruments, ring)))
}

// The version of a line that has the words of a header around its numbers.
fn version_of(words: &Words<'_>) -> Result<Version, Fault>
    ensures found { IfOk result
        (λ version. (is_header words.now ≡ true) × (version ≡ header_version words.now)) }
    ensures err { IfErr result (λ why. header_fault words.now ≡ Some why) }
{
    if !has_header_words(words) {
        return Err(Fault::Header);
    }
    Version::named(words.at(1)).ok_or(Fault::Header)
}

// The blocks, the instruments and the ring of a header.
fn sizes_of(words: &Words<'_>, version: Version) -> Result<(u32, u32, u32), Fault>
    requires header { is_header words.now ≡ true }
    requires version { version ≡ header_version words.now }
    ensures found { IfOk result
        (λ sizes. (sizes.0 ≡ word_value words.now 3) × (sizes.1 ≡ word_value words.now 5)
        × (sizes.2 ≡ word_value words.now 7)) }
    ensures fine { OnOk result (header_fault words.now ≡ None) }
    ensures err { IfErr result (λ why. header_fault words.now ≡ Some why) }
{
    let (blocks, instruments) = words.both_numbers(3, 5)?;
    let ring = words.number(7)?;
    both_within(blocks, version.blocks(), instruments, INSTRUMENTS)?;
    Ok((
        blocks as u32,
        instruments as u32,
        within(ring, RINGS.0, RINGS.1)? as u32,
    ))
}

// Whether a line has the words of a header around its version and its numbers.
fn has_header_words(words: &Words<'_>) -> bool
    ensures length { IsTrue result → length words.now ≡ 8 }
    ensures value { result ≡ has_header_words words.now }
{
    words.len() == 8
        && words.is(0, b"books")
        && words.is(2, b"blocks")
        && words.is(4, b"instruments")
        && words.is(6, b"ring")
}

// The row that a line gives. It is not the line that begins the scripts.
fn row_of(version: Version, books: &Books, words: &Words<'_>) -> Result<Row, Fault>
    requires { is_only (codes "scripts") words.now ≡ false }
    ensures row { IfOk result (λ row. IsRow version books.now words.now row) }
    ensures err { IfErr result
        (λ why. fault_of (books_words version books.now) words.now ≡ Some why) }
{
    books.ranges();
    if words.is_row(b"account", 3) {
        return account_of(version, books, words);
    }
    if words.is_row(b"price", 3) {
        return price_of(books, words);
    }
    if words.is_row(b"position", 4) {
        return position_of(books, words);
    }
    if words.is_row(b"call", 3) {
        return call_of(books, words);
    }
    Err(Fault::Word)
}

// Adds a row to the books.
fn add_row(books: &mut Books, row: Row) -> Result<(), OutOfMemory>
    requires { Fits books.old row }
    ensures { OnOk result (books.new ≡ with_row books.old row) }
{
    match row {
        Row::Account(account, cash) => books.add_account(account, cash),
        Row::Price(instrument, price) => books.add_price(instrument, price),
        Row::Position(account, instrument, quantity) => {
            books.add_position(account, instrument, quantity)
        }
        Row::Call(account, shortfall) => books.add_call(account, shortfall),
    }
}

// Whether there is a line of a price.
fn has_prices(books: &Books) -> bool
    ensures { result ≡ list_any (λ _. true) (map.entries books.now.prices) }
{
    books.ranges();
    books.price_after(0).is_some()
}

// Whether there is a line of a position.
fn has_positions(books: &Books) -> bool
    ensures { result ≡ list_any (λ _. true) (map.entries books.now.positions) }
{
    books.ranges();
    books.position_after(0, 0).is_some()
}

// Whether there is a line of a margin call.
fn has_calls(books: &Books) -> bool
    ensures { result ≡ list_any (λ _. true) books.now.calls }
{
    books.calls() > 0
}

// Whether there is a line of a kind behind that of prices.
fn is_past_prices(books: &Books) -> bool
    ensures { result
        ≡ (list_any (λ _. true) (map.entries books.now.positions)
        || list_any (λ _. true) books.now.calls) }
{
    has_positions(books) || has_calls(books)
}

// Whether there is a line of a kind behind that of accounts.
fn is_past_accounts(books: &Books) -> bool
    ensures { result ≡ (list_any (λ _. true) (map.entries books.now.prices)
        || (list_any (λ _. true) (map.entries books.now.positions)
        || list_any (λ _. true) books.now.calls)) }
{
    has_prices(books) || is_past_prices(books)
}

// Whether no block is left.
fn is_full(books: &Books) -> bool
    ensures { result
        ≡ nat_le books.now.blocks
        (length (map.entries books.now.accounts) + length (map.entries books.now.prices)
        + length (map.entries books.now.positions)) }
{
    books.used() >= books.blocks()
}

// The row of a line that gives an account.
fn account_of(version: Version, books: &Books, words: &Words<'_>) -> Result<Row, Fault>
    requires { (begins (codes "account") words.now && length words.now == 3) ≡ true }
    ensures row { IfOk result (λ row. IsRow version books.now words.now row) }
    ensures err { IfErr result
        (λ why. fault_of (books_words version books.now) words.now ≡ Some why) }
{
    books.ranges();
    if is_past_accounts(books) {
        return Err(Fault::Order);
    }
    let (account, cash) = words.two_numbers(ACCOUNTS, version.cash())?;
    let account = account as u32;
    if books.account_after(account - 1).is_some() {
        return Err(Fault::Order);
    }
    if is_full(books) {
        return Err(Fault::Blocks);
    }
    Ok(Row::Account(account, cash))
}

// The row of a line that gives a price.
fn price_of(books: &Books, words: &Words<'_>) -> Result<Row, Fault>
    requires { (begins (codes "price") words.now && length words.now == 3) ≡ true }
    ensures row { IfOk result (λ row. (version : AnyVersion) → IsRow version books.now words.now row) }
    ensures err { IfErr result
        (λ why. (version : AnyVersion)
        → fault_of (books_words version books.now) words.now ≡ Some why) }
{
    books.ranges();
    if is_past_prices(books) {
        return Err(Fault::Order);
    }
    let instruments = instruments_of(books);
    let (instrument, price) = words.two_numbers(instruments, PRICES)?;
    let instrument = instrument as u32;
    if books.price_after(instrument - 1).is_some() {
        return Err(Fault::Order);
    }
    if is_full(books) {
        return Err(Fault::Blocks);
    }
    Ok(Row::Price(instrument, price))
}

// The row of a line that gives a position.
fn position_of(books: &Books, words: &Words<'_>) -> Result<Row, Fault>
    requires { (begins (codes "position") words.now && length words.now == 4) ≡ true }
    ensures row { IfOk result (λ row. (version : AnyVersion) → IsRow version books.now words.now row) }
    ensures err { IfErr result
        (λ why. (version : AnyVersion)
        → fault_of (books_words version books.now) words.now ≡ Some why) }
{
    books.ranges();
    if has_calls(books) {
        return Err(Fault::Order);
    }
    let instruments = instruments_of(books);
    let (account, instrument, quantity) = words.three_numbers(ACCOUNTS, instruments, QUANTITIES)?;
    let account = account as u32;
    let instrument = instrument as u32;
    if books.position_after(account, instrument - 1).is_some() {
        return Err(Fault::Order);
    }
    if books.cash(account).is_none() {
        return Err(Fault::Account);
    }
    if books.price(instrument).is_none() {
        return Err(Fault::Price);
    }
    if is_full(books) {
        return Err(Fault::Blocks);
    }
    Ok(Row::Position(account, instrument, quantity))
}

// The row of a line that gives a margin call.
fn call_of(books: &Books, words: &Words<'_>) -> Result<Row, Fault>
    requires { (begins (codes "call") words.now && length words.now == 3) ≡ true }
    ensures row { IfOk result (λ row. (version : AnyVersion) → IsRow version books.now words.now row) }
    ensures err { IfErr result
        (λ why. (version : AnyVersion)
        → fault_of (books_words version books.now) words.now ≡ Some why) }
{
    books.ranges();
    let (account, shortfall) = words.two_numbers(ACCOUNTS, SHORTFALLS)?;
    if books.calls() >= books.ring() {
        return Err(Fault::Limit);
    }
    Ok(Row::Call(account as u32, shortfall))
}
