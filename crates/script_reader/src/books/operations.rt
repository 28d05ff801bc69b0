//! The operations of a script.

ghost use Rattle.std.specs.Prelude.{◌≡◌, ℕ, ◌&&◌, ◌==◌, Some, true, false, length, IfOk, IfErr, codes};
ghost use Rattle.books_model.specs.Books.{ClearingBooks};
ghost use Rattle.script_reader.specs.Inner.OfVersion.{IsOperationOf};
ghost use Rattle.script_reader.specs.declared.books.version.Version.{Version as AnyVersion};
ghost use Rattle.script_reader.specs.Text.{books_operation_words};
ghost use Rattle.script_reader.specs.Forms.{begins, operation_forms};
ghost use Rattle.script_reader.specs.Rows.{row_fault};

use crate::books::rows::{ACCOUNTS, PRICES, QUANTITIES, RATES, instruments_of};
use crate::books::version::Version;
use crate::fault::Fault;
use crate::text::words::Words;
use books_model::{Books, Op};

// The operation of a line in a script for the books, in a text of the version.
pub(crate) fn operation_of(words: &Words<'_>, version: Version, books: &Books) -> Result<Op, Fault>
    ensures found { IfOk result
        (λ op. IsOperationOf version books.now op × (words.now ≡ books_operation_words op)) }
    ensures err { IfErr result
        (λ why. row_fault (operation_forms version books.now.instruments) words.now
        ≡ Some why) }
{
    match words.len() {
        2 => with_one_number(words),
        3 => with_two_numbers(words, version, books),
        4 => with_three_numbers(words, version),
        5 => with_four_numbers(words, books),
        _ if words.is_only(b"next") => Ok(Op::Next),
        _ => Err(Fault::Word),
    }
}

// The operation of a line of two words.
fn with_one_number(words: &Words<'_>) -> Result<Op, Fault>
    requires { length words.now ≡ 2 }
    ensures found { IfOk result (λ op. (version : AnyVersion) (books : ClearingBooks)
        → IsOperationOf version books op × (words.now ≡ books_operation_words op)) }
    ensures err { IfErr result
        (λ why. (version : AnyVersion) (instruments : ℕ)
        → row_fault (operation_forms version instruments) words.now ≡ Some why) }
{
    if words.is_row(b"open", 2) {
        let account = words.one_number(ACCOUNTS)?;
        return Ok(Op::OpenAccount(account as u32));
    }
    if words.is_row(b"close", 2) {
        let account = words.one_number(ACCOUNTS)?;
        return Ok(Op::Close(account as u32));
    }
    if words.is_row(b"show", 2) {
        let account = words.one_number(ACCOUNTS)?;
        return Ok(Op::Show(account as u32));
    }
    Err(Fault::Word)
}

// The operation of a line of three words.
fn with_two_numbers(words: &Words<'_>, version: Version, books: &Books) -> Result<Op, Fault>
    requires { length words.now ≡ 3 }
    ensures found { IfOk result
        (λ op. IsOperationOf version books.now op × (words.now ≡ books_operation_words op)) }
    ensures err { IfErr result
        (λ why. row_fault (operation_forms version books.now.instruments) words.now
        ≡ Some why) }
{
    if words.is_row(b"deposit", 3) {
        let (account, amount) = words.two_numbers(ACCOUNTS, version.amounts())?;
        return Ok(Op::Deposit(account as u32, amount));
    }
    if words.is_row(b"withdraw", 3) {
        let (account, amount) = words.two_numbers(ACCOUNTS, version.amounts())?;
        return Ok(Op::Withdraw(account as u32, amount));
    }
    if words.is_row(b"price", 3) {
        return price_of(words, books);
    }
    if words.is_row(b"margin", 3) {
        let (account, rate) = words.two_numbers(ACCOUNTS, RATES)?;
        return Ok(Op::Margin(account as u32, rate));
    }
    if words.is_row(b"sum", 3) {
        let (first, last) = words.two_numbers(ACCOUNTS, ACCOUNTS)?;
        return Ok(Op::Sum(first as u32, last as u32));
    }
    Err(Fault::Word)
}

// The operation of a line that gives a price.
fn price_of(words: &Words<'_>, books: &Books) -> Result<Op, Fault>
    requires { (begins (codes "price") words.now && length words.now == 3) ≡ true }
    ensures found { IfOk result
        (λ op. (version : AnyVersion) → IsOperationOf version books.now op × (words.now ≡ books_operation_words op)) }
    ensures err { IfErr result
        (λ why. (version : AnyVersion)
        → row_fault (operation_forms version books.now.instruments) words.now ≡ Some why) }
{
    books.ranges();
    let (instrument, price) = words.two_numbers(instruments_of(books), PRICES)?;
    Ok(Op::Price(instrument as u32, price))
}

// The operation of a line of four words.
fn with_three_numbers(words: &Words<'_>, version: Version) -> Result<Op, Fault>
    requires { length words.now ≡ 4 }
    ensures found { IfOk result (λ op. (books : ClearingBooks) → IsOperationOf version books op
        × (words.now ≡ books_operation_words op)) }
    ensures err { IfErr result
        (λ why. (instruments : ℕ)
        → row_fault (operation_forms version instruments) words.now ≡ Some why) }
{
    if words.is_row(b"move", 4) {
        let (from, to, amount) = words.three_numbers(ACCOUNTS, ACCOUNTS, version.amounts())?;
        return Ok(Op::Move(from as u32, to as u32, amount));
    }
    Err(Fault::Word)
}

// The operation of a line of five words.
fn with_four_numbers(words: &Words<'_>, books: &Books) -> Result<Op, Fault>
    requires { length words.now ≡ 5 }
    ensures found { IfOk result
        (λ op. (version : AnyVersion) → IsOperationOf version books.now op × (words.now ≡ books_operation_words op)) }
    ensures err { IfErr result
        (λ why. (version : AnyVersion)
        → row_fault (operation_forms version books.now.instruments) words.now ≡ Some why) }
{
    books.ranges();
    if words.is_row(b"trade", 5) {
        let (buyer, seller, instrument, quantity) = words.four_numbers(
            ACCOUNTS,
            ACCOUNTS,
            instruments_of(books),
            QUANTITIES,
        )?;
        return Ok(Op::Trade(buyer as u32, seller as u32, instrument as u32, quantity));
    }
    Err(Fault::Word)
}
