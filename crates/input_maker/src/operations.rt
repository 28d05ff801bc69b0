//! Operations: how they are drawn, and their lines.

ghost use Rattle.std.specs.Prelude.{◌≡◌, ◌+◌, ◌*◌, ◌<◌, ◌++◌, OnOk};
ghost use Rattle.std.specs.String.{string_bytes};
ghost use Rattle.script_reader.specs.Text.{line, books_operation_words};
ghost use Rattle.input_maker.specs.Generator.{drawn_state};
ghost use Rattle.input_maker.specs.Made.{first_kind, made_operation, operation_from, second_kind};

use crate::books::{ACCOUNTS, INSTRUMENTS};
use crate::generator::Generator;
use books_model::Op;
use std::alloc::AllocError;

const MOST_AMOUNT: u32 = 100;

// An operation of the first kind of script: it is declined in no order.
fn first_kind(which: u32, account: u32, other: u32, instrument: u32, amount: u64) -> Op
    requires { amount < 1000 }
    ensures { result ≡ first_kind which account other instrument amount }
{
    match which {
        0 => Op::Deposit(account, amount),
        1 => Op::Price(instrument, 10 * amount),
        2 => Op::Next,
        _ => Op::Sum(account, other),
    }
}

// An operation of the second kind of script: it keeps the sum of all cash.
fn second_kind(which: u32, account: u32, other: u32, instrument: u32, amount: u64) -> Op
    ensures { result ≡ second_kind which account other instrument amount }
{
    match which {
        0 => Op::Move(account, other, amount),
        1 => Op::Trade(account, other, instrument, amount),
        2 => Op::Margin(account, amount),
        _ => Op::Show(account),
    }
}

fn operation_of(kind: u32, which: u32, account: u32, other: u32, instrument: u32, amount: u64) -> Op
    requires { amount < 1000 }
    ensures { result ≡ made_operation kind which account other instrument amount }
{
    if kind == 0 {
        first_kind(which, account, other, instrument, amount)
    } else {
        second_kind(which, account, other, instrument, amount)
    }
}

// The next operation of a script of this kind.
#[tactic(auto, unfolding(crate::specs::Made::operation_from))]
pub(crate) fn next_operation(generator: &mut Generator, kind: u32) -> Op
    ensures state { generator.new.state ≡ drawn_state 5 generator.old.state }
    ensures operation { result ≡ operation_from kind generator.old.state }
{
    let which = generator.draw(4);
    let account = 1 + generator.draw(ACCOUNTS);
    let other = 1 + generator.draw(ACCOUNTS);
    let instrument = 1 + generator.draw(INSTRUMENTS);
    let amount = 1 + generator.draw(MOST_AMOUNT);
    operation_of(kind, which, account, other, instrument, u64::from(amount))
}

// Appends the line of an operation.
pub(crate) fn write_operation(text: &mut String, operation: Op) -> Result<(), AllocError>
    ensures { OnOk result
        (string_bytes text.new ≡ string_bytes text.old ++ line (books_operation_words operation)) }
{
    match operation {
        Op::OpenAccount(account) => write!(text, "open {account}\n"),
        Op::Close(account) => write!(text, "close {account}\n"),
        Op::Deposit(account, amount) => write!(text, "deposit {account} {amount}\n"),
        Op::Withdraw(account, amount) => write!(text, "withdraw {account} {amount}\n"),
        Op::Move(account, other, amount) => write!(text, "move {account} {other} {amount}\n"),
        Op::Price(instrument, price) => write!(text, "price {instrument} {price}\n"),
        Op::Trade(account, other, instrument, quantity) => {
            write!(text, "trade {account} {other} {instrument} {quantity}\n")
        }
        Op::Margin(account, rate) => write!(text, "margin {account} {rate}\n"),
        Op::Next => text.push_str("next\n"),
        Op::Show(account) => write!(text, "show {account}\n"),
        Op::Sum(account, other) => write!(text, "sum {account} {other}\n"),
    }
}
