//! The operations of scripts, each on words that stand for books.
//!
//! What each comes to is the interpreter's: `specs/Operating` says what that means, from state to state. An operation
//! that is declined, or finds no block, may have changed books before it answers; whoever runs it undoes that.

ghost use Rattle.std.specs.Prelude.{◌≤◌, IfOk, OnOk};
ghost use Rattle.books_model.specs.declared.limits.TheConstants.{GREATEST_AMOUNT, GREATEST_PRICE, GREATEST_QUANTITY, GREATEST_RATE};
ghost use Rattle.books_model.specs.declared.script.Op.{Op};
ghost use Rattle.books_model.specs.Ranges.{IsAccountNumber, IsWithin};
ghost use Rattle.txn_words.specs.Calls.{IsReady, GoesOn, InEachState, LeadsTo};
ghost use Rattle.txn_books.specs.Standing.{IsGoodFor};
ghost use Rattle.txn_books.specs.Operating.{IsOperationIn, MeetsStep};

use crate::cash::{balance, cash, cash_between, open_account, remove_account, set_balance};
use crate::price::{price, put_price};
use crate::quantity::{holds_any, worth};
use crate::queue::{queue_call, take_front};
use crate::shape::BooksShape;
use crate::trading::{exchange, side_at};
use books_model::limits::{GREATEST_CASH, GREATEST_QUANTITY};
use books_model::{Decline, Op, Value};
use txn_words::{Stop, Words};

/// What one operation comes to.
#[derive(Clone, Copy, Debug, PartialEq, Eq)]
pub enum Outcome {
    /// It was done, and tells this.
    Gives(Value),
    /// It is declined.
    Declines(Decline),
    /// It finds no block.
    FindsNoBlock,
}

/// One operation of a script.
pub fn run_operation<W: Words>(w: &mut W, shape: &BooksShape, op: Op) -> Result<Outcome, Stop>
    requires ready { IsReady W.Words w.old }
    requires stands { InEachState W.Words W.Shape.Shape w.old (IsGoodFor shape.now) }
    requires range { IsOperationIn shape.now op }
    ensures step { IfOk result (λ outcome. LeadsTo W.Words W.Shape.Shape w.old w.new
        (MeetsStep shape.now op outcome)) }
    ensures stands { OnOk result (InEachState W.Words W.Shape.Shape w.new (IsGoodFor shape.now)) }
    ensures goes_on { GoesOn W.Words w.old w.new result }
{
    match op {
        Op::OpenAccount(account) => open(w, shape, account),
        Op::Close(account) => close(w, shape, account),
        Op::Deposit(account, amount) => deposit(w, shape, account, amount),
        Op::Withdraw(account, amount) => withdraw(w, shape, account, amount),
        Op::Move(payer, payee, amount) => move_cash(w, shape, payer, payee, amount),
        Op::Price(instrument, price) => set_price(w, shape, instrument, price),
        Op::Trade(buyer, seller, instrument, quantity) => {
            trade(w, shape, buyer, seller, instrument, quantity)
        },
        Op::Margin(account, rate) => margin(w, shape, account, rate),
        Op::Next => next(w, shape),
        Op::Show(account) => show(w, shape, account),
        Op::Sum(low, high) => sum(w, shape, low, high),
    }
}

/// Opens an account without cash.
pub fn open<W: Words>(w: &mut W, shape: &BooksShape, account: u32) -> Result<Outcome, Stop>
    requires ready { IsReady W.Words w.old }
    requires stands { InEachState W.Words W.Shape.Shape w.old (IsGoodFor shape.now) }
    requires account { IsAccountNumber account }
    ensures step { IfOk result (λ outcome. LeadsTo W.Words W.Shape.Shape w.old w.new
        (MeetsStep shape.now (Op.OpenAccount account) outcome)) }
    ensures stands { OnOk result (InEachState W.Words W.Shape.Shape w.new (IsGoodFor shape.now)) }
    ensures goes_on { GoesOn W.Words w.old w.new result }
{
    if cash(w, shape, account)?.is_some() {
        return Ok(Outcome::Declines(Decline::Exists));
    }
    if !open_account(w, shape, account)? {
        return Ok(Outcome::FindsNoBlock);
    }
    Ok(Outcome::Gives(Value::Done))
}

/// Closes an account that has no cash and no position.
pub fn close<W: Words>(w: &mut W, shape: &BooksShape, account: u32) -> Result<Outcome, Stop>
    requires ready { IsReady W.Words w.old }
    requires stands { InEachState W.Words W.Shape.Shape w.old (IsGoodFor shape.now) }
    requires account { IsAccountNumber account }
    ensures step { IfOk result (λ outcome. LeadsTo W.Words W.Shape.Shape w.old w.new
        (MeetsStep shape.now (Op.Close account) outcome)) }
    ensures stands { OnOk result (InEachState W.Words W.Shape.Shape w.new (IsGoodFor shape.now)) }
    ensures goes_on { GoesOn W.Words w.old w.new result }
{
    let Some(held) = cash(w, shape, account)? else {
        return Ok(Outcome::Declines(Decline::Absent));
    };
    if held != 0 {
        return Ok(Outcome::Declines(Decline::Cash));
    }
    if holds_any(w, shape, account)? {
        return Ok(Outcome::Declines(Decline::Held));
    }
    remove_account(w, shape, account)?;
    Ok(Outcome::Gives(Value::Done))
}

/// Adds an amount to an account's cash.
pub fn deposit<W: Words>(
    w: &mut W,
    shape: &BooksShape,
    account: u32,
    amount: u64,
) -> Result<Outcome, Stop>
    requires ready { IsReady W.Words w.old }
    requires stands { InEachState W.Words W.Shape.Shape w.old (IsGoodFor shape.now) }
    requires amount { amount ≤ GREATEST_AMOUNT }
    ensures step { IfOk result (λ outcome. LeadsTo W.Words W.Shape.Shape w.old w.new
        (MeetsStep shape.now (Op.Deposit account amount) outcome)) }
    ensures stands { OnOk result (InEachState W.Words W.Shape.Shape w.new (IsGoodFor shape.now)) }
    ensures goes_on { GoesOn W.Words w.old w.new result }
{
    let Some(held) = balance(w, shape, account)? else {
        return Ok(Outcome::Declines(Decline::Absent));
    };
    if held.value + amount > GREATEST_CASH {
        return Ok(Outcome::Declines(Decline::Limit));
    }
    set_balance(w, shape, account, held.block, held.value + amount)?;
    Ok(Outcome::Gives(Value::Done))
}

/// Takes an amount from an account's cash.
pub fn withdraw<W: Words>(
    w: &mut W,
    shape: &BooksShape,
    account: u32,
    amount: u64,
) -> Result<Outcome, Stop>
    requires ready { IsReady W.Words w.old }
    requires stands { InEachState W.Words W.Shape.Shape w.old (IsGoodFor shape.now) }
    ensures step { IfOk result (λ outcome. LeadsTo W.Words W.Shape.Shape w.old w.new
        (MeetsStep shape.now (Op.Withdraw account amount) outcome)) }
    ensures stands { OnOk result (InEachState W.Words W.Shape.Shape w.new (IsGoodFor shape.now)) }
    ensures goes_on { GoesOn W.Words w.old w.new result }
{
    let Some(held) = balance(w, shape, account)? else {
        return Ok(Outcome::Declines(Decline::Absent));
    };
    if held.value < amount {
        return Ok(Outcome::Declines(Decline::Cash));
    }
    set_balance(w, shape, account, held.block, held.value - amount)?;
    Ok(Outcome::Gives(Value::Done))
}

/// Moves an amount from one account to another.
pub fn move_cash<W: Words>(
    w: &mut W,
    shape: &BooksShape,
    payer: u32,
    payee: u32,
    amount: u64,
) -> Result<Outcome, Stop>
    requires ready { IsReady W.Words w.old }
    requires stands { InEachState W.Words W.Shape.Shape w.old (IsGoodFor shape.now) }
    requires amount { amount ≤ GREATEST_AMOUNT }
    ensures step { IfOk result (λ outcome. LeadsTo W.Words W.Shape.Shape w.old w.new
        (MeetsStep shape.now (Op.Move payer payee amount) outcome)) }
    ensures stands { OnOk result (InEachState W.Words W.Shape.Shape w.new (IsGoodFor shape.now)) }
    ensures goes_on { GoesOn W.Words w.old w.new result }
{
    if payer == payee {
        return Ok(Outcome::Declines(Decline::Same));
    }
    let Some(has) = balance(w, shape, payer)? else {
        return Ok(Outcome::Declines(Decline::Absent));
    };
    let Some(gets) = balance(w, shape, payee)? else {
        return Ok(Outcome::Declines(Decline::Absent));
    };
    if has.value < amount {
        return Ok(Outcome::Declines(Decline::Cash));
    }
    if gets.value + amount > GREATEST_CASH {
        return Ok(Outcome::Declines(Decline::Limit));
    }
    set_balance(w, shape, payer, has.block, has.value - amount)?;
    set_balance(w, shape, payee, gets.block, gets.value + amount)?;
    Ok(Outcome::Gives(Value::Done))
}

/// Sets the price of an instrument.
pub fn set_price<W: Words>(
    w: &mut W,
    shape: &BooksShape,
    instrument: u32,
    price: u64,
) -> Result<Outcome, Stop>
    requires ready { IsReady W.Words w.old }
    requires stands { InEachState W.Words W.Shape.Shape w.old (IsGoodFor shape.now) }
    requires instrument { IsWithin 1 shape.now.instruments instrument }
    requires price { IsWithin 1 GREATEST_PRICE price }
    ensures step { IfOk result (λ outcome. LeadsTo W.Words W.Shape.Shape w.old w.new
        (MeetsStep shape.now (Op.Price instrument price) outcome)) }
    ensures stands { OnOk result (InEachState W.Words W.Shape.Shape w.new (IsGoodFor shape.now)) }
    ensures goes_on { GoesOn W.Words w.old w.new result }
{
    if !put_price(w, shape, instrument, price)? {
        return Ok(Outcome::FindsNoBlock);
    }
    Ok(Outcome::Gives(Value::Done))
}

/// The first account buys from the second, of the instrument, the quantity, at its price.
pub fn trade<W: Words>(
    w: &mut W,
    shape: &BooksShape,
    buyer: u32,
    seller: u32,
    instrument: u32,
    amount: u64,
) -> Result<Outcome, Stop>
    requires ready { IsReady W.Words w.old }
    requires stands { InEachState W.Words W.Shape.Shape w.old (IsGoodFor shape.now) }
    requires buyer { IsAccountNumber buyer }
    requires seller { IsAccountNumber seller }
    requires instrument { IsWithin 1 shape.now.instruments instrument }
    requires amount { IsWithin 1 GREATEST_QUANTITY amount }
    ensures step { IfOk result (λ outcome. LeadsTo W.Words W.Shape.Shape w.old w.new
        (MeetsStep shape.now (Op.Trade buyer seller instrument amount) outcome)) }
    ensures stands { OnOk result (InEachState W.Words W.Shape.Shape w.new (IsGoodFor shape.now)) }
    ensures goes_on { GoesOn W.Words w.old w.new result }
{
    if buyer == seller {
        return Ok(Outcome::Declines(Decline::Same));
    }
    let Some(buys) = side_at(w, shape, buyer, instrument)? else {
        return Ok(Outcome::Declines(Decline::Absent));
    };
    let Some(sells) = side_at(w, shape, seller, instrument)? else {
        return Ok(Outcome::Declines(Decline::Absent));
    };
    let Some(price) = price(w, shape, instrument)? else {
        return Ok(Outcome::Declines(Decline::Price));
    };
    if sells.side.held < amount {
        return Ok(Outcome::Declines(Decline::Quantity));
    }
    let cost = amount * price;
    if buys.side.cash < cost {
        return Ok(Outcome::Declines(Decline::Cash));
    }
    if sells.side.cash + cost > GREATEST_CASH || buys.side.held + amount > GREATEST_QUANTITY {
        return Ok(Outcome::Declines(Decline::Limit));
    }
    let buys = buys.left_with(buyer, buys.side.cash - cost, buys.side.held + amount);
    let sells = sells.left_with(seller, sells.side.cash + cost, sells.side.held - amount);
    if !exchange(w, shape, instrument, buys, sells)? {
        return Ok(Outcome::FindsNoBlock);
    }
    Ok(Outcome::Gives(Value::Done))
}

/// Queues a margin call for an account's shortfall at a rate in percent, if it has one.
pub fn margin<W: Words>(
    w: &mut W,
    shape: &BooksShape,
    account: u32,
    rate: u64,
) -> Result<Outcome, Stop>
    requires ready { IsReady W.Words w.old }
    requires stands { InEachState W.Words W.Shape.Shape w.old (IsGoodFor shape.now) }
    requires account { IsAccountNumber account }
    requires rate { rate ≤ GREATEST_RATE }
    ensures step { IfOk result (λ outcome. LeadsTo W.Words W.Shape.Shape w.old w.new
        (MeetsStep shape.now (Op.Margin account rate) outcome)) }
    ensures stands { OnOk result (InEachState W.Words W.Shape.Shape w.new (IsGoodFor shape.now)) }
    ensures goes_on { GoesOn W.Words w.old w.new result }
{
    let Some(held) = cash(w, shape, account)? else {
        return Ok(Outcome::Declines(Decline::Absent));
    };
    let shortfall = (worth(w, shape, account)? * rate / 100).saturating_sub(held);
    if shortfall == 0 {
        return Ok(Outcome::Gives(Value::Number(0)));
    }
    if !queue_call(w, shape, account, shortfall)? {
        return Ok(Outcome::Declines(Decline::Queue));
    }
    Ok(Outcome::Gives(Value::Number(u128::from(shortfall))))
}

/// Takes the front of the queue of margin calls.
pub fn next<W: Words>(w: &mut W, shape: &BooksShape) -> Result<Outcome, Stop>
    requires ready { IsReady W.Words w.old }
    requires stands { InEachState W.Words W.Shape.Shape w.old (IsGoodFor shape.now) }
    ensures step { IfOk result (λ outcome. LeadsTo W.Words W.Shape.Shape w.old w.new
        (MeetsStep shape.now Op.Next outcome)) }
    ensures stands { OnOk result (InEachState W.Words W.Shape.Shape w.new (IsGoodFor shape.now)) }
    ensures goes_on { GoesOn W.Words w.old w.new result }
{
    match take_front(w, shape)? {
        None => Ok(Outcome::Gives(Value::Nothing)),
        Some((account, shortfall)) => Ok(Outcome::Gives(Value::Call(account, shortfall))),
    }
}

/// Tells an account's cash.
pub fn show<W: Words>(w: &mut W, shape: &BooksShape, account: u32) -> Result<Outcome, Stop>
    requires ready { IsReady W.Words w.old }
    requires stands { InEachState W.Words W.Shape.Shape w.old (IsGoodFor shape.now) }
    ensures step { IfOk result (λ outcome. LeadsTo W.Words W.Shape.Shape w.old w.new
        (MeetsStep shape.now (Op.Show account) outcome)) }
    ensures stands { OnOk result (InEachState W.Words W.Shape.Shape w.new (IsGoodFor shape.now)) }
    ensures goes_on { GoesOn W.Words w.old w.new result }
{
    match cash(w, shape, account)? {
        Some(held) => Ok(Outcome::Gives(Value::Number(u128::from(held)))),
        None => Ok(Outcome::Declines(Decline::Absent)),
    }
}

/// Tells the cash of all accounts from one number to another, both included.
pub fn sum<W: Words>(w: &mut W, shape: &BooksShape, low: u32, high: u32) -> Result<Outcome, Stop>
    requires ready { IsReady W.Words w.old }
    requires stands { InEachState W.Words W.Shape.Shape w.old (IsGoodFor shape.now) }
    ensures step { IfOk result (λ outcome. LeadsTo W.Words W.Shape.Shape w.old w.new
        (MeetsStep shape.now (Op.Sum low high) outcome)) }
    ensures stands { OnOk result (InEachState W.Words W.Shape.Shape w.new (IsGoodFor shape.now)) }
    ensures goes_on { GoesOn W.Words w.old w.new result }
{
    let total = cash_between(w, shape, low, high)?;
    Ok(Outcome::Gives(Value::Number(total)))
}
