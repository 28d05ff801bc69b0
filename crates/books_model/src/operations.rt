//! The operations of scripts, each on a draft.

ghost use Rattle.std.specs.Prelude.{◌≡◌, ◌+◌, ◌-◌, ◌≤◌, ◌≢◌, None, Some, IsSome, IfSome, IfNone, IfOk, OnOk, unwrap_or};
ghost use Rattle.std.specs.FinMap as map;

use crate::draft::{Draft, Outcome, Side};
use crate::limits::{
    GREATEST_AMOUNT, GREATEST_CASH, GREATEST_PRICE, GREATEST_QUANTITY, GREATEST_RATE,
};
use crate::reply::{Decline, Value};
use crate::script::Op;
use io_ends::OutOfMemory;

impl<'a> Draft<'a> {
    ghost use Rattle.books_model.specs.Books.{put_cash};
    ghost use Rattle.books_model.specs.Interpreter.{put_position, step_of, trade_of};
    ghost use Rattle.books_model.specs.Ranges.{IsAccountNumber, IsInstrumentOf, IsOperationFor, IsWithin};
    ghost use Rattle.books_model.specs.Inner.Draft.{IsSideOf};
    ghost use Rattle.books_model.specs.Inner.Steps.{step_with};

    // One operation.
    pub(crate) fn run(&mut self, op: Op) -> Result<Outcome, OutOfMemory>
        requires range { IsOperationFor self.old.before op }
        ensures step { IfOk result (λ outcome. step_of op self.old.after
            ≡ step_with outcome self.new.after) }
        ensures before { self.new.before ≡ self.old.before }
    {
        match op {
            Op::OpenAccount(account) => self.open(account),
            Op::Close(account) => self.close(account),
            Op::Deposit(account, amount) => self.deposit(account, amount),
            Op::Withdraw(account, amount) => self.withdraw(account, amount),
            Op::Move(payer, payee, amount) => self.move_cash(payer, payee, amount),
            Op::Price(instrument, price) => self.set_price(instrument, price),
            Op::Trade(buyer, seller, instrument, quantity) => {
                self.trade(buyer, seller, instrument, quantity)
            },
            Op::Margin(account, rate) => self.margin(account, rate),
            Op::Next => Ok(self.next()),
            Op::Show(account) => Ok(self.show(account)),
            Op::Sum(low, high) => Ok(self.sum(low, high)),
        }
    }

    fn open(&mut self, account: u32) -> Result<Outcome, OutOfMemory>
        requires { IsAccountNumber account }
        ensures step { IfOk result (λ outcome. step_of (Op.OpenAccount account) self.old.after
            ≡ step_with outcome self.new.after) }
        ensures before { self.new.before ≡ self.old.before }
    {
        if self.cash(account).is_some() {
            return Ok(Outcome::Declines(Decline::Exists));
        }
        if self.is_full() {
            return Ok(Outcome::FindsNoBlock);
        }
        self.change_account(account, None, Some(0))?;
        Ok(Outcome::Gives(Value::Done))
    }

    fn close(&mut self, account: u32) -> Result<Outcome, OutOfMemory>
        ensures step { IfOk result (λ outcome. step_of (Op.Close account) self.old.after
            ≡ step_with outcome self.new.after) }
        ensures before { self.new.before ≡ self.old.before }
    {
        let Some(cash) = self.cash(account) else {
            return Ok(Outcome::Declines(Decline::Absent));
        };
        if cash != 0 {
            return Ok(Outcome::Declines(Decline::Cash));
        }
        if self.holds_any(account) {
            return Ok(Outcome::Declines(Decline::Held));
        }
        self.remove_account(account, cash)?;
        Ok(Outcome::Gives(Value::Done))
    }

    fn deposit(&mut self, account: u32, amount: u64) -> Result<Outcome, OutOfMemory>
        requires { amount ≤ GREATEST_AMOUNT }
        ensures step { IfOk result (λ outcome. step_of (Op.Deposit account amount) self.old.after
            ≡ step_with outcome self.new.after) }
        ensures before { self.new.before ≡ self.old.before }
    {
        let Some(cash) = self.cash(account) else {
            return Ok(Outcome::Declines(Decline::Absent));
        };
        if cash + amount > GREATEST_CASH {
            return Ok(Outcome::Declines(Decline::Limit));
        }
        self.set_cash(account, cash, cash + amount)?;
        Ok(Outcome::Gives(Value::Done))
    }

    fn withdraw(&mut self, account: u32, amount: u64) -> Result<Outcome, OutOfMemory>
        ensures step { IfOk result (λ outcome. step_of (Op.Withdraw account amount) self.old.after
            ≡ step_with outcome self.new.after) }
        ensures before { self.new.before ≡ self.old.before }
    {
        let Some(cash) = self.cash(account) else {
            return Ok(Outcome::Declines(Decline::Absent));
        };
        if cash < amount {
            return Ok(Outcome::Declines(Decline::Cash));
        }
        self.set_cash(account, cash, cash - amount)?;
        Ok(Outcome::Gives(Value::Done))
    }

    fn move_cash(&mut self, payer: u32, payee: u32, amount: u64) -> Result<Outcome, OutOfMemory>
        requires { amount ≤ GREATEST_AMOUNT }
        ensures step { IfOk result (λ outcome. step_of (Op.Move payer payee amount) self.old.after
            ≡ step_with outcome self.new.after) }
        ensures before { self.new.before ≡ self.old.before }
    {
        if payer == payee {
            return Ok(Outcome::Declines(Decline::Same));
        }
        let Some(has) = self.cash(payer) else {
            return Ok(Outcome::Declines(Decline::Absent));
        };
        let Some(gets) = self.cash(payee) else {
            return Ok(Outcome::Declines(Decline::Absent));
        };
        if has < amount {
            return Ok(Outcome::Declines(Decline::Cash));
        }
        if gets + amount > GREATEST_CASH {
            return Ok(Outcome::Declines(Decline::Limit));
        }
        self.pay(payer, has, payee, gets, amount)?;
        Ok(Outcome::Gives(Value::Done))
    }

    // Pays an amount from one account to another, from what both have.
    fn pay(
        &mut self,
        payer: u32,
        has: u64,
        payee: u32,
        gets: u64,
        amount: u64,
    ) -> Result<(), OutOfMemory>
        requires apart { payer ≢ payee }
        requires payer { map.get self.old.after.accounts payer ≡ Some has }
        requires payee { map.get self.old.after.accounts payee ≡ Some gets }
        requires range { has ≤ GREATEST_CASH }
        requires pays { amount ≤ has }
        requires gets { gets + amount ≤ GREATEST_CASH }
        ensures ok { OnOk result (self.new.after
            ≡ put_cash (put_cash self.old.after payer (has - amount)) payee (gets + amount)) }
        ensures before { self.new.before ≡ self.old.before }
    {
        self.set_cash(payer, has, has - amount)?;
        self.set_cash(payee, gets, gets + amount)
    }

    fn set_price(&mut self, instrument: u32, price: u64) -> Result<Outcome, OutOfMemory>
        requires instrument { IsInstrumentOf self.old.before instrument }
        requires price { IsWithin 1 GREATEST_PRICE price }
        ensures step { IfOk result (λ outcome. step_of (Op.Price instrument price) self.old.after
            ≡ step_with outcome self.new.after) }
        ensures before { self.new.before ≡ self.old.before }
    {
        let was = self.price(instrument);
        if was.is_none() && self.is_full() {
            return Ok(Outcome::FindsNoBlock);
        }
        self.put_price(instrument, was, price)?;
        Ok(Outcome::Gives(Value::Done))
    }

    fn trade(
        &mut self,
        buyer: u32,
        seller: u32,
        instrument: u32,
        quantity: u64,
    ) -> Result<Outcome, OutOfMemory>
        requires { IsWithin 1 GREATEST_QUANTITY quantity }
        ensures step { IfOk result (λ outcome.
            step_of (Op.Trade buyer seller instrument quantity) self.old.after
            ≡ step_with outcome self.new.after) }
        ensures before { self.new.before ≡ self.old.before }
    {
        if buyer == seller {
            return Ok(Outcome::Declines(Decline::Same));
        }
        let Some(buys) = self.side(buyer, instrument) else {
            return Ok(Outcome::Declines(Decline::Absent));
        };
        let Some(sells) = self.side(seller, instrument) else {
            return Ok(Outcome::Declines(Decline::Absent));
        };
        let Some(price) = self.price(instrument) else {
            return Ok(Outcome::Declines(Decline::Price));
        };
        if sells.held.unwrap_or(0) < quantity {
            return Ok(Outcome::Declines(Decline::Quantity));
        }
        let cost = quantity * price;
        if buys.cash < cost {
            return Ok(Outcome::Declines(Decline::Cash));
        }
        if sells.cash + cost > GREATEST_CASH
            || buys.held.unwrap_or(0) + quantity > GREATEST_QUANTITY
        {
            return Ok(Outcome::Declines(Decline::Limit));
        }
        self.exchange(buys, sells, instrument, quantity, cost)
    }

    // One side of a trade, if its account is there.
    fn side(&self, account: u32, instrument: u32) -> Option<Side>
        ensures account { IfSome result (λ side. side.account ≡ account) }
        ensures side { IfSome result (IsSideOf self.now.after instrument) }
        ensures none { IfNone result (map.get self.now.after.accounts account ≡ None) }
    {
        let cash = self.cash(account)?;
        let held = self.quantity(account, instrument);
        Some(Side {
            account,
            cash,
            held,
        })
    }

    // A trade that is not declined, from what was found of both accounts. The seller's position is lowered first, which
    // may leave a block for the buyer's.
    fn exchange(
        &mut self,
        buys: Side,
        sells: Side,
        instrument: u32,
        quantity: u64,
        cost: u64,
    ) -> Result<Outcome, OutOfMemory>
        requires apart { buys.account ≢ sells.account }
        requires buyer { IsSideOf self.old.after instrument buys }
        requires seller { IsSideOf self.old.after instrument sells }
        requires price { IsSome (map.get self.old.after.prices instrument) }
        requires some { 1 ≤ quantity }
        requires sells { quantity ≤ unwrap_or sells.held 0 }
        requires pays { cost ≤ buys.cash }
        requires gets { sells.cash + cost ≤ GREATEST_CASH }
        requires holds { unwrap_or buys.held 0 + quantity ≤ GREATEST_QUANTITY }
        ensures step { IfOk result (λ outcome. trade_of self.old.after
            (put_position self.old.after sells.account instrument
            (unwrap_or sells.held 0 - quantity))
            buys.account sells.account instrument quantity cost
            ≡ step_with outcome self.new.after) }
        ensures before { self.new.before ≡ self.old.before }
    {
        let left = sells.held.unwrap_or(0) - quantity;
        self.set_quantity(sells.account, instrument, sells.held, left)?;
        if buys.held.is_none() && self.is_full() {
            return Ok(Outcome::FindsNoBlock);
        }
        let more = buys.held.unwrap_or(0) + quantity;
        self.set_quantity(buys.account, instrument, buys.held, more)?;
        self.pay(buys.account, buys.cash, sells.account, sells.cash, cost)?;
        Ok(Outcome::Gives(Value::Done))
    }

    fn margin(&mut self, account: u32, rate: u64) -> Result<Outcome, OutOfMemory>
        requires account { IsAccountNumber account }
        requires rate { rate ≤ GREATEST_RATE }
        ensures step { IfOk result (λ outcome. step_of (Op.Margin account rate) self.old.after
            ≡ step_with outcome self.new.after) }
        ensures before { self.new.before ≡ self.old.before }
    {
        let Some(cash) = self.cash(account) else {
            return Ok(Outcome::Declines(Decline::Absent));
        };
        let shortfall = (self.worth(account) * rate / 100).saturating_sub(cash);
        if shortfall == 0 {
            return Ok(Outcome::Gives(Value::Number(0)));
        }
        if self.is_queue_full() {
            return Ok(Outcome::Declines(Decline::Queue));
        }
        self.queue_call(account, shortfall)?;
        Ok(Outcome::Gives(Value::Number(u128::from(shortfall))))
    }

    fn next(&mut self) -> Outcome
        ensures step { step_of Op.Next self.old.after ≡ step_with result self.new.after }
        ensures before { self.new.before ≡ self.old.before }
    {
        let Some((account, shortfall)) = self.front() else {
            return Outcome::Gives(Value::Nothing);
        };
        self.take_front();
        Outcome::Gives(Value::Call(account, shortfall))
    }

    fn show(&self, account: u32) -> Outcome
        ensures { step_of (Op.Show account) self.now.after ≡ step_with result self.now.after }
    {
        match self.cash(account) {
            Some(cash) => Outcome::Gives(Value::Number(u128::from(cash))),
            None => Outcome::Declines(Decline::Absent),
        }
    }

    fn sum(&self, low: u32, high: u32) -> Outcome
        ensures { step_of (Op.Sum low high) self.now.after ≡ step_with result self.now.after }
    {
        Outcome::Gives(Value::Number(self.cash_between(low, high)))
    }
}
