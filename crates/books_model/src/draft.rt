//! The changes of a script, gathered beside the books.

ghost use Rattle.std.specs.Prelude.{◌≡◌, ◌+◌, ◌<◌, ◌≤◌, ◌^◌, ◌==◌, false, Some, None, IsSome, IfSome, IfOk, OnOk, is_some, if◌then◌else◌, drop, length, slice_get};
ghost use Rattle.std.specs.FinMap as map;
ghost use Rattle.books_model.specs.Inner.Changes.{before_between, now_between};

use crate::books::Books;
use crate::limits::{
    GREATEST_CASH, GREATEST_PRICE, GREATEST_QUANTITY, GREATEST_SHORTFALL, MOST_BLOCKS,
};
use crate::overlay::{Change, Changes, change_of, note_change};
use crate::reply::{Decline, Value};
use io_ends::OutOfMemory;
use std::alloc::Global;
use std::collections::BTreeMap;
use std::marker::Model;
use std::ops::Bound::Included;

// What one operation comes to.
#[derive(Clone, Copy)]
pub(crate) enum Outcome {
    // It was done, and tells this.
    Gives(Value),
    // It is declined.
    Declines(Decline),
    // It finds no block.
    FindsNoBlock,
}

// One side of a trade: an account, its cash, and what it holds of the instrument.
#[derive(Clone, Copy)]
pub(crate) struct Side {
    pub(crate) account: u32,
    pub(crate) cash: u64,
    pub(crate) held: Option<u64>,
}

// The changes of a script so far, beside the books that they are for.
#[derive(Drop)]
pub(crate) struct Draft<'a> {
    books: &'a Books,
    changes: Changes,
    // How many blocks are used after the changes.
    used: u32,
}

impl<'a> Model for Draft<'a> {
    ghost use Rattle.books_model.specs.Inner.Changes.{changed_books};
    ghost use Rattle.books_model.specs.Inner.Draft.{Drafted, drafted_code, IsDraftOf};

    ghost Value = { Drafted };

    ghost coded = { drafted_code };

    ghost view = { λ d. record {
      before = d.books.now;
      after = changed_books d.books.now d.changes;
    } };

    ghost invariant = { λ d. IsDraftOf d.books.now d.changes d.used };
}

impl<'a> Draft<'a> {
    ghost use Rattle.books_model.specs.Books.{HaveSameSizes, put_call, put_cash, put_price, used};
    ghost use Rattle.books_model.specs.Inner.Changes.{AreChangesOf, changed_books};
    ghost use Rattle.books_model.specs.Inner.Draft.{set_account, set_position, set_price};
    ghost use Rattle.books_model.specs.Interpreter.{cash_between, holds_any, is_full, put_position, worth_of};
    ghost use Rattle.books_model.specs.Ranges.{AreInRange, IsCall, IsInstrumentOf, IsWithin};

    // No changes of these books. It takes no memory.
    pub(crate) fn new(alloc: Global, books: &'a Books) -> Draft<'a>
        ensures before { result.before ≡ books.now }
        ensures after { result.after ≡ books.now }
    {
        books.ranges();
        Draft {
            books,
            changes: Changes {
                accounts: BTreeMap::new(alloc),
                positions: BTreeMap::new(alloc),
                prices: BTreeMap::new(alloc),
                taken: 0,
                added: Vec::new(alloc),
            },
            used: books.used(),
        }
    }

    // An equal draft of the same books.
    pub(crate) fn copy(&self) -> Result<Draft<'a>, OutOfMemory>
        ensures { IfOk result (λ copy. copy ≡ self.now) }
    {
        Ok(Draft {
            books: self.books,
            changes: self.changes.copy()?,
            used: self.used,
        })
    }

    // The changes, which the books can take once they are no longer lent.
    pub(crate) fn into_changes(self) -> Changes
        ensures changes { AreChangesOf self.entry.before result }
        ensures after { changed_books self.entry.before result ≡ self.entry.after }
        ensures range { AreInRange self.entry.after }
    {
        self.changes
    }

    // What holds of all drafts. It does nothing.
    pub(crate) fn ranges(&self)
        ensures range { AreInRange self.now.after }
        ensures sizes { HaveSameSizes self.now.before self.now.after }
    {
        let _ = &self.books;
    }

    // The cash of an account after the changes.
    pub(crate) fn cash(&self, account: u32) -> Option<u64>
        ensures value { result ≡ map.get self.now.after.accounts account }
        ensures range { IfSome result (λ cash. cash ≤ GREATEST_CASH) }
    {
        match change_of(&self.changes.accounts, account) {
            Some(change) => change.now,
            None => self.books.cash(account),
        }
    }

    // How much an account holds of an instrument after the changes.
    pub(crate) fn quantity(&self, account: u32, instrument: u32) -> Option<u64>
        ensures value { result ≡ map.get self.now.after.positions (account, instrument) }
        ensures range { IfSome result (λ quantity. IsWithin 1 GREATEST_QUANTITY quantity) }
    {
        match change_of(&self.changes.positions, (account, instrument)) {
            Some(change) => change.now,
            None => self.books.position(account, instrument),
        }
    }

    // The price of an instrument after the changes.
    pub(crate) fn price(&self, instrument: u32) -> Option<u64>
        ensures value { result ≡ map.get self.now.after.prices instrument }
        ensures range { IfSome result (λ price. IsWithin 1 GREATEST_PRICE price) }
    {
        match change_of(&self.changes.prices, instrument) {
            Some(change) => change.now,
            None => self.books.price(instrument),
        }
    }

    // Whether no block is left.
    pub(crate) fn is_full(&self) -> bool
        ensures value { result ≡ is_full self.now.after }
        ensures range { AreInRange self.now.after }
    {
        self.used == self.books.blocks()
    }

    // Gives an account other cash than it had, or takes it out.
    pub(crate) fn change_account(
        &mut self,
        account: u32,
        was: Option<u64>,
        now: Option<u64>,
    ) -> Result<(), OutOfMemory>
        requires was { map.get self.old.after.accounts account ≡ was }
        requires range { AreInRange (set_account self.old.after account now) }
        ensures ok { OnOk result (self.new.after ≡ set_account self.old.after account now) }
        ensures before { self.new.before ≡ self.old.before }
    {
        note_change(&mut self.changes.accounts, account, was, now)?;
        self.used = count_after(self.used, was, now);
        Ok(())
    }

    // Gives an account another position than it had, or takes it out.
    pub(crate) fn change_position(
        &mut self,
        account: u32,
        instrument: u32,
        was: Option<u64>,
        now: Option<u64>,
    ) -> Result<(), OutOfMemory>
        requires was { map.get self.old.after.positions (account, instrument) ≡ was }
        requires range { AreInRange (set_position self.old.after account instrument now) }
        ensures ok { OnOk result
            (self.new.after ≡ set_position self.old.after account instrument now) }
        ensures before { self.new.before ≡ self.old.before }
    {
        note_change(&mut self.changes.positions, (account, instrument), was, now)?;
        self.used = count_after(self.used, was, now);
        Ok(())
    }

    // Gives an instrument another price than it had.
    pub(crate) fn change_price(
        &mut self,
        instrument: u32,
        was: Option<u64>,
        price: u64,
    ) -> Result<(), OutOfMemory>
        requires was { map.get self.old.after.prices instrument ≡ was }
        requires range { AreInRange (set_price self.old.after instrument (Some price)) }
        ensures ok { OnOk result
            (self.new.after ≡ set_price self.old.after instrument (Some price)) }
        ensures before { self.new.before ≡ self.old.before }
    {
        note_change(&mut self.changes.prices, instrument, was, Some(price))?;
        self.used = count_after(self.used, was, Some(price));
        Ok(())
    }

    // Gives an account other cash than it had.
    pub(crate) fn set_cash(&mut self, account: u32, was: u64, cash: u64) -> Result<(), OutOfMemory>
        requires was { map.get self.old.after.accounts account ≡ Some was }
        requires range { cash ≤ GREATEST_CASH }
        ensures ok { OnOk result (self.new.after ≡ put_cash self.old.after account cash) }
        ensures before { self.new.before ≡ self.old.before }
    {
        self.ranges();
        self.change_account(account, Some(was), Some(cash))
    }

    // Takes out an account that had this cash and holds nothing.
    pub(crate) fn remove_account(&mut self, account: u32, was: u64) -> Result<(), OutOfMemory>
        requires was { map.get self.old.after.accounts account ≡ Some was }
        requires nothing { holds_any self.old.after account ≡ false }
        ensures ok { OnOk result (self.new.after
            ≡ record self.old.after { accounts = map.remove self.old.after.accounts account }) }
        ensures before { self.new.before ≡ self.old.before }
    {
        self.ranges();
        self.change_account(account, Some(was), None)
    }

    // Gives an instrument a price, for which there is a block if it has none.
    pub(crate) fn put_price(
        &mut self,
        instrument: u32,
        was: Option<u64>,
        price: u64,
    ) -> Result<(), OutOfMemory>
        requires was { map.get self.old.after.prices instrument ≡ was }
        requires instrument { IsInstrumentOf self.old.before instrument }
        requires range { IsWithin 1 GREATEST_PRICE price }
        requires room { was ≡ None → used self.old.after < self.old.after.blocks }
        ensures ok { OnOk result (self.new.after ≡ put_price self.old.after instrument price) }
        ensures before { self.new.before ≡ self.old.before }
    {
        self.ranges();
        self.change_price(instrument, was, price)
    }

    // Gives an account other holdings of an instrument: no position if they are 0.
    pub(crate) fn set_quantity(
        &mut self,
        account: u32,
        instrument: u32,
        was: Option<u64>,
        quantity: u64,
    ) -> Result<(), OutOfMemory>
        requires was { map.get self.old.after.positions (account, instrument) ≡ was }
        requires account { IsSome (map.get self.old.after.accounts account) }
        requires price { IsSome (map.get self.old.after.prices instrument) }
        requires range { quantity ≤ GREATEST_QUANTITY }
        requires room { was ≡ None → used self.old.after < self.old.after.blocks }
        ensures ok { OnOk result
            (self.new.after ≡ put_position self.old.after account instrument quantity) }
        ensures before { self.new.before ≡ self.old.before }
    {
        self.ranges();
        if quantity == 0 {
            return self.change_position(account, instrument, was, None);
        }
        self.change_position(account, instrument, was, Some(quantity))
    }

    // The front of the queue of margin calls after the changes.
    pub(crate) fn front(&self) -> Option<(u32, u64)>
        ensures { result ≡ slice_get self.now.after.calls 0 }
    {
        let queued = self.books.calls() as usize;
        let taken = self.changes.taken;
        if taken < queued {
            return Some(self.books.call_at(taken as u32));
        }
        self.changes.added.get(taken - queued).copied()
    }

    // Takes the front of the queue.
    pub(crate) fn take_front(&mut self)
        requires { 0 < length self.old.after.calls }
        ensures after { self.new.after
            ≡ record self.old.after { calls = drop 1 self.old.after.calls } }
        ensures before { self.new.before ≡ self.old.before }
    {
        let queued = self.books.calls() as usize + self.changes.added.len();
        prove!(self.changes.taken < queued);
        self.changes.taken += 1;
    }

    // Whether the queue holds as many margin calls as it can.
    pub(crate) fn is_queue_full(&self) -> bool
        ensures value { result ≡ (length self.now.after.calls == self.now.after.ring) }
        ensures range { AreInRange self.now.after }
    {
        let calls = self.books.calls() as usize + self.changes.added.len() - self.changes.taken;
        calls == self.books.ring() as usize
    }

    // Queues a margin call.
    pub(crate) fn queue_call(&mut self, account: u32, shortfall: u64) -> Result<(), OutOfMemory>
        requires call { IsCall (account, shortfall) }
        requires room { length self.old.after.calls < self.old.after.ring }
        ensures ok { OnOk result (self.new.after ≡ put_call self.old.after account shortfall) }
        ensures before { self.new.before ≡ self.old.before }
    {
        self.changes.added.push((account, shortfall))?;
        Ok(())
    }

    // Whether an account holds a position.
    pub(crate) fn holds_any(&self, account: u32) -> bool
        ensures { result ≡ holds_any self.now.after account }
    {
        for instrument in 1..self.books.instruments() + 1 {
            if self.quantity(account, instrument).is_some() {
                return true;
            }
        }
        false
    }

    // What an account's positions are worth.
    pub(crate) fn worth(&self, account: u32) -> u64
        ensures value { result ≡ worth_of self.now.after account }
        ensures range { result ≤ GREATEST_SHORTFALL }
    {
        let mut total = 0;
        for instrument in 1..self.books.instruments() + 1 {
            let quantity = self.quantity(account, instrument).unwrap_or(0);
            let price = self.price(instrument).unwrap_or(0);
            total += quantity * price;
        }
        total
    }

    // The cash of all accounts from one number to another, both included.
    pub(crate) fn cash_between(&self, low: u32, high: u32) -> u128
        ensures { result ≡ cash_between self.now.after low high }
    {
        if low > high {
            return 0;
        }
        let (before, now) = changed_between(&self.changes.accounts, low, high);
        self.books.cash_between(low, high) - before + now
    }
}

// What accounts from one number to another had before changes, and have after them, as far as they are changed.
fn changed_between(changes: &BTreeMap<u32, Change>, low: u32, high: u32) -> (u128, u128)
    requires forward { low ≤ high }
    requires before { before_between changes.now.entries low high < 2 ^ 128 }
    requires now { now_between changes.now.entries low high < 2 ^ 128 }
    ensures before { result.0 ≡ before_between changes.now.entries low high }
    ensures now { result.1 ≡ now_between changes.now.entries low high }
{
    let mut before = 0;
    let mut now = 0;
    for (_, change) in changes.range((Included(low), Included(high))) {
        before += u128::from(change.before.unwrap_or(0));
        now += u128::from(change.now.unwrap_or(0));
    }
    (before, now)
}

// How many there are after a key that had a value, or none, has another, or none.
fn count_after(count: u32, was: Option<u64>, now: Option<u64>) -> u32
    requires most { count ≤ MOST_BLOCKS }
    requires least { IsSome was → 0 < count }
    ensures { result + (if is_some was then 1 else 0) ≡ count + (if is_some now then 1 else 0) }
{
    count + u32::from(now.is_some()) - u32::from(was.is_some())
}
