//! Clearing books.

ghost use Rattle.std.specs.Prelude.{◌≡◌, ℕ, ◌<◌, ◌≤◌, Some, None, IsSome, IfSome, IfNone, IfOk, OnOk, OnErr, find, nat_lt, length, option_map, slice_get};
ghost use Rattle.std.specs.BTreeMap.Range.{IsLtBy, IsLeBy};
ghost use Rattle.std.specs.FinMap as map;
ghost use Rattle.std.specs.Ordering.{is_lt};

use crate::limits::{
    GREATEST_CASH, GREATEST_PRICE, GREATEST_QUANTITY, MOST_BLOCKS, MOST_INSTRUMENTS, MOST_RING,
};
use crate::overlay::{Changes, append_all, apply_changes, drop_front, make_all_room, take_back};
use io_ends::OutOfMemory;
use std::alloc::Global;
use std::collections::{BTreeMap, VecDeque};
use std::marker::Model;
use std::ops::Bound::{Excluded, Included, Unbounded};

/// Accounts with their cash, positions, prices, and a queue of margin calls.
#[derive(Debug, Drop)]
pub struct Books {
    blocks: u32,
    instruments: u32,
    ring: u32,
    accounts: BTreeMap<u32, u64>,
    positions: BTreeMap<(u32, u32), u64>,
    prices: BTreeMap<u32, u64>,
    calls: VecDeque<(u32, u64)>,
}

impl Model for Books {
    ghost use Rattle.std.specs.FinMap as map;
    ghost use Rattle.books_model.specs.Books.{ClearingBooks};
    ghost use Rattle.books_model.specs.Inner.Codes.{books_code};
    ghost use Rattle.books_model.specs.Ranges.{AreInRange};

    ghost Value = { ClearingBooks };

    ghost coded = { books_code };

    ghost view = { λ b. record {
      blocks = b.blocks;
      instruments = b.instruments;
      ring = b.ring;
      accounts = map.from_entries b.accounts.entries;
      positions = map.from_entries b.positions.entries;
      prices = map.from_entries b.prices.entries;
      calls = b.calls.items;
    } };

    ghost invariant = { λ b. AreInRange (record {
      blocks = b.blocks;
      instruments = b.instruments;
      ring = b.ring;
      accounts = map.from_entries b.accounts.entries;
      positions = map.from_entries b.positions.entries;
      prices = map.from_entries b.prices.entries;
      calls = b.calls.items;
    }) };
}

impl Books {
    ghost use Rattle.books_model.specs.Books.{empty_books, position_cmp, put_call, put_cash, put_price, put_quantity, used};
    ghost use Rattle.books_model.specs.Inner.Changes.{AreChangesOf, changed_books};
    ghost use Rattle.books_model.specs.Interpreter.{cash_between};
    ghost use Rattle.books_model.specs.Ranges.{AreInRange, IsWithin, IsAccountNumber, IsCall, IsInstrumentOf};

    /// Empty books of these sizes. They take no memory.
    pub fn new(alloc: Global, blocks: u32, instruments: u32, ring: u32) -> Books
        requires blocks { IsWithin 1 MOST_BLOCKS blocks }
        requires instruments { IsWithin 1 MOST_INSTRUMENTS instruments }
        requires ring { IsWithin 1 MOST_RING ring }
        ensures { result ≡ empty_books blocks instruments ring }
    {
        Books {
            blocks,
            instruments,
            ring,
            accounts: BTreeMap::new(alloc),
            positions: BTreeMap::new(alloc),
            prices: BTreeMap::new(alloc),
            calls: VecDeque::new(alloc),
        }
    }

    /// What holds of all books. It does nothing.
    pub fn ranges(&self)
        ensures { AreInRange self.now }
    {
        let _ = &self.blocks;
    }

    /// How many accounts, positions and prices there may be together.
    pub fn blocks(&self) -> u32
        ensures { result ≡ self.now.blocks }
    {
        self.blocks
    }

    /// How many instruments there are. They are numbered from 1.
    pub fn instruments(&self) -> u32
        ensures { result ≡ self.now.instruments }
    {
        self.instruments
    }

    /// How many margin calls the queue holds.
    pub fn ring(&self) -> u32
        ensures { result ≡ self.now.ring }
    {
        self.ring
    }

    /// The cash of an account.
    pub fn cash(&self, account: u32) -> Option<u64>
        ensures { result ≡ map.get self.now.accounts account }
    {
        self.accounts.get(&account).copied()
    }

    /// How much an account holds of an instrument.
    pub fn position(&self, account: u32, instrument: u32) -> Option<u64>
        ensures { result ≡ map.get self.now.positions (account, instrument) }
    {
        self.positions.get(&(account, instrument)).copied()
    }

    /// The price of an instrument.
    pub fn price(&self, instrument: u32) -> Option<u64>
        ensures { result ≡ map.get self.now.prices instrument }
    {
        self.prices.get(&instrument).copied()
    }

    /// How many margin calls are queued.
    pub fn calls(&self) -> u32
        ensures { result ≡ length self.now.calls }
    {
        self.calls.len() as u32
    }

    /// The margin call at a place of the queue, from 0 at the front: its account and its shortfall.
    pub fn call_at(&self, index: u32) -> (u32, u64)
        requires { index < length self.now.calls }
        ensures { slice_get self.now.calls index ≡ Some result }
    {
        self.calls[index as usize]
    }

    /// How many accounts, positions and prices there are together.
    pub fn used(&self) -> u32
        ensures { result ≡ used self.now }
    {
        (self.accounts.len() + self.positions.len() + self.prices.len()) as u32
    }

    /// Equal books.
    pub fn copy(&self) -> Result<Books, OutOfMemory>
        ensures { IfOk result (λ copy. copy ≡ self.now) }
    {
        Ok(Books {
            blocks: self.blocks,
            instruments: self.instruments,
            ring: self.ring,
            accounts: self.accounts.clone()?,
            positions: self.positions.clone()?,
            prices: self.prices.clone()?,
            calls: self.calls.clone()?,
        })
    }

    /// Adds an account.
    pub fn add_account(&mut self, account: u32, cash: u64) -> Result<(), OutOfMemory>
        requires account { IsAccountNumber account }
        requires cash { cash ≤ GREATEST_CASH }
        requires absent { map.get self.old.accounts account ≡ None }
        requires room { used self.old < self.old.blocks }
        ensures ok { OnOk result (self.new ≡ put_cash self.old account cash) }
        ensures err { OnErr result (self.new ≡ self.old) }
    {
        self.accounts.insert(account, cash)?;
        Ok(())
    }

    /// Gives an instrument a price.
    pub fn add_price(&mut self, instrument: u32, price: u64) -> Result<(), OutOfMemory>
        requires instrument { IsInstrumentOf self.old instrument }
        requires price { IsWithin 1 GREATEST_PRICE price }
        requires absent { map.get self.old.prices instrument ≡ None }
        requires room { used self.old < self.old.blocks }
        ensures ok { OnOk result (self.new ≡ put_price self.old instrument price) }
        ensures err { OnErr result (self.new ≡ self.old) }
    {
        self.prices.insert(instrument, price)?;
        Ok(())
    }

    /// Adds a position: a quantity that an account holds of an instrument.
    pub fn add_position(
        &mut self,
        account: u32,
        instrument: u32,
        quantity: u64,
    ) -> Result<(), OutOfMemory>
        requires account { IsSome (map.get self.old.accounts account) }
        requires price { IsSome (map.get self.old.prices instrument) }
        requires quantity { IsWithin 1 GREATEST_QUANTITY quantity }
        requires absent { map.get self.old.positions (account, instrument) ≡ None }
        requires room { used self.old < self.old.blocks }
        ensures ok { OnOk result (self.new ≡ put_quantity self.old account instrument quantity) }
        ensures err { OnErr result (self.new ≡ self.old) }
    {
        self.positions.insert((account, instrument), quantity)?;
        Ok(())
    }

    /// Adds a margin call at the back of the queue: an account, which need not be there, and its shortfall.
    pub fn add_call(&mut self, account: u32, shortfall: u64) -> Result<(), OutOfMemory>
        requires call { IsCall (account, shortfall) }
        requires room { length self.old.calls < self.old.ring }
        ensures ok { OnOk result (self.new ≡ put_call self.old account shortfall) }
        ensures err { OnErr result (self.new ≡ self.old) }
    {
        self.calls.push_back((account, shortfall))?;
        Ok(())
    }

    // Puts in the changes of a script. Out of memory, the books are as before.
    pub(crate) fn put_in(&mut self, changes: &Changes) -> Result<(), OutOfMemory>
        requires changes { AreChangesOf self.old changes.now }
        requires range { AreInRange (changed_books self.old changes.now) }
        ensures ok { OnOk result (self.new ≡ changed_books self.old changes.now) }
        ensures err { OnErr result (self.new ≡ self.old) }
    {
        self.calls.reserve(changes.added.len())?;
        if let Err(error) = make_all_room(
            &mut self.accounts,
            &mut self.positions,
            &mut self.prices,
            changes,
        ) {
            take_back(&mut self.accounts, &changes.accounts);
            take_back(&mut self.positions, &changes.positions);
            take_back(&mut self.prices, &changes.prices);
            return Err(error);
        }
        apply_changes(&mut self.accounts, &changes.accounts);
        apply_changes(&mut self.positions, &changes.positions);
        apply_changes(&mut self.prices, &changes.prices);
        append_all(&mut self.calls, &changes.added);
        drop_front(&mut self.calls, changes.taken);
        Ok(())
    }

    // The cash of all accounts from one number to another, both included.
    pub(crate) fn cash_between(&self, low: u32, high: u32) -> u128
        requires { low ≤ high }
        ensures { result ≡ cash_between self.now low high }
    {
        let mut total = 0;
        for (_, cash) in self.accounts.range((Included(low), Included(high))) {
            total += u128::from(*cash);
        }
        total
    }

    /// The account with the least number above the given one, and its cash. A walk over all accounts begins with 0.
    pub fn account_after(&self, account: u32) -> Option<(u32, u64)>
        ensures first { result ≡ find (λ e. nat_lt account e.0) (map.entries self.now.accounts) }
        ensures least { IfSome result (λ e. (account < e.0)
            × (map.get self.now.accounts e.0 ≡ Some e.1)
            × ((k : ℕ) → account < k → IsSome (map.get self.now.accounts k) → e.0 ≤ k)) }
        ensures none { IfNone result
            ((k : ℕ) → IsSome (map.get self.now.accounts k) → k ≤ account) }
    {
        let (number, cash) = self.accounts.range((Excluded(account), Unbounded)).next()?;
        Some((*number, *cash))
    }

    /// The instrument with a price that has the least number above the given one, and its price. A walk over all prices
    /// begins with 0.
    pub fn price_after(&self, instrument: u32) -> Option<(u32, u64)>
        ensures first { result ≡ find (λ e. nat_lt instrument e.0) (map.entries self.now.prices) }
        ensures least { IfSome result (λ e. (instrument < e.0)
            × (map.get self.now.prices e.0 ≡ Some e.1)
            × ((k : ℕ) → instrument < k → IsSome (map.get self.now.prices k) → e.0 ≤ k)) }
        ensures none { IfNone result
            ((k : ℕ) → IsSome (map.get self.now.prices k) → k ≤ instrument) }
    {
        let (number, price) = self.prices.range((Excluded(instrument), Unbounded)).next()?;
        Some((*number, *price))
    }

    /// The least position above the given one, by account and then by instrument, and its quantity. A walk over all
    /// positions begins with 0 and 0.
    pub fn position_after(&self, account: u32, instrument: u32) -> Option<(u32, u32, u64)>
        ensures first { result ≡ option_map (λ e. (e.0.0, e.0.1, e.1))
            (find (λ e. is_lt (position_cmp (account, instrument) e.0))
            (map.entries self.now.positions)) }
        ensures least { IfSome result (λ e. IsLtBy position_cmp (account, instrument) (e.0, e.1)
            × (map.get self.now.positions (e.0, e.1) ≡ Some e.2)
            × ((k : ℕ × ℕ) → IsLtBy position_cmp (account, instrument) k
            → IsSome (map.get self.now.positions k) → IsLeBy position_cmp (e.0, e.1) k)) }
        ensures none { IfNone result ((k : ℕ × ℕ) → IsSome (map.get self.now.positions k)
            → IsLeBy position_cmp k (account, instrument)) }
    {
        let (key, quantity) = self
            .positions
            .range((Excluded((account, instrument)), Unbounded))
            .next()?;
        Some((key.0, key.1, *quantity))
    }
}
