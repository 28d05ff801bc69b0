//! Reading the books that words stand for.
//!
//! The entries of the tree and of the chains are listed first, in any order. Then the accounts are added, the prices
//! and the positions, and last the margin calls, front first. So it takes time near linear in the number of words.

ghost use Rattle.std.specs.Prelude.{◌≡◌, ℕ, ◌<◌, List, Some, IfOk, OnOk, length, slice_get};
ghost use Rattle.books_model.specs.Books.{ClearingBooks};
ghost use Rattle.txn_ring.specs.Queues.{QueueHolds};
ghost use Rattle.txn_books.specs.Standing.{Stands, IsGoodFor};
ghost use Rattle.txn_books.specs.Inner.Reading.{AddsAccounts, AddsPrices, AddsPositions, AddsCalls};

use crate::listing::{chain_entries, tree_entries};
use crate::shape::BooksShape;
use books_model::Books;
use books_model::limits::MOST_INSTRUMENTS;
use io_ends::OutOfMemory;
use std::alloc::Global;
use txn_ring::Ring;

/// The books that the words stand for. As words stand for one books at most, there are no others.
pub fn read_books(alloc: Global, shape: &BooksShape, words: &[u64]) -> Result<Books, OutOfMemory>
    requires good { IsGoodFor shape.now words.now }
    ensures found { IfOk result (λ books. Stands shape.now words.now books) }
{
    let mut books = Books::new(alloc, shape.blocks, shape.instruments, shape.ring);
    let accounts = tree_entries(alloc, &shape.tree(), words)?;
    add_accounts(&mut books, &accounts)?;
    let chained = chain_entries(alloc, &shape.chains(), words)?;
    add_prices(&mut books, &chained)?;
    add_positions(&mut books, &chained)?;
    add_calls(&mut books, &shape.queue(), words)?;
    Ok(books)
}

/// Adds the entries of the tree.
fn add_accounts(books: &mut Books, entries: &[(u64, u64)]) -> Result<(), OutOfMemory>
    requires { (after : ClearingBooks) × AddsAccounts entries.now books.old after }
    ensures { OnOk result ((after : ClearingBooks)
        → AddsAccounts entries.now books.old after → books.new ≡ after) }
{
    for (account, cash) in entries {
        books.add_account(*account as u32, *cash)?;
    }
    Ok(())
}

/// Adds those entries of the chains that are prices.
fn add_prices(books: &mut Books, entries: &[(u64, u64)]) -> Result<(), OutOfMemory>
    requires { (after : ClearingBooks) × AddsPrices entries.now books.old after }
    ensures { OnOk result ((after : ClearingBooks)
        → AddsPrices entries.now books.old after → books.new ≡ after) }
{
    for (key, price) in entries {
        if *key < u64::from(MOST_INSTRUMENTS) {
            books.add_price(*key as u32 + 1, *price)?;
        }
    }
    Ok(())
}

/// Adds those entries of the chains that are positions.
fn add_positions(books: &mut Books, entries: &[(u64, u64)]) -> Result<(), OutOfMemory>
    requires { (after : ClearingBooks) × AddsPositions entries.now books.old after }
    ensures { OnOk result ((after : ClearingBooks)
        → AddsPositions entries.now books.old after → books.new ≡ after) }
{
    let instruments = u64::from(MOST_INSTRUMENTS);
    for (key, quantity) in entries {
        if *key >= instruments {
            let account = (*key / instruments) as u32;
            let instrument = (*key % instruments) as u32 + 1;
            books.add_position(account, instrument, *quantity)?;
        }
    }
    Ok(())
}

/// Adds the items of the ring, front first.
fn add_calls(books: &mut Books, ring: &Ring, words: &[u64]) -> Result<(), OutOfMemory>
    requires { (after : ClearingBooks) × AddsCalls ring.now words.now books.old after }
    ensures { OnOk result ((after : ClearingBooks)
        → AddsCalls ring.now words.now books.old after → books.new ≡ after) }
{
    let count = words[(ring.at + 1) as usize];
    for number in 0..count {
        let (account, shortfall) = queued(ring, words, number);
        books.add_call(account as u32, shortfall)?;
    }
    Ok(())
}

/// The item of a queue at a number, counted from 0 at the front.
fn queued(ring: &Ring, words: &[u64], number: u64) -> (u64, u64)
    requires { (items : List (ℕ × ℕ)) × QueueHolds ring.now words.now items
        × (number < length items) }
    ensures { (items : List (ℕ × ℕ)) → QueueHolds ring.now words.now items
        → slice_get items number ≡ Some result }
{
    let front = words[ring.at as usize];
    let place = (front + number) % u64::from(ring.capacity);
    let first = (ring.at + 2 + 2 * place) as usize;
    (words[first], words[first + 1])
}
