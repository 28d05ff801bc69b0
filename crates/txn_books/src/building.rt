//! Building words that stand for books: one entry after another, beginning with the words of empty books.
//!
//! Accounts come by rising number, so the tree is laid by its right spine. A price or a position is new, so it goes in front
//! of its chain. Neither is looked for, so the time is in proportion to the entries, whatever their keys are. Each block is
//! taken over a `Plain` of its own, so no trace grows.

ghost use Rattle.std.specs.Prelude.{◌≡◌, ℕ, ◌+◌, ◌<◌, ◌≤◌, None, IsSome, IfOk, length};
ghost use Rattle.std.specs.FinMap as map;
ghost use Rattle.books_model.specs.declared.limits.TheConstants.{GREATEST_CASH, GREATEST_PRICE, GREATEST_QUANTITY};
ghost use Rattle.books_model.specs.Books.{ClearingBooks, used, put_cash, put_price, put_quantity, put_call};
ghost use Rattle.books_model.specs.Ranges.{IsWithin, IsAccountNumber, IsCall};
ghost use Rattle.std.specs.FinSet as set;
ghost use Rattle.txn_alloc.specs.declared.arena.TheConstants.{HEADS};
ghost use Rattle.txn_alloc.specs.EntryMaps.{Blocks};
ghost use Rattle.txn_alloc.specs.FreeLists.{HasList, FreeListsHold, IsInOrder};
ghost use Rattle.txn_books.specs.declared.layout.TheConstants.{MOST_BOOK_WORDS};
ghost use Rattle.txn_tree_map.specs.Spines.{HasSpine};
ghost use Rattle.txn_books.specs.Layout.{shape_of, words_of, arena_of, tree_of};
ghost use Rattle.txn_books.specs.Standing.{Stands};
ghost use Rattle.txn_alloc.specs.Laying.{HasRisingList};
ghost use Rattle.txn_books.specs.Inner.Building.{IsBuilt, IsTaken, AreFree};
ghost use Rattle.txn_books.specs.Inner.Reading.{nothing_yet, with_accounts, with_prices, with_positions};

use crate::lay::empty_words;
use crate::layout::{position_key, price_key};
use crate::queue::queue_call;
use crate::shape::BooksShape;
use books_model::Books;
use io_ends::OutOfMemory;
use std::alloc::Global;
use txn_alloc::arena::HEADS;
use txn_alloc::{Arena, lay_free, take_near};
use txn_tree_map::Spine;
use txn_words::Plain;

/// Takes a free block out of its list. There is one.
fn take_block(
    alloc: Global,
    shape: &BooksShape,
    words: Vec<u64>,
    near: u64,
) -> Result<(Vec<u64>, u32), OutOfMemory>
    requires { (books : ClearingBooks) × IsBuilt shape.now words.items books
        × (used books < books.blocks) }
    ensures { IfOk result (λ left.
        IsTaken (arena_of shape.now) left.1 words.items left.0.items) }
{
    let mut plain = Plain::new(alloc, *shape, words);
    let Ok(taken) = take_near(&mut plain, &shape.arena(), near) else {
        return Err(OutOfMemory);
    };
    let Some(block) = taken else {
        unreachable!();
    };
    Ok((plain.into_words(), block.number()))
}

/// Puts in an account whose number is above all others, with its cash.
fn add_account(
    alloc: Global,
    shape: &BooksShape,
    words: Vec<u64>,
    spine: &mut Spine,
    account: u32,
    cash: u64,
) -> Result<Vec<u64>, OutOfMemory>
    requires books { (books : ClearingBooks) × IsBuilt shape.now words.items books
        × (map.get books.accounts account ≡ None) × (used books < books.blocks) }
    requires spine { HasSpine (tree_of shape.now) account words.items spine.old }
    requires account { IsAccountNumber account }
    requires cash { cash ≤ GREATEST_CASH }
    ensures built { IfOk result (λ left. (books : ClearingBooks) → IsBuilt shape.now words.items books
        → IsBuilt shape.now left.items (put_cash books account cash)) }
    ensures spine { IfOk result (λ left.
        HasSpine (tree_of shape.now) (account + 1) left.items spine.new) }
{
    let (mut words, block) = take_block(alloc, shape, words, u64::from(account))?;
    let key = u64::from(account);
    shape
        .tree()
        .insert_greatest(&mut words, spine, key, cash, block)?;
    Ok(words)
}

/// Puts in a price that is new.
fn add_price(
    alloc: Global,
    shape: &BooksShape,
    words: Vec<u64>,
    instrument: u32,
    price: u64,
) -> Result<Vec<u64>, OutOfMemory>
    requires books { (books : ClearingBooks) × IsBuilt shape.now words.items books
        × (map.get books.prices instrument ≡ None) × (used books < books.blocks) }
    requires instrument { IsWithin 1 shape.now.instruments instrument }
    requires price { IsWithin 1 GREATEST_PRICE price }
    ensures { IfOk result (λ left. (books : ClearingBooks) → IsBuilt shape.now words.items books
        → IsBuilt shape.now left.items (put_price books instrument price)) }
{
    let key = price_key(instrument);
    let (mut words, block) = take_block(alloc, shape, words, key)?;
    shape.chains().insert_absent(&mut words, key, price, block);
    Ok(words)
}

/// Puts in a position that is new, of an account and an instrument that are there.
fn add_position(
    alloc: Global,
    shape: &BooksShape,
    words: Vec<u64>,
    account: u32,
    instrument: u32,
    quantity: u64,
) -> Result<Vec<u64>, OutOfMemory>
    requires books { (books : ClearingBooks) × IsBuilt shape.now words.items books
        × IsSome (map.get books.accounts account) × IsSome (map.get books.prices instrument)
        × (map.get books.positions (account, instrument) ≡ None) × (used books < books.blocks) }
    requires quantity { IsWithin 1 GREATEST_QUANTITY quantity }
    ensures { IfOk result (λ left. (books : ClearingBooks) → IsBuilt shape.now words.items books
        → IsBuilt shape.now left.items (put_quantity books account instrument quantity)) }
{
    let key = position_key(account, instrument);
    let (mut words, block) = take_block(alloc, shape, words, key)?;
    shape
        .chains()
        .insert_absent(&mut words, key, quantity, block);
    Ok(words)
}

/// Puts in a margin call behind the others.
fn add_call(
    alloc: Global,
    shape: &BooksShape,
    words: Vec<u64>,
    account: u32,
    shortfall: u64,
) -> Result<Vec<u64>, OutOfMemory>
    requires books { (books : ClearingBooks) × IsBuilt shape.now words.items books
        × (length books.calls < books.ring) }
    requires call { IsCall (account, shortfall) }
    ensures { IfOk result (λ left. (books : ClearingBooks) → IsBuilt shape.now words.items books
        → IsBuilt shape.now left.items (put_call books account shortfall)) }
{
    let mut plain = Plain::new(alloc, *shape, words);
    match queue_call(&mut plain, shape, account, shortfall) {
        Ok(_) => Ok(plain.into_words()),
        Err(_) => Err(OutOfMemory),
    }
}

/// Puts in all accounts.
fn add_accounts(
    alloc: Global,
    shape: &BooksShape,
    words: Vec<u64>,
    books: &Books,
) -> Result<Vec<u64>, OutOfMemory>
    requires shape { shape.now ≡ shape_of books.now }
    requires nothing { IsBuilt shape.now words.items (nothing_yet books.now) }
    ensures { IfOk result (λ left. IsBuilt shape.now left.items (with_accounts books.now)) }
{
    books.ranges();
    let mut words = words;
    let mut spine = shape.tree().empty_spine(alloc, &words);
    let mut last = 0;
    while let Some((account, cash)) = books.account_after(last) {
        words = add_account(alloc, shape, words, &mut spine, account, cash)?;
        last = account;
    }
    Ok(words)
}

/// Puts in all prices.
fn add_prices(
    alloc: Global,
    shape: &BooksShape,
    words: Vec<u64>,
    books: &Books,
) -> Result<Vec<u64>, OutOfMemory>
    requires shape { shape.now ≡ shape_of books.now }
    requires accounts { IsBuilt shape.now words.items (with_accounts books.now) }
    ensures { IfOk result (λ left. IsBuilt shape.now left.items (with_prices books.now)) }
{
    books.ranges();
    let mut words = words;
    let mut last = 0;
    while let Some((instrument, price)) = books.price_after(last) {
        words = add_price(alloc, shape, words, instrument, price)?;
        last = instrument;
    }
    Ok(words)
}

/// Puts in all positions.
fn add_positions(
    alloc: Global,
    shape: &BooksShape,
    words: Vec<u64>,
    books: &Books,
) -> Result<Vec<u64>, OutOfMemory>
    requires shape { shape.now ≡ shape_of books.now }
    requires prices { IsBuilt shape.now words.items (with_prices books.now) }
    ensures { IfOk result (λ left. IsBuilt shape.now left.items (with_positions books.now)) }
{
    books.ranges();
    let mut words = words;
    let mut last = (0, 0);
    while let Some((account, instrument, quantity)) = books.position_after(last.0, last.1) {
        words = add_position(alloc, shape, words, account, instrument, quantity)?;
        last = (account, instrument);
    }
    Ok(words)
}

/// Puts in all margin calls, front first.
fn add_calls(
    alloc: Global,
    shape: &BooksShape,
    words: Vec<u64>,
    books: &Books,
) -> Result<Vec<u64>, OutOfMemory>
    requires shape { shape.now ≡ shape_of books.now }
    requires positions { IsBuilt shape.now words.items (with_positions books.now) }
    ensures { IfOk result (λ left. IsBuilt shape.now left.items books.now) }
{
    books.ranges();
    let mut words = words;
    for index in 0..books.calls() {
        let (account, shortfall) = books.call_at(index);
        words = add_call(alloc, shape, words, account, shortfall)?;
    }
    Ok(words)
}

/// The blocks of a list of free ones, as it goes through them.
fn list_blocks(
    alloc: Global,
    arena: &Arena,
    words: &[u64],
    list: u64,
) -> Result<Vec<u32>, OutOfMemory>
    requires order { IsInOrder arena.now words.now }
    requires list { list < HEADS }
    ensures { IfOk result
        (λ order. HasList arena.now words.now (arena.now.heads + list) order.items) }
{
    let mut order = Vec::new(alloc);
    let mut name = words[(arena.heads + list) as usize];
    while name != 0 {
        prove!(name <= u64::from(arena.blocks));
        let block = (name - 1) as u32;
        order.push(block)?;
        name = words[arena.place_of(block) as usize];
    }
    Ok(order)
}

/// The free blocks, list after list.
fn free_blocks(alloc: Global, arena: &Arena, words: &[u64]) -> Result<Vec<u32>, OutOfMemory>
    requires { IsInOrder arena.now words.now }
    ensures { IfOk result
        (λ order. (free : Blocks) → FreeListsHold arena.now words.now free
        → AreFree free order.items) }
{
    let mut order = Vec::new(alloc);
    for list in 0..HEADS {
        let blocks = list_blocks(alloc, arena, words, list)?;
        order.extend_from_slice(&blocks)?;
    }
    Ok(order)
}

/// Lists the free blocks of each list by rising number.
fn sort_free(alloc: Global, shape: &BooksShape, words: Vec<u64>) -> Result<Vec<u64>, OutOfMemory>
    requires { (books : ClearingBooks) × IsBuilt shape.now words.items books }
    ensures built { IfOk result
        (λ left. (books : ClearingBooks) → IsBuilt shape.now words.items books
        → IsBuilt shape.now left.items books) }
    ensures rising { IfOk result
        (λ left. (h : ℕ) → h < HEADS → HasRisingList (arena_of shape.now) left.items h) }
{
    let arena = shape.arena();
    let mut order = free_blocks(alloc, &arena, &words)?;
    order.sort()?;
    let mut words = words;
    lay_free(&mut words, &arena, &order);
    Ok(words)
}

/// Words that stand for the books. The free blocks of each list are listed by rising number.
pub fn build(alloc: Global, books: &Books) -> Result<Vec<u64>, OutOfMemory>
    ensures count { IfOk result (λ words. length words.items ≡ words_of (shape_of books.now)) }
    ensures few { IfOk result (λ words. length words.items ≤ MOST_BOOK_WORDS) }
    ensures stands { IfOk result (λ words. Stands (shape_of books.now) words.items books.now) }
    ensures rising { IfOk result
        (λ words. (h : ℕ) → h < HEADS
        → HasRisingList (arena_of (shape_of books.now)) words.items h) }
{
    books.ranges();
    let shape = BooksShape::of(books);
    let words = empty_words(alloc, &shape)?;
    let words = add_accounts(alloc, &shape, words, books)?;
    let words = add_prices(alloc, &shape, words, books)?;
    let words = add_positions(alloc, &shape, words, books)?;
    let words = add_calls(alloc, &shape, words, books)?;
    sort_free(alloc, &shape, words)
}
