//! The words of empty books.

ghost use Rattle.std.specs.Prelude.{◌≡◌, ℕ, ◌+◌, ◌<◌, IfOk, length};
ghost use Rattle.std.specs.List.{range_with_len};
ghost use Rattle.books_model.specs.Books.{empty_books};
ghost use Rattle.books_model.specs.Ranges.{IsWithin};
ghost use Rattle.txn_alloc.specs.declared.arena.TheConstants.{HEADS};
ghost use Rattle.txn_alloc.specs.FreeLists.{HasList};
ghost use Rattle.txn_alloc.specs.Laying.{of_list};
ghost use Rattle.txn_books.specs.Layout.{words_of, arena_of};
ghost use Rattle.txn_books.specs.Standing.{Stands};

use crate::layout::RING_ITEMS;
use crate::shape::BooksShape;
use books_model::limits::{MOST_BLOCKS, MOST_INSTRUMENTS, MOST_RING};
use io_ends::OutOfMemory;
use std::alloc::Global;
use txn_alloc::arena::BLOCK_WORDS;
use txn_alloc::lay_free;

/// How many words books of these sizes take.
fn word_count(shape: &BooksShape) -> usize
    ensures { result ≡ words_of shape.now }
{
    let words = RING_ITEMS + 2 * u64::from(shape.ring) + BLOCK_WORDS * u64::from(shape.blocks);
    words as usize
}

/// The numbers of that many blocks, rising.
fn all_blocks(alloc: Global, blocks: u32) -> Result<Vec<u32>, OutOfMemory>
    ensures { IfOk result (λ order. order.items ≡ range_with_len 0 blocks) }
{
    let order = (0..blocks).collect(alloc)?;
    Ok(order)
}

/// The words of empty books of these sizes. All blocks are free, each list by rising number.
pub fn empty_words(alloc: Global, shape: &BooksShape) -> Result<Vec<u64>, OutOfMemory>
    requires blocks { IsWithin 1 MOST_BLOCKS shape.now.blocks }
    requires instruments { IsWithin 1 MOST_INSTRUMENTS shape.now.instruments }
    requires ring { IsWithin 1 MOST_RING shape.now.ring }
    ensures count { IfOk result (λ words. length words.items ≡ words_of shape.now) }
    ensures stands { IfOk result (λ words. Stands shape.now words.items
        (empty_books shape.now.blocks shape.now.instruments shape.now.ring)) }

    // From the head of each list on they are the blocks of its number, rising.
    ensures rising { IfOk result (λ words. (h : ℕ) → h < HEADS
        → HasList (arena_of shape.now) words.items ((arena_of shape.now).heads + h)
        (of_list h (range_with_len 0 shape.now.blocks))) }
{
    let mut words = vec![in alloc; 0u64; word_count(shape)]?;
    let order = all_blocks(alloc, shape.blocks)?;
    lay_free(&mut words, &shape.arena(), &order);
    Ok(words)
}
