//! The words of a book in which no order rests or ever rested.

ghost use Rattle.std.specs.Prelude.{◌≡◌, IfOk, length};
ghost use Rattle.std.specs.List.{range_with_len};
ghost use Rattle.order_text.specs.Orders.{empty_book};
ghost use Rattle.order_text.specs.Ranges.{IsBlockCount, IsInstrumentCount};
ghost use Rattle.order_match.specs.Layout.{words_of};
ghost use Rattle.order_match.specs.Standing.{Stands};

use crate::layout::ROOTS_AT;
use crate::shape::OrderShape;
use io_ends::OutOfMemory;
use std::alloc::Global;
use txn_alloc::arena::BLOCK_WORDS;
use txn_alloc::lay_free;

/// How many words a book of this size takes.
fn word_count(shape: &OrderShape) -> usize
    ensures { result ≡ words_of shape.now }
{
    let words = ROOTS_AT + 2 * u64::from(shape.instruments) + BLOCK_WORDS * u64::from(shape.blocks);
    words as usize
}

/// The numbers of that many blocks, rising.
fn all_blocks(alloc: Global, blocks: u32) -> Result<Vec<u32>, OutOfMemory>
    ensures { IfOk result (λ order. order.items ≡ range_with_len 0 blocks) }
{
    let order = (0..blocks).collect(alloc)?;
    Ok(order)
}

/// The words of a book of this size in which no order rests or ever rested. All blocks are free, each list by rising
/// number.
pub fn empty_words(alloc: Global, shape: &OrderShape) -> Result<Vec<u64>, OutOfMemory>
    requires blocks { IsBlockCount shape.now.blocks }
    requires instruments { IsInstrumentCount shape.now.instruments }
    ensures count { IfOk result (λ words. length words.items ≡ words_of shape.now) }
    ensures stands { IfOk result
        (λ words. Stands shape.now words.items (empty_book shape.now.blocks)) }
{
    let mut words = vec![in alloc; 0u64; word_count(shape)]?;
    let order = all_blocks(alloc, shape.blocks)?;
    lay_free(&mut words, &shape.arena(), &order);
    Ok(words)
}
