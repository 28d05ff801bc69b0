//! The words of a store with no record.

ghost use Rattle.std.specs.Prelude.{◌≡◌, IfOk, length};
ghost use Rattle.std.specs.FinMap as finite;
ghost use Rattle.std.specs.List.{range_with_len};
ghost use Rattle.txn_records.specs.Layout.{words_of};
ghost use Rattle.txn_records.specs.Standing.{Stands};

use crate::layout::BLOCKS_AT;
use crate::shape::RecordShape;
use io_ends::OutOfMemory;
use std::alloc::Global;
use txn_alloc::arena::BLOCK_WORDS;
use txn_alloc::lay_free;

/// How many words a store of this size takes.
fn word_count(shape: &RecordShape) -> usize
    ensures { result ≡ words_of shape.now }
{
    let words = BLOCKS_AT + BLOCK_WORDS * u64::from(shape.blocks);
    words as usize
}

/// The numbers of that many blocks, rising.
fn all_blocks(alloc: Global, blocks: u32) -> Result<Vec<u32>, OutOfMemory>
    ensures { IfOk result (λ order. order.items ≡ range_with_len 0 blocks) }
{
    let order = (0..blocks).collect(alloc)?;
    Ok(order)
}

/// The words of a store of this size with no record. All blocks are free, each list by rising number.
pub fn empty_words(alloc: Global, shape: &RecordShape) -> Result<Vec<u64>, OutOfMemory>
    ensures count { IfOk result (λ words. length words.items ≡ words_of shape.now) }
    ensures stands { IfOk result (λ words. Stands shape.now words.items finite.empty) }
{
    let mut words = vec![in alloc; 0u64; word_count(shape)]?;
    let order = all_blocks(alloc, shape.blocks)?;
    lay_free(&mut words, &shape.arena(), &order);
    Ok(words)
}
