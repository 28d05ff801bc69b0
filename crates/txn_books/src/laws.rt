//! What an operation on books concludes, each law the contract of a function that does nothing.

ghost use Rattle.std.specs.Prelude.{◌≡◌};
ghost use Rattle.txn_books.specs.Statements.{KeysDiffer, OneBooks, TreeChangeStands, ChainChangeStands, QueueChangeStands, FreeBlocksCounted};

use crate::layout::{BUCKETS_AT, HEADS_AT, MOST_BOOK_WORDS, RING_AT, RING_ITEMS, ROOT};

/// Different positions and prices have different keys.
pub fn keys_differ()
    ensures { KeysDiffer }
{}

/// A list of words stands for one books at most.
pub fn one_books()
    ensures { OneBooks }
{}

/// The other parts stand if a call on the tree wrote what it may write.
pub fn tree_change_stands()
    ensures { TreeChangeStands }
{}

/// The other parts stand if a call on the chains wrote what it may write.
pub fn chain_change_stands()
    ensures { ChainChangeStands }
{}

/// The other parts stand if a call on the queue wrote what it may write.
pub fn queue_change_stands()
    ensures { QueueChangeStands }
{}

/// The free blocks, those in hand and those that the books use are all blocks.
pub fn free_blocks_counted()
    ensures { FreeBlocksCounted }
{}

/// Where each part lies, and how many words there are at most.
pub fn places()
    ensures root { ROOT ≡ 0 }
    ensures heads { HEADS_AT ≡ 1 }
    ensures buckets { BUCKETS_AT ≡ 17 }
    ensures ring { RING_AT ≡ 273 }
    ensures ring_items { RING_ITEMS ≡ 275 }
    ensures words { MOST_BOOK_WORDS ≡ 264_467 }
{}
