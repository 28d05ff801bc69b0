//! Where the parts of books lie in words, and under which keys the chains hold positions and prices.

ghost use Rattle.std.specs.Prelude.{◌≡◌, ◌≤◌};
ghost use Rattle.books_model.specs.Ranges.{IsWithin};
ghost use Rattle.books_model.specs.declared.limits.TheConstants.{MOST_INSTRUMENTS};
ghost use Rattle.txn_books.specs.Layout.{arena_of, tree_of, chains_of, queue_of, price_key_of, position_key_of};

use crate::shape::BooksShape;
use books_model::limits::{MOST_BLOCKS, MOST_INSTRUMENTS, MOST_RING};
use txn_alloc::Arena;
use txn_alloc::arena::BLOCK_WORDS;
use txn_hash_map::ChainMap;
use txn_ring::Ring;
use txn_tree_map::TreeMap;

/// The root of the tree of accounts.
pub const ROOT: u64 = 0;

/// The first head of a list of free blocks.
pub const HEADS_AT: u64 = 1;

/// The first bucket.
pub const BUCKETS_AT: u64 = 17;

/// The ring's first word.
pub const RING_AT: u64 = 273;

/// The first word of the ring's places. Behind its last place the blocks begin.
pub const RING_ITEMS: u64 = 275;

/// The most words that books take.
pub const MOST_BOOK_WORDS: u64 = RING_ITEMS
    + 2 * MOST_RING as u64
    + BLOCK_WORDS * MOST_BLOCKS as u64;

impl BooksShape {
    /// The blocks, and the heads of the free ones.
    pub fn arena(&self) -> Arena
        ensures { result ≡ arena_of self.now }
    {
        Arena {
            heads: HEADS_AT,
            first: RING_ITEMS + 2 * u64::from(self.ring),
            blocks: self.blocks,
        }
    }

    /// The tree of accounts and their cash.
    pub fn tree(&self) -> TreeMap
        ensures { result ≡ tree_of self.now }
    {
        TreeMap {
            root: ROOT,
            arena: self.arena(),
        }
    }

    /// The chains of positions and prices.
    pub fn chains(&self) -> ChainMap
        ensures { result ≡ chains_of self.now }
    {
        ChainMap {
            buckets: BUCKETS_AT,
            arena: self.arena(),
        }
    }

    /// The queue of margin calls.
    pub fn queue(&self) -> Ring
        ensures { result ≡ queue_of self.now }
    {
        Ring {
            at: RING_AT,
            capacity: self.ring,
        }
    }
}

/// The key of an instrument's price.
pub fn price_key(instrument: u32) -> u64
    requires instrument { 1 ≤ instrument }
    ensures { result ≡ price_key_of instrument }
{
    u64::from(instrument - 1)
}

/// The key of a position. The accounts' keys follow one another, each behind those of the prices.
pub fn position_key(account: u32, instrument: u32) -> u64
    requires instrument { IsWithin 1 MOST_INSTRUMENTS instrument }
    ensures { result ≡ position_key_of account instrument }
{
    u64::from(MOST_INSTRUMENTS) * u64::from(account) + u64::from(instrument - 1)
}
