//! Where blocks lie.

ghost use Rattle.std.specs.Prelude.{◌≡◌, ◌<◌, ◌^◌};
ghost use Rattle.txn_alloc.specs.FreeLists.{block_at, head_of};

use std::marker::Model;

/// How many lists an arena's free blocks hang in, each in that of its number modulo this. Their heads are as many words, from `Arena::heads` on.
pub const HEADS: u64 = 16;

/// How many words a block has.
pub const BLOCK_WORDS: u64 = 4;

/// How far behind a block's first word, which has the key of an entry, the word of its value stands.
pub const VALUE: u64 = 1;

/// How far behind a block's first word the name of the next block of a chain stands.
pub const NEXT: u64 = 2;

/// How far behind a block's first word the name of a node's left subtree stands.
pub const LEFT: u64 = 2;

/// How far behind a block's first word the name of a node's right subtree stands.
pub const RIGHT: u64 = 3;

/// Blocks of four words, and the heads of the lists of those that are free. Block `b` begins at `first + 4 * b`.
#[derive(Clone, Copy, Debug, PartialEq, Eq)]
pub struct Arena {
    /// The first of the heads' words.
    pub heads: u64,
    /// The first word of block 0.
    pub first: u64,
    /// How many blocks there are.
    pub blocks: u32,
}

impl Arena {
    /// The first word of a block.
    pub fn place_of(&self, block: u32) -> u64
        requires fits { block_at self.now block < 2 ^ 64 }
        ensures { result ≡ block_at self.now block }
    {
        self.first + BLOCK_WORDS * u64::from(block)
    }

    /// The head of the list of a number: block `b` hangs in that of `b` while it is free.
    pub fn head_of(&self, number: u64) -> u64
        requires fits { head_of self.now number < 2 ^ 64 }
        ensures { result ≡ head_of self.now number }
    {
        self.heads + number % HEADS
    }
}

/// A block in hand, seen as its number.
///
/// It is no copy, so that who gave it back does not go on using it.
#[derive(Drop)]
pub struct Block {
    number: u32,
}

impl Model for Block {
    ghost use Rattle.std.specs.Prelude.{ℕ};

    ghost Value = { ℕ };

    ghost view = { λ b. b.number };
}

impl Block {
    /// The block of this number.
    pub fn of(number: u32) -> Block
        ensures { result ≡ number }
    {
        Block { number }
    }

    /// Its number, counted from 0.
    pub fn number(&self) -> u32
        ensures { result ≡ self.now }
    {
        self.number
    }
}
