//! What a collection above concludes, each law the contract of a function that does nothing.

ghost use Rattle.std.specs.Prelude.{◌≡◌};
ghost use Rattle.txn_alloc.specs.Statements.{OneFreeSet, FreeListsStand, LacksTaken, LacksGiven, LengthsSum, MovedBlock};

use crate::arena::{BLOCK_WORDS, HEADS, LEFT, NEXT, RIGHT, VALUE};
use crate::spread::MULTIPLIER;

/// In one word list the free blocks are one set.
pub fn one_free_set()
    ensures { OneFreeSet }
{}

/// The same blocks stay free while the heads and the words of the free blocks stay what they are.
pub fn free_lists_stand()
    ensures { FreeListsStand }
{}

/// A block that is in no list is in none after another was taken.
pub fn lacks_taken()
    ensures { LacksTaken }
{}

/// A block that is in no list is in none after another was given back.
pub fn lacks_given()
    ensures { LacksGiven }
{}

/// Sets of blocks that share none and together have all of an arena's blocks have as many members as it has blocks.
pub fn lengths_sum()
    ensures { LengthsSum }
{}

/// A block that goes from one set to another is in as many of the two as before, and so is every other.
pub fn moved_block()
    ensures { MovedBlock }
{}

/// How many lists an arena's free blocks may hang in, how many words a block has, what stands where in it, and what a
/// key is multiplied by.
pub fn sizes()
    ensures heads { HEADS ≡ 16 }
    ensures block { BLOCK_WORDS ≡ 4 }
    ensures value { VALUE ≡ 1 }
    ensures next { NEXT ≡ 2 }
    ensures left { LEFT ≡ 2 }
    ensures right { RIGHT ≡ 3 }
    ensures multiplier { MULTIPLIER ≡ 0x9E37_79B9_7F4A_7C15 }
{}
