//! What follows if words stand for a limit order book, each law the contract of a function that does nothing.

ghost use Rattle.std.specs.Prelude.{◌≡◌};
ghost use Rattle.order_match.specs.Statements.{ChainChangeStands, FreeBlocksCounted, FullWithoutTwo, KeysAreServed, LastChangeStands, OneBook, PartnersAreFront, SidesDiffer, TreeChangeStands, TreesAreServed};

use crate::layout::{BUCKETS_AT, HALF, HEADS_AT, LAST_AT, PRICE_CEILING, ROOTS_AT};

/// Tree order is the partners' order: of two orders of a side the one that is served first has the lower key; going up
/// the keys of a side's tree from 0 is going down its orders as they are served; and the partners of an incoming order
/// are the front of these, up to the first price that it does not allow.
pub fn trees_are_served()
    ensures keys { KeysAreServed }
    ensures trees { TreesAreServed }
    ensures partners { PartnersAreFront }
{}

/// Different sides have different numbers, and so different roots.
pub fn sides_differ()
    ensures { SidesDiffer }
{}

/// A list of words stands for one book at most.
pub fn one_book()
    ensures { OneBook }
{}

/// The free blocks and two for each order are all blocks.
pub fn free_blocks_counted()
    ensures { FreeBlocksCounted }
{}

/// There are no two free blocks exactly if there are not enough for an order more.
pub fn full_without_two()
    ensures { FullWithoutTwo }
{}

/// The other parts stand if a call on the tree of one side wrote what it may write: said once for each of the trees.
pub fn tree_change_stands()
    ensures { TreeChangeStands }
{}

/// The other parts stand if a call on the chains wrote what it may write.
pub fn chain_change_stands()
    ensures { ChainChangeStands }
{}

/// The other parts stand if the last order number alone was written.
pub fn last_change_stands()
    ensures { LastChangeStands }
{}

/// Where each part lies, what the upper half of a word counts, and what the prices of buys are taken from.
pub fn places()
    ensures last { LAST_AT ≡ 0 }
    ensures heads { HEADS_AT ≡ 1 }
    ensures buckets { BUCKETS_AT ≡ 17 }
    ensures roots { ROOTS_AT ≡ 273 }
    ensures half { HALF ≡ 4_294_967_296 }
    ensures ceiling { PRICE_CEILING ≡ 4_294_967_295 }
{}
