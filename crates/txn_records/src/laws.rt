//! What follows if words stand for records, each law the contract of a function that does nothing.

ghost use Rattle.std.specs.Prelude.{◌≡◌};
ghost use Rattle.txn_records.specs.Statements.{OneRecordMap, FreeBlocksCounted, FullWithoutTwo};

use crate::layout::{BLOCKS_AT, HEADS_AT, ID_ROOT, INDEX_ROOT, RANK_STEP};

/// A list of words stands for one map of records at most.
pub fn one_map()
    ensures { OneRecordMap }
{}

/// The free blocks and two for each record are all blocks.
pub fn free_blocks_counted()
    ensures { FreeBlocksCounted }
{}

/// There are no two free blocks exactly if the store is full.
pub fn full_without_two()
    ensures { FullWithoutTwo }
{}

/// Where each part lies, and how far the index's keys of one rank lie from those of the next.
pub fn places()
    ensures id_root { ID_ROOT ≡ 0 }
    ensures heads { HEADS_AT ≡ 1 }
    ensures index_root { INDEX_ROOT ≡ 17 }
    ensures blocks { BLOCKS_AT ≡ 18 }
    ensures step { RANK_STEP ≡ 4_294_967_296 }
{}
