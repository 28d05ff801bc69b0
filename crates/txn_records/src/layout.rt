//! Where the parts of a record store lie in words, and under which keys the index holds data.

ghost use Rattle.std.specs.Prelude.{◌≡◌};
ghost use Rattle.txn_records.specs.Layout.{arena_of, tree_of, index_key_of, id_in, rank_in_key};

use crate::shape::RecordShape;
use txn_alloc::Arena;
use txn_tree_map::TreeMap;

/// The root of the tree of ranks by identifier.
pub const ID_ROOT: u64 = 0;

/// The first head of a list of free blocks.
pub const HEADS_AT: u64 = 1;

/// The root of the index.
pub const INDEX_ROOT: u64 = 17;

/// The first word of the blocks.
pub const BLOCKS_AT: u64 = 18;

/// How far the index's keys of one rank lie from those of the next: there are as many as there are identifiers, and one
/// more.
pub const RANK_STEP: u64 = 4_294_967_296;

/// One of the two trees, by the order of its keys.
#[derive(Clone, Copy, Debug, PartialEq, Eq)]
pub enum Order {
    /// The tree of ranks, by identifier.
    ById,
    /// The index: the tree of data, by rank and then by identifier.
    ByRank,
}

impl RecordShape {
    /// The blocks, and the heads of the free ones.
    pub fn arena(&self) -> Arena
        ensures { result ≡ arena_of self.now }
    {
        Arena {
            heads: HEADS_AT,
            first: BLOCKS_AT,
            blocks: self.blocks,
        }
    }

    /// One of the two trees. Both take their blocks from the same arena.
    pub fn tree(&self, order: Order) -> TreeMap
        ensures { result ≡ tree_of self.now order }
    {
        let root = match order {
            Order::ById => ID_ROOT,
            Order::ByRank => INDEX_ROOT,
        };
        TreeMap {
            root,
            arena: self.arena(),
        }
    }
}

/// The key of a record in the index. Keys of one rank follow one another by identifier, those of the next behind them.
pub fn index_key(rank: u32, id: u32) -> u64
    ensures { result ≡ index_key_of rank id }
{
    u64::from(rank) * RANK_STEP + u64::from(id)
}

/// The identifier in a key of the index.
pub fn id_of(key: u64) -> u32
    ensures { result ≡ id_in key }
{
    (key % RANK_STEP) as u32
}

/// The rank in a key of the index.
pub fn rank_of(key: u64) -> u32
    ensures { result ≡ rank_in_key key }
{
    (key / RANK_STEP) as u32
}
