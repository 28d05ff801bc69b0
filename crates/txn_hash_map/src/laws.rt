//! What a collection above concludes, each law the contract of a function that does nothing.

ghost use Rattle.std.specs.Prelude.{◌≡◌};
ghost use Rattle.txn_hash_map.specs.Statements.{OneMap, ChainsStand, AsManyBlocks};

use crate::map::BUCKETS;

/// In one word list the map is one.
pub fn one_map()
    ensures { OneMap }
{}

/// The map stands if its buckets and the words of its used blocks stay.
pub fn chains_stand()
    ensures { ChainsStand }
{}

/// The map uses as many blocks as it has entries.
pub fn as_many_blocks()
    ensures { AsManyBlocks }
{}

/// How many buckets a map has.
pub fn sizes()
    ensures { BUCKETS ≡ 256 }
{}
