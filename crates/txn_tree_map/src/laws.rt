//! What a collection above concludes, each law the contract of a function that does nothing.

ghost use Rattle.txn_tree_map.specs.Statements.{OneMap, TreeStands, PrioritiesDiffer, AsManyBlocks};

/// In one word list the map is one.
pub fn one_map()
    ensures { OneMap }
{}

/// The map stands if its root and the words of its used blocks stay.
pub fn tree_stands()
    ensures { TreeStands }
{}

/// Different keys have different priorities, so that a tree of given keys is one.
pub fn priorities_differ()
    ensures { PrioritiesDiffer }
{}

/// The map uses as many blocks as it has entries.
pub fn as_many_blocks()
    ensures { AsManyBlocks }
{}
