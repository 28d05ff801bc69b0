//! The shape of words that hold a map.

ghost use Rattle.txn_alloc.specs.EntryMaps.{Part, HasMapApart};

use history_model::Shape;

/// A map from keys to values on words, each entry in a block of an arena.
///
/// It has no method: a map's calls are its own, and contracts speak of the part of the words that it lies on.
pub trait BlockMap: Copy {
    /// The map's part of the words.
    ghost part: { Self → Part };
}

/// So many words, which hold a map, apart from the free blocks of its arena.
#[derive(Clone, Copy, Debug, PartialEq, Eq)]
pub struct MapShape<M> {
    /// Where the map lies.
    pub map: M,
    /// How many words there are.
    pub words: u64,
}

impl<M: BlockMap> Shape for MapShape<M> {
    ghost word_count = { λ shape. shape.words };

    ghost good = { λ shape s. HasMapApart (M.part shape.map) s };
}
