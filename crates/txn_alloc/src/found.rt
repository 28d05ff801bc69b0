//! What a search answers.

/// Where a search through a map on words found its key.
#[derive(Clone, Copy, Debug, PartialEq, Eq)]
pub struct Found {
    /// The place of the word that names the key's block.
    pub place: u64,
    /// The number of the block.
    pub block: u32,
}
