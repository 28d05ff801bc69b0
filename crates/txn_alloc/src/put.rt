//! What an insert answers.

/// What became of a key and a value that were to be put into a map on words.
#[derive(Clone, Copy, Debug, PartialEq, Eq)]
pub enum Put {
    /// The key is new.
    New,
    /// The key was there, and had this value.
    Old(u64),
    /// The key is new, and no block is free for it. Nothing changed.
    Full,
}
