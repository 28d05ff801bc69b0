//! What calls do to cells.

/// One access of a transaction to a cell: the cell's place, and the value that was read there or written there.
#[derive(Clone, Copy, Debug, PartialEq, Eq)]
pub enum TypedEvent<T> {
    /// The cell at this place was read, and had this value.
    Get(u32, T),
    /// This value was written to the cell at this place.
    Set(u32, T),
}
