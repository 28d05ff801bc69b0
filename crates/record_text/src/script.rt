//! Scripts: operations on records, in order.

use books_report::stores::OperationList;

/// An operation on records, which go by their identifiers.
#[derive(Clone, Copy, Debug, PartialEq, Eq)]
pub enum RecordOp {
    /// The record with this identifier has this rank and data from now on, whether or not it was there.
    Put(u32, u32, u64),
    /// The record with this identifier goes.
    Remove(u32),
    /// Tells the rank and the data of the record with this identifier.
    Find(u32),
    /// Tells the identifiers of the first records of at least this rank, by rank and then by identifier: at most so many.
    Ranked(u32, u32),
}

/// Operations that are run in order, all or none.
pub type RecordScript = OperationList<RecordOp>;
