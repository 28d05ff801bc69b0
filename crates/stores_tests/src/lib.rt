//! Tests of the public calls of txn_stores, txn_cells, txn_records and order_match, in a crate of their own: they rest on
//! what those promise, and do not prove them again.
#![tactic(auto)]

#[cfg(test)]
mod cells;
#[cfg(test)]
mod laws;
#[cfg(test)]
mod orders;
#[cfg(test)]
mod records;
