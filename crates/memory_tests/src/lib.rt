//! Tests of the public calls of word_table, lock_or_yield, txn_commit, order_rebuild and transfers, also on threads, in a
//! crate of their own: they rest on what those promise, and do not prove them again.
#![tactic(auto)]

#[cfg(test)]
mod bound;
#[cfg(test)]
mod closing;
#[cfg(test)]
mod counting;
#[cfg(test)]
mod laws;
#[cfg(test)]
mod lists;
#[cfg(test)]
mod locks;
#[cfg(test)]
mod moves;
#[cfg(test)]
mod opening;
#[cfg(test)]
mod order;
#[cfg(test)]
mod requests;
#[cfg(test)]
mod told;
#[cfg(test)]
mod transactions;
#[cfg(test)]
mod turns;
