//! The heap of a thread, made large at once.
//!
//! A C library that keeps a heap for each thread, as glibc does, makes it larger by 4 KiB at a time, each time by a call
//! of the system. A block that is taken and given back makes it as large at once as the block is, and no page of it is
//! touched. A large block does not come from a heap but from the system, until one as large was given back: from then on
//! blocks of up to its size come from heaps, and twice as much is kept at their end. A block that is refused is no refusal
//! of the day, and with another C library nothing is gained.

use std::alloc::Global;

// In numbers of 8 bytes, just below the 32 MiB up to which a block that is given back raises the bound.
const BOUND: usize = 4_190_000;

// In numbers of 8 bytes, 28 MiB: two blocks of them fit into one heap of glibc.
const BLOCK: usize = 3_670_016;

// A block that is taken and given back, and whether there was one.
fn take_block(alloc: Global, room: usize) -> bool {
    let block: Result<Vec<u64>, _> = Vec::with_capacity(alloc, room);
    block.is_ok()
}

/// From now on large blocks come from heaps. It is called once, before threads are started.
pub fn keep_blocks(alloc: Global) {
    let _taken = take_block(alloc, BOUND);
}

/// Makes the heap of this thread large.
pub fn enlarge(alloc: Global) {
    let first: Result<Vec<u64>, _> = Vec::with_capacity(alloc, BLOCK);
    let _taken = first.is_ok() && take_block(alloc, BLOCK);
}
