//! Two workers over cells, of which a gate holds one until the other has committed, with values computed by hand.

use crate::tests::{CARRIED, printed};
use crate::thread_tests::OtherFirst;
use std::test::Fail;

// A round each: worker 0 adds 2^64 - 1 to cell 0 and 1 to cell 1, and worker 1 adds 2^64 - 1 to cell 1 and 1 to cell 2.
// So they have 2^64 - 1 = 18446744073709551615, 1 + 2^64 - 1 = 18446744073709551616, and 1. Tags: 65536 c + 0.
#[test]
fn cell_workers_overlap(rt: HostRuntime) -> Result<(), Fail> {
    let gate = OtherFirst::new(65_536);
    let taken = printed(&rt, rt.alloc(), "cells 2 1", &[], &gate)?;
    assert!(rt; taken.as_slice() == CARRIED.as_bytes() && !gate.gave_up.load());
    assert_eq!(rt; (gate.seat.load(), gate.call.load()), (1, 1));
    Ok(())
}
