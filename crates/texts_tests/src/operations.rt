//! The operations of a branch.

use books_model::{Op, Ops};
use std::test::Fail;

#[test]
fn operations_stand_at_their_places(rt: HostRuntime) -> Result<(), Fail> {
    let mut operations = Ops::new(rt.alloc());
    operations.push(Op::Next)?;
    operations.push(Op::Show(7))?;
    assert!(rt; operations.at(0) == Op::Next && operations.at(1) == Op::Show(7));
    Ok(())
}
