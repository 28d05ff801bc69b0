//! Three visitors, with numbers computed by hand.

ghost use Rattle.std.specs.Prelude.{◌≡◌};

use crate::{Room, Visitor, open_room};
use std::test::Fail;

#[test]
fn no_more_than_the_limit_are_inside(rt: HostRuntime) -> Result<(), Fail> {
    let room = Room { limit: 5 };
    let visitor = Visitor { room, times: 3 };
    let visitors = vec![in rt.alloc(); visitor; 3]?;
    assert_eq!(rt;
        open_room(&rt, rt.alloc(), room, visitors)?.closed.words(),
        [5].as_slice()
    );
    let room = Room { limit: 100 };
    let visitor = Visitor { room, times: 20 };
    let visitors = vec![in rt.alloc(); visitor; 3]?;
    assert_eq!(rt;
        open_room(&rt, rt.alloc(), room, visitors)?.closed.words(),
        [60].as_slice()
    );
    Ok(())
}
