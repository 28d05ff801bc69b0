//! Blocks are taken and given back.

ghost use Rattle.std.specs.Prelude.{OnOk};
ghost use Rattle.txn_words.specs.Calls.{IsReady, GoesOn, InEachState};
ghost use Rattle.txn_alloc.specs.FreeLists.{IsInOrder};

use crate::built::built;
use std::alloc::Global;
use std::test::Fail;
use txn_alloc::{Arena, give, take, take_near};
use txn_words::{Stop, Words};

/// Where the two blocks of empty books lie.
pub(crate) const TWO: Arena = Arena {
    heads: 1,
    first: 277,
    blocks: 2,
};

/// Where twenty lie.
const TWENTY: Arena = Arena {
    heads: 1,
    first: 277,
    blocks: 20,
};

// Takes the last block that is free, and gives it back. Answers its number, if one was free and no other.
pub(crate) fn take_and_give_last<W: Words>(w: &mut W, arena: &Arena) -> Result<Option<u32>, Stop>
    requires ready { IsReady W.Words w.old }
    requires order { InEachState W.Words W.Shape.Shape w.old (IsInOrder arena.now) }
    ensures ready { OnOk result (IsReady W.Words w.new) }
    ensures order { OnOk result (InEachState W.Words W.Shape.Shape w.new (IsInOrder arena.now)) }
{
    let Some(block) = take(w, arena)? else {
        return Ok(None);
    };
    let number = block.number();
    let other = take(w, arena)?;
    give(w, arena, block)?;
    if other.is_some() {
        return Ok(None);
    }
    Ok(Some(number))
}

// The number of the block that is taken near a number, if one is free.
fn number_near<W: Words>(w: &mut W, arena: &Arena, near: u64) -> Result<Option<u32>, Stop>
    requires ready { IsReady W.Words w.old }
    requires order { InEachState W.Words W.Shape.Shape w.old (IsInOrder arena.now) }
    ensures order { OnOk result (InEachState W.Words W.Shape.Shape w.new (IsInOrder arena.now)) }
    ensures goes_on { GoesOn W.Words w.old w.new result }
{
    match take_near(w, arena, near)? {
        Some(block) => Ok(Some(block.number())),
        None => Ok(None),
    }
}

// The numbers of the first block, of the last, which is given back, and of the block that is taken then.
fn take_all<W: Words>(w: &mut W, arena: &Arena) -> Result<[Option<u32>; 3], Stop>
    requires ready { IsReady W.Words w.old }
    requires order { InEachState W.Words W.Shape.Shape w.old (IsInOrder arena.now) }
{
    let first = number_near(w, arena, 0)?;
    let last = take_and_give_last(w, arena)?;
    let again = number_near(w, arena, 0)?;
    Ok([first, last, again])
}

#[test]
fn take_until_none_and_give_back(rt: HostRuntime) -> Result<(), Fail> {
    let mut plain = built(rt.alloc(), 2)?;
    assert_eq!(rt; take_all(&mut plain, &TWO)?, [Some(0), Some(1), Some(1)]);
    Ok(())
}

// The number of the first take that gives another block. Each row has the number near which it is, and the block.
fn first_wrong<W: Words>(
    w: &mut W,
    arena: &Arena,
    takes: &[(u64, Option<u32>)],
) -> Result<Option<usize>, Stop>
    requires ready { IsReady W.Words w.old }
    requires order { InEachState W.Words W.Shape.Shape w.old (IsInOrder arena.now) }
{
    for (number, &(near, block)) in takes.iter().enumerate() {
        if number_near(w, arena, near)? != block {
            return Ok(Some(number));
        }
    }
    Ok(None)
}

// The same of twenty blocks, which are all free.
fn first_wrong_of_twenty(
    alloc: Global,
    takes: &[(u64, Option<u32>)],
) -> Result<Option<usize>, Fail> {
    let mut plain = built(alloc, 20)?;
    Ok(first_wrong(&mut plain, &TWENTY, takes)?)
}

#[test]
fn take_near_begins_at_its_own_list(rt: HostRuntime) -> Result<(), Fail> {
    let takes = &[(3, Some(3)), (3, Some(19)), (3, Some(4))];
    assert_eq!(rt; first_wrong_of_twenty(rt.alloc(), takes)?, None);
    Ok(())
}

/// Lists 3 to 15, and then 0 to 2; lists 0 to 3 have two blocks each.
#[test]
fn take_near_wraps_round_until_none(rt: HostRuntime) -> Result<(), Fail> {
    let takes = &[
        (19, Some(3)),
        (19, Some(19)),
        (19, Some(4)),
        (19, Some(5)),
        (19, Some(6)),
        (19, Some(7)),
        (19, Some(8)),
        (19, Some(9)),
        (19, Some(10)),
        (19, Some(11)),
        (19, Some(12)),
        (19, Some(13)),
        (19, Some(14)),
        (19, Some(15)),
        (19, Some(0)),
        (19, Some(16)),
        (19, Some(1)),
        (19, Some(17)),
        (19, Some(2)),
        (19, Some(18)),
        (0, None),
    ];
    assert_eq!(rt; first_wrong_of_twenty(rt.alloc(), takes)?, None);
    Ok(())
}
