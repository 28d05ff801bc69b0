//! Taking a free block, and giving one back.

ghost use Rattle.std.specs.Prelude.{◌≡◌, ℕ, ◌+◌, ◌<◌, None, Some, IfOk, IfSome, IfNone, OnOk, slice_get};
ghost use Rattle.txn_words.specs.Frames.{AppendsReads, KeepsOthers};
ghost use Rattle.txn_words.specs.Calls.{IsReady, GoesOn, WritesOnly, InEachState, LeadsTo};
ghost use Rattle.txn_words.specs.Looks.{Looks};
ghost use Rattle.txn_alloc.specs.declared.arena.TheConstants.{HEADS};
ghost use Rattle.txn_alloc.specs.FreeLists.{IsHead, IsHeadTo, IsNearest, IsHeadOrFirst, IsWrittenByTake, IsReadByTake, IsInOrder, HasNone, Lacks, Takes, Gives};

use crate::arena::{Arena, Block, HEADS};
use txn_words::{Stop, Words};

/// The block at the head of the first list that is not empty, from that of `near` on.
pub(crate) fn nearest<W: Words>(w: &mut W, arena: &Arena, near: u64) -> Result<Option<u32>, Stop>
    requires ready { IsReady W.Words w.old }
    requires order { InEachState W.Words W.Shape.Shape w.old (IsInOrder arena.now) }
    ensures found { IfOk result (λ answer. IfSome answer (λ b.
        Looks (W.Shape.word_count (W.shape w.old)) (W.Shape.good (W.shape w.old)) (W.trace w.old)
        (W.trace w.new) (λ _. IsHeadTo arena.now near b) (IsNearest arena.now near b))) }
    ensures none { IfOk result (λ answer. IfNone answer
        (Looks (W.Shape.word_count (W.shape w.old)) (W.Shape.good (W.shape w.old)) (W.trace w.old)
        (W.trace w.new) (λ _. IsHead arena.now)
        (λ words. (h : ℕ) → h < HEADS → slice_get words (arena.now.heads + h) ≡ Some 0))) }
    ensures block { IfOk result (λ answer. IfSome answer (λ b. b < arena.now.blocks)) }
    ensures goes_on { GoesOn W.Words w.old w.new result }
{
    let blocks = arena.blocks;
    for passed in 0..HEADS {
        let name = w.read(arena.head_of(near % HEADS + passed))?;
        if name != 0 {
            prove!(name - 1 < u64::from(blocks));
            return Ok(Some((name - 1) as u32));
        }
    }
    Ok(None)
}

/// Takes a free block, unless there is none: the one at the head of the first list that is not empty, from that of
/// `near` on, if the first list follows the last. Its four words may hold anything.
pub fn take_near<W: Words>(w: &mut W, arena: &Arena, near: u64) -> Result<Option<Block>, Stop>
    requires ready { IsReady W.Words w.old }
    requires order { InEachState W.Words W.Shape.Shape w.old (IsInOrder arena.now) }

    // The block leaves the free ones, of which nothing else changes.
    ensures taken { IfOk result
        (λ block. LeadsTo W.Words W.Shape.Shape w.old w.new (Takes arena.now block)) }

    // It is the one at the head of the first list that was not empty, from that of `near` on.
    ensures nearest { IfOk result (λ block.
        IfSome block
        (λ b. LeadsTo W.Words W.Shape.Shape w.old w.new
        (λ before _. IsNearest arena.now near b before))) }

    // It answers None exactly if in every state none is free.
    ensures none { IfOk result (λ block.
        IfNone block
        (LeadsTo W.Words W.Shape.Shape w.old w.new (λ before _. HasNone arena.now before))) }
    ensures none_if { IfOk result (λ block.
        LeadsTo W.Words W.Shape.Shape w.old w.new (λ before _. HasNone arena.now before)
        → block ≡ None) }

    // The block is one of the arena's, and in no list.
    ensures number { IfOk result (λ block. IfSome block (λ b. b < arena.now.blocks)) }
    ensures lacks { IfOk result (λ block.
        IfSome block (λ b. InEachState W.Words W.Shape.Shape w.new (Lacks arena.now b))) }

    ensures order { OnOk result (InEachState W.Words W.Shape.Shape w.new (IsInOrder arena.now)) }

    // No word is written but the head for the block that it takes, so every other stays. If it takes none, no word is.
    ensures frame { IfOk result
        (λ block. WritesOnly W.Words w.old w.new (IsWrittenByTake arena.now block)) }
    ensures others { IfOk result (λ block.
        LeadsTo W.Words W.Shape.Shape w.old w.new (KeepsOthers (IsWrittenByTake arena.now block))) }

    // It reads the heads from that of `near` round to that of the block that it takes, and the block's first word; if it
    // takes none, the heads.
    ensures reads { IfOk result (λ block.
        AppendsReads (W.trace w.old) (W.trace w.new) (IsReadByTake arena.now near block)) }
    ensures goes_on { GoesOn W.Words w.old w.new result }
{
    let Some(number) = nearest(w, arena, near)? else {
        return Ok(None);
    };
    let next = w.read(arena.place_of(number))?;
    w.write(arena.head_of(u64::from(number)), next)?;
    Ok(Some(Block::of(number)))
}

/// Takes a free block, unless there is none. Its four words may hold anything.
pub fn take<W: Words>(w: &mut W, arena: &Arena) -> Result<Option<Block>, Stop>
    requires ready { IsReady W.Words w.old }
    requires order { InEachState W.Words W.Shape.Shape w.old (IsInOrder arena.now) }

    // The block leaves the free ones, of which nothing else changes.
    ensures taken { IfOk result
        (λ block. LeadsTo W.Words W.Shape.Shape w.old w.new (Takes arena.now block)) }

    // It is the one at the head of the first list that was not empty, from that of number 0 on.
    ensures nearest { IfOk result (λ block.
        IfSome block
        (λ b. LeadsTo W.Words W.Shape.Shape w.old w.new
        (λ before _. IsNearest arena.now 0 b before))) }

    // It answers None exactly if in every state none is free.
    ensures none { IfOk result (λ block.
        IfNone block
        (LeadsTo W.Words W.Shape.Shape w.old w.new (λ before _. HasNone arena.now before))) }
    ensures none_if { IfOk result (λ block.
        LeadsTo W.Words W.Shape.Shape w.old w.new (λ before _. HasNone arena.now before)
        → block ≡ None) }

    // The block is one of the arena's, and in no list.
    ensures number { IfOk result (λ block. IfSome block (λ b. b < arena.now.blocks)) }
    ensures lacks { IfOk result (λ block.
        IfSome block (λ b. InEachState W.Words W.Shape.Shape w.new (Lacks arena.now b))) }

    ensures order { OnOk result (InEachState W.Words W.Shape.Shape w.new (IsInOrder arena.now)) }

    // No word is written but the head for the block that it takes, so every other stays. If it takes none, no word is.
    ensures frame { IfOk result
        (λ block. WritesOnly W.Words w.old w.new (IsWrittenByTake arena.now block)) }
    ensures others { IfOk result (λ block.
        LeadsTo W.Words W.Shape.Shape w.old w.new (KeepsOthers (IsWrittenByTake arena.now block))) }

    // It reads the heads from that of number 0 round to that of the block that it takes, and the block's first word; if it
    // takes none, the heads.
    ensures reads { IfOk result (λ block.
        AppendsReads (W.trace w.old) (W.trace w.new) (IsReadByTake arena.now 0 block)) }
    ensures goes_on { GoesOn W.Words w.old w.new result }
{
    take_near(w, arena, 0)
}

/// Gives back a block that is in no list, to the list of its number.
pub fn give<W: Words>(w: &mut W, arena: &Arena, block: Block) -> Result<(), Stop>
    requires ready { IsReady W.Words w.old }
    requires order { InEachState W.Words W.Shape.Shape w.old (IsInOrder arena.now) }
    requires number { block < arena.now.blocks }
    requires lacks { InEachState W.Words W.Shape.Shape w.old (Lacks arena.now block) }

    // The block is free, beside those that were.
    ensures given { OnOk result
        (LeadsTo W.Words W.Shape.Shape w.old w.new (Gives arena.now block)) }
    ensures order { OnOk result (InEachState W.Words W.Shape.Shape w.new (IsInOrder arena.now)) }

    // No word but the head for the block and its first word is written, so every other stays.
    ensures frame { OnOk result (WritesOnly W.Words w.old w.new (IsHeadOrFirst arena.now block)) }
    ensures others { OnOk result (
        LeadsTo W.Words W.Shape.Shape w.old w.new (KeepsOthers (IsHeadOrFirst arena.now block))) }

    // Neither is another read.
    ensures reads { OnOk result
        (AppendsReads (W.trace w.old) (W.trace w.new) (IsHeadOrFirst arena.now block)) }
    ensures goes_on { GoesOn W.Words w.old w.new result }
{
    let number = block.number();
    let head = arena.head_of(u64::from(number));
    let first = w.read(head)?;
    w.write(arena.place_of(number), first)?;
    w.write(head, u64::from(number) + 1)?;
    Ok(())
}
