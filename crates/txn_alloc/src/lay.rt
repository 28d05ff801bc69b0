//! Laying free blocks into their lists.

ghost use Rattle.std.specs.Prelude.{◌≡◌, ℕ, ◌+◌, ◌^◌, ◌<◌, ◌≤◌, Some, All, get_or, length, slice_get, slice_set, nat_eq};
ghost use Rattle.std.specs.List.{IsDistinct};
ghost use Rattle.std.specs.FinSet as set;
ghost use Rattle.txn_words.specs.Frames.{KeepsOthers};
ghost use Rattle.txn_alloc.specs.declared.arena.TheConstants.{HEADS};
ghost use Rattle.txn_alloc.specs.FreeLists.{block_at, head_of, IsHead, IsLaidOut, HasList, FreeListsHold};
ghost use Rattle.txn_alloc.specs.Laying.{all_blocks, HasAllRising, IsInRow, IsWrittenByLaying, of_list};

use crate::arena::{Arena, HEADS};

/// Makes these blocks the free ones. Each list goes through those of its number, in this order.
pub fn lay_free(words: &mut [u64], arena: &Arena, order: &[u32])
    requires laid_out { IsLaidOut arena.now words.old }
    requires below { All (λ b. b < arena.now.blocks) order.now }
    requires once { IsDistinct nat_eq order.now }
    ensures lists { (h : ℕ) → h < HEADS
        → HasList arena.now words.new (arena.now.heads + h) (of_list h order.now) }
    ensures free { FreeListsHold arena.now words.new (set.from_list order.now) }

    // No word is written but the heads and the first words of these blocks.
    ensures others { KeepsOthers (IsWrittenByLaying arena.now order.now) words.old words.new }
{
    clear_heads(words, arena);
    for index in (0..order.len()).rev() {
        put_first(words, arena, order[index]);
    }
}

/// Makes all blocks of the arena the free ones. Each list goes through those of its number, rising.
pub fn lay_all_free(words: &mut [u64], arena: &Arena)
    requires { IsLaidOut arena.now words.old }
    ensures lists { HasAllRising arena.now words.new }
    ensures free { FreeListsHold arena.now words.new (set.from_list (all_blocks arena.now)) }

    // No word is written but the heads and the blocks' first words.
    ensures others { KeepsOthers (IsWrittenByLaying arena.now (all_blocks arena.now)) words.old words.new }
{
    clear_heads(words, arena);
    for block in (0..arena.blocks).rev() {
        put_first(words, arena, block);
    }
}

/// Puts a block in front of the others in the list of its number.
fn put_first(words: &mut [u64], arena: &Arena, block: u32)
    requires laid_out { IsLaidOut arena.now words.old }
    requires below { block < arena.now.blocks }
    ensures { words.new
        ≡ slice_set
        (slice_set words.old (block_at arena.now block)
        (get_or words.old (head_of arena.now block) 0)) (head_of arena.now block) (block + 1) }
{
    let head = arena.head_of(u64::from(block)) as usize;
    words[arena.place_of(block) as usize] = words[head];
    words[head] = u64::from(block) + 1;
}

/// Writes 0 into each head.
fn clear_heads(words: &mut [u64], arena: &Arena)
    requires { IsLaidOut arena.now words.old }
    ensures none { (a : ℕ) → IsHead arena.now a → slice_get words.new a ≡ Some 0 }
    ensures others { KeepsOthers (IsHead arena.now) words.old words.new }
{
    clear(words, arena.heads, HEADS);
}

/// Writes 0 into so many words in a row.
pub fn clear(words: &mut [u64], first: u64, count: u64)
    requires places { length words.old ≤ 2 ^ 64 }
    requires within { first + count ≤ length words.old }
    ensures none { (a : ℕ) → IsInRow first count a → slice_get words.new a ≡ Some 0 }
    ensures others { KeepsOthers (IsInRow first count) words.old words.new }
{
    for passed in 0..count {
        words[(first + passed) as usize] = 0;
    }
}
