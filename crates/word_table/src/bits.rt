//! Sets of locks, a bit for each in sixteen words, and sets of seats, a bit for each in one word.

ghost use Rattle.std.specs.Prelude.{◌≡◌, ◌<◌, ◌≤◌, ◌/◌, ◌%◌, ◌^◌, ℕ, List, [], ◌∷◌, true, slice_index, length, bit_and, bit_or, count_ones, sum_by, if◌then◌else◌};
ghost use Rattle.std.specs.Int.{bit_at, bit_not};
ghost use mir.Syntax.{w64};
ghost use Rattle.history_model.specs.Sets.{has, without, without_first, flag};
ghost use Rattle.word_table.specs.Copies.{ShowsLocks, ShowsOthers, ShowsPairs};
ghost use Rattle.word_table.specs.Least.{IsLeast};

use crate::limits::MOST_PASSES;
use history_model::LOCKS;

/// Whether the lock's bit is set.
pub(crate) fn test(row: &[u64; 16], lock: u32) -> bool
    requires { lock < LOCKS }
    ensures { flag result ≡ bit_at (slice_index row.now (lock / 64)) (lock % 64) }
{
    (row[(lock / 64) as usize] >> (lock % 64)) & 1 == 1
}

/// The word of the lock's bit with the bit set.
pub(crate) fn raised(row: &[u64; 16], lock: u32) -> u64
    requires { lock < LOCKS }
    ensures value { result ≡ bit_or (slice_index row.now (lock / 64)) (2 ^ (lock % 64)) }
    ensures fits { slice_index row.now (lock / 64) < 2 ^ 64 }
{
    row[(lock / 64) as usize] | 1 << (lock % 64)
}

/// The word of the lock's bit with the bit cleared.
pub(crate) fn lowered(row: &[u64; 16], lock: u32) -> u64
    requires { lock < LOCKS }
    ensures value { result ≡ bit_and (slice_index row.now (lock / 64))
        (bit_not w64 (2 ^ (lock % 64))) }
    ensures fits { slice_index row.now (lock / 64) < 2 ^ 64 }
{
    row[(lock / 64) as usize] & !(1 << (lock % 64))
}

/// The lock joins the set.
pub(crate) fn raise(row: &mut [u64; 16], lock: u32)
    requires { lock < LOCKS }
    ensures { (locks : List ℕ) → ShowsLocks row.old locks → ShowsLocks row.new (lock ∷ locks) }
{
    row[(lock / 64) as usize] = raised(row, lock);
}

/// The lock leaves the set.
pub(crate) fn lower(row: &mut [u64; 16], lock: u32)
    requires { lock < LOCKS }
    ensures { (locks : List ℕ) → ShowsLocks row.old locks
        → ShowsLocks row.new (without lock locks) }
{
    row[(lock / 64) as usize] = lowered(row, lock);
}

/// The lock joins the set if `yes`.
pub(crate) fn raise_if(row: &mut [u64; 16], lock: u32, yes: bool)
    requires { lock < LOCKS }
    ensures { (locks : List ℕ) → ShowsLocks row.old locks
        → ShowsLocks row.new (if yes then lock ∷ locks else locks) }
{
    if yes {
        raise(row, lock);
    }
}

/// All locks leave the set, unless `kept`.
pub(crate) fn clear_unless(row: &mut [u64; 16], kept: bool)
    ensures { (locks : List ℕ) → ShowsLocks row.old locks
        → ShowsLocks row.new (if kept then locks else []) }
{
    if !kept {
        *row = [0; 16];
    }
}

// The word with its bits below `from` cleared.
fn high_bits(word: u64, from: u32) -> u64
    requires { from < 64 }
    ensures above { (b : ℕ) → from ≤ b → b < 64 → bit_at result b ≡ bit_at word b }
    ensures below { (b : ℕ) → b < from → bit_at result b ≡ 0 }
{
    word & u64::MAX << from
}

/// The least lock of the set from `from` on.
pub(crate) fn least_from(row: &[u64; 16], from: u32) -> Option<u32>
    requires { from < LOCKS }
    ensures { (locks : List ℕ) → ShowsLocks row.now locks
        → IsLeast (λ k. (from ≤ k) × (has k locks ≡ true)) result }
{
    let first = from / 64;
    let rest = high_bits(row[first as usize], from % 64);
    if rest != 0 {
        return Some(64 * first + rest.trailing_zeros());
    }
    for i in first + 1..16 {
        let word = row[i as usize];
        if word != 0 {
            return Some(64 * i + word.trailing_zeros());
        }
    }
    None
}

/// The least lock of the set that has its bit in the word i.
#[inline(always)]
pub(crate) fn least_in(row: &[u64; 16], i: u32) -> Option<u32>
    requires { i < 16 }
    ensures { (locks : List ℕ) → ShowsLocks row.now locks
        → IsLeast (λ k. (k / 64 ≡ i) × (has k locks ≡ true)) result }
{
    let word = row[i as usize];
    if word == 0 {
        return None;
    }
    Some(64 * i + word.trailing_zeros())
}

/// How many locks the set has.
pub(crate) fn count(row: &[u64; 16]) -> u32
    ensures { result ≡ sum_by count_ones row.now }
{
    row.iter().map(|word| word.count_ones()).sum()
}

/// All seats but one.
pub(crate) fn all_but(seats: u32, who: u32) -> u64
    requires { (who < seats) × (seats ≤ MOST_PASSES) }
    ensures { ShowsOthers result seats who }
{
    (u64::MAX >> (64 - seats)) & !(1 << who)
}

/// The seats of `others` that were not scanned for the lock.
pub(crate) fn left_to_scan(others: u64, masks: &Vec<u64>, lock: u32) -> u64
    requires { lock < length masks.now.items }
    ensures value { result ≡ bit_and others (bit_not w64 (slice_index masks.now.items lock)) }
    ensures fits { slice_index masks.now.items lock < 2 ^ 64 }
{
    others & !masks[lock as usize]
}

/// The least seat of a set.
pub(crate) fn least_seat(seats: u64) -> Option<u32>
    ensures { IsLeast (λ j. bit_at seats j ≡ 1) result }
{
    if seats == 0 {
        return None;
    }
    Some(seats.trailing_zeros())
}

/// No seat is scanned for the lock any more, if `yes`.
pub(crate) fn forget_if(masks: &mut Vec<u64>, lock: u32, yes: bool)
    requires { lock < length masks.old.items }
    ensures { (pairs : List (ℕ × ℕ)) → ShowsPairs masks.old.items pairs
        → ShowsPairs masks.new.items (if yes then without_first lock pairs else pairs) }
{
    if yes {
        masks[lock as usize] = 0;
    }
}

/// The seat is scanned for the lock, if `yes`.
pub(crate) fn note_if(masks: &mut Vec<u64>, lock: u32, seat: u32, yes: bool)
    requires { (lock < length masks.old.items) × (seat < 64) }
    ensures { (pairs : List (ℕ × ℕ)) → ShowsPairs masks.old.items pairs
        → ShowsPairs masks.new.items (if yes then (lock, seat) ∷ pairs else pairs) }
{
    if yes {
        masks[lock as usize] |= 1 << seat;
    }
}
