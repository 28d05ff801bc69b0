//! Cells on a plain list, and each type's values at their ends.

ghost use Rattle.std.specs.Prelude.{◌≡◌, length};
ghost use Rattle.txn_cells.specs.Cells.{AreCells};
ghost use Rattle.txn_words.specs.Calls.{InEachState, IsReady};

use io_ends::OutOfMemory;
use std::alloc::Global;
use txn_cells::array::{CellArray, CellsShape};
use txn_cells::coded::Coded;
use txn_cells::pair::Pair;
use txn_words::{Plain, Stop, Words};

// Whether these words, and these alone, are the value's, and spell it.
fn is_spelled_by<T: Coded + PartialEq + Drop>(value: &T, words: &[u64]) -> bool
    requires count { length words.now ≡ T.WORDS }
{
    for i in 0..T::WORDS {
        if value.word(i) != words[i as usize] {
            return false;
        }
    }
    match T::of(words) {
        Some(found) => found == *value,
        None => false,
    }
}

// Whether these words spell no value.
fn spell_none<T: Coded + Drop>(words: &[u64]) -> bool
    requires count { length words.now ≡ T.WORDS }
{
    T::of(words).is_none()
}

#[test]
fn values_at_their_ends_are_spelled(rt: HostRuntime) {
    for &v in &[0, 1, u64::MAX] {
        assert!(rt; is_spelled_by(&v, &[v]) && is_spelled_by(&Some(v), &[1, v]));
    }
    assert!(rt; is_spelled_by(&None::<u64>, &[0, 0]));
    assert!(rt; is_spelled_by(&false, &[0]) && is_spelled_by(&true, &[1]));
    let low = u128::from(u64::MAX);
    for &(value, words) in &[
        (0, [0, 0]),
        (low, [u64::MAX, 0]),
        (low + 1, [0, 1]),
        (u128::MAX, [u64::MAX, u64::MAX]),
    ] {
        assert!(rt; is_spelled_by(&value, &words));
    }
    let pair = Pair {
        first: 7,
        second: 3 + (5 << 64),
    };
    assert!(rt; is_spelled_by(&pair, &[7, 3, 5]));
    assert!(rt; spell_none::<bool>(&[2]) && spell_none::<bool>(&[u64::MAX]));
    assert!(rt; spell_none::<Option<u64>>(&[0, 5]) && spell_none::<Option<u64>>(&[2, 5]));
}

// What the first of two cells was, and what the second is, once the second was set to this value, both were swapped, and
// the second with itself.
fn set_and_swap<T: Coded + Drop, W: Words>(
    cells: &CellArray<T>,
    w: &mut W,
    value: &T,
) -> Result<(T, T), Stop>
    requires two { cells.now.len ≡ 2 }
    requires ready { IsReady W.Words w.old }
    requires cells { InEachState W.Words W.Shape.Shape w.old
        (AreCells T.Coded cells.now.at cells.now.len) }
{
    let first = cells.get(w, 0)?;
    cells.set(w, 1, value)?;
    cells.swap(w, 0, 1)?;
    cells.swap(w, 1, 1)?;
    Ok((first, cells.get(w, 1)?))
}

// Whether of two cells of two words, behind the word 9, 1 + 2 * 2^64 was found in the first and is in the second, and
// 5 + 6 * 2^64 is in the first.
fn are_swapped(alloc: Global) -> Result<bool, OutOfMemory> {
    let words = Vec::from_slice(alloc, &[9, 1, 2, 3, 4])?;
    let cells = CellArray::<u128>::new(1, 2);
    let mut plain = Plain::new(alloc, CellsShape::<u128>::new(1, 2), words);
    let first = 1 + (2 << 64);
    let told = match set_and_swap(&cells, &mut plain, &(5 + (6 << 64))) {
        Ok(told) => told == (first, first),
        Err(_) => false,
    };
    Ok(told && plain.words() == [9, 5, 6, 1, 2].as_slice())
}

#[test]
fn cells_are_read_written_and_swapped(rt: HostRuntime) {
    assert!(rt; matches!(are_swapped(rt.alloc()), Ok(true)));
}
