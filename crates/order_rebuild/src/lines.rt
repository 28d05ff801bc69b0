//! The lines of a list of items, in one row.

ghost use Rattle.std.specs.Prelude.{◌≡◌, ℕ, ◌<◌, ◌≤◌, ◌/◌, IfOk, OnOk, length, map, slice_get, slice_index, vec_len, Some};
ghost use Rattle.std.specs.List.Sorted.{IsNonDecreasingBy, IsNonDecreasing};
ghost use Rattle.order_rebuild.specs.declared.turn.Turn.{Turn};
ghost use Rattle.order_rebuild.specs.Turns.{IsRising, AreTurns, GainTurns};
ghost use Rattle.order_rebuild.specs.Lines.{AreStarts, AreChains, AreLinesOf};

use crate::turn::{LINE, Turn, code_of_caller, is_rising, lock_code};
use history_model::{LockUse, Placed};
use io_ends::OutOfMemory;
use std::alloc::Global;

/// The lines, one behind the other, each in its order. If items stand level in a line, none of them has to come
/// before another.
#[derive(Drop)]
pub(crate) struct Lines {
    /// Of each item, its caller.
    pub(crate) callers: Vec<u32>,
    /// Of each item, one more than the last place where it stands.
    pub(crate) last: Vec<usize>,
    /// At each place, who stands there.
    pub(crate) item: Vec<usize>,
    /// At each place, the first place of the line.
    pub(crate) base: Vec<usize>,
    /// At each place, the first place of those that stand level with it.
    pub(crate) first: Vec<usize>,
    /// At each place, one more than the place before where the same item stands, or 0.
    pub(crate) before: Vec<usize>,
}

/// Puts in the turns of an item's uses.
fn push_turns(turns: &mut Vec<Turn>, uses: &[LockUse], item: usize) -> Result<(), OutOfMemory>
    ensures { OnOk result
        (GainTurns uses.now item (length uses.now) turns.old.items turns.new.items) }
{
    let rising = is_rising(uses);
    for i in 0..uses.len() {
        let code = lock_code(uses, i, rising);
        turns.push(Turn { code, item })?;
    }
    Ok(())
}

/// The turns of all items, item by item.
fn turns_of<P: Placed>(alloc: Global, done: &[P]) -> Result<Vec<Turn>, OutOfMemory>
    ensures { IfOk result (λ turns. AreTurns (map P.spot done.now) (length done.now) turns.items) }
{
    let mut turns = Vec::new(alloc);
    for p in 0..done.len() {
        let x = &done[p];
        push_turns(&mut turns, x.uses(), p)?;
        let code = code_of_caller(x.caller(), x.index());
        turns.push(Turn { code, item: p })?;
    }
    Ok(turns)
}

/// The same turns, in order.
fn sorted_turns<P: Placed>(alloc: Global, done: &[P]) -> Result<Vec<Turn>, OutOfMemory>
    ensures turns { IfOk result
        (λ turns. AreTurns (map P.spot done.now) (length done.now) turns.items) }
    ensures sorted { IfOk result (λ turns. IsNonDecreasingBy (λ (t : Turn). t.code) turns.items) }
{
    let mut turns = turns_of(alloc, done)?;
    turns.sort_by_key(|turn| turn.code)?;
    Ok(turns)
}

fn callers_of<P: Placed>(alloc: Global, done: &[P]) -> Result<Vec<u32>, OutOfMemory>
    ensures { IfOk result (λ callers. callers.items ≡ map (λ x. (P.spot x).caller) done.now) }
{
    Ok(done.iter().map(|x| x.caller()).collect(alloc)?)
}

fn codes_of(alloc: Global, turns: &[Turn]) -> Result<Vec<u128>, OutOfMemory>
    ensures { IfOk result (λ codes. codes.items ≡ map (λ t. t.code) turns.now) }
{
    Ok(turns.iter().map(|turn| turn.code).collect(alloc)?)
}

fn items_of(alloc: Global, turns: &[Turn]) -> Result<Vec<usize>, OutOfMemory>
    ensures { IfOk result (λ item. item.items ≡ map (λ t. t.item) turns.now) }
{
    Ok(turns.iter().map(|turn| turn.item).collect(alloc)?)
}

/// At each place the first place of the line.
fn bases_of(alloc: Global, codes: &[u128]) -> Result<Vec<usize>, OutOfMemory>
    requires { IsNonDecreasing codes.now }
    ensures { IfOk result
        (λ base. AreStarts (λ i. slice_index codes.now i / LINE) (length codes.now) base.items) }
{
    let mut base = Vec::with_capacity(alloc, codes.len())?;
    let mut start = 0;
    for i in 0..codes.len() {
        if codes[i] / LINE != codes[start] / LINE {
            start = i;
        }
        base.push(start)?;
    }
    Ok(base)
}

/// At each place the first place of those that stand level with it.
fn firsts_of(alloc: Global, codes: &[u128]) -> Result<Vec<usize>, OutOfMemory>
    requires { IsNonDecreasing codes.now }
    ensures { IfOk result
        (λ first. AreStarts (λ i. slice_index codes.now i) (length codes.now) first.items) }
{
    let mut first = Vec::with_capacity(alloc, codes.len())?;
    let mut start = 0;
    for i in 0..codes.len() {
        if codes[i] != codes[start] {
            start = i;
        }
        first.push(start)?;
    }
    Ok(first)
}

/// The places of each item from its last one down.
fn befores_of(alloc: Global, item: &[usize], last: &mut [usize]) -> Result<Vec<usize>, OutOfMemory>
    requires inside { (i : ℕ) → i < length item.now → slice_index item.now i < length last.old }
    requires empty { (p : ℕ) → slice_index last.old p ≡ 0 }
    ensures { IfOk result
        (λ before. AreChains item.now (length item.now) (length last.old) before.items last.new) }
{
    let mut before = Vec::with_capacity(alloc, item.len())?;
    for i in 0..item.len() {
        let p = item[i];
        before.push(last[p])?;
        last[p] = i + 1;
    }
    Ok(before)
}

/// The places of each item of a list of so many, and its last one.
fn chains_of(
    alloc: Global,
    item: &[usize],
    count: usize,
) -> Result<(Vec<usize>, Vec<usize>), OutOfMemory>
    requires { (i : ℕ) → i < length item.now → slice_index item.now i < count }
    ensures chains { IfOk result
        (λ r. AreChains item.now (length item.now) count r.0.items r.1.items) }
    ensures count { IfOk result (λ r. vec_len r.1 ≡ count) }
{
    let mut last = vec![in alloc; 0; count]?;
    let before = befores_of(alloc, item, &mut last)?;
    Ok((before, last))
}

impl Lines {
    /// The lines of a list.
    pub(crate) fn of<P: Placed>(alloc: Global, done: &[P]) -> Result<Lines, OutOfMemory>
        ensures { IfOk result (AreLinesOf (map P.spot done.now)) }
    {
        let turns = sorted_turns(alloc, done)?;
        let item = items_of(alloc, turns.as_slice())?;
        let codes = codes_of(alloc, turns.as_slice())?;
        let (before, last) = chains_of(alloc, item.as_slice(), done.len())?;
        let callers = callers_of(alloc, done)?;
        let base = bases_of(alloc, codes.as_slice())?;
        let first = firsts_of(alloc, codes.as_slice())?;
        Ok(Lines {
            callers,
            last,
            item,
            base,
            first,
            before,
        })
    }
}
