//! The entries of maps that lie in a plain list of words, in any order.

ghost use Rattle.std.specs.Prelude.{◌≡◌, ℕ, ◌+◌, ◌-◌, ◌≤◌, ◌++◌, List, Some, IfOk, OnOk, length, slice_get, slice_index};
ghost use Rattle.std.specs.FinMap as entry_map;
ghost use Rattle.txn_alloc.specs.EntryMaps.{Cell, Entries, Blocks, HasMap};
ghost use Rattle.txn_alloc.specs.FreeLists.{block_at, IsLaidOut};
ghost use Rattle.txn_tree_map.specs.Trees.{TreeHolds, tree_part};
ghost use Rattle.txn_hash_map.specs.Chains.{ChainsHold, HasChain, chain_part};
ghost use Rattle.txn_books.specs.Inner.Reading.{AddsUp, entries_in};

use io_ends::OutOfMemory;
use std::alloc::Global;
use txn_alloc::Arena;
use txn_hash_map::ChainMap;
use txn_hash_map::map::BUCKETS;
use txn_tree_map::TreeMap;

/// The four words of the block that a word names.
fn block_of(arena: &Arena, words: &[u64], name: u64) -> [u64; 4]
    requires laid_out { IsLaidOut arena.now words.now }
    requires some { 1 ≤ name }
    requires block { name ≤ arena.now.blocks }
    ensures { (j : ℕ) → j ≤ 3
        → slice_get words.now (block_at arena.now (name - 1) + j) ≡ Some (slice_index result j) }
{
    prove!(name <= u64::from(arena.blocks));
    let place = arena.place_of((name - 1) as u32) as usize;
    [
        words[place],
        words[place + 1],
        words[place + 2],
        words[place + 3],
    ]
}

/// The entries of a tree.
pub(crate) fn tree_entries(
    alloc: Global,
    tree: &TreeMap,
    words: &[u64],
) -> Result<Vec<(u64, u64)>, OutOfMemory>
    requires held { HasMap (tree_part tree.now) words.now }
    ensures { IfOk result (λ listed. (entries : Entries) (used : Blocks)
        → TreeHolds tree.now words.now entries used → AddsUp entry_map.empty listed.items entries) }
{
    let mut listed = Vec::new(alloc);
    let mut names = Vec::new(alloc);
    names.push(words[tree.root as usize])?;
    while let Some(name) = names.pop() {
        if name != 0 {
            let [key, value, left, right] = block_of(&tree.arena, words, name);
            listed.push((key, value))?;
            names.push(right)?;
            names.push(left)?;
        }
    }
    Ok(listed)
}

/// Lists the entries of the chain that the word at a place heads, behind those that are listed.
fn list_chain(
    arena: &Arena,
    words: &[u64],
    place: u64,
    listed: &mut Vec<(u64, u64)>,
) -> Result<(), OutOfMemory>
    requires laid_out { IsLaidOut arena.now words.now }
    requires chain { (cells : List Cell) × HasChain arena.now words.now place cells
        × (length cells ≤ arena.now.blocks) }
    ensures { OnOk result ((cells : List Cell) → HasChain arena.now words.now place cells
        → listed.new.items ≡ listed.old.items ++ entries_in cells) }
{
    let mut name = words[place as usize];
    while name != 0 {
        let [key, value, next, _] = block_of(arena, words, name);
        listed.push((key, value))?;
        name = next;
    }
    Ok(())
}

/// The entries of all chains.
pub(crate) fn chain_entries(
    alloc: Global,
    chains: &ChainMap,
    words: &[u64],
) -> Result<Vec<(u64, u64)>, OutOfMemory>
    requires held { HasMap (chain_part chains.now) words.now }
    ensures { IfOk result (λ listed. (entries : Entries) (used : Blocks)
        → ChainsHold chains.now words.now entries used
        → AddsUp entry_map.empty listed.items entries) }
{
    let mut listed = Vec::new(alloc);
    for bucket in 0..BUCKETS {
        list_chain(&chains.arena, words, chains.buckets + bucket, &mut listed)?;
    }
    Ok(listed)
}
