//! Changes of maps and of a queue, gathered beside them, and how they are put in.

ghost use Rattle.std.specs.Prelude.{◌≡◌, ℕ, ◌≤◌, ◌+◌, ◌++◌, IsSome, IfSome, IfNone, IfOk, OnOk, OnErr, drop, length};
ghost use Rattle.std.specs.BTreeMap.{IsOrdered};
ghost use Rattle.std.specs.FinMap as map;
ghost use Rattle.std.specs.Ordering.{nat_cmp};
ghost use Rattle.std.specs.VecDeque.{deque_capacity, deque_len};
ghost use Rattle.books_model.specs.Books.{position_cmp};
ghost use Rattle.books_model.specs.Inner.Changes.{HasRoomFor, IsCopyOf, IsRoomier, KnowBefore, changed, new_value as value_of_new, set_at};

use io_ends::OutOfMemory;
use std::collections::{BTreeMap, VecDeque};

// What a key had before a script, and what it has after the operations so far.
#[derive(Clone, Copy)]
pub(crate) struct Change {
    pub(crate) before: Option<u64>,
    pub(crate) now: Option<u64>,
}

// The changes of a script so far.
#[derive(Drop)]
pub(crate) struct Changes {
    pub(crate) accounts: BTreeMap<u32, Change>,
    pub(crate) positions: BTreeMap<(u32, u32), Change>,
    pub(crate) prices: BTreeMap<u32, Change>,
    // How many margin calls were taken from the front of the queue.
    pub(crate) taken: usize,
    // The margin calls that joined its back.
    pub(crate) added: Vec<(u32, u64)>,
}

impl Changes {
    // Equal changes.
    pub(crate) fn copy(&self) -> Result<Changes, OutOfMemory>
        ensures { IfOk result (λ copy. IsCopyOf self.now copy) }
    {
        Ok(Changes {
            accounts: self.accounts.clone()?,
            positions: self.positions.clone()?,
            prices: self.prices.clone()?,
            taken: self.taken,
            added: self.added.clone()?,
        })
    }
}

// Keys of maps: those that compare alike are one.
pub(crate) trait Key: Ord + Copy {
    ghost exact: { map.IsAntisymmetric Self.cmp };
}

impl Key for u32 {
    ghost exact = { map.«nat_cmp-IsAntisymmetric» };
}

impl Key for (u32, u32) {
    ghost use Rattle.books_model.specs.Inner.Keys.{exact_positions};

    ghost exact = { exact_positions };
}

// The change of a key, if it was changed.
pub(crate) fn change_of<K: Key>(changes: &BTreeMap<K, Change>, key: K) -> Option<Change>
    ensures changed { IfSome result (λ change. (m : map.FinMap K.cmp ℕ)
        → map.get (changed m changes.now.entries) key ≡ change.now) }
    ensures same { IfNone result ((m : map.FinMap K.cmp ℕ)
        → map.get (changed m changes.now.entries) key ≡ map.get m key) }
    ensures before { IfSome result (λ change. (m : map.FinMap K.cmp ℕ)
        → KnowBefore m changes.now.entries → change.before ≡ map.get m key) }
{
    changes.get(&key).copied()
}

// What a key had before all changes, from what it has after them.
fn value_before<K: Key>(changes: &BTreeMap<K, Change>, key: K, was: Option<u64>) -> Option<u64>
    ensures { (m : map.FinMap K.cmp ℕ) → map.get (changed m changes.now.entries) key ≡ was
        → KnowBefore m changes.now.entries → result ≡ map.get m key }
{
    match change_of(changes, key) {
        Some(change) => change.before,
        None => was,
    }
}

// Adds a change of a key, from what it has after the changes so far.
pub(crate) fn note_change<K: Key>(
    changes: &mut BTreeMap<K, Change>,
    key: K,
    was: Option<u64>,
    now: Option<u64>,
) -> Result<(), OutOfMemory>
    ensures ok { OnOk result ((m : map.FinMap K.cmp ℕ)
        → changed m changes.new.entries ≡ set_at (changed m changes.old.entries) key now) }
    ensures known { OnOk result ((m : map.FinMap K.cmp ℕ)
        → map.get (changed m changes.old.entries) key ≡ was
        → KnowBefore m changes.old.entries → KnowBefore m changes.new.entries) }
    ensures err { OnErr result (changes.new.entries ≡ changes.old.entries) }
    ensures ordered { IsOrdered K.cmp changes.new }
{
    let before = value_before(changes, key, was);
    changes.insert(key, Change { before, now })?;
    Ok(())
}

// The value that a change gives a key that had none.
fn new_value(change: Change) -> Option<u64>
    ensures { result ≡ value_of_new change }
{
    match change.before {
        Some(_) => None,
        None => change.now,
    }
}

// Inserts the keys that changes give a value and the map lacks, so that putting the changes in takes no memory.
pub(crate) fn make_room<K: Key>(
    values: &mut BTreeMap<K, u64>,
    changes: &BTreeMap<K, Change>,
) -> Result<(), OutOfMemory>
    requires { KnowBefore (map.from_entries {R = K.cmp} values.old.entries) changes.now.entries }
    ensures roomier { IsRoomier changes.now.entries
        (map.from_entries {R = K.cmp} values.old.entries)
        (map.from_entries {R = K.cmp} values.new.entries) }
    ensures ok { OnOk result
        (HasRoomFor (map.from_entries {R = K.cmp} values.new.entries) changes.now.entries) }
{
    for (key, change) in changes {
        if let Some(value) = new_value(*change) {
            values.insert(*key, value)?;
        }
    }
    Ok(())
}

// Takes out the keys that room was made for.
pub(crate) fn take_back<K: Key>(values: &mut BTreeMap<K, u64>, changes: &BTreeMap<K, Change>)
    ensures { (before : map.FinMap K.cmp ℕ) → KnowBefore before changes.now.entries
        → IsRoomier changes.now.entries before (map.from_entries {R = K.cmp} values.old.entries)
        → map.from_entries {R = K.cmp} values.new.entries ≡ before }
{
    for (key, change) in changes {
        if change.before.is_none() {
            let _ = values.remove(key);
        }
    }
}

// Gives a key a value, for which there is room, or none.
fn set_value<K: Key>(values: &mut BTreeMap<K, u64>, key: K, now: Option<u64>)
    requires { IsSome now → IsSome (map.get (map.from_entries {R = K.cmp} values.old.entries) key) }
    ensures { map.from_entries {R = K.cmp} values.new.entries
        ≡ set_at (map.from_entries {R = K.cmp} values.old.entries) key now }
{
    match now {
        Some(value) => {
            let Ok(_) = values.insert(key, value) else {
                unreachable!()
            };
        }
        None => {
            let _ = values.remove(&key);
        }
    }
}

// Puts in changes for which there is room. It takes no memory.
pub(crate) fn apply_changes<K: Key>(values: &mut BTreeMap<K, u64>, changes: &BTreeMap<K, Change>)
    requires { HasRoomFor (map.from_entries {R = K.cmp} values.old.entries) changes.now.entries }
    ensures { map.from_entries {R = K.cmp} values.new.entries
        ≡ changed (map.from_entries {R = K.cmp} values.old.entries) changes.now.entries }
{
    for (key, change) in changes {
        set_value(values, *key, change.now);
    }
}

// Makes room in all three maps.
pub(crate) fn make_all_room(
    accounts: &mut BTreeMap<u32, u64>,
    positions: &mut BTreeMap<(u32, u32), u64>,
    prices: &mut BTreeMap<u32, u64>,
    changes: &Changes,
) -> Result<(), OutOfMemory>
    requires accounts { KnowBefore
        (map.from_entries {R = nat_cmp} accounts.old.entries) changes.now.accounts.entries }
    requires positions { KnowBefore
        (map.from_entries {R = position_cmp} positions.old.entries) changes.now.positions.entries }
    requires prices { KnowBefore
        (map.from_entries {R = nat_cmp} prices.old.entries) changes.now.prices.entries }
    ensures accounts { IsRoomier changes.now.accounts.entries
        (map.from_entries {R = nat_cmp} accounts.old.entries)
        (map.from_entries {R = nat_cmp} accounts.new.entries) }
    ensures positions { IsRoomier changes.now.positions.entries
        (map.from_entries {R = position_cmp} positions.old.entries)
        (map.from_entries {R = position_cmp} positions.new.entries) }
    ensures prices { IsRoomier changes.now.prices.entries
        (map.from_entries {R = nat_cmp} prices.old.entries)
        (map.from_entries {R = nat_cmp} prices.new.entries) }
    ensures ok { OnOk result
        (HasRoomFor (map.from_entries {R = nat_cmp} accounts.new.entries)
        changes.now.accounts.entries
        × HasRoomFor (map.from_entries {R = position_cmp} positions.new.entries)
        changes.now.positions.entries
        × HasRoomFor (map.from_entries {R = nat_cmp} prices.new.entries)
        changes.now.prices.entries) }
{
    make_room(accounts, &changes.accounts)?;
    make_room(positions, &changes.positions)?;
    make_room(prices, &changes.prices)
}

// Puts items at the back of a queue that has room for them.
pub(crate) fn append_all(queue: &mut VecDeque<(u32, u64)>, items: &[(u32, u64)])
    requires { deque_len queue.old + length items.now ≤ deque_capacity queue.old }
    ensures { queue.new.items ≡ queue.old.items ++ items.now }
{
    for item in items {
        queue.push_back_reserved(*item);
    }
}

// Takes items from the front of a queue.
pub(crate) fn drop_front(queue: &mut VecDeque<(u32, u64)>, count: usize)
    ensures { queue.new.items ≡ drop count queue.old.items }
{
    for _index in 0..count {
        let _ = queue.pop_front();
    }
}
