//! Where an item stands in the lines that it waits in: one for each lock, and one for each caller.
//!
//! A place in a line is one number: the line's number times 2^66, and behind it what orders the items of the line. In a
//! caller's line that is the index. In a lock's line it is the least version at which the item used the lock, whether it
//! wrote there, and whether it used the lock at a greater one as well: so two uses of one lock by one item stand at one
//! place, and in a list that can be put in order the places of different items are in the order of their uses.

ghost use Rattle.std.specs.Prelude.{◌≡◌, ◌≢◌, ℕ, ◌+◌, ◌*◌, ◌^◌, ◌<◌, ◌≤◌, IsTrue, ◌↔◌, length, slice_get, Some, true};
ghost use Rattle.history_model.specs.Sets.{flag};
ghost use Rattle.order_rebuild.specs.Turns.{use_key, IsRising, HasKey, IsLeastKey, HasAbove, IsLockCode, line_place};

use history_model::LockUse;

/// How many numbers a line has.
pub(crate) const LINE: u128 = 73_786_976_294_838_206_464;

/// Where an item stands in one line.
#[derive(Clone, Copy)]
pub(crate) struct Turn {
    pub(crate) code: u128,
    pub(crate) item: usize,
}

/// The version, and behind it whether the use wrote.
pub(crate) fn key(lock_use: &LockUse) -> u128
    ensures is { result ≡ use_key lock_use.now }
    ensures fits { result < 2 ^ 65 }
{
    lock_use.version as u128 * 2 + lock_use.wrote as u128
}

/// Whether each use is of a greater lock than the one before, so that no two are of one lock.
pub(crate) fn is_rising(uses: &[LockUse]) -> bool
    ensures { result ≡ true → IsRising uses.now }
{
    for i in 1..uses.len() {
        if uses[i].lock <= uses[i - 1].lock {
            return false;
        }
    }
    true
}

/// The least key of the uses of the lock, of which one has the key that is given.
fn least_key(uses: &[LockUse], lock: u32, known: u128) -> u128
    requires known { HasKey uses.now lock known }
    requires fits { known < 2 ^ 65 }
    ensures is { IsLeastKey uses.now lock result }
    ensures fits { result < 2 ^ 65 }
{
    let mut least = known;
    for other in uses {
        let at = key(other);
        if other.lock == lock && at < least {
            least = at;
        }
    }
    least
}

/// Whether some use of the lock has a greater key.
fn has_above(uses: &[LockUse], lock: u32, least: u128) -> bool
    ensures { IsTrue result ↔ HasAbove uses.now lock least }
{
    for other in uses {
        let at = key(other);
        if other.lock == lock && least < at {
            return true;
        }
    }
    false
}

/// The place in the line of a lock.
fn code_at(lock: u32, least: u128, wide: bool) -> u128
    requires { least < 2 ^ 65 }
    ensures is { result ≡ (2 * lock) * LINE + (2 * least + flag wide) }
    ensures fits { 2 * least + flag wide < LINE }
{
    2 * lock as u128 * LINE + (2 * least + wide as u128)
}

/// Where the item with these uses stands in the line of the lock of its use at `i`.
pub(crate) fn lock_code(uses: &[LockUse], i: usize, rising: bool) -> u128
    requires inside { i < length uses.now }
    requires rising { rising ≡ true → IsRising uses.now }
    ensures { (u : _) → slice_get uses.now i ≡ Some u → IsLockCode uses.now u.lock result }
{
    let lock = uses[i].lock;
    let known = key(&uses[i]);
    if rising {
        return code_at(lock, known, false);
    }
    let least = least_key(uses, lock, known);
    let wide = has_above(uses, lock, least);
    code_at(lock, least, wide)
}

/// The place in the line of a caller.
pub(crate) fn code_of_caller(caller: u32, index: u32) -> u128
    ensures is { result ≡ line_place caller index }
    ensures fits { index < LINE }
{
    (2 * caller as u128 + 1) * LINE + index as u128
}
