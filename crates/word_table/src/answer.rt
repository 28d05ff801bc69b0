//! What the step calls answer.

ghost use Rattle.std.specs.Prelude.{◌≡◌, ◌≤◌, ◌<◌};
ghost use Rattle.locks_rule.specs.Steps.{is_free};
ghost use Rattle.word_table.specs.Calls.{shared_of, claimed_of, scanned_of, judged_of};

use crate::limits::MOST_PASSES;
use history_model::LOCKS;

/// What asking for a shared lock came to.
#[derive(Clone, Copy, Debug, PartialEq, Eq)]
pub enum Shared {
    /// The lock is held, shared or exclusive.
    Granted,
    /// This seat claims the lock. The own read bit stays set.
    Met(u32),
}

/// What claiming an exclusive lock came to.
#[derive(Clone, Copy, Debug, PartialEq, Eq)]
pub enum Claimed {
    /// The claim stands. It is an exclusive lock once every other seat was scanned.
    Pending,
    /// This seat claims the lock.
    Met(u32),
}

/// What the scan of another seat for an own claim came to.
#[derive(Clone, Copy, Debug, PartialEq, Eq)]
pub enum Scanned {
    /// The seat has no read bit on the lock.
    Clear,
    /// The seat has its read bit set.
    Met(u32),
}

/// What a call that met another seat does about it.
#[derive(Clone, Copy, Debug, PartialEq, Eq)]
pub enum Judged {
    /// The other seat shows this timestamp, which is earlier: the attempt gives way to it.
    Yield(u64),
    /// The other seat shows a later timestamp or none: the call asks for its lock again.
    Wait,
}

/// No seat but `who` claims a lock whose writer word was found to be this.
pub(crate) fn is_unclaimed(found: u64, who: u32) -> bool
    ensures { result ≡ is_free who found }
{
    found == 0 || found == u64::from(who) + 1
}

/// What asking for a shared lock comes to if its writer word was found to be this.
pub(crate) fn shared_by(found: u64, who: u32) -> Shared
    requires { found ≤ MOST_PASSES }
    ensures { result ≡ shared_of who found }
{
    if is_unclaimed(found, who) {
        Shared::Granted
    } else {
        Shared::Met((found - 1) as u32)
    }
}

/// What a claim comes to if the writer word was found to be this.
pub(crate) fn claimed_by(found: u64) -> Claimed
    requires { found ≤ MOST_PASSES }
    ensures { result ≡ claimed_of found }
{
    if found == 0 {
        Claimed::Pending
    } else {
        Claimed::Met((found - 1) as u32)
    }
}

/// What the scan of a seat comes to if its row word was found to be this.
pub(crate) fn scanned_by(found: u64, lock: u32, seat: u32) -> Scanned
    requires { lock < LOCKS }
    ensures { result ≡ scanned_of lock seat found }
{
    if (found >> (lock % 64)) & 1 == 0 {
        Scanned::Clear
    } else {
        Scanned::Met(seat)
    }
}

/// What a call with the timestamp `own` does about a seat that shows this one.
pub(crate) fn judged_by(shown: u64, own: u64) -> Judged
    ensures { result ≡ judged_of shown own }
{
    if shown > 0 && shown < own {
        Judged::Yield(shown)
    } else {
        Judged::Wait
    }
}
