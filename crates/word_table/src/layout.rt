//! Where the words of the locks stand in a table.

ghost use Rattle.std.specs.Prelude.{◌≡◌, ◌<◌, ◌≤◌};
ghost use Rattle.history_model.specs.Table.{calls_word, stamps_word, row_word, writer_word, commits_word, version_word, value_word};

use crate::copies::CallCopy;
use crate::limits::{MOST_PASSES, MOST_WORDS};
use history_model::LOCKS;

/// The word that has the last timestamp that was drawn.
pub(crate) const PLACE_OF_CLOCK: usize = 1;

/// The word that has a seat's read bit for a lock.
pub(crate) fn place_of_bit(seats: u32, seat: u32, lock: u32) -> usize
    requires seats { (seats ≤ MOST_PASSES) × (seat < seats) }
    requires lock { lock < LOCKS }
    ensures { result ≡ row_word seats seat lock }
{
    (2 + 2 * seats + 16 * seat + lock / 64) as usize
}

/// The word that has the own read bit for a lock.
pub(crate) fn place_of_own_bit(call: &CallCopy, lock: u32) -> usize
    requires seats { (call.now.seats ≤ MOST_PASSES) × (call.now.who < call.now.seats) }
    requires row { call.now.row ≡ row_word call.now.seats call.now.who 0 }
    requires lock { lock < LOCKS }
    ensures { result ≡ row_word call.now.seats call.now.who lock }
{
    (call.row + lock / 64) as usize
}

/// The writer word of a lock.
pub(crate) fn place_of_writer(call: &CallCopy, lock: u32) -> usize
    requires seats { call.now.seats ≤ MOST_PASSES }
    requires writers { call.now.writers ≡ writer_word call.now.seats 0 }
    requires lock { lock < LOCKS }
    ensures { result ≡ writer_word call.now.seats lock }
{
    (call.writers + lock) as usize
}

/// The word that has the number of calls that a seat began.
pub(crate) fn place_of_calls(seats: u32, seat: u32) -> usize
    requires { (seats ≤ MOST_PASSES) × (seat < seats) }
    ensures { result ≡ calls_word seats seat }
{
    2 + seat as usize
}

/// The word that shows a seat's timestamp.
pub(crate) fn place_of_stamp(seats: u32, seat: u32) -> usize
    requires { (seats ≤ MOST_PASSES) × (seat < seats) }
    ensures { result ≡ stamps_word seats seat }
{
    (2 + seats + seat) as usize
}

/// The word that has the number of a seat's last call with an entry.
pub(crate) fn place_of_commit(seats: u32, seat: u32) -> usize
    requires { (seats ≤ MOST_PASSES) × (seat < seats) }
    ensures { result ≡ commits_word seats seat }
{
    2 + 18 * seats as usize + LOCKS as usize + seat as usize
}

/// The word that has a lock's version.
pub(crate) fn place_of_version(call: &CallCopy, lock: u32) -> usize
    requires seats { call.now.seats ≤ MOST_PASSES }
    requires versions { call.now.versions ≡ version_word call.now.seats 0 }
    requires lock { lock < LOCKS }
    ensures { result ≡ version_word call.now.seats lock }
{
    (call.versions + lock) as usize
}

/// The word that has a value of the memory.
pub(crate) fn place_of_value(call: &CallCopy, word: u64) -> usize
    requires seats { call.now.seats ≤ MOST_PASSES }
    requires values { call.now.values ≡ value_word call.now.seats 0 }
    requires word { word < MOST_WORDS }
    ensures { result ≡ value_word call.now.seats word }
{
    call.values as usize + word as usize
}

/// The first word of the memory, behind all words of the locks.
pub(crate) fn place_of_values(seats: u32) -> usize
    requires { seats ≤ MOST_PASSES }
    ensures { result ≡ value_word seats 0 }
{
    2 + 19 * seats as usize + 2 * LOCKS as usize
}
