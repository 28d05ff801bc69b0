//! How many read each version of each lock, counted once.

use history_model::{LOCKS, LockUse, Placed};
use io_ends::OutOfMemory;
use std::alloc::Global;

/// How many places the rows may get for each use: a use may find a version that many others raised.
const PLACES_A_USE: usize = 8;

/// For each version of each lock how many uses only read it.
///
/// What was counted is not trusted: whoever puts a list in order by it looks at each item once more. So no clause says
/// what it counts.
#[derive(Drop)]
pub struct Readers {
    /// Of each lock a row, and in it the count of each version.
    pub(crate) rows: Vec<Vec<u32>>,
    /// How many places the rows may still get.
    room: usize,
    /// Some use could not be counted.
    pub(crate) lost: bool,
}

/// Counts one more that read the version; None if the row would get more new places than there is room for.
fn count_reader(row: &mut Vec<u32>, room: &mut usize, version: usize) -> Option<()> {
    'grow: while row.len() <= version {
        *room = room.checked_sub(1)?;
        row.push(0).ok()?;
    }
    row[version] = row[version].checked_add(1)?;
    Some(())
}

/// Counts the uses of an item that only read.
fn count_readers(rows: &mut [Vec<u32>], room: &mut usize, uses: &[LockUse]) -> Option<()> {
    for i in 0..uses.len() {
        let lock = uses[i].lock as usize;
        if lock >= rows.len() {
            return None;
        }
        if !uses[i].wrote {
            count_reader(&mut rows[lock], room, uses[i].version as usize)?;
        }
    }
    Some(())
}

/// Adds the counts of another row.
fn add_row(row: &mut Vec<u32>, other: &[u32]) -> Option<()> {
    for version in 0..other.len() {
        if version < row.len() {
            row[version] = row[version].checked_add(other[version])?;
        } else {
            row.push(other[version]).ok()?;
        }
    }
    Some(())
}

/// Adds the counts of other rows.
fn add_rows(rows: &mut [Vec<u32>], others: &[Vec<u32>]) -> Option<()> {
    for lock in 0..others.len() {
        if lock >= rows.len() {
            return None;
        }
        add_row(&mut rows[lock], &others[lock])?;
    }
    Some(())
}

impl Readers {
    /// Nothing is counted.
    pub fn new(alloc: Global) -> Result<Readers, OutOfMemory> {
        let mut rows = Vec::with_capacity(alloc, LOCKS as usize)?;
        for _ in 0..LOCKS {
            rows.push(Vec::new(alloc))?;
        }
        Ok(Readers {
            rows,
            room: LOCKS as usize,
            lost: false,
        })
    }

    /// Counts the uses of one item.
    pub fn count(&mut self, uses: &[LockUse]) {
        let more = uses.len().saturating_mul(PLACES_A_USE);
        self.room = self.room.saturating_add(more);
        if count_readers(&mut self.rows, &mut self.room, uses).is_none() {
            self.lost = true;
        }
    }

    /// Adds what another counted.
    pub fn add(&mut self, other: &Readers) {
        if other.lost || add_rows(&mut self.rows, &other.rows).is_none() {
            self.lost = true;
        }
    }

    /// The readers of a list.
    pub(crate) fn of<P: Placed>(alloc: Global, done: &[P]) -> Result<Readers, OutOfMemory> {
        let mut readers = Readers::new(alloc)?;
        for p in 0..done.len() {
            readers.count(done[p].uses());
        }
        Ok(readers)
    }
}
