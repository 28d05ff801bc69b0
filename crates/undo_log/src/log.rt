//! The list of words with the values that they had.

ghost use Rattle.std.specs.Prelude.{◌≡◌, ℕ, ◌+◌, ◌-◌, ◌<◌, ◌≤◌, ◌++◌, ◌∷◌, [], ◌↔◌, length, slice_get, IsOk, IfOk, OnOk, OnErr, IsNone, IfSome, Some};
ghost use Rattle.undo_log.specs.Room.{older_than_newest};

use io_ends::OutOfMemory;
use std::alloc::Global;
use std::marker::Model;

/// A list of words, each beside the value that it had before it was written, with room for some more.
///
/// It keeps the room that it has, so a log that was emptied takes as many pairs again without memory.
#[derive(Drop)]
pub struct UndoLog {
    entries: Vec<(u64, u64)>,
}

impl Model for UndoLog {
    ghost use Rattle.std.specs.Prelude.{◌-◌, ℕ, vec_len, vec_capacity};
    ghost use Rattle.undo_log.specs.Room.{Room};

    ghost Value = { Room };

    ghost view = { λ a. record { list = a.entries.items; spare = vec_capacity a.entries - vec_len a.entries } };
}

impl UndoLog {
    /// An empty log, made without memory. What is noted in it wants memory from the first pair on.
    pub fn new(alloc: Global) -> UndoLog
        ensures empty { result.list ≡ [] }
        ensures room { result.spare ≡ 0 }
    {
        UndoLog {
            entries: Vec::new(alloc),
        }
    }

    /// An empty log that takes `n` pairs without memory.
    pub fn with_room(alloc: Global, n: usize) -> Result<UndoLog, OutOfMemory>
        ensures empty { IfOk result (λ log. log.list ≡ []) }
        ensures room { IfOk result (λ log. n ≤ log.spare) }
    {
        Ok(UndoLog {
            entries: Vec::with_capacity(alloc, n)?,
        })
    }

    /// Puts the word at place `a` with its old value at the newest end. It wants memory only if `spare` is 0,
    /// and a refusal leaves list and spare.
    pub fn note(&mut self, a: u64, old: u64) -> Result<(), OutOfMemory>
        ensures ok { OnOk result (self.new.list ≡ self.old.list ++ (a, old) ∷ []) }
        ensures spare { OnOk result (self.old.spare ≤ self.new.spare + 1) }
        ensures succeeds { 0 < self.old.spare → IsOk result }
        ensures err { OnErr result (self.new ≡ self.old) }
    {
        self.entries.reserve(1)?;
        let _ = self.entries.push((a, old));
        Ok(())
    }

    /// The pair that was noted last, which stays in the log.
    pub fn newest(&self) -> Option<(u64, u64)>
        ensures none { IsNone result ↔ (self.now.list ≡ []) }
        ensures last { IfSome result
            (λ pair. self.now.list ≡ older_than_newest self.now.list ++ pair ∷ []) }
        ensures place { result ≡ slice_get self.now.list (length self.now.list - 1) }
    {
        self.entries.last().copied()
    }

    /// Takes the newest pair out. Its room is spare again.
    pub fn drop_newest(&mut self)
        requires { 0 < length self.old.list }
        ensures list { self.new.list ≡ older_than_newest self.old.list }
        ensures spare { self.old.spare + 1 ≤ self.new.spare }
    {
        let _ = self.entries.pop();
    }

    /// The pair at place `i`; the oldest stands at 0. It stays in the log.
    pub fn at(&self, i: usize) -> (u64, u64)
        requires { i < length self.now.list }
        ensures { slice_get self.now.list i ≡ Some result }
    {
        self.entries[i]
    }

    /// How many pairs the log has.
    pub fn len(&self) -> usize
        ensures { result ≡ length self.now.list }
    {
        self.entries.len()
    }
}

#[cfg(test)]
mod tests {
    use super::*;
    use std::test::Fail;

    #[test]
    fn undo_log_gives_the_newest_first(rt: HostRuntime) -> Result<(), Fail> {
        let mut log = UndoLog::with_room(rt.alloc(), 2)?;
        assert_eq!(rt; log.newest(), None);
        log.note(5, 1)?;
        log.note(5, 2)?;
        assert_eq!(rt; log.len(), 2);
        assert_eq!(rt; log.newest(), Some((5, 2)));
        assert_eq!(rt; log.at(0), (5, 1));
        assert_eq!(rt; log.at(1), (5, 2));
        log.drop_newest();
        assert_eq!(rt; log.newest(), Some((5, 1)));
        log.drop_newest();
        assert_eq!(rt; log.newest(), None);
        assert_eq!(rt; log.len(), 0);
        Ok(())
    }

    #[test]
    fn undo_log_grows_past_its_room(rt: HostRuntime) -> Result<(), Fail> {
        let mut log = UndoLog::new(rt.alloc());
        for i in 0..100u64 {
            log.note(i, i)?;
        }
        assert_eq!(rt; log.len(), 100);
        assert_eq!(rt; log.newest(), Some((99, 99)));
        Ok(())
    }
}
