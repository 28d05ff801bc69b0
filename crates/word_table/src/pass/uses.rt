//! The list of what an attempt used, for the receipt of its call.

ghost use Rattle.std.specs.Prelude.{◌≡◌, ◌⊎◌, ◌<◌, ◌≤◌, ◌+◌, ◌*◌, [], IfOk, length, sum_by, count_ones, slice_index, vec_len, vec_capacity};
ghost use Rattle.word_table.specs.Uses.{AreUsesOf, ListsBelow};

use super::Pass;
use crate::bits;
use crate::copies::VersionCopy;
use history_model::{LOCKS, LockUse, Phase, Shape};
use io_ends::OutOfMemory;
use std::alloc::Global;

// Lists the uses of the locks of one word of the set, behind those of the words before. The list has room for them.
fn list_word(versions: &VersionCopy, i: u32, uses: &mut Vec<LockUse>)
    requires word { i < 16 }
    requires found { length versions.now.found.items ≡ LOCKS }
    requires before { ListsBelow versions.now (64 * i) uses.old.items }
    requires room { vec_len uses.old + count_ones (slice_index versions.now.used i)
        ≤ vec_capacity uses.old }
    ensures listed { ListsBelow versions.now (64 * i + 64) uses.new.items }
    ensures room { vec_capacity uses.new ≡ vec_capacity uses.old }
    ensures counted { vec_len uses.new
        ≡ vec_len uses.old + count_ones (slice_index versions.now.used i) }
{
    let mut left = versions.used[i as usize];
    while left != 0 {
        let bit = left.trailing_zeros();
        uses.push_reserved(versions.use_at(64 * i + bit));
        left &= !(1 << bit);
    }
}

// Lists all uses, in one walk over the words of the set.
fn list_words(versions: &VersionCopy, uses: &mut Vec<LockUse>)
    requires found { length versions.now.found.items ≡ LOCKS }
    requires none { uses.old.items ≡ [] }
    requires room { sum_by count_ones versions.now.used ≤ vec_capacity uses.old }
    ensures listed { ListsBelow versions.now LOCKS uses.new.items }
    ensures room { vec_capacity uses.new ≡ vec_capacity uses.old }
    ensures counted { vec_len uses.new ≡ sum_by count_ones versions.now.used }
{
    for i in 0..16 {
        list_word(versions, i, uses);
    }
}

impl<S: Shape> Pass<S> {
    /// What the attempt has used, by rising lock: of each lock what `use_of` tells. The list has room for no more.
    pub fn uses(&self, alloc: Global) -> Result<Vec<LockUse>, OutOfMemory>
        requires { (self.now.view.phase ≡ Phase.Running)
            ⊎ ((self.now.view.phase ≡ Phase.Withdrawing) × (self.now.view.undo ≡ [])) }
        ensures uses { IfOk result (λ uses. AreUsesOf self.now.view uses.items) }
        ensures room { IfOk result (λ uses. vec_capacity uses ≡ vec_len uses) }
    {
        let versions = &self.locks.versions;
        let mut uses = Vec::with_capacity(alloc, bits::count(&versions.used) as usize)?;
        list_words(versions, &mut uses);
        Ok(uses)
    }
}
