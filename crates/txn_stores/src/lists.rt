//! The scripts of an input as lists of jobs, one list for each caller.

ghost use Rattle.std.specs.Prelude.{◌≡◌, ◌*◌, ◌+◌, length};
ghost use Rattle.script_reader.specs.Gathered.{script_at};
ghost use Rattle.script_reader.specs.declared.limits.TheConstants.{MOST_SCRIPTS};

use crate::job::StoreJob;
use crate::store::Store;
use books_report::stores::StoreReply;
use io_ends::OutOfMemory;
use script_reader::limits::MOST_SCRIPTS;
use std::alloc::Global;
use std::sync::Wait;
use txn_commit::{Lists, Receipt, transact};
use word_table::{Desk, Pass};
use worker_gate::Gate;

// The scripts of an input, and who is told how far each has come.
#[derive(Drop)]
pub(crate) struct StoreLists<'a, S: Store, G: Gate> {
    pub input: &'a S::Input,
    pub shape: S,
    pub callers: u32,
    pub gate: &'a G,
    ghost sized: { shape ≡ S.shape_of input.now },
    ghost counted: { callers ≡ length (S.told input.now).callers },
}

// The number by which a gate knows a script: a caller's own lie side by side.
fn tag_of(caller: u32, index: u32) -> u64
    ensures { result ≡ caller * MOST_SCRIPTS + index }
{
    u64::from(caller) * MOST_SCRIPTS as u64 + u64::from(index)
}

impl<'a, S: Store, G: Gate> Lists for StoreLists<'a, S, G> {
    ghost use Rattle.std.specs.Prelude.{length};
    ghost use Rattle.txn_stores.specs.Journals.{script_count};
    ghost use Rattle.txn_stores.specs.Standing.{ScriptMeans};

    type Shape = S;

    type Answer = StoreReply<S::Value>;

    ghost shape = { λ lists. lists.shape };

    ghost callers = { λ lists. length (S.told lists.input.now).callers };

    ghost jobs = { λ lists c. script_count (S.told lists.input.now).callers c };

    ghost means = { λ lists c i. ScriptMeans (S.stands lists.shape) (S.step lists.shape)
        (script_at (S.told lists.input.now).callers c i) };

    fn shape(&self) -> S {
        self.shape
    }

    fn callers(&self) -> u32 {
        self.callers
    }

    fn jobs(&self, caller: u32) -> u32 {
        S::scripts_of(self.input, caller)
    }

    fn run<R: Wait>(
        &self,
        rt: &R,
        alloc: Global,
        desk: &Desk<S>,
        pass: &mut Pass<S>,
        caller: u32,
        index: u32,
    ) -> Result<Receipt<StoreReply<S::Value>>, OutOfMemory> {
        let script = S::script(self.input, caller, index);
        let job = StoreJob::new(alloc, self.shape, script, tag_of(caller, index));
        transact(rt, alloc, desk, pass, &job, self.gate)
    }
}
