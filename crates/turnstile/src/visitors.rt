//! Visitors on threads.

ghost use Rattle.std.specs.Prelude.{◌≡◌, ◌≤◌, [], ◌∷◌, length, slice_index, All, IfOk};
ghost use Rattle.txn.specs.Prelude.{HaveWorked, MOST_PASSES};
ghost use Rattle.turnstile.specs.Visiting.{HasTried};

use crate::enter::{Enter, Room};
use std::alloc::Global;
use std::sync::Wait;
use std::thread::Threads;
use txn::{Client, Desk, Ended, OutOfMemory, Pass, run_clients, run_job};

/// Tries to enter so many times.
#[derive(Clone, Copy, Debug, Drop)]
pub struct Visitor {
    pub room: Room,
    pub times: u32,
}

impl Client for Visitor {
    ghost use Rattle.std.specs.Prelude.{⊤};
    ghost use Rattle.turnstile.specs.Visiting.{HasTried};

    type Shape = Room;

    ghost shape = { λ visitor. visitor.room };

    ghost can_begin = { λ _. ⊤ };

    ghost does = { HasTried };

    fn work<R: Wait>(
        &mut self,
        rt: &R,
        alloc: Global,
        desk: &Desk<Room>,
        pass: &mut Pass<Room>,
    ) -> Result<(), OutOfMemory> {
        let job = Enter { room: self.room };
        for _ in 0..self.times {
            run_job(rt, alloc, desk, pass, &job)?;
        }
        Ok(())
    }
}

/// Opens an empty room with this limit to the visitors: the closed table, whose one word says how many are inside at
/// the end, and the visitors.
pub fn open_room<R: Threads + Wait + Sync>(
    rt: &R,
    alloc: Global,
    room: Room,
    visitors: Vec<Visitor>,
) -> Result<Ended<Visitor>, OutOfMemory>
    requires visitors { (1 ≤ length visitors.items) × (length visitors.items ≤ MOST_PASSES) }
    requires room { All (λ visitor. visitor.room ≡ room) visitors.items }
    ensures empty { IfOk result (λ ended. ended.closed.base ≡ 0 ∷ []) }
    ensures count { IfOk result (λ ended. length ended.closed.words ≡ 1) }
    ensures few { IfOk result (λ ended. slice_index ended.closed.words 0 ≤ room.limit) }
    // Each tried as often as it was to.
    ensures tried { IfOk result (λ ended.
        HaveWorked HasTried ended.closed visitors.items ended.clients.items) }
{
    run_clients(rt, alloc, room, vec![in alloc; 0]?, visitors)
}
