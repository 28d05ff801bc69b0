//! What is done at a deque: callers are dealt and taken, and parts of it are handed out and put together.

ghost use Rattle.std.specs.Prelude.{◌≡◌, ◌<◌, ◌+◌, ◌-◌, ◌∷◌, ◌++◌, [], IfSome, IfNone, MatchResult};
ghost use Rattle.crossbeam_deque.specs.Handles.{view, IsPassOf, SamePass, stealer_deque, stealer_flavor, worker_deque, worker_view, worker_flavor, SameWorker};
ghost use Rattle.worker_pool.specs.Inner.Deals.{IsAllTaken};
ghost use Rattle.worker_pool.specs.Deques.{deal};

use crate::rule::{ALL_PARTS, Both, Cut, DequePass, Owner, Put, Stealer, Took};
use crossbeam_deque::Steal;
use std::sync::Wait;

/// Deals a caller to the deque. If the deque has no room for it, it comes back, and is not dealt.
pub(crate) fn put(owner: &mut Owner, caller: u32) -> Result<(), u32>
    requires part { 0 < (worker_view owner.old).parts }
    ensures same { SameWorker owner.old owner.new }
    ensures put { MatchResult result
        (λ _. worker_view owner.new ≡ deal (worker_view owner.old).parts
        ((worker_view owner.old).dealt ++ caller ∷ []) (worker_view owner.old).taken)
        (λ back. (back ≡ caller) × (worker_view owner.new ≡ worker_view owner.old)) }
{
    owner.push_as::<Put>(caller)
}

/// Takes a caller from the own deque.
pub(crate) fn take_own(owner: &mut Owner) -> Option<u32>
    requires part { 0 < (worker_view owner.old).parts }
    requires fifo { worker_flavor owner.old ≡ 0 }
    ensures same { SameWorker owner.old owner.new }
    ensures some { IfSome result (λ caller. worker_view owner.new
        ≡ deal (worker_view owner.old).parts (worker_view owner.old).dealt
        ((worker_view owner.old).taken ++ caller ∷ [])) }
    ensures none { IfNone result ((worker_view owner.new ≡ worker_view owner.old)
        × ((worker_view owner.old).parts ≡ ALL_PARTS → IsAllTaken (worker_view owner.old))) }
{
    owner.pop_as::<Took>()
}

/// Takes a caller from another's deque. If others are in the way, it tries again.
pub(crate) fn steal<R: Wait>(rt: &R, stealer: &Stealer, pass: &mut DequePass) -> Option<u32>
    requires deque { IsPassOf (stealer_deque stealer.now) pass.old }
    requires part { 0 < (view pass.old).parts }
    requires fifo { stealer_flavor stealer.now ≡ 0 }
    ensures same { SamePass pass.old pass.new }
    ensures kept { ((view pass.new).parts ≡ (view pass.old).parts)
        × ((view pass.new).dealt ≡ (view pass.old).dealt) }
    ensures some { IfSome result (λ caller. view pass.new
        ≡ deal (view pass.old).parts (view pass.old).dealt
        ((view pass.old).taken ++ caller ∷ [])) }
    ensures none { IfNone result (view pass.new ≡ view pass.old) }
{
    for _ in rt.forever() {
        match stealer.steal_as::<Took>(pass) {
            Steal::Success(caller) => return Some(caller),
            Steal::Empty => return None,
            Steal::Retry => {}
        }
    }
    unreachable!()
}

/// A pass at the deque, with one part of it.
pub(crate) fn pass_of(owner: &mut Owner) -> DequePass
    requires part { 1 < (worker_view owner.old).parts }
    ensures same { SameWorker owner.old owner.new }
    ensures deque { IsPassOf (worker_deque owner.old) result }
    ensures left { worker_view owner.new ≡ deal ((worker_view owner.old).parts - 1)
        (worker_view owner.old).dealt (worker_view owner.old).taken }
    ensures given { view result ≡ deal 1 [] [] }
{
    owner.another::<Cut>()
}

/// Takes back a pass, with its parts and lists.
pub(crate) fn take_back(owner: &mut Owner, pass: DequePass)
    requires deque { IsPassOf (worker_deque owner.old) pass }
    requires part { 0 < (worker_view owner.old).parts }
    requires other { 0 < (view pass).parts }
    ensures same { SameWorker owner.old owner.new }
    ensures both { worker_view owner.new
        ≡ deal ((worker_view owner.old).parts + (view pass).parts)
        ((worker_view owner.old).dealt ++ (view pass).dealt)
        ((worker_view owner.old).taken ++ (view pass).taken) }
{
    owner.absorb::<Both>(pass)
}
