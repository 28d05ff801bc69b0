//! Giving up all locks.

ghost use Rattle.std.specs.Prelude.{◌≡◌, ◌≢◌, ◌⊎◌, ℕ, []};
ghost use Rattle.history_model.specs.Views.{HasClaim};
ghost use Rattle.word_table.specs.Copies.{HoldsNothing};
ghost use Rattle.txn_commit.specs.Inner.Releasing.{Releases};

use history_model::{Phase, Shape};
use word_table::{Desk, Pass};

// Gives up all claims, the least lock first. Each turn goes on from the word of bits that has the lock of the turn
// before.
fn release_claims<S: Shape>(desk: &Desk<S>, pass: &mut Pass<S>)
    requires desk { pass.old.table ≡ desk.now.table }
    requires undone { (pass.old.view.undo ≡ []) ⊎ (pass.old.view.phase ≡ Phase.Releasing) }
    requires begun { pass.old.view.phase ≢ Phase.Idle }
    ensures desk { pass.new.table ≡ pass.old.table }
    ensures released { Releases pass.old.view pass.new.view }
    ensures no_claim { (k : ℕ) → ¬ HasClaim pass.new.view k }
{
    let mut next = pass.next_claim();
    while let Some(lock) = next {
        desk.unclaim(pass, lock);
        next = pass.next_claim_from(lock / 64 * 64);
    }
}

// Gives up all locks. It takes no memory.
pub(crate) fn release_all<S: Shape>(desk: &Desk<S>, pass: &mut Pass<S>)
    requires desk { pass.old.table ≡ desk.now.table }
    requires undone { (pass.old.view.undo ≡ []) ⊎ (pass.old.view.phase ≡ Phase.Releasing) }
    requires begun { pass.old.view.phase ≢ Phase.Idle }
    ensures desk { pass.new.table ≡ pass.old.table }
    ensures released { Releases pass.old.view pass.new.view }
    ensures nothing { HoldsNothing pass.new.view }
{
    release_claims(desk, pass);
    desk.unshare_all(pass);
}
