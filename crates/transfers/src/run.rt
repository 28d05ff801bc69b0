//! Lists of requests, on threads.

ghost use Rattle.std.specs.Prelude.{◌≡◌, ◌↔◌, ◌<◌, ◌≤◌, All, Err, length, IfOk};
ghost use Rattle.txn.specs.Prelude.{count_at, means_at, AreOnceInOrder, AreTooMany, IsGood, IsSerial, MOST_WORDS};
ghost use Rattle.transfers.specs.Moving.{HasSum};
ghost use Rattle.transfers.specs.Requests.{vault_of, Does};
ghost use Rattle.transfers.specs.Telling.{AreTold};

use crate::request::Request;
use crate::vault::Vault;
use std::alloc::Global;
use std::sync::Wait;
use std::thread::Threads;
use txn::{JobsEnd, RunStop, run_jobs};

/// Does what the requests ask of the vault with these accounts, those of each list in their order, with so many threads at
/// the same time. Each request is one transaction.
///
/// It answers the closed table, and what each request was answered, in an order in which one thread alone would have
/// answered the same. Which transfers are covered depends on that order; the sum does not.
pub fn run_transfers<R: Threads + Wait + Sync>(
    rt: &R,
    alloc: Global,
    vault: Vault,
    accounts: Vec<u64>,
    lists: &[Vec<Request>],
    threads: u32,
) -> Result<JobsEnd<Request>, RunStop>
    requires words { (1 ≤ length accounts.items) × (length accounts.items ≤ MOST_WORDS) }
    requires good { IsGood vault.words (HasSum vault.total) accounts.items }
    requires vault { All (λ list. All (λ request. vault_of request ≡ vault) list.items) lists.now }
    ensures too_many { (result ≡ Err RunStop.TooMany) ↔ AreTooMany lists.now threads }
    // The vault has its words and its total at the end.
    ensures good { IfOk result (λ end. IsGood vault.words (HasSum vault.total) end.closed.words) }
    // Each request was done once, and those of a list stand in their order.
    ensures once { IfOk result (λ end.
        AreOnceInOrder (length lists.now) (count_at lists.now) end.done.items) }
    // They were done as if one after another, from the accounts that were handed in to the words at the end.
    ensures served { IfOk result (λ end. IsSerial (IsGood vault.words (HasSum vault.total))
        (means_at Does lists.now) accounts.items end.closed.words end.done.items) }
    // Whatever was done before it, each audit told the total.
    ensures told { IfOk result (λ end. AreTold vault.total lists.now end.done.items) }
    ensures few { IfOk result (λ end. All (λ ran. ran.restarts < threads) end.done.items) }
{
    run_jobs(rt, alloc, vault, accounts, lists, threads)
}
