//! Requests of one vault on four threads.

ghost use Rattle.std.specs.Prelude.{◌≡◌, All, IfOk};
ghost use Rattle.transfers.specs.Requests.{vault_of};

use std::alloc::Global;
use std::sync::Wait;
use std::thread::Threads;
use transfers::{Answer, Audit, Look, Request, Transfer, Vault, run_transfers};
use txn_commit::RunStop;

// A hundred times the same request.
fn hundred(alloc: Global, request: Request) -> Result<Vec<Request>, RunStop>
    ensures { IfOk result (λ list. All (λ r. vault_of r ≡ vault_of request) list.items) }
{
    Ok(vec![in alloc; request; 100]?)
}

// A request to move so much.
fn moved(vault: Vault, from: u64, to: u64, amount: u64) -> Request
    ensures { vault_of result ≡ vault }
{
    Request::Transfer(Transfer {
        vault,
        from,
        to,
        amount,
    })
}

// What the requests of each list are to be answered.
fn wanted(caller: u32) -> Answer {
    match caller {
        0..=2 => Answer::Moved(true),
        3 => Answer::Moved(false),
        4 => Answer::Told(300),
        _ => Answer::Held(None),
    }
}

// Whether six lists leave a hundred in each of three words, and are answered as they should be: three that move one a
// hundred times, from each word to the next, one that wants to move more than there is, one of audits, and one that looks
// for a word that is not there.
fn go_round<R: Threads + Wait + Sync>(rt: &R, alloc: Global) -> Result<bool, RunStop> {
    let vault = Vault {
        words: 3,
        total: 300,
    };
    let accounts = Vec::from_slice(alloc, &[100, 100, 100])?;
    let lists = vec![in alloc;
        hundred(alloc, moved(vault, 0, 1, 1))?,
        hundred(alloc, moved(vault, 1, 2, 1))?,
        hundred(alloc, moved(vault, 2, 0, 1))?,
        hundred(alloc, moved(vault, 2, 0, 301))?,
        hundred(alloc, Request::Audit(Audit { vault }))?,
        hundred(alloc, Request::Look(Look { vault, place: 3 }))?,
    ]?;
    let end = run_transfers(rt, alloc, vault, accounts, lists.as_slice(), 4)?;
    for ran in end.done.as_slice() {
        if ran.reply != wanted(ran.caller) {
            return Ok(false);
        }
    }
    Ok(end.done.len() == 600 && end.closed.words() == [100, 100, 100].as_slice())
}

// A word has the hundred that its own list takes from the start on, so that all these moves are covered, and they leave
// the words as they were, whatever the threads do when.
#[test]
fn moves_in_a_round_leave_the_words(rt: HostRuntime) {
    let same = go_round(&rt, rt.alloc());
    assert!(rt; matches!(same, Ok(true)));
}
