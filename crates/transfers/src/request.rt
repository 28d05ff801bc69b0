//! A job of any of the three kinds.

ghost use Rattle.transfers.specs.Requests.{vault_of, Does};

use crate::audit::Audit;
use crate::look::Look;
use crate::transfer::Transfer;
use crate::vault::Vault;
use txn::{Job, Stop, Verdict, Words};

/// What may be asked of a vault.
#[derive(Clone, Copy, Debug, PartialEq, Eq)]
pub enum Request {
    Transfer(Transfer),
    Audit(Audit),
    Look(Look),
}

/// What a request is answered.
#[derive(Clone, Copy, Debug, PartialEq, Eq)]
pub enum Answer {
    /// Whether the transfer was covered, and so was made.
    Moved(bool),
    /// The sum of all words.
    Told(u64),
    /// What the word held, if there is one.
    Held(Option<u64>),
}

impl Job for Request {
    type Shape = Vault;

    type Answer = Answer;

    ghost shape = { λ request. vault_of request };

    ghost means = { λ request s kept answer t. Does request s kept answer t };

    fn run<W: Words<Shape = Vault>>(&self, w: &mut W) -> Result<Verdict<Answer>, Stop> {
        match self {
            Request::Transfer(job) => match job.run(w)? {
                Verdict::Keep(()) => Ok(Verdict::Keep(Answer::Moved(true))),
                Verdict::Revert(()) => Ok(Verdict::Revert(Answer::Moved(false))),
            },
            Request::Audit(job) => match job.run(w)? {
                Verdict::Keep(sum) => Ok(Verdict::Keep(Answer::Told(sum))),
                Verdict::Revert(sum) => Ok(Verdict::Revert(Answer::Told(sum))),
            },
            Request::Look(job) => match job.run(w)? {
                Verdict::Keep(held) => Ok(Verdict::Keep(Answer::Held(held))),
                Verdict::Revert(held) => Ok(Verdict::Revert(Answer::Held(held))),
            },
        }
    }
}
