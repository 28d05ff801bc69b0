//! What a caller of calls on words concludes, each law the contract of a function that does nothing.

ghost use Rattle.txn_words.specs.Frames.{OthersStand};
ghost use Rattle.txn_words.specs.Calls.{SameAsAtMark};

use crate::words::Words;

/// There are as many words after a call as before, and each that the call did not write is what it was. So a call whose
/// writes are all at words of some kind, as a clause `frame` says, keeps every word of no such kind.
pub fn others_stand()
    ensures { OthersStand }
{}

/// After going back to a mark the words are in every good state that fits what they were there. So whatever held in each
/// state at the mark holds in each state again.
pub fn same_as_at_mark<W: Words>()
    ensures { SameAsAtMark W.Words W.Shape.Shape }
{}
