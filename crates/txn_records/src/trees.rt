//! Calls on one of the two trees, whatever both hold. The other stays what it was.

ghost use Rattle.std.specs.Prelude.{IfOk, OnOk};
ghost use Rattle.std.specs.FinMap as finite;
ghost use Rattle.txn_words.specs.Access.{Tells, TellsAndChanges};
ghost use Rattle.txn_words.specs.Calls.{IsReady, GoesOn, InEachState, LeadsTo};
ghost use Rattle.txn_records.specs.Standing.{HasTrees, HasSomeTrees, entries_in};
ghost use Rattle.txn_records.specs.Access.{first_in, first_key_in, is_used_up, put_answer, put_by, with_entries};

use crate::layout::Order;
use crate::shape::RecordShape;
use txn_alloc::Put;
use txn_words::{Stop, Words};

/// The value at a key, if there is one.
pub fn get_in<W: Words>(
    w: &mut W,
    shape: &RecordShape,
    order: Order,
    key: u64,
) -> Result<Option<u64>, Stop>
    requires ready { IsReady W.Words w.old }
    requires trees { InEachState W.Words W.Shape.Shape w.old (HasSomeTrees shape.now) }
    ensures told { IfOk result (λ answer. LeadsTo W.Words W.Shape.Shape w.old w.new
        (Tells (HasTrees shape.now) (λ trees. finite.get (entries_in order trees) key) answer)) }
    ensures trees { OnOk result (InEachState W.Words W.Shape.Shape w.new (HasSomeTrees shape.now)) }
    ensures goes_on { GoesOn W.Words w.old w.new result }
{
    shape.tree(order).get(w, key)
}

/// The first entry from a key on.
pub fn first_in<W: Words>(
    w: &mut W,
    shape: &RecordShape,
    order: Order,
    key: u64,
) -> Result<Option<(u64, u64)>, Stop>
    requires ready { IsReady W.Words w.old }
    requires trees { InEachState W.Words W.Shape.Shape w.old (HasSomeTrees shape.now) }
    ensures told { IfOk result (λ answer. LeadsTo W.Words W.Shape.Shape w.old w.new
        (Tells (HasTrees shape.now) (λ trees. first_in key (entries_in order trees)) answer)) }
    ensures trees { OnOk result (InEachState W.Words W.Shape.Shape w.new (HasSomeTrees shape.now)) }
    ensures goes_on { GoesOn W.Words w.old w.new result }
{
    shape.tree(order).first_from(w, key)
}

/// The first key from one on. No value is read.
pub fn first_key_in<W: Words>(
    w: &mut W,
    shape: &RecordShape,
    order: Order,
    key: u64,
) -> Result<Option<u64>, Stop>
    requires ready { IsReady W.Words w.old }
    requires trees { InEachState W.Words W.Shape.Shape w.old (HasSomeTrees shape.now) }
    ensures told { IfOk result (λ answer. LeadsTo W.Words W.Shape.Shape w.old w.new
        (Tells (HasTrees shape.now) (λ trees. first_key_in key (entries_in order trees)) answer)) }
    ensures trees { OnOk result (InEachState W.Words W.Shape.Shape w.new (HasSomeTrees shape.now)) }
    ensures goes_on { GoesOn W.Words w.old w.new result }
{
    shape.tree(order).first_key_from(w, key)
}

/// Puts a value at a key. A new key takes a block, if one is free.
pub fn put_in<W: Words>(
    w: &mut W,
    shape: &RecordShape,
    order: Order,
    key: u64,
    value: u64,
) -> Result<Put, Stop>
    requires ready { IsReady W.Words w.old }
    requires trees { InEachState W.Words W.Shape.Shape w.old (HasSomeTrees shape.now) }
    ensures put { IfOk result (λ put. LeadsTo W.Words W.Shape.Shape w.old w.new
        (TellsAndChanges (HasTrees shape.now)
        (λ trees. put_answer (finite.get (entries_in order trees) key)
        (is_used_up shape.now trees))
        (λ trees. with_entries order (put_by put key value (entries_in order trees)) trees) put)) }
    ensures trees { OnOk result (InEachState W.Words W.Shape.Shape w.new (HasSomeTrees shape.now)) }
    ensures goes_on { GoesOn W.Words w.old w.new result }
{
    shape.tree(order).insert(w, key, value)
}

/// Takes a key out, and answers the value that it had.
pub fn cut_in<W: Words>(
    w: &mut W,
    shape: &RecordShape,
    order: Order,
    key: u64,
) -> Result<Option<u64>, Stop>
    requires ready { IsReady W.Words w.old }
    requires trees { InEachState W.Words W.Shape.Shape w.old (HasSomeTrees shape.now) }
    ensures cut { IfOk result (λ answer. LeadsTo W.Words W.Shape.Shape w.old w.new
        (TellsAndChanges (HasTrees shape.now)
        (λ trees. finite.get (entries_in order trees) key)
        (λ trees. with_entries order (finite.remove (entries_in order trees) key) trees)
        answer)) }
    ensures trees { OnOk result (InEachState W.Words W.Shape.Shape w.new (HasSomeTrees shape.now)) }
    ensures goes_on { GoesOn W.Words w.old w.new result }
{
    shape.tree(order).remove(w, key)
}
