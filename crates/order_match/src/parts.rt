//! Calls on one of the parts of a book's words, whatever these hold. The other parts stay what they were.

ghost use Rattle.std.specs.Prelude.{◌≡◌, IfOk, OnOk};
ghost use Rattle.std.specs.FinMap as finite;
ghost use Rattle.books_model.specs.Ranges.{IsWithin};
ghost use Rattle.txn_words.specs.Access.{Changes, Tells, TellsAndChanges};
ghost use Rattle.txn_words.specs.Calls.{IsReady, GoesOn, InEachState, LeadsTo};
ghost use Rattle.order_match.specs.Layout.{side_at};
ghost use Rattle.order_match.specs.declared.layout.TheConstants.{LAST_AT};
ghost use Rattle.order_match.specs.Standing.{HasParts, HasSomeParts};
ghost use Rattle.order_match.specs.Access.{first_in, is_used_up, put_answer, put_by, with_last, with_places, with_side};
ghost use Rattle.order_match.specs.Holding.{WritesFirst};

use crate::layout::{LAST_AT, Side};
use crate::shape::OrderShape;
use txn_alloc::Put;
use txn_words::{Stop, Words};

/// The last order number.
pub fn last_number<W: Words>(w: &mut W, shape: &OrderShape) -> Result<u64, Stop>
    requires ready { IsReady W.Words w.old }
    requires parts { InEachState W.Words W.Shape.Shape w.old (HasSomeParts shape.now) }
    ensures told { IfOk result (λ answer. LeadsTo W.Words W.Shape.Shape w.old w.new
        (Tells (HasParts shape.now) (λ held. held.last) answer)) }
    ensures parts { OnOk result (InEachState W.Words W.Shape.Shape w.new (HasSomeParts shape.now)) }
    ensures goes_on { GoesOn W.Words w.old w.new result }
{
    w.read(LAST_AT)
}

/// Sets the last order number.
pub fn set_last_number<W: Words>(w: &mut W, shape: &OrderShape, last: u64) -> Result<(), Stop>
    requires ready { IsReady W.Words w.old }
    requires parts { InEachState W.Words W.Shape.Shape w.old (HasSomeParts shape.now) }
    ensures set { OnOk result (LeadsTo W.Words W.Shape.Shape w.old w.new
        (Changes (HasParts shape.now) (with_last last))) }
    ensures parts { OnOk result (InEachState W.Words W.Shape.Shape w.new (HasSomeParts shape.now)) }
    ensures goes_on { GoesOn W.Words w.old w.new result }
{
    w.write(LAST_AT, last)
}

/// Asks for the lock of the last order number to write it, and leaves the number as it is. Whoever reads it first and writes it
/// then may meet another who does so too, and one of them gives way; who asks to write at once waits.
pub fn hold_last_number<W: Words>(w: &mut W, shape: &OrderShape) -> Result<(), Stop>
    requires ready { IsReady W.Words w.old }
    requires parts { InEachState W.Words W.Shape.Shape w.old (HasSomeParts shape.now) }
    ensures same { OnOk result
        (LeadsTo W.Words W.Shape.Shape w.old w.new (λ before now. now ≡ before)) }
    ensures writes { OnOk result (WritesFirst W.Words LAST_AT w.old w.new) }
    ensures goes_on { GoesOn W.Words w.old w.new result }
{
    let before = w.mark();
    w.write(LAST_AT, 0)?;
    w.back_to(before)
}

/// The entry of a side with the lowest key, which is that of the order that is served first.
pub fn first_on<W: Words>(
    w: &mut W,
    shape: &OrderShape,
    side: &Side,
) -> Result<Option<(u64, u64)>, Stop>
    requires ready { IsReady W.Words w.old }
    requires parts { InEachState W.Words W.Shape.Shape w.old (HasSomeParts shape.now) }
    requires side { IsWithin 1 shape.now.instruments side.now.instrument }
    ensures told { IfOk result (λ answer. LeadsTo W.Words W.Shape.Shape w.old w.new
        (Tells (HasParts shape.now)
        (λ held. first_in (held.sides (side_at side.now.instrument side.now.buys))) answer)) }
    ensures parts { OnOk result (InEachState W.Words W.Shape.Shape w.new (HasSomeParts shape.now)) }
    ensures goes_on { GoesOn W.Words w.old w.new result }
{
    shape.tree(side).first_from(w, 0)
}

/// Puts a quantity at a key of a side. A new key takes a block, if one is free.
pub fn put_on<W: Words>(
    w: &mut W,
    shape: &OrderShape,
    side: &Side,
    key: u64,
    quantity: u64,
) -> Result<Put, Stop>
    requires ready { IsReady W.Words w.old }
    requires parts { InEachState W.Words W.Shape.Shape w.old (HasSomeParts shape.now) }
    requires side { IsWithin 1 shape.now.instruments side.now.instrument }
    ensures put { IfOk result (λ put. LeadsTo W.Words W.Shape.Shape w.old w.new
        (TellsAndChanges (HasParts shape.now)
        (λ held. put_answer
        (finite.get (held.sides (side_at side.now.instrument side.now.buys)) key)
        (is_used_up shape.now held))
        (λ held. with_side (side_at side.now.instrument side.now.buys)
        (put_by put key quantity (held.sides (side_at side.now.instrument side.now.buys))) held)
        put)) }
    ensures parts { OnOk result (InEachState W.Words W.Shape.Shape w.new (HasSomeParts shape.now)) }
    ensures goes_on { GoesOn W.Words w.old w.new result }
{
    shape.tree(side).insert(w, key, quantity)
}

/// Takes a key out of a side, and answers the quantity that it had.
pub fn cut_on<W: Words>(
    w: &mut W,
    shape: &OrderShape,
    side: &Side,
    key: u64,
) -> Result<Option<u64>, Stop>
    requires ready { IsReady W.Words w.old }
    requires parts { InEachState W.Words W.Shape.Shape w.old (HasSomeParts shape.now) }
    requires side { IsWithin 1 shape.now.instruments side.now.instrument }
    ensures cut { IfOk result (λ answer. LeadsTo W.Words W.Shape.Shape w.old w.new
        (TellsAndChanges (HasParts shape.now)
        (λ held. finite.get (held.sides (side_at side.now.instrument side.now.buys)) key)
        (λ held. with_side (side_at side.now.instrument side.now.buys)
        (finite.remove (held.sides (side_at side.now.instrument side.now.buys)) key) held)
        answer)) }
    ensures parts { OnOk result (InEachState W.Words W.Shape.Shape w.new (HasSomeParts shape.now)) }
    ensures goes_on { GoesOn W.Words w.old w.new result }
{
    shape.tree(side).remove(w, key)
}

/// The quantity at a key of a side.
pub fn quantity_on<W: Words>(
    w: &mut W,
    shape: &OrderShape,
    side: &Side,
    key: u64,
) -> Result<Option<u64>, Stop>
    requires ready { IsReady W.Words w.old }
    requires parts { InEachState W.Words W.Shape.Shape w.old (HasSomeParts shape.now) }
    requires side { IsWithin 1 shape.now.instruments side.now.instrument }
    ensures told { IfOk result (λ answer. LeadsTo W.Words W.Shape.Shape w.old w.new
        (Tells (HasParts shape.now)
        (λ held. finite.get (held.sides (side_at side.now.instrument side.now.buys)) key)
        answer)) }
    ensures parts { OnOk result (InEachState W.Words W.Shape.Shape w.new (HasSomeParts shape.now)) }
    ensures goes_on { GoesOn W.Words w.old w.new result }
{
    shape.tree(side).get(w, key)
}

/// The place of an order, by its number.
pub fn place_of<W: Words>(w: &mut W, shape: &OrderShape, number: u32) -> Result<Option<u64>, Stop>
    requires ready { IsReady W.Words w.old }
    requires parts { InEachState W.Words W.Shape.Shape w.old (HasSomeParts shape.now) }
    ensures told { IfOk result (λ answer. LeadsTo W.Words W.Shape.Shape w.old w.new
        (Tells (HasParts shape.now) (λ held. finite.get held.places number) answer)) }
    ensures parts { OnOk result (InEachState W.Words W.Shape.Shape w.new (HasSomeParts shape.now)) }
    ensures goes_on { GoesOn W.Words w.old w.new result }
{
    shape.chains().get(w, u64::from(number))
}

/// Puts the place of an order at its number. A new number takes a block, if one is free.
pub fn put_place<W: Words>(
    w: &mut W,
    shape: &OrderShape,
    number: u32,
    place: u64,
) -> Result<Put, Stop>
    requires ready { IsReady W.Words w.old }
    requires parts { InEachState W.Words W.Shape.Shape w.old (HasSomeParts shape.now) }
    ensures put { IfOk result (λ put. LeadsTo W.Words W.Shape.Shape w.old w.new
        (TellsAndChanges (HasParts shape.now)
        (λ held. put_answer (finite.get held.places number) (is_used_up shape.now held))
        (λ held. with_places (put_by put number place held.places) held) put)) }
    ensures parts { OnOk result (InEachState W.Words W.Shape.Shape w.new (HasSomeParts shape.now)) }
    ensures goes_on { GoesOn W.Words w.old w.new result }
{
    shape.chains().insert(w, u64::from(number), place)
}

/// Takes the place of an order out, and answers it.
pub fn cut_place<W: Words>(w: &mut W, shape: &OrderShape, number: u32) -> Result<Option<u64>, Stop>
    requires ready { IsReady W.Words w.old }
    requires parts { InEachState W.Words W.Shape.Shape w.old (HasSomeParts shape.now) }
    ensures cut { IfOk result (λ answer. LeadsTo W.Words W.Shape.Shape w.old w.new
        (TellsAndChanges (HasParts shape.now)
        (λ held. finite.get held.places number)
        (λ held. with_places (finite.remove held.places number) held) answer)) }
    ensures parts { OnOk result (InEachState W.Words W.Shape.Shape w.new (HasSomeParts shape.now)) }
    ensures goes_on { GoesOn W.Words w.old w.new result }
{
    shape.chains().remove(w, u64::from(number))
}
