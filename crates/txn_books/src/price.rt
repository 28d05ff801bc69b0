//! The prices of books on words.

ghost use Rattle.std.specs.Prelude.{IfOk, IfSome, OnOk};
ghost use Rattle.std.specs.FinMap as map;
ghost use Rattle.books_model.specs.declared.limits.TheConstants.{GREATEST_PRICE};
ghost use Rattle.books_model.specs.Books.{put_price};
ghost use Rattle.books_model.specs.Ranges.{IsWithin};
ghost use Rattle.txn_words.specs.Calls.{IsReady, GoesOn, InEachState, LeadsTo};
ghost use Rattle.txn_books.specs.Standing.{IsGoodFor, Stands};
ghost use Rattle.txn_words.specs.Access.{Tells, ChangesWithRoom};
ghost use Rattle.txn_books.specs.Access.{lacks_price_room};

use crate::layout::price_key;
use crate::room::has_room;
use crate::shape::BooksShape;
use txn_words::{Stop, Words};

/// The price of an instrument, if it has one.
pub fn price<W: Words>(w: &mut W, shape: &BooksShape, instrument: u32) -> Result<Option<u64>, Stop>
    requires ready { IsReady W.Words w.old }
    requires stands { InEachState W.Words W.Shape.Shape w.old (IsGoodFor shape.now) }
    requires instrument { IsWithin 1 shape.now.instruments instrument }
    ensures told { IfOk result (λ answer. LeadsTo W.Words W.Shape.Shape w.old w.new
        (Tells (Stands shape.now) (λ books. map.get books.prices instrument) answer)) }
    ensures range { IfOk result (λ answer. IfSome answer (IsWithin 1 GREATEST_PRICE)) }
    ensures stands { OnOk result (InEachState W.Words W.Shape.Shape w.new (IsGoodFor shape.now)) }
    ensures goes_on { GoesOn W.Words w.old w.new result }
{
    shape.chains().get(w, price_key(instrument))
}

/// Gives an instrument a price. False: it had none, no block was left for one, and nothing changed.
pub fn put_price<W: Words>(
    w: &mut W,
    shape: &BooksShape,
    instrument: u32,
    price: u64,
) -> Result<bool, Stop>
    requires ready { IsReady W.Words w.old }
    requires stands { InEachState W.Words W.Shape.Shape w.old (IsGoodFor shape.now) }
    requires instrument { IsWithin 1 shape.now.instruments instrument }
    requires range { IsWithin 1 GREATEST_PRICE price }
    ensures priced { IfOk result (λ had_room. LeadsTo W.Words W.Shape.Shape w.old w.new
        (ChangesWithRoom (Stands shape.now) (lacks_price_room instrument)
        (λ books. put_price books instrument price) had_room)) }
    ensures stands { OnOk result (InEachState W.Words W.Shape.Shape w.new (IsGoodFor shape.now)) }
    ensures goes_on { GoesOn W.Words w.old w.new result }
{
    let put = shape.chains().insert(w, price_key(instrument), price)?;
    Ok(has_room(put))
}
