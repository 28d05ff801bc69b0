//! The two sides of a trade on words that stand for books.

ghost use Rattle.std.specs.Prelude.{◌≡◌, IfOk, IfSome, OnOk};
ghost use Rattle.books_model.specs.Ranges.{IsAccountNumber, IsWithin};
ghost use Rattle.txn_words.specs.Calls.{IsReady, GoesOn, InEachState, LeadsTo};
ghost use Rattle.txn_tree_map.specs.Stored.{HasKeyIn};
ghost use Rattle.txn_books.specs.Layout.{tree_of};
ghost use Rattle.txn_books.specs.Standing.{IsGoodFor, Stands};
ghost use Rattle.txn_words.specs.Access.{OfModel, Tells};
ghost use Rattle.txn_books.specs.Inner.Trading.{side_in, side_of, IsSideInRange, MayExchange, Exchanges};

use crate::cash::{balance, set_balance};
use crate::quantity::{quantity, set_quantity};
use crate::shape::BooksShape;
use txn_words::{Stop, Words};

/// One side of a trade: an account, its cash, and how much it holds of the instrument.
#[derive(Clone, Copy)]
pub(crate) struct Side {
    pub(crate) account: u32,
    pub(crate) cash: u64,
    pub(crate) held: u64,
}

/// A side of a trade as it was found, and the block of the tree where its cash stands.
#[derive(Clone, Copy)]
pub(crate) struct Found {
    pub(crate) side: Side,
    pub(crate) block: u32,
}

impl Found {
    /// What a trade leaves of a side: this account with this cash and this holding, in the block where it stands.
    pub(crate) fn left_with(self, account: u32, cash: u64, held: u64) -> Self
        ensures { result ≡ record {
          side = record { account = account; cash = cash; held = held };
          block = self.block;
        } }
    {
        let side = Side {
            account,
            cash,
            held,
        };
        Found {
            side,
            block: self.block,
        }
    }
}

/// One side of a trade, if its account is there.
pub(crate) fn side_at<W: Words>(
    w: &mut W,
    shape: &BooksShape,
    account: u32,
    instrument: u32,
) -> Result<Option<Found>, Stop>
    requires ready { IsReady W.Words w.old }
    requires stands { InEachState W.Words W.Shape.Shape w.old (IsGoodFor shape.now) }
    requires account { IsAccountNumber account }
    requires instrument { IsWithin 1 shape.now.instruments instrument }
    ensures told { IfOk result (λ answer. LeadsTo W.Words W.Shape.Shape w.old w.new
        (Tells (Stands shape.now) (λ books. side_of books account instrument) (side_in answer))) }
    ensures held { IfOk result (λ answer. IfSome answer (λ found.
        InEachState W.Words W.Shape.Shape w.new
        (HasKeyIn (tree_of shape.now) account found.block))) }
    ensures range { IfOk result (λ answer. IfSome answer (λ found. IsSideInRange found.side)) }
    ensures stands { OnOk result (InEachState W.Words W.Shape.Shape w.new (IsGoodFor shape.now)) }
    ensures goes_on { GoesOn W.Words w.old w.new result }
{
    let Some(stored) = balance(w, shape, account)? else {
        return Ok(None);
    };
    let held = quantity(w, shape, account, instrument)?.unwrap_or(0);
    let side = Side {
        account,
        cash: stored.value,
        held,
    };
    Ok(Some(Found {
        side,
        block: stored.block,
    }))
}

/// Gives both sides what they are to have, each its cash in the block where it stands. The seller's position is lowered
/// first, which may leave a block for the buyer's. False: no block was left for that.
pub(crate) fn exchange<W: Words>(
    w: &mut W,
    shape: &BooksShape,
    instrument: u32,
    buys: Found,
    sells: Found,
) -> Result<bool, Stop>
    requires ready { IsReady W.Words w.old }
    requires stands { InEachState W.Words W.Shape.Shape w.old (IsGoodFor shape.now) }
    requires may { InEachState W.Words W.Shape.Shape w.old
        (OfModel (Stands shape.now) (MayExchange instrument buys.side sells.side)) }
    requires buyer { IsSideInRange buys.side }
    requires seller { IsSideInRange sells.side }
    requires buyer_held { InEachState W.Words W.Shape.Shape w.old
        (HasKeyIn (tree_of shape.now) buys.side.account buys.block) }
    requires seller_held { InEachState W.Words W.Shape.Shape w.old
        (HasKeyIn (tree_of shape.now) sells.side.account sells.block) }
    ensures exchanged { IfOk result (λ had_room. LeadsTo W.Words W.Shape.Shape w.old w.new
        (Exchanges shape.now instrument buys.side sells.side had_room)) }
    ensures stands { OnOk result (InEachState W.Words W.Shape.Shape w.new (IsGoodFor shape.now)) }
    ensures goes_on { GoesOn W.Words w.old w.new result }
{
    let (bought, sold) = (buys.side, sells.side);
    set_quantity(w, shape, sold.account, instrument, sold.held)?;
    if !set_quantity(w, shape, bought.account, instrument, bought.held)? {
        return Ok(false);
    }
    set_balance(w, shape, bought.account, buys.block, bought.cash)?;
    set_balance(w, shape, sold.account, sells.block, sold.cash)?;
    Ok(true)
}
