//! Resting orders, and in which order they are served.

ghost use Rattle.std.specs.Prelude.{◌≡◌};
ghost use Rattle.order_text.specs.Matching.{allows, may_trade, serving_cmp};
ghost use Rattle.order_text.specs.Orders.{is_on};

use std::cmp::Ordering;

/// An order of which something is left to trade. It buys or it sells, at its price or a better one.
#[derive(Clone, Copy, Debug, PartialEq, Eq)]
pub struct Resting {
    pub number: u32,
    pub instrument: u32,
    pub buys: bool,
    pub price: u64,
    pub quantity: u64,
}

impl Resting {
    // Whether it is of this instrument, and a buy or a sell.
    pub(crate) fn is_on(&self, instrument: u32, buys: bool) -> bool
        ensures { result ≡ is_on instrument buys self.now }
    {
        self.instrument == instrument && self.buys == buys
    }

    // Whether it trades at this price.
    fn allows(&self, price: u64) -> bool
        ensures { result ≡ allows self.now price }
    {
        if self.buys {
            price <= self.price
        } else {
            self.price <= price
        }
    }

    // Whether it trades with a resting order.
    pub(crate) fn may_trade(&self, partner: &Resting) -> bool
        ensures { result ≡ may_trade self.now partner.now }
    {
        partner.is_on(self.instrument, !self.buys) && self.allows(partner.price)
    }
}

// Which of two buys, or of two sells, is served first.
pub(crate) fn serving(buys: bool, first: &Resting, second: &Resting) -> Ordering
    ensures { result ≡ serving_cmp buys first.now second.now }
{
    let by_price = if buys {
        second.price.cmp(&first.price)
    } else {
        first.price.cmp(&second.price)
    };
    by_price.then(first.number.cmp(&second.number))
}
