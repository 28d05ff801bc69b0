//! Where the parts of a limit order book lie in words, and how orders are named in them.

ghost use Rattle.std.specs.Prelude.{◌≡◌, ◌<◌, ◌≤◌, ◌/◌, not};
ghost use Rattle.books_model.specs.Ranges.{IsWithin};
ghost use Rattle.books_model.specs.declared.limits.TheConstants.{MOST_INSTRUMENTS};
ghost use Rattle.order_match.specs.Layout.{arena_of, chains_of, key_at, number_in, place_at, price_in, side_at, tree_of};

use crate::shape::OrderShape;
use order_text::Resting;
use txn_alloc::Arena;
use txn_hash_map::ChainMap;
use txn_tree_map::TreeMap;

/// The last order number, which counts the numbers that were given.
pub const LAST_AT: u64 = 0;

/// The first head of a list of free blocks.
pub const HEADS_AT: u64 = 1;

/// The first bucket of the chains, which hold the place of each order by its number.
pub const BUCKETS_AT: u64 = 17;

/// The first root of the trees. There are two for each instrument: that of its buys, and behind it that of its sells.
pub const ROOTS_AT: u64 = 273;

/// What the upper half of a word counts. A key has a price and a number in its halves, and a place a side and a price.
pub const HALF: u64 = 4_294_967_296;

/// What the prices of buys are taken from in their keys, so that the highest comes first.
pub const PRICE_CEILING: u64 = 4_294_967_295;

/// The buys or the sells of an instrument. Each side has a tree of its own.
#[derive(Clone, Copy, Debug, PartialEq, Eq)]
pub struct Side {
    /// The instrument's number, from 1.
    pub instrument: u32,
    /// Whether it is the buys.
    pub buys: bool,
}

impl Side {
    /// The side that has this number.
    pub fn of_number(number: u32) -> Side
        ensures number { side_at result.instrument result.buys ≡ number }
        ensures instrument { 1 ≤ result.instrument }
    {
        Side {
            instrument: number / 2 + 1,
            buys: number % 2 == 0,
        }
    }

    /// The side of an order.
    pub fn of(order: &Resting) -> Side
        ensures { result ≡ record { instrument = order.now.instrument; buys = order.now.buys } }
    {
        Side {
            instrument: order.instrument,
            buys: order.buys,
        }
    }

    /// The sides in order: the buys and then the sells of each instrument. They count from 0.
    pub fn number(&self) -> u64
        requires instrument { 1 ≤ self.now.instrument }
        ensures { result ≡ side_at self.now.instrument self.now.buys }
    {
        2 * u64::from(self.instrument - 1) + if self.buys { 0 } else { 1 }
    }

    /// The side of those with whom an order of this side trades.
    pub fn other(&self) -> Side
        ensures { result ≡ record { instrument = self.now.instrument; buys = not self.now.buys } }
    {
        Side {
            instrument: self.instrument,
            buys: !self.buys,
        }
    }

    /// The key of an order of this side in its tree. The lowest is that of the order that is served first.
    pub fn key(&self, price: u64, number: u32) -> u64
        requires price { price < HALF }
        ensures { result ≡ key_at self.now.buys price number }
    {
        let first = if self.buys {
            PRICE_CEILING - price
        } else {
            price
        };
        first * HALF + u64::from(number)
    }

    /// The price in such a key.
    pub fn price(&self, key: u64) -> u64
        ensures value { result ≡ price_in self.now.buys key }
        ensures small { result < HALF }
    {
        let first = key / HALF;
        if self.buys {
            PRICE_CEILING - first
        } else {
            first
        }
    }

    /// What the chains have at the number of an order of this side.
    pub fn place(&self, price: u64) -> u64
        requires instrument { IsWithin 1 MOST_INSTRUMENTS self.now.instrument }
        requires price { price < HALF }
        ensures { result ≡ place_at (side_at self.now.instrument self.now.buys) price }
    {
        self.number() * HALF + price
    }

    /// The side in such a place.
    pub fn at(place: u64) -> Side
        ensures number { side_at result.instrument result.buys ≡ place / HALF }
        ensures instrument { 1 ≤ result.instrument }
    {
        Side::of_number((place / HALF) as u32)
    }
}

/// The number of an order in its key.
pub fn number_of(key: u64) -> u32
    ensures { result ≡ number_in key }
{
    (key % HALF) as u32
}

impl OrderShape {
    /// The blocks, and the heads of the free ones.
    pub fn arena(&self) -> Arena
        ensures { result ≡ arena_of self.now }
    {
        Arena {
            heads: HEADS_AT,
            first: ROOTS_AT + 2 * u64::from(self.instruments),
            blocks: self.blocks,
        }
    }

    /// The chains, which hold the place of each order by its number.
    pub fn chains(&self) -> ChainMap
        ensures { result ≡ chains_of self.now }
    {
        ChainMap {
            buckets: BUCKETS_AT,
            arena: self.arena(),
        }
    }

    /// The tree of a side, which holds the quantity of each order by its key. All trees and the chains take their
    /// blocks from the same arena.
    pub fn tree(&self, side: &Side) -> TreeMap
        requires instrument { 1 ≤ side.now.instrument }
        ensures { result ≡ tree_of self.now (side_at side.now.instrument side.now.buys) }
    {
        TreeMap {
            root: ROOTS_AT + side.number(),
            arena: self.arena(),
        }
    }
}
