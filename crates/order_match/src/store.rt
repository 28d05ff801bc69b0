//! The store of resting orders: what an operation does on its words, and what its inputs are.

use crate::closing::orders_of_words;
use crate::lay::empty_words;
use crate::operations::{best, cancel, enter};
use crate::shape::OrderShape;
use books_report::Line;
use io_ends::OutOfMemory;
use order_text::{OrderInput, OrderOp, OrderReply, OrderScript, OrderValue, orders_text};
use std::alloc::Global;
use txn_stores::{Outcome, Store};
use txn_words::{Stop, Words};

impl Store for OrderShape {
    ghost use Rattle.order_text.specs.Interpreter.{order_step_of};
    ghost use Rattle.order_text.specs.Orders.{OrderBook};
    ghost use Rattle.order_text.specs.Output.{order_store};
    ghost use Rattle.order_text.specs.Ranges.{IsOrderOp, IsOrderScript};
    ghost use Rattle.order_match.specs.Days.{shape_of};
    ghost use Rattle.order_match.specs.Standing.{Stands};

    type Op = OrderOp;

    type Value = OrderValue;

    type Input = OrderInput;

    ghost State = { OrderBook };

    ghost stands = { Stands };

    ghost step = { λ _. order_step_of };

    ghost is_operation = { λ shape. IsOrderOp shape.instruments };

    ghost is_script = { λ shape. IsOrderScript shape.instruments };

    ghost told = { order_store };

    ghost shape_of = { shape_of };

    fn shape_of(input: &OrderInput) -> OrderShape {
        OrderShape {
            blocks: input.blocks(),
            instruments: input.instruments(),
        }
    }

    fn callers(input: &OrderInput) -> u32 {
        input.callers()
    }

    fn scripts_of(input: &OrderInput, caller: u32) -> u32 {
        input.scripts_of(caller)
    }

    fn script(input: &OrderInput, caller: u32, index: u32) -> &OrderScript {
        let _callers = input.callers();
        input.script(caller, index)
    }

    fn opening_words(alloc: Global, input: &OrderInput) -> Result<Vec<u64>, OutOfMemory> {
        let _callers = input.callers();
        empty_words(alloc, &OrderShape::shape_of(input))
    }

    fn run_operation<W: Words>(
        &self,
        alloc: Global,
        w: &mut W,
        op: OrderOp,
    ) -> Result<Outcome<OrderValue>, Stop> {
        match op {
            OrderOp::Buy(instrument, price, quantity) => {
                enter(alloc, w, self, true, instrument, price, quantity)
            }
            OrderOp::Sell(instrument, price, quantity) => {
                enter(alloc, w, self, false, instrument, price, quantity)
            }
            OrderOp::Cancel(number) => cancel(w, self, number),
            OrderOp::Best(instrument) => best(w, self, instrument),
        }
    }

    fn text(
        alloc: Global,
        input: &OrderInput,
        lines: &[Line],
        replies: &[&OrderReply],
        words: &[u64],
    ) -> Result<Vec<u8>, OutOfMemory> {
        let closing = orders_of_words(alloc, &OrderShape::shape_of(input), words)?;
        orders_text(alloc, input, lines, replies, &closing)
    }

    ghost good_stand = { λ shape words h. h };

    ghost stand_good = { λ shape words h. h };

    ghost few = { λ shape script h. h.few };

    ghost each = { λ shape script h. h.each };
}
