//! Laws of the language, each the contract of a function that does nothing.

ghost use Rattle.std.specs.Prelude.{◌≡◌};
ghost use Rattle.books_model.specs.Laws.{RefusedChangesNothing, MoveKeepsAllCash, TradeKeepsAllCash, TradeKeepsQuantities, DepositAddsItsAmount, WithdrawTakesItsAmount, BooksStayInRange, ScriptsKeepSizes, ScriptsGoByInstruments, QueueIsFirstInFirstOut, OperationsAlone};

use crate::limits::{
    GREATEST_ACCOUNT, GREATEST_AMOUNT, GREATEST_CASH, GREATEST_PRICE, GREATEST_QUANTITY,
    GREATEST_RATE, GREATEST_SHORTFALL, MOST_ALTERNATIVES, MOST_BLOCKS, MOST_INSTRUMENTS,
    MOST_OPERATIONS, MOST_RING,
};

/// The limits of the language, in digits: whatever cites them by name means these numbers.
pub fn limits_are_those_of_the_language()
    ensures blocks { MOST_BLOCKS ≡ 65_536 }
    ensures instruments { MOST_INSTRUMENTS ≡ 64 }
    ensures ring { MOST_RING ≡ 1_024 }
    ensures account { GREATEST_ACCOUNT ≡ 4_294_967_295 }
    ensures cash { GREATEST_CASH ≡ 1_000_000_000_000_000_000 }
    ensures amount { GREATEST_AMOUNT ≡ 1_000_000_000_000_000_000 }
    ensures price { GREATEST_PRICE ≡ 1_000_000_000 }
    ensures quantity { GREATEST_QUANTITY ≡ 1_000_000 }
    ensures rate { GREATEST_RATE ≡ 100 }
    ensures shortfall { GREATEST_SHORTFALL ≡ 64_000_000_000_000_000 }
    ensures operations { MOST_OPERATIONS ≡ 64 }
    ensures alternatives { MOST_ALTERNATIVES ≡ 64 }
{}

/// A script that is declined or finds no block changes nothing.
pub fn refused_changes_nothing()
    ensures { RefusedChangesNothing }
{}

/// A move keeps the sum of all cash.
pub fn move_keeps_all_cash()
    ensures { MoveKeepsAllCash }
{}

/// A trade keeps the sum of all cash.
pub fn trade_keeps_all_cash()
    ensures { TradeKeepsAllCash }
{}

/// A trade keeps the sum of the quantities of each instrument.
pub fn trade_keeps_quantities()
    ensures { TradeKeepsQuantities }
{}

/// A deposit adds its amount to the sum of all cash.
pub fn deposit_adds_its_amount()
    ensures { DepositAddsItsAmount }
{}

/// A withdrawal takes its amount from the sum of all cash.
pub fn withdraw_takes_its_amount()
    ensures { WithdrawTakesItsAmount }
{}

/// Books in range are in range after every script for them.
pub fn books_stay_in_range()
    ensures { BooksStayInRange }
{}

/// Books have as many blocks and instruments, and as long a queue, after every script.
pub fn scripts_keep_sizes()
    ensures { ScriptsKeepSizes }
{}

/// A script for books is one for all books with as many instruments.
pub fn scripts_go_by_instruments()
    ensures { ScriptsGoByInstruments }
{}

/// Margin calls are taken in the order in which they were queued.
pub fn queue_is_first_in_first_out()
    ensures { QueueIsFirstInFirstOut }
{}

/// A script without alternatives replies what its operations come to, run in order.
pub fn operations_alone()
    ensures { OperationsAlone }
{}
