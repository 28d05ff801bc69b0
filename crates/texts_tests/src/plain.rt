//! The plain interpreters of a record store and of a limit order book, which no command runs, on texts of one caller, with
//! replies computed by hand. On the same texts rows of the program run the bodies on words.

use books_model::limits::MOST_OPERATIONS;
use io_ends::OutOfMemory;
use order_text::{Book, OrderInput, read_orders};
use record_text::{RecordInput, Store, read_records};
use std::alloc::Global;
use std::test::Fail;

// The best price trades first, and then the earlier order.
const BEST_FIRST: (&str, &str) = (
    "orders 1 blocks 8 instruments 1
scripts
script ann
sell 1 10 5
sell 1 9 2
sell 1 9 4
end
script ann
buy 1 10 7
best 1
end
finish
",
    "done 1 2 3
done 4,2@9*2,3@9*4,1@10*1 0:10
",
);

// A book with the blocks of one order: they are counted after the trades, and a refused order takes no number.
const IN_TWO_BLOCKS: (&str, &str) = (
    "orders 1 blocks 2 instruments 1
scripts
script ann
sell 1 5 1
sell 1 6 1
end
script ann
sell 1 5 1
end
script ann
buy 1 5 3
end
script ann
cancel 2
end
script ann
cancel 2
end
script ann
end
script ann
best 1
buy 1 1 1
cancel 2
end
script ann
buy 1 1 1
end
finish
",
    "full 2
done 1
done 2,1@5*1
done 2
declined 1 absent
done
declined 3 absent
done 3
",
);

// Seven buys, of which a sell fills five and rests. What is left of it keeps its place before a later one at its price.
const FIVE_FILLED: (&str, &str) = (
    "orders 1 blocks 14 instruments 2
scripts
script ann
buy 2 7 1
buy 2 9 2
buy 1 8 50
buy 2 8 3
buy 2 9 4
buy 2 8 5
buy 2 6 6
best 2
end
script ann
sell 2 7 20
best 2
best 1
end
script ann
sell 2 7 9
buy 2 7 2
buy 2 7 4
end
script ann
cancel 3
cancel 7
cancel 9
end
finish
",
    "done 1 2 3 4 5 6 7 9:0
done 8,2@9*2,5@9*4,4@8*3,6@8*5,1@7*1 6:7 8:0
done 9 10,8@7*2 11,8@7*3,9@7*1
done 50 6 8
",
);

// The last instruments, and an order of the first. A declined script leaves what rests.
const OF_OTHERS: (&str, &str) = (
    "orders 1 blocks 16384 instruments 64
scripts
script ann
sell 63 5 1
sell 64 6 1000000
buy 64 1000000000 1
buy 1 5 1
buy 64 5 1
best 64
best 63
best 62
end
script ann
cancel 2
best 64
cancel 3
end
script ann
cancel 1
cancel 2
cancel 4
cancel 5
end
finish
",
    "done 1 2 3,2@6*1 4 5 5:6 0:5 0:0
declined 3 absent
done 1 999999 1 1
",
);

// Runs the scripts of the first caller, and appends their replies, a line each.
fn run_orders(
    alloc: Global,
    input: &OrderInput,
    book: &mut Book,
    replies: &mut String,
) -> Result<(), OutOfMemory> {
    if input.callers() == 0 {
        return Ok(());
    }
    for index in 0..input.scripts_of(0) {
        let script = input.script(0, index);
        if script.len() <= MOST_OPERATIONS {
            let reply = order_text::run_plain(alloc, script, book)?;
            books_report::stores::write_reply(replies, &reply)?;
            replies.push('\n')?;
        }
    }
    Ok(())
}

// Whether the scripts of a text reply so.
fn orders_reply(alloc: Global, text: &str, replies: &str) -> Result<bool, Fail> {
    let input = read_orders(alloc, text.as_bytes())?;
    let mut book = Book::new(alloc, input.blocks());
    let mut given = String::new(alloc);
    run_orders(alloc, &input, &mut book, &mut given)?;
    Ok(given.as_str() == replies)
}

#[test]
fn scripts_of_orders_reply_by_hand(rt: HostRuntime) -> Result<(), Fail> {
    for (text, replies) in &[BEST_FIRST, IN_TWO_BLOCKS, FIVE_FILLED, OF_OTHERS] {
        assert!(rt; orders_reply(rt.alloc(), *text, *replies)?, "{text}");
    }
    Ok(())
}

// A record that is put again moves in the index.
const MOVES: (&str, &str) = (
    "records 1 blocks 4
scripts
script ann
put 7 20 1
put 8 10 2
from 1 5
put 7 5 3
from 6 5
end
script ann
get 7
get 8
end
finish
",
    "done new new 8,7 old 8
done 5:3 10:2
",
);

// The second record finds no blocks, and another is absent.
const REFUSES: (&str, &str) = (
    "records 1 blocks 3
scripts
script ann
put 1 1 1
put 2 1 1
end
script ann
get 9
end
finish
",
    "full 2
declined 1 absent
",
);

// Ties of rank go by identifier, and three records take six blocks of seven.
const TIES: (&str, &str) = (
    "records 1 blocks 7
scripts
script ann
end
script ann
get 9
end
script ann
from 1 16
end
script ann
put 3 5 30
put 1 5 10
put 2 4 20
from 5 16
from 4 2
from 6 1
end
script ann
drop 3
put 4 1 0
put 5 1 0
end
script ann
get 3
put 3 9 31
drop 4
end
script ann
get 3
put 3 9 31
drop 3
end
script ann
get 3
end
script ann
from 1 16
end
finish
",
    "done
declined 1 absent
done none
done new new new 1,3 2,1 none
full 3
declined 3 absent
done 5:30 old ok
declined 1 absent
done 2,1
",
);

// Runs the scripts of the first caller, and appends their replies, a line each.
fn run_records(
    alloc: Global,
    input: &RecordInput,
    store: &mut Store,
    replies: &mut String,
) -> Result<(), OutOfMemory> {
    if input.callers() == 0 {
        return Ok(());
    }
    for index in 0..input.scripts_of(0) {
        let script = input.script(0, index);
        if script.len() <= MOST_OPERATIONS {
            let reply = record_text::run_plain(alloc, script, store)?;
            books_report::stores::write_reply(replies, &reply)?;
            replies.push('\n')?;
        }
    }
    Ok(())
}

// Whether the scripts of a text reply so.
fn records_reply(alloc: Global, text: &str, replies: &str) -> Result<bool, Fail> {
    let input = read_records(alloc, text.as_bytes())?;
    let mut store = Store::new(alloc, input.blocks());
    let mut given = String::new(alloc);
    run_records(alloc, &input, &mut store, &mut given)?;
    Ok(given.as_str() == replies)
}

#[test]
fn scripts_of_records_reply_by_hand(rt: HostRuntime) -> Result<(), Fail> {
    for (text, replies) in &[MOVES, REFUSES, TIES] {
        assert!(rt; records_reply(rt.alloc(), *text, *replies)?, "{text}");
    }
    Ok(())
}
