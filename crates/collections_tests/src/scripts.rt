//! Scripts on plain words and in the plain interpreter, side by side: the same rows through both, with replies computed
//! by hand.

ghost use Rattle.std.specs.Prelude.{◌<◌, length};
ghost use Rattle.script_reader.specs.Gathered.{caller_at};
ghost use Rattle.books_model.specs.Ranges.{IsScriptFor};

use books_model::laws::scripts_go_by_instruments;
use books_model::{Books, Decline, Reply, Script, Value, Values, run_plain};
use io_ends::OutOfMemory;
use script_reader::{Input, read_input};
use std::alloc::Global;
use std::test::Fail;
use txn_books::{BooksShape, build, read_books, run_on_plain};

// What a script is to reply.
#[derive(Clone, Copy)]
enum Want<'a> {
    Done(&'a [Value]),
    Declined(u32, Decline),
    Full(u32),
}

// Two blocks are left. Account 3 is at both limits, and the queue is full. Instrument 2 has no price.
const TEXT: &str = "books 2 blocks 9 instruments 2 ring 1
account 1 100
account 2 0
account 3 1000000000000000000
account 4 0
price 1 10
position 2 1 3
position 3 1 1000000
call 7 9
scripts
script ann
deposit 1 5
show 1
end
script ann
end
script ann
move 1 2 100
end
script ann
move 9 9 1
end
script ann
deposit 1 5
withdraw 1 1000
end
script ann
deposit 1 999999999999999900
deposit 1 1
end
script ann
open 5
open 6
open 7
end
script ann
open 5
open 6
trade 1 2 1 3
trade 2 1 1 1
end
script ann
next
margin 2 100
margin 2 100
end
script ann
next
next
end
script ann
sum 1 4294967295
sum 1 2
sum 3 1
end
script ann
close 4
close 2
end
script ann
price 2 5
trade 1 2 1 1
trade 4 2 1 1
end
script ann
try
deposit 1 5
withdraw 1 1000
else
deposit 2 3
done
show 1
end
script ann
try
withdraw 1 1000
else
show 9
done
end
script ann
try
else
done
end
script ann
try
open 5
open 6
open 7
else
open 8
open 9
done
end
finish
";

// What each script replies, on the opening books anew.
const WANTED: &[Want<'static>] = &[
    Want::Done(&[Value::Done, Value::Number(105)]),
    Want::Done(&[]),
    Want::Done(&[Value::Done]),
    Want::Declined(1, Decline::Same),
    Want::Declined(2, Decline::Cash),
    Want::Declined(2, Decline::Limit),
    Want::Full(3),
    Want::Full(4),
    Want::Declined(3, Decline::Queue),
    Want::Done(&[Value::Call(7, 9), Value::Nothing]),
    Want::Done(&[
        Value::Number(1_000_000_000_000_000_100),
        Value::Number(100),
        Value::Number(0),
    ]),
    Want::Declined(2, Decline::Held),
    Want::Declined(3, Decline::Cash),
    Want::Done(&[Value::Second, Value::Done, Value::Number(100)]),
    Want::Declined(2, Decline::Absent),
    Want::Done(&[Value::First]),
    Want::Done(&[Value::Second, Value::Done, Value::Done]),
];

// Whether these are the values.
fn are(values: &Values, wanted: &[Value]) -> bool {
    if values.len() != wanted.len() {
        return false;
    }
    (0..wanted.len()).all(|place| values.at(place) == wanted[place])
}

// Whether the reply is this one.
fn is_wanted(reply: &Reply, want: Want<'_>) -> bool {
    match reply {
        Reply::Done(values) => match want {
            Want::Done(wanted) => are(values, wanted),
            _ => false,
        },
        Reply::Declined(number, why) => match want {
            Want::Declined(wanted, reason) => *number == wanted && *why == reason,
            _ => false,
        },
        Reply::Full(number) => match want {
            Want::Full(wanted) => *number == wanted,
            _ => false,
        },
    }
}

// Whether books agree, of which neither has an account above 9, a third instrument, or room for two margin calls.
fn agree(books: &Books, others: &Books) -> bool {
    for account in 1..10 {
        if books.cash(account) != others.cash(account)
            || books.position(account, 1) != others.position(account, 1)
            || books.position(account, 2) != others.position(account, 2)
        {
            return false;
        }
    }
    books.used() == others.used()
        && books.price(1) == others.price(1)
        && books.price(2) == others.price(2)
        && books.calls() == others.calls()
        && (books.calls() == 0 || books.call_at(0) == others.call_at(0))
}

// What a script replies on words that are built of the books, and the books that it leaves there.
fn run_on_words(
    alloc: Global,
    books: &Books,
    script: &Script,
) -> Result<(Reply, Books), OutOfMemory>
    requires range { IsScriptFor books.now script.now }
{
    scripts_go_by_instruments();
    let shape = BooksShape::of(books);
    let mut words = build(alloc, books)?;
    let reply = run_on_plain(alloc, &shape, script, &mut words)?;
    let left = read_books(alloc, &shape, &words)?;
    Ok((reply, left))
}

// What it replies on a copy of the books themselves, and what it leaves of that.
fn run_in_memory(
    alloc: Global,
    books: &Books,
    script: &Script,
) -> Result<(Reply, Books), OutOfMemory>
    requires range { IsScriptFor books.now script.now }
{
    let mut left = books.copy()?;
    let reply = run_plain(alloc, script, &mut left)?;
    Ok((reply, left))
}

// Whether a script of the first caller replies so, both ways, and leaves the same books.
fn replies(alloc: Global, input: &Input, index: u32, want: Want<'_>) -> Result<bool, OutOfMemory>
    requires caller { 0 < length input.now.callers }
    requires index { index < length (caller_at input.now.callers 0).scripts }
{
    let _ = input.callers();
    let script = input.script(0, index);
    let (on_words, left) = run_on_words(alloc, input.books(), script)?;
    let (in_memory, books) = run_in_memory(alloc, input.books(), script)?;
    Ok(is_wanted(&on_words, want) && is_wanted(&in_memory, want) && agree(&left, &books))
}

// The number of the first script that does otherwise.
fn first_wrong(
    alloc: Global,
    input: &Input,
    wanted: &[Want<'_>],
) -> Result<Option<u32>, OutOfMemory> {
    let mut index = 0;
    for want in wanted {
        if input.callers() == 0 || index >= input.scripts_of(0) {
            return Ok(Some(index));
        }
        if !replies(alloc, input, index, *want)? {
            return Ok(Some(index));
        }
        index += 1;
    }
    Ok(None)
}

// The same of a text.
fn first_wrong_of(alloc: Global, text: &str, wanted: &[Want<'_>]) -> Result<Option<u32>, Fail> {
    let input = read_input(alloc, text.as_bytes())?;
    Ok(first_wrong(alloc, &input, wanted)?)
}

#[test]
fn scripts_on_plain_words_reply_as_the_interpreter(rt: HostRuntime) -> Result<(), Fail> {
    assert_eq!(rt; first_wrong_of(rt.alloc(), TEXT, WANTED)?, None);
    Ok(())
}
