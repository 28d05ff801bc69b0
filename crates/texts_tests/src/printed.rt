//! What the program prints nowhere: books by themselves, copies of replies, the greatest number, and what errors say.

use books_model::{Decline, Reply, Value, Values};
use books_report::books_text;
use books_report::words::write_reply;
use io_ends::{Failed, OutOfMemory, ReadStop, WriteFault};
use script_reader::{Fault, InputFault, read_input};
use std::alloc::Global;
use std::fmt;
use std::test::Fail;

// Books with every kind of line.
const BOOKS: &str = "books 2 blocks 8 instruments 2 ring 2
account 1 0
account 30 1000000000000000000
price 1 10
price 2 1000000000
position 1 2 5
position 30 1 1000000
position 30 2 1
call 9 64000000000000000
call 7 1
";

// Whether the books that a text opens are printed as they stand in it.
fn are_printed(alloc: Global, books: &str) -> Result<bool, Fail> {
    let text = [books, "scripts\nfinish\n"].concat(alloc)?;
    let input = read_input(alloc, text.as_bytes())?;
    let printed = books_text(alloc, input.books())?;
    Ok(printed.as_slice() == books.as_bytes())
}

// What a script tells, with every word of a value, and what is printed of it.
const VALUES: (&[Value], &str) = (
    &[
        Value::Done,
        Value::Number(105),
        Value::Number(340_282_366_920_938_463_463_374_607_431_768_211_455),
        Value::Call(7, 9),
        Value::Nothing,
        Value::First,
        Value::Second,
    ],
    "done ok 105 340282366920938463463374607431768211455 7:9 none first second",
);

// The reply of a script that tells these values.
fn done_of(alloc: Global, told: &[Value]) -> Result<Reply, OutOfMemory> {
    let mut values = Values::new(alloc);
    for value in told {
        values.push(*value)?;
    }
    Ok(Reply::Done(values))
}

// Whether a copy of a reply is printed so.
fn is_copied(alloc: Global, reply: &Reply, words: &str) -> Result<bool, OutOfMemory> {
    let mut text = String::new(alloc);
    write_reply(&mut text, &reply.copy(alloc)?)?;
    Ok(text.as_str() == words)
}

#[test]
fn books_and_copies_of_replies_are_printed(rt: HostRuntime) -> Result<(), Fail> {
    let alloc = rt.alloc();
    assert!(rt; are_printed(alloc, BOOKS)?);
    let done = done_of(alloc, VALUES.0)?;
    for (reply, words) in [
        (&done, VALUES.1),
        (&Reply::Declined(9, Decline::Queue), "declined 9 queue"),
        (&Reply::Full(64), "full 64"),
    ] {
        assert!(rt; is_copied(alloc, reply, words)?, "{words}");
    }
    Ok(())
}

// Whether it is printed as this text.
fn says<T: fmt::Display>(alloc: Global, it: &T, want: &str) -> bool {
    match format!(in alloc; "{it}") {
        Ok(text) => text.as_str() == want,
        Err(_) => false,
    }
}

#[test]
fn says_what_failed(rt: HostRuntime) {
    let alloc = rt.alloc();
    let first = InputFault::Line {
        line: 3,
        why: Fault::Word,
    };
    let said = [
        says(alloc, &Failed, "a read or a write failed"),
        says(alloc, &OutOfMemory, "out of memory"),
        says(alloc, &ReadStop::Fault, "a read failed"),
        says(
            alloc,
            &ReadStop::TooLarge,
            "the source gave more bytes than the limit",
        ),
        says(alloc, &ReadStop::OutOfMemory, "out of memory"),
        says(alloc, &WriteFault, "the text was not written whole"),
        says(alloc, &first, "line 3 word"),
        says(alloc, &InputFault::OutOfMemory, "out of memory"),
    ];
    assert_eq!(rt; said, [true; 8]);
}
