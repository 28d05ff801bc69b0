//! Each read and each write that fails, in turn, ends that cannot fail, and what the program ends with.

use crate::tests::{Ends, FIRST, HEADER, MOVED, TRADED, served, text, words};
use io_ends::{MemSink, MemSource, OutOfMemory};
use std::alloc::Global;
use std::sync::Wait;
use std::test::Fail;
use std::thread::Threads;
use twoplsf::program::run_program;
use twoplsf::status::Status;
use twoplsf::surely::serve_surely;
use worker_gate::OpenGate;

#[test]
fn source_fails_at_each_read(rt: HostRuntime) -> Result<(), Fail> {
    let alloc = rt.alloc();
    for call in 1..=40 {
        let ends = Ends {
            most: 1,
            read_fails: call,
            write_fails: 0,
        };
        let run = served(
            &rt,
            alloc,
            "run 1",
            text(alloc, &[HEADER, FIRST])?,
            ends,
            &OpenGate,
        )?;
        assert!(rt; run.is_so(Status::ReadFault, b""), "read {call}");
    }
    Ok(())
}

// What the sink has taken is the output up to the byte that was refused.
#[test]
fn sink_fails_at_each_write(rt: HostRuntime) -> Result<(), Fail> {
    let alloc = rt.alloc();
    let output = b"journal\n1 ann 1 0 done ok 105\nbooks 2 blocks 4".as_slice();
    for call in 1..=40u8 {
        let ends = Ends {
            most: 1,
            read_fails: 0,
            write_fails: u64::from(call),
        };
        let run = served(
            &rt,
            alloc,
            "run 1",
            text(alloc, &[HEADER, FIRST])?,
            ends,
            &OpenGate,
        )?;
        let taken = &output[..usize::from(call).saturating_sub(1)];
        assert!(rt; run.is_so(Status::WriteFault, taken), "write {call}");
    }
    Ok(())
}

// Rows of a command over an input, by ends that move ten bytes at most, the read and the write that fail (0: none), the
// status, and what the sink has taken.
const FAILING: [(&str, &[&str], (u64, u64), Status, &str); 14] = [
    // second_write_fails_after_a_prefix
    (
        "run 1",
        &[HEADER, FIRST],
        (0, 2),
        Status::WriteFault,
        "journal\n1 ",
    ),
    // second_read_fails_and_nothing_is_written
    ("run 1", &[HEADER, FIRST], (2, 0), Status::ReadFault, ""),
    ("run 1", &[HEADER, FIRST], (1, 0), Status::ReadFault, ""),
    ("run 1", &[HEADER, FIRST], (0, 1), Status::WriteFault, ""),
    ("cells 1 1", &[], (0, 1), Status::WriteFault, ""),
    (
        "cells 1 1",
        &[],
        (0, 5),
        Status::WriteFault,
        "cell 0 18446744073709551615\ncell 1 1\ncel",
    ),
    ("orders 1", &[TRADED], (1, 0), Status::ReadFault, ""),
    ("orders 1", &[TRADED], (3, 0), Status::ReadFault, ""),
    ("orders 1", &[TRADED], (0, 1), Status::WriteFault, ""),
    (
        "orders 1",
        &[TRADED],
        (0, 3),
        Status::WriteFault,
        "journal\n1 ann 1 0 do",
    ),
    ("records 2", &[MOVED], (1, 0), Status::ReadFault, ""),
    ("records 2", &[MOVED], (3, 0), Status::ReadFault, ""),
    ("records 2", &[MOVED], (0, 1), Status::WriteFault, ""),
    (
        "records 2",
        &[MOVED],
        (0, 3),
        Status::WriteFault,
        "journal\n1 ann 1 0 do",
    ),
];

#[test]
fn ends_that_fail_leave_a_front(rt: HostRuntime) -> Result<(), Fail> {
    let alloc = rt.alloc();
    for (command, input, (read_fails, write_fails), status, taken) in &FAILING {
        let ends = Ends {
            most: 10,
            read_fails: *read_fails,
            write_fails: *write_fails,
        };
        let run = served(&rt, alloc, *command, text(alloc, *input)?, ends, &OpenGate)?;
        assert!(rt;
            run.is_so(*status, taken.as_bytes()),
            "{command} {read_fails} {write_fails}"
        );
    }
    Ok(())
}

// What a command came to over an input and a text behind it, and whether it tells of a day, of cells, of records and of
// orders.
fn surely<R: Threads + Wait + Sync>(
    rt: &R,
    alloc: Global,
    command: &str,
    input: &str,
    behind: &str,
) -> Result<(Status, [bool; 4]), OutOfMemory> {
    let words = words(alloc, command)?;
    let bytes = text(alloc, &[input, behind])?;
    let served = serve_surely(rt, alloc, &words, bytes, &OpenGate);
    let tells = [
        served.day.is_some(),
        served.cells.is_some(),
        served.records.is_some(),
        served.orders.is_some(),
    ];
    Ok((served.status, tells))
}

// The first input.
const WHOLE: &str =
    "books 1 blocks 4 instruments 1 ring 1\naccount 7 100\nscripts\nscript ann\ndeposit 7 5\nshow 7\nend\nfinish\n";

// Its output.
const PRINTED: &str =
    "journal\n1 ann 1 0 done ok 105\nbooks 2 blocks 4 instruments 1 ring 1\naccount 7 105\nfinish\n";

// Of nothing, of a day, of cells, of records and of orders.
const NONE: [bool; 4] = [false; 4];

const DAY: [bool; 4] = [true, false, false, false];

const CELLS: [bool; 4] = [false, true, false, false];

const RECORDS: [bool; 4] = [false, false, true, false];

const ORDERS: [bool; 4] = [false, false, false, true];

#[test]
fn sure_ends_never_fault(rt: HostRuntime) -> Result<(), Fail> {
    for (command, input, behind, status, tells) in &[
        ("run 1", WHOLE, "", Status::Done, DAY),
        ("run 2", WHOLE, "", Status::Done, DAY),
        ("run 1", "", "", Status::BadInput, NONE),
        ("run 0", WHOLE, "", Status::BadWords, NONE),
        ("check", WHOLE, PRINTED, Status::Done, NONE),
        ("check", WHOLE, "journal\n", Status::Differs, NONE),
        ("check", "", "", Status::BadInput, NONE),
        ("make 0 1 1", WHOLE, "", Status::Done, NONE),
        ("drill 1 0 1 1", WHOLE, "", Status::Done, DAY),
        ("cells 2 1", WHOLE, "", Status::Done, CELLS),
        ("records 2", MOVED, "", Status::Done, RECORDS),
        ("orders 2", TRADED, "", Status::Done, ORDERS),
    ] {
        let came = surely(&rt, rt.alloc(), *command, *input, *behind)?;
        assert_eq!(rt; came, (*status, *tells), "{command}");
    }
    Ok(())
}

// What the program ends with, of no words, and of words over the first input.
#[test]
fn the_program_ends_with_the_number_of_its_status(rt: HostRuntime) -> Result<(), Fail> {
    let alloc = rt.alloc();
    for (command, number) in &[(None, 7), (Some("run 1"), 0), (Some("run 0"), 2)] {
        let line = match *command {
            Some(command) => Ok(words(alloc, command)?),
            None => Err(OutOfMemory),
        };
        let mut source = MemSource::new(text(alloc, &[WHOLE])?, 100, Vec::new(alloc));
        let mut sink = MemSink::with_room(alloc, 1_000, 100, Vec::new(alloc))?;
        let ended = run_program(&rt, alloc, line, &mut source, &mut sink, &OpenGate);
        assert_eq!(rt; ended, *number);
    }
    Ok(())
}
