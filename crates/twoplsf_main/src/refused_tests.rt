//! Tests that come to their proper answer or to no memory, and so may be run with each allocation refused in turn. In
//! the gate none is refused.

use crate::tests::{FIRST, FIRST_OUTPUT, GOOD, HEADER, PRINTED_HEADER, served, text};
use crate::thread_tests::{BothWrite, CROSSING, TWO_ACCOUNTS};
use books_report::{Checked, check_text};
use io_ends::OutOfMemory;
use script_reader::{InputFault, read_input};
use std::alloc::Global;
use std::sync::Wait;
use std::thread::Threads;
use twoplsf::status::Status;
use worker_gate::OpenGate;

// Whether a command that prints this, if it is done, came to that, or to no memory and an empty sink.
fn is_done_or_not<R: Threads + Wait + Sync>(
    rt: &R,
    alloc: Global,
    command: &str,
    bytes: &[&str],
    output: &[u8],
) -> Result<bool, OutOfMemory> {
    let run = served(rt, alloc, command, text(alloc, bytes)?, GOOD, &OpenGate)?;
    Ok(run.is_so(Status::Done, output) || run.is_so(Status::OutOfMemory, b""))
}

#[test]
fn first_input_is_done_or_no_memory_is_found(rt: HostRuntime) {
    let output =
        b"journal\n1 ann 1 0 done ok 105\nbooks 2 blocks 4 instruments 1 ring 1\naccount 7 105\nfinish\n";
    let ended = is_done_or_not(&rt, rt.alloc(), "run 1", &[HEADER, FIRST], output);
    assert!(rt; matches!(ended, Ok(true) | Err(OutOfMemory)));
}

#[test]
fn first_output_agrees_or_no_memory_is_found(rt: HostRuntime) {
    let both = [
        HEADER,
        FIRST,
        FIRST_OUTPUT.0,
        PRINTED_HEADER,
        FIRST_OUTPUT.1,
    ];
    let ended = is_done_or_not(&rt, rt.alloc(), "check", &both, b"agrees\n");
    assert!(rt; matches!(ended, Ok(true) | Err(OutOfMemory)));
}

// Whether a text is an output of the input with these bytes.
fn agrees(alloc: Global, bytes: &[u8], text: &[u8]) -> Result<bool, OutOfMemory> {
    match read_input(alloc, bytes) {
        Ok(input) => Ok(check_text(alloc, &input, text)? == Checked::Agrees),
        Err(InputFault::OutOfMemory) => Err(OutOfMemory),
        Err(_) => Ok(false),
    }
}

// Whether two workers that cross came to an output, whatever its order, or to no memory and an empty sink. A gate that
// gives up, since the other worker found no memory before it came there, lets its worker go on.
fn is_crossed_or_not<R: Threads + Wait + Sync>(rt: &R, alloc: Global) -> Result<bool, OutOfMemory> {
    let input = text(alloc, &[TWO_ACCOUNTS, CROSSING])?;
    let bytes = input.as_slice().to_vec(alloc)?;
    let run = served(rt, alloc, "run 2", bytes, GOOD, &BothWrite::new())?;
    match run.status {
        Status::Done => agrees(alloc, input.as_slice(), run.taken.as_slice()),
        Status::OutOfMemory => Ok(run.taken.is_empty()),
        _ => Ok(false),
    }
}

#[test]
fn two_that_cross_are_done_or_no_memory_is_found(rt: HostRuntime) {
    let ended = is_crossed_or_not(&rt, rt.alloc());
    assert!(rt; matches!(ended, Ok(true) | Err(OutOfMemory)));
}
