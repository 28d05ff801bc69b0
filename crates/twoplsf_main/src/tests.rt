ghost use Rattle.std.specs.Prelude.{◌≤◌};

use io_ends::{MemSink, MemSource, OutOfMemory};
use std::alloc::Global;
use std::process::Abort;
use std::sync::Wait;
use std::test::Fail;
use std::thread::Threads;
use twoplsf::serve::serve;
use twoplsf::status::Status;
use worker_gate::{Gate, OpenGate};

// An input with the sizes 4, 1 and 1.
pub(crate) const HEADER: &str = "books 1 blocks 4 instruments 1 ring 1\n";

// What is printed of it: all output is of version 2.
pub(crate) const PRINTED_HEADER: &str = "books 2 blocks 4 instruments 1 ring 1\n";

// What deposits and shows account 7.
pub(crate) const FIRST: &str =
    "account 7 100\nscripts\nscript ann\ndeposit 7 5\nshow 7\nend\nfinish\n";

// Its output, but for the header.
pub(crate) const FIRST_OUTPUT: (&str, &str) = (
    "journal\n1 ann 1 0 done ok 105\n",
    "account 7 105\nfinish\n",
);

// Records 7 and 8, of which the first moves in front of the other.
pub(crate) const MOVED: &str =
    "records 1 blocks 4\nscripts\nscript ann\nput 7 20 1\nput 8 10 2\nfrom 1 5\nput 7 5 3\nfrom 6 5\nend\nfinish\n";

// What is printed of them.
const MOVED_OUTPUT: &str =
    "journal\n1 ann 1 0 done new new 8,7 old 8\nrecords 1 blocks 4\nrecord 7 5 3\nrecord 8 10 2\nfinish\n";

// Three sells and a buy, which takes the two of the lowest price by their arrival, and a part of the third.
pub(crate) const TRADED: &str =
    "orders 1 blocks 8 instruments 1\nscripts\nscript ann\nsell 1 10 5\nsell 1 9 2\nsell 1 9 4\nend\nscript bob\nbuy 1 10 7\nbest 1\nend\nfinish\n";

// What is printed of them.
const TRADED_OUTPUT: &str =
    "journal\n1 ann 1 0 done 1 2 3\n2 bob 1 0 done 4,2@9*2,3@9*4,1@10*1 0:10\norders 1 blocks 8 instruments 1\norder 1 1 sell 10 4\nfinish\n";

// The cells after the first round of two workers.
pub(crate) const CARRIED: &str =
    "cell 0 18446744073709551615\ncell 1 18446744073709551616\ncell 2 1\ncell 3 0\ncell 4 0\ncell 5 0\ncell 6 0\ncell 7 0\n";

// What a run came to, and what its sink took.
#[derive(Drop)]
pub(crate) struct Outcome {
    pub(crate) status: Status,
    pub(crate) taken: Vec<u8>,
}

impl Outcome {
    // That a run ended so, and its sink took these bytes.
    pub(crate) fn is_so(&self, status: Status, taken: &[u8]) -> bool {
        self.status == status && self.taken.as_slice() == taken
    }
}

// How the ends behave: the most bytes that a call moves, and the call of each that fails (0: none).
#[derive(Clone, Copy)]
pub(crate) struct Ends {
    pub(crate) most: usize,
    pub(crate) read_fails: u64,
    pub(crate) write_fails: u64,
}

// Ends that move much and never fail.
pub(crate) const GOOD: Ends = Ends {
    most: 1_000_000,
    read_fails: 0,
    write_fails: 0,
};

// The words of a command line.
pub(crate) fn words(alloc: Global, line: &str) -> Result<Vec<String>, OutOfMemory> {
    let mut words = Vec::new(alloc);
    for word in line.split_whitespace() {
        words.push(String::from_str(alloc, word)?)?;
    }
    Ok(words)
}

// What the words come to over these ends. What was served is let go here, if nothing else is owned.
fn status_of<R: Threads + Wait + Sync, G: Gate + Sync>(
    rt: &R,
    alloc: Global,
    words: &[String],
    source: &mut MemSource,
    sink: &mut MemSink,
    gate: &G,
) -> Status {
    serve(rt, alloc, words, source, sink, gate).status
}

// What a command comes to over ends of this kind, with this gate.
pub(crate) fn served<R: Threads + Wait + Sync, G: Gate + Sync>(
    rt: &R,
    alloc: Global,
    line: &str,
    bytes: Vec<u8>,
    ends: Ends,
    gate: &G,
) -> Result<Outcome, OutOfMemory>
    requires { 1 ≤ ends.most }
{
    let words = words(alloc, line)?;
    let mut source = MemSource::new(bytes, ends.most, vec![in alloc; ends.read_fails]?);
    let mut sink = MemSink::with_room(
        alloc,
        1_000_000,
        ends.most,
        vec![in alloc; ends.write_fails]?,
    )?;
    let status = status_of(rt, alloc, &words, &mut source, &mut sink, gate);
    Ok(Outcome {
        status,
        taken: sink.taken().to_vec(alloc)?,
    })
}

// The bytes of texts, one behind the other.
pub(crate) fn text(alloc: Global, parts: &[&str]) -> Result<Vec<u8>, OutOfMemory> {
    let mut bytes = Vec::new(alloc);
    for part in parts {
        bytes.extend_from_slice(part.as_bytes())?;
    }
    Ok(bytes)
}

// What a command that is done prints of an input, which comes in parts, with this gate.
pub(crate) fn printed<R: Abort + Threads + Wait + Sync, G: Gate + Sync>(
    rt: &R,
    alloc: Global,
    command: &str,
    input: &[&str],
    gate: &G,
) -> Result<Vec<u8>, OutOfMemory> {
    let run = served(rt, alloc, command, text(alloc, input)?, GOOD, gate)?;
    assert_eq!(rt; run.status, Status::Done, "{command}");
    Ok(run.taken)
}

// Whether a text is these parts, one behind another.
pub(crate) fn is_text(text: &[u8], parts: &[&str]) -> bool {
    let mut rest = text;
    for part in parts {
        let Some(behind) = rest.strip_prefix(part.as_bytes()) else {
            return false;
        };
        rest = behind;
    }
    rest.is_empty()
}

#[test]
fn each_command_prints_its_text(rt: HostRuntime) -> Result<(), Fail> {
    let output = [FIRST_OUTPUT.0, PRINTED_HEADER, FIRST_OUTPUT.1];
    let both = [
        HEADER,
        FIRST,
        FIRST_OUTPUT.0,
        PRINTED_HEADER,
        FIRST_OUTPUT.1,
    ];
    // The 200 accounts open with 1,000,000 each, and the one script deposits 46. Each account holds 100 of each of 8
    // instruments.
    let summary = ["scripts 1\ncash 200000046\nquantity 160000\nagrees\n"];
    for (command, input, output) in &[
        ("run 1", [HEADER, FIRST].as_slice(), output.as_slice()),
        ("check", both.as_slice(), ["agrees\n"].as_slice()),
        ("drill 1 0 1 1", [].as_slice(), summary.as_slice()),
        ("cells 2 1", [].as_slice(), [CARRIED].as_slice()),
        ("records 1", [MOVED].as_slice(), [MOVED_OUTPUT].as_slice()),
        ("orders 1", [TRADED].as_slice(), [TRADED_OUTPUT].as_slice()),
    ] {
        let taken = printed(&rt, rt.alloc(), *command, *input, &OpenGate)?;
        assert!(rt; is_text(&taken, *output), "{command}");
    }
    Ok(())
}

#[test]
fn make_prints_the_known_input(rt: HostRuntime) -> Result<(), Fail> {
    let made = printed(&rt, rt.alloc(), "make 0 1 1", &[], &OpenGate)?;
    let front = b"books 1 blocks 4096 instruments 8 ring 64\naccount 1 1000000\n".as_slice();
    let back = b"scripts\nscript caaa\ndeposit 118 46\nend\nfinish\n".as_slice();
    assert!(rt; made.starts_with(front) && made.ends_with(back));
    Ok(())
}
