//! Reading to the end or the limit, writing all or a prefix: over memory, over std's readers and writers, and over ends
//! that cannot fail.

use io_ends::{
    Failed, MemSink, MemSource, OutOfMemory, ReadStop, Sink, Source, StdSink, StdSource, SureSink,
    SureSource, WriteFault, read_all, write_all_of,
};
use std::alloc::{AllocError, Global};
use std::io::{self, Read, Write};
use std::test::Fail;

// Whether "hello" is read so, within the limit, from a source that gives at most so many bytes a call and fails at this
// call.
fn is_read(
    alloc: Global,
    limit: u16,
    most: usize,
    fails: u64,
    want: Result<(), ReadStop>,
) -> Result<bool, AllocError> {
    if most == 0 {
        return Ok(false);
    }
    let bytes = b"hello".to_vec(alloc)?;
    let mut source = MemSource::new(bytes, most, vec![in alloc; fails]?);
    Ok(match read_all(alloc, &mut source, usize::from(limit)) {
        Ok(bytes) => want == Ok(()) && bytes.as_slice() == b"hello".as_slice(),
        Err(stop) => want == Err(stop),
    })
}

// Whether "hello" is written so, and this much of it taken, by a sink with so much room that takes at most so many bytes
// a call and fails at this call.
fn is_written(
    alloc: Global,
    room: usize,
    most: usize,
    fails: u64,
    want: Result<(), WriteFault>,
    taken: &str,
) -> Result<bool, OutOfMemory> {
    if most == 0 {
        return Ok(false);
    }
    let mut sink = MemSink::with_room(alloc, room, most, vec![in alloc; fails]?)?;
    let written = write_all_of(&mut sink, b"hello");
    Ok(written == want && sink.taken() == taken.as_bytes())
}

#[test]
fn ends_in_memory_fail_where_they_are_told_to(rt: HostRuntime) -> Result<(), Fail> {
    for &(limit, most, fails, want) in &[
        (5, 10, 0, Ok(())),
        (5, 2, 0, Ok(())),
        (4, 10, 0, Err(ReadStop::TooLarge)),
        (5, 2, 2, Err(ReadStop::Fault)),
    ] {
        let read = is_read(rt.alloc(), limit, most, fails, want)?;
        assert!(rt; read, "at {limit}, {most}, {fails}");
    }
    for &(room, most, fails, want, taken) in &[
        (9, 2, 0, Ok(()), "hello"),
        (9, 2, 3, Err(WriteFault), "hell"),
        (3, 2, 0, Err(WriteFault), "hel"),
        (0, 1, 0, Err(WriteFault), ""),
    ] {
        let written = is_written(rt.alloc(), room, most, fails, want, taken)?;
        assert!(rt; written, "at {room}, {most}, {fails}");
    }
    Ok(())
}

// A reader over bytes that gives at most so many a call, and where they end fails or tells the end.
#[derive(Drop)]
struct Trickle<'a> {
    rest: &'a [u8],
    most: usize,
    broken: bool,
}

impl Read for Trickle<'_> {
    fn read(&mut self, buf: &mut [u8]) -> io::Result<usize> {
        if self.broken && self.rest.is_empty() {
            return Err(io::Error::from(io::ErrorKind::Other));
        }
        let n = buf.len().min(self.most).min(self.rest.len());
        let (piece, rest) = self.rest.split_at(n);
        buf[..n].copy_from_slice(piece);
        self.rest = rest;
        Ok(n)
    }
}

// Whether "hello" is read so from such a reader, which keeps this rest.
fn is_read_of_std(
    alloc: Global,
    most: usize,
    broken: bool,
    want: Result<(), ReadStop>,
    rest: &str,
) -> bool {
    let mut reader = Trickle {
        rest: b"hello",
        most,
        broken,
    };
    let given = read_all(alloc, &mut StdSource::new(&mut reader), 5);
    if reader.rest != rest.as_bytes() {
        return false;
    }
    match given {
        Ok(bytes) => {
            let (prefix, _) = b"hello".as_slice().split_at(5 - rest.len().min(5));
            want == Ok(()) && bytes.as_slice() == prefix
        }
        Err(stop) => want == Err(stop),
    }
}

// A writer that takes at most so many bytes a call and has room for so many. Then it fails or takes nothing.
#[derive(Drop)]
struct Narrow {
    taken: Vec<u8>,
    most: usize,
    room: usize,
    broken: bool,
}

impl Write for Narrow {
    fn write(&mut self, buf: &[u8]) -> io::Result<usize> {
        let n = buf.len().min(self.most).min(self.room);
        if n == 0 && self.broken {
            return Err(io::Error::from(io::ErrorKind::Other));
        }
        self.taken.extend_from_slice(&buf[..n])?;
        self.room -= n;
        Ok(n)
    }

    fn flush(&mut self) -> io::Result<()> {
        Ok(())
    }
}

// Whether "hello" is written so to such a writer, which takes this much of it.
fn is_written_to_std(
    alloc: Global,
    most: usize,
    room: usize,
    broken: bool,
    want: Result<(), WriteFault>,
    taken: &str,
) -> bool {
    let mut writer = Narrow {
        taken: Vec::new(alloc),
        most,
        room,
        broken,
    };
    let written = write_all_of(&mut StdSink::new(&mut writer), b"hello");
    written == want && writer.taken.as_slice() == taken.as_bytes()
}

// Whether a piece of no bytes is written to a writer that takes none, and one of a byte is not.
fn is_nothing_written(alloc: Global) -> bool {
    let mut closed = Narrow {
        taken: Vec::new(alloc),
        most: 0,
        room: 0,
        broken: false,
    };
    let mut sink = StdSink::new(&mut closed);
    (sink.write(b"a"), sink.write(b"")) == (Err(Failed), Ok(0))
}

#[test]
fn standard_ends_read_and_write(rt: HostRuntime) {
    for &(most, broken, want, rest) in &[
        (9, false, Ok(()), ""),
        (2, false, Ok(()), ""),
        (1, false, Ok(()), ""),
        (1, true, Err(ReadStop::Fault), ""),
        (0, false, Ok(()), "hello"),
    ] {
        let read = is_read_of_std(rt.alloc(), most, broken, want, rest);
        assert!(rt; read, "at {most}, {broken}");
    }
    for &(most, room, broken, want, taken) in &[
        (9, 9, false, Ok(()), "hello"),
        (1, 9, false, Ok(()), "hello"),
        (9, 3, false, Err(WriteFault), "hel"),
        (2, 3, true, Err(WriteFault), "hel"),
        (9, 0, false, Err(WriteFault), ""),
        (9, 0, true, Err(WriteFault), ""),
    ] {
        let written = is_written_to_std(rt.alloc(), most, room, broken, want, taken);
        assert!(rt; written, "at {most}, {room}, {broken}");
    }
    assert!(rt; is_nothing_written(rt.alloc()));
}

// Whether a sure source over "hello" gives all of it, and then the end each time.
fn gives_all_and_then_the_end(alloc: Global, source: &mut SureSource) -> bool {
    let given = read_all(alloc, source, 5);
    let mut buf = *b"....";
    let ends = (source.read(&mut buf), source.read(&mut buf));
    given.is_ok_and(|bytes| bytes.as_slice() == b"hello".as_slice()) && ends == (Ok(0), Ok(0))
}

// Whether a sure sink takes every piece whole.
fn takes_all() -> bool {
    let mut sink = SureSink::new();
    write_all_of(&mut sink, b"hello") == Ok(())
        && (sink.write(b""), sink.write(b"a")) == (Ok(0), Ok(1))
}

#[test]
fn sure_ends_give_and_take_all(rt: HostRuntime) -> Result<(), Fail> {
    let mut source = SureSource::new(b"hello".to_vec(rt.alloc())?);
    assert!(rt; gives_all_and_then_the_end(rt.alloc(), &mut source));
    assert!(rt; takes_all());
    Ok(())
}
