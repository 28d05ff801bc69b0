//! Writing a whole text.

ghost use Rattle.std.specs.Prelude.{◌≤◌, OnOk, OnErr};
ghost use Rattle.std.specs.Io.KnownBytes.{Appends};
ghost use Rattle.io_ends.specs.Counts.{HasCause};
ghost use Rattle.io_ends.specs.Taken.{AppendsPrefix};

use crate::sink::Sink;
use crate::source::Failed;
use std::error::Error;
use std::fmt;

/// A text was not written whole.
#[derive(Clone, Copy, Debug, PartialEq, Eq)]
pub struct WriteFault;

impl fmt::Display for WriteFault {
    fn fmt<W: fmt::Write>(&self, f: &mut fmt::Formatter<W>) -> fmt::Result {
        f.write_str("the text was not written whole")
    }
}

impl Error for WriteFault {}

impl From<Failed> for WriteFault {
    fn from(_: Failed) -> Self {
        WriteFault
    }
}

/// Writes the text piece by piece, up to its end or to the first write that fails. It takes no memory.
pub fn write_all_of<K: Sink>(sink: &mut K, text: &[u8]) -> Result<(), WriteFault>
    ensures ok { OnOk result (Appends (K.taken sink.old) (K.taken sink.new) text.now) }
    ensures prefix { OnErr result (AppendsPrefix (K.taken sink.old) (K.taken sink.new) text.now) }
    ensures cause { HasCause result (K.faults sink.old) (K.faults sink.new) }
    ensures faults { K.faults sink.old ≤ K.faults sink.new }
{
    let mut rest = text;
    while !rest.is_empty() {
        let n = sink.write(rest)?;
        let (_, left) = rest.split_at(n);
        rest = left;
    }
    Ok(())
}
