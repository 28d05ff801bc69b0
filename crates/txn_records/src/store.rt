//! The store of records: what an operation does on its words, and what its inputs are.

use crate::closing::records_of_words;
use crate::lay::empty_words;
use crate::operations::{find, list, put, remove};
use crate::shape::RecordShape;
use books_report::Line;
use io_ends::OutOfMemory;
use record_text::{RecordInput, RecordOp, RecordReply, RecordScript, RecordValue, records_text};
use std::alloc::Global;
use txn_stores::{Outcome, Store};
use txn_words::{Stop, Words};

impl Store for RecordShape {
    ghost use Rattle.record_text.specs.Interpreter.{record_step_of};
    ghost use Rattle.record_text.specs.Output.{record_store};
    ghost use Rattle.record_text.specs.Ranges.{IsRecordOp, IsRecordScript};
    ghost use Rattle.record_text.specs.Records.{Records};
    ghost use Rattle.txn_records.specs.Standing.{Stands};

    type Op = RecordOp;

    type Value = RecordValue;

    type Input = RecordInput;

    ghost State = { Records };

    ghost stands = { Stands };

    ghost step = { λ shape. record_step_of shape.blocks };

    ghost is_operation = { λ _ op. IsRecordOp op };

    ghost is_script = { λ _ script. IsRecordScript script };

    ghost told = { record_store };

    ghost shape_of = { λ input. record { blocks = input.blocks } };

    fn shape_of(input: &RecordInput) -> RecordShape {
        RecordShape {
            blocks: input.blocks(),
        }
    }

    fn callers(input: &RecordInput) -> u32 {
        input.callers()
    }

    fn scripts_of(input: &RecordInput, caller: u32) -> u32 {
        input.scripts_of(caller)
    }

    fn script(input: &RecordInput, caller: u32, index: u32) -> &RecordScript {
        let _callers = input.callers();
        input.script(caller, index)
    }

    fn opening_words(alloc: Global, input: &RecordInput) -> Result<Vec<u64>, OutOfMemory> {
        let _callers = input.callers();
        empty_words(alloc, &RecordShape::shape_of(input))
    }

    fn run_operation<W: Words>(
        &self,
        alloc: Global,
        w: &mut W,
        op: RecordOp,
    ) -> Result<Outcome<RecordValue>, Stop> {
        match op {
            RecordOp::Put(id, rank, content) => put(w, self, id, rank, content),
            RecordOp::Remove(id) => remove(w, self, id),
            RecordOp::Find(id) => find(w, self, id),
            RecordOp::Ranked(rank, most) => list(alloc, w, self, rank, most),
        }
    }

    fn text(
        alloc: Global,
        input: &RecordInput,
        lines: &[Line],
        replies: &[&RecordReply],
        words: &[u64],
    ) -> Result<Vec<u8>, OutOfMemory> {
        let closing = records_of_words(alloc, &RecordShape::shape_of(input), words)?;
        records_text(alloc, input, lines, replies, &closing)
    }

    ghost good_stand = { λ shape words h. h };

    ghost stand_good = { λ shape words h. h };

    ghost few = { λ shape script h. h.few };

    ghost each = { λ shape script h. h.each };
}
