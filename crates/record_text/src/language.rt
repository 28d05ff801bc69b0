//! The lines of a text of a record store.

ghost use Rattle.std.specs.Prelude.{◌≡◌, ℕ, List, Some, IfOk, IfErr, length};
ghost use Rattle.record_text.specs.Language.{record_forms, record_language};
ghost use Rattle.script_reader.specs.ListLanguage.{IsOperationIn, operation_words};
ghost use Rattle.script_reader.specs.Rows.{row_fault};

use crate::limits::{
    GREATEST_DATA, GREATEST_ID, GREATEST_RANK, LEAST_BLOCKS, MOST_BLOCKS, MOST_LISTED,
};
use crate::script::{RecordOp, RecordScript};
use io_ends::OutOfMemory;
use script_reader::{Fault, Language, Words};
use std::alloc::Global;

// The least and the greatest of each kind of number.
const BLOCKS: (u64, u64) = (LEAST_BLOCKS as u64, MOST_BLOCKS as u64);

const IDS: (u64, u64) = (1, GREATEST_ID as u64);

const RANKS: (u64, u64) = (1, GREATEST_RANK as u64);

const CONTENTS: (u64, u64) = (0, GREATEST_DATA);

const LISTED: (u64, u64) = (1, MOST_LISTED as u64);

/// The language of the texts: `records 1 blocks B`, and the operations `put ID RANK DATA`, `drop ID`, `get ID` and
/// `from RANK N`.
pub struct Records;

impl Language for Records {
    ghost use Rattle.std.specs.Prelude.{[], ◌∷◌};
    ghost use Rattle.record_text.specs.Language.{record_language, record_language_lawful};

    type Sizes = u64;

    type Operation = RecordOp;

    type Script = RecordScript;

    ghost language = { record_language };

    ghost sizes_of = { λ blocks. blocks ∷ [] };

    fn sizes(words: &Words<'_>) -> Result<u64, Fault> {
        words.one_size(b"records", b"blocks", BLOCKS)
    }

    fn operation(words: &Words<'_>, _blocks: u64) -> Result<RecordOp, Fault> {
        match words.len() {
            2 => with_an_id(words),
            3 => ranked_of(words),
            4 => put_of(words),
            _ => Err(Fault::Word),
        }
    }

    fn empty(alloc: Global) -> RecordScript {
        RecordScript::new(alloc)
    }

    fn add(script: &mut RecordScript, operation: RecordOp) -> Result<(), OutOfMemory> {
        script.push(operation)
    }

    ghost lawful = { record_language_lawful };
}

// The operation of a line of two words.
fn with_an_id(words: &Words<'_>) -> Result<RecordOp, Fault>
    requires { length words.now ≡ 2 }
    ensures found { IfOk result (λ op. (sizes : List ℕ) → IsOperationIn record_language sizes op
        × (words.now ≡ operation_words record_language op)) }
    ensures err { IfErr result (λ why. row_fault record_forms words.now ≡ Some why) }
{
    if words.is_row(b"drop", 2) {
        let id = words.one_number(IDS)?;
        return Ok(RecordOp::Remove(id as u32));
    }
    if words.is_row(b"get", 2) {
        let id = words.one_number(IDS)?;
        return Ok(RecordOp::Find(id as u32));
    }
    Err(Fault::Word)
}

// The operation of a line of three words.
fn ranked_of(words: &Words<'_>) -> Result<RecordOp, Fault>
    requires { length words.now ≡ 3 }
    ensures found { IfOk result (λ op. (sizes : List ℕ) → IsOperationIn record_language sizes op
        × (words.now ≡ operation_words record_language op)) }
    ensures err { IfErr result (λ why. row_fault record_forms words.now ≡ Some why) }
{
    if !words.is_row(b"from", 3) {
        return Err(Fault::Word);
    }
    let (rank, most) = words.two_numbers(RANKS, LISTED)?;
    Ok(RecordOp::Ranked(rank as u32, most as u32))
}

// The operation of a line of four words.
fn put_of(words: &Words<'_>) -> Result<RecordOp, Fault>
    requires { length words.now ≡ 4 }
    ensures found { IfOk result (λ op. (sizes : List ℕ) → IsOperationIn record_language sizes op
        × (words.now ≡ operation_words record_language op)) }
    ensures err { IfErr result (λ why. row_fault record_forms words.now ≡ Some why) }
{
    if !words.is_row(b"put", 4) {
        return Err(Fault::Word);
    }
    let (id, rank, content) = words.three_numbers(IDS, RANKS, CONTENTS)?;
    Ok(RecordOp::Put(id as u32, rank as u32, content))
}
