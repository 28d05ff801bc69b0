//! The words of values.

ghost use Rattle.std.specs.Prelude.{◌≡◌, ◌∷◌, ◌++◌, OnOk, codes};
ghost use Rattle.std.specs.String.{string_bytes};
ghost use Rattle.std.specs.List.{flat_map};
ghost use Rattle.std.specs.Slice.Iter.{iter_rest};
ghost use Rattle.script_reader.specs.Text.{number};
ghost use Rattle.record_text.specs.Words.{ids_word};

use crate::reply::{Ids, RecordValue};
use books_report::stores::ToldValue;
use script_reader::text::decimal::push_number;
use std::alloc::AllocError;
use std::slice;

/// What separates two identifiers.
pub const COMMA: u8 = b',';

fn write_more_ids(text: &mut String, ids: slice::Iter<'_, u32>) -> Result<(), AllocError>
    ensures { OnOk result
        (string_bytes text.new
        ≡ string_bytes text.old ++ flat_map (λ id. COMMA ∷ number id) (iter_rest ids.entry)) }
{
    for id in ids {
        text.push(',')?;
        push_number(text, u64::from(*id))?;
    }
    Ok(())
}

fn write_ids(text: &mut String, ids: &Ids) -> Result<(), AllocError>
    ensures { OnOk result (string_bytes text.new ≡ string_bytes text.old ++ ids_word ids.now) }
{
    let mut left = ids.iter();
    match left.next() {
        Some(first) => {
            push_number(text, u64::from(*first))?;
            write_more_ids(text, left)
        }
        None => text.push_str("none"),
    }
}

fn write_found(text: &mut String, rank: u32, content: u64) -> Result<(), AllocError>
    ensures { OnOk result
        (string_bytes text.new
        ≡ string_bytes text.old ++ number rank ++ codes ":" ++ number content) }
{
    push_number(text, u64::from(rank))?;
    text.push(':')?;
    push_number(text, content)
}

impl ToldValue for RecordValue {
    ghost use Rattle.record_text.specs.Words.{value_word};

    ghost word = { value_word };

    fn write(&self, text: &mut String) -> Result<(), AllocError> {
        match self {
            RecordValue::New => text.push_str("new"),
            RecordValue::Old => text.push_str("old"),
            RecordValue::Gone => text.push_str("ok"),
            RecordValue::Found(rank, content) => write_found(text, *rank, *content),
            RecordValue::Ids(ids) => write_ids(text, ids),
        }
    }
}
