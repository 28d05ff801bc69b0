//! Records in memory.

ghost use Rattle.std.specs.Prelude.{◌≡◌, IfOk};
ghost use Rattle.std.specs.FinMap as finite;
ghost use Rattle.record_text.specs.Interpreter.{record_step_of};
ghost use Rattle.books_report.specs.Stores.Steps.{step_with};
ghost use Rattle.record_text.specs.Ranges.{IsBlockCount};
ghost use Rattle.record_text.specs.Records.{ids_from, index_of, is_store_full};

use crate::reply::{Ids, RecordValue};
use crate::script::RecordOp;
use books_report::stores::{Outcome, PlainStore};
use io_ends::OutOfMemory;
use std::alloc::Global;
use std::collections::BTreeMap;
use std::marker::Model;

/// Records by identifier, each with its rank and data, and how many blocks there are for them. Two are taken by each.
#[derive(Debug, Drop)]
pub struct Store {
    alloc: Global,
    blocks: u32,
    records: BTreeMap<u32, (u32, u64)>,
}

impl Model for Store {
    ghost use Rattle.std.specs.FinMap as finite;
    ghost use Rattle.record_text.specs.Inner.Codes.{store_code};
    ghost use Rattle.record_text.specs.Ranges.{HasRoom};
    ghost use Rattle.record_text.specs.Records.{RecordStore};

    ghost Value = { RecordStore };

    ghost coded = { store_code };

    ghost view = { λ s. record { blocks = s.blocks; records = finite.from_entries s.records.entries } };

    ghost invariant = { λ s.
        HasRoom (record { blocks = s.blocks; records = finite.from_entries s.records.entries }) };
}

impl Store {
    /// A store with no record. It takes no memory.
    pub fn new(alloc: Global, blocks: u32) -> Store
        requires { IsBlockCount blocks }
        ensures { result ≡ record { blocks = blocks; records = finite.empty } }
    {
        Store {
            alloc,
            blocks,
            records: BTreeMap::new(alloc),
        }
    }

    /// How many blocks there are.
    pub fn blocks(&self) -> u32
        ensures { result ≡ self.now.blocks }
    {
        self.blocks
    }

    /// The rank and the data of a record, if it is there.
    pub fn get(&self, id: u32) -> Option<(u32, u64)>
        ensures { result ≡ finite.get self.now.records id }
    {
        self.records.get(&id).copied()
    }

    /// Equal records in as many blocks.
    pub fn copy(&self) -> Result<Store, OutOfMemory>
        ensures { IfOk result (λ copy. copy ≡ self.now) }
    {
        Ok(Store {
            alloc: self.alloc,
            blocks: self.blocks,
            records: self.records.clone()?,
        })
    }

    // The index of the records.
    fn index(&self) -> Result<BTreeMap<(u32, u32), u64>, OutOfMemory>
        ensures { IfOk result (λ index.
            finite.from_entries index.entries ≡ index_of self.now.records) }
    {
        let mut index = BTreeMap::new(self.alloc);
        for (id, (rank, content)) in &self.records {
            index.insert((*rank, *id), *content)?;
        }
        Ok(index)
    }

    // The identifiers of the first records of at least this rank, at most so many.
    fn ids_from(&self, rank: u32, most: u32) -> Result<Ids, OutOfMemory>
        ensures { IfOk result (λ ids. ids ≡ ids_from rank most self.now.records) }
    {
        let mut ids = Ids::new(self.alloc);
        for ((of, id), _) in &self.index()? {
            if *of >= rank && ids.len() < most as usize {
                ids.push(*id)?;
            }
        }
        Ok(ids)
    }

    // Whether the blocks are not enough for a record more.
    fn is_full(&self) -> bool
        ensures { result ≡ is_store_full self.now.blocks self.now.records }
    {
        2 * self.records.len() + 2 > self.blocks as usize
    }

    // Puts a record, whether or not it was there.
    fn put(&mut self, id: u32, rank: u32, content: u64) -> Result<Outcome<RecordValue>, OutOfMemory>
        ensures step { IfOk result (λ outcome.
            record_step_of self.old.blocks (RecordOp.Put id rank content) self.old.records
            ≡ step_with outcome self.new.records) }
        ensures blocks { self.new.blocks ≡ self.old.blocks }
    {
        let is_there = self.records.contains_key(&id);
        if !is_there && self.is_full() {
            return Ok(Outcome::Full);
        }
        self.records.insert(id, (rank, content))?;
        Ok(Outcome::Gives(if is_there {
            RecordValue::Old
        } else {
            RecordValue::New
        }))
    }

    // Takes a record out, if it is there.
    fn remove(&mut self, id: u32) -> Outcome<RecordValue>
        ensures step { record_step_of self.old.blocks (RecordOp.Remove id) self.old.records
            ≡ step_with result self.new.records }
        ensures blocks { self.new.blocks ≡ self.old.blocks }
    {
        match self.records.remove(&id) {
            Some(_) => Outcome::Gives(RecordValue::Gone),
            None => Outcome::Absent,
        }
    }
}

impl PlainStore for Store {
    ghost use Rattle.std.specs.Prelude.{ℕ};
    ghost use Rattle.record_text.specs.Interpreter.{record_step_of};
    ghost use Rattle.record_text.specs.Records.{Records};

    type Op = RecordOp;

    type Value = RecordValue;

    ghost Fixed = { ℕ };

    ghost State = { Records };

    ghost fixed = { λ s. s.blocks };

    ghost state = { λ s. s.records };

    ghost step = { record_step_of };

    fn copy(&self) -> Result<Store, OutOfMemory> {
        Store::copy(self)
    }

    fn run(&mut self, operation: RecordOp) -> Result<Outcome<RecordValue>, OutOfMemory> {
        match operation {
            RecordOp::Put(id, rank, content) => self.put(id, rank, content),
            RecordOp::Remove(id) => Ok(self.remove(id)),
            RecordOp::Find(id) => match self.get(id) {
                Some((rank, content)) => Ok(Outcome::Gives(RecordValue::Found(rank, content))),
                None => Ok(Outcome::Absent),
            },
            RecordOp::Ranked(rank, most) => {
                Ok(Outcome::Gives(RecordValue::Ids(self.ids_from(rank, most)?)))
            }
        }
    }
}
