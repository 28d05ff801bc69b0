//! Callers with scripts of any type, while they are gathered.

ghost use Rattle.std.specs.Prelude.{◌≡◌, ◌<◌, [], length, map, IfOk, OnOk};
ghost use Rattle.std.specs.List.{position_or_len};
ghost use Rattle.std.specs.Str.{bytes_eq};
ghost use Rattle.std.specs.String.{string_bytes};
ghost use Rattle.script_reader.specs.Gathered.{add_name};
ghost use Rattle.script_reader.specs.Inner.Gatherings.{put_script};

use crate::limits::{MOST_CALLERS, MOST_SCRIPTS};
use indexmap::IndexSet;
use io_ends::OutOfMemory;
use std::alloc::Global;

// Names beside scripts, and how many scripts there are.
#[derive(Drop)]
pub(crate) struct Gathering<S> {
    pub(crate) names: IndexSet<String>,
    pub(crate) scripts: Vec<Vec<S>>,
    pub(crate) count: usize,
}

impl<S: Drop> Gathering<S> {
    ghost use Rattle.script_reader.specs.Gathered.{count_scripts};
    ghost use Rattle.script_reader.specs.Inner.Gatherings.{callers_in, IsEven, add_submission, is_beyond_in};

    // No callers.
    pub(crate) fn new(alloc: Global) -> Gathering<S>
        ensures none { callers_in result ≡ [] }
        ensures even { IsEven result }
    {
        Gathering {
            names: IndexSet::new(alloc),
            scripts: Vec::new(alloc),
            count: 0,
        }
    }

    // Whether a script of the name would be one too many, or its caller.
    pub(crate) fn is_full_for(&self, name: &str) -> bool
        requires { IsEven self.now }
        ensures { result ≡ is_beyond_in (callers_in self.now) name.now }
    {
        self.count >= MOST_SCRIPTS
            || (self.names.len() >= MOST_CALLERS && !self.names.contains(name))
    }

    // Adds a script of the caller with the name.
    pub(crate) fn add(&mut self, alloc: Global, name: &str, script: S) -> Result<(), OutOfMemory>
        requires even { IsEven self.old }
        requires room { count_scripts (callers_in self.old) < MOST_SCRIPTS }
        ensures added { OnOk result
            (callers_in self.new
            ≡ add_submission (callers_in self.old)
            (record { caller = name.now; script = script })) }
        ensures even { OnOk result (IsEven self.new) }
    {
        let place = place_of(alloc, &mut self.names, name)?;
        put(alloc, &mut self.scripts, place, script)?;
        self.count += 1;
        Ok(())
    }
}

// The place of a name, behind the others if it is new. A name that is known takes no memory.
pub(crate) fn place_of(
    alloc: Global,
    names: &mut IndexSet<String>,
    name: &str,
) -> Result<usize, OutOfMemory>
    ensures names { OnOk result
        (map string_bytes names.new.keys ≡ add_name (map string_bytes names.old.keys) name.now) }
    ensures place { IfOk result (λ place. place
        ≡ position_or_len (bytes_eq name.now) (map string_bytes names.old.keys)) }
{
    if let Some(place) = names.get_index_of(name) {
        return Ok(place);
    }
    let (place, _) = names.insert_full(String::from_str(alloc, name)?)?;
    Ok(place)
}

// Puts a script behind those at a place, or as the first one at a new place behind all.
fn put<S: Drop>(
    alloc: Global,
    scripts: &mut Vec<Vec<S>>,
    place: usize,
    script: S,
) -> Result<(), OutOfMemory>
    ensures { OnOk result
        (map (λ v. v.items) scripts.new.items
        ≡ put_script (map (λ v. v.items) scripts.old.items) place script) }
{
    if place < scripts.len() {
        scripts[place].push(script)?;
    } else {
        let mut first = Vec::new(alloc);
        first.push(script)?;
        scripts.push(first)?;
    }
    Ok(())
}
