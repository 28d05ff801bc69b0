//! The jobs of a counter, and a call on its word.

ghost use Rattle.std.specs.Prelude.{◌≡◌};

use io_ends::OutOfMemory;
use std::alloc::Global;
use std::test::Fail;
use transfers::{AddAll, AddPairOr, CounterShape, add_to, increment_plain};
use txn_words::{Job, Plain, Verdict, Words, run_on_plain};

// Whether a job on a counter is kept, and what it leaves.
fn ran<J: Job<Shape = CounterShape, Answer = ()>>(
    alloc: Global,
    was: u64,
    job: &J,
) -> Result<(bool, Option<u64>), OutOfMemory>
    requires { J.shape job.now ≡ record {} }
{
    let words = Vec::from_slice(alloc, &[was])?;
    let (verdict, plain) = run_on_plain(alloc, CounterShape, words, job)?;
    let mut left = plain.into_words();
    Ok((verdict == Verdict::Keep(()), left.pop()))
}

// Whether adding one is kept, what the counter was, and what is left of it.
fn counted(alloc: Global, was: u64) -> Result<(bool, u64, Option<u64>), OutOfMemory> {
    let mut counted = increment_plain(alloc, &[was])?;
    Ok((counted.kept, counted.answer, counted.words.pop()))
}

// What is left of 40 when it is read, and 2 are added.
fn added_to(alloc: Global) -> Result<Option<u64>, Fail> {
    let words = Vec::from_slice(alloc, &[40])?;
    let mut plain = Plain::new(alloc, CounterShape, words);
    if plain.read(0)? != 40 {
        return Ok(None);
    }
    add_to(&mut plain, 0, 2)?;
    let mut left = plain.into_words();
    Ok(left.pop())
}

// Amounts that are added to 10, whether all of them fit, and what the job leaves.
const AMOUNTS: &[(&[u64], bool, u64)] = &[(&[3, 4], true, 17), (&[3, u64::MAX], false, 13)];

// What 3 and 4, or else 2, are added to. If 3 fits and 4 does not, 3 is taken back.
const PAIRS: &[(u64, bool, u64)] = &[
    (10, true, 17),
    (u64::MAX - 7, true, u64::MAX),
    (u64::MAX - 6, true, u64::MAX - 4),
    (u64::MAX - 2, true, u64::MAX),
    (u64::MAX - 1, false, u64::MAX - 1),
];

#[test]
fn a_counter_adds_what_fits(rt: HostRuntime) -> Result<(), Fail> {
    let pair = AddPairOr {
        first: 3,
        second: 4,
        other: 2,
    };
    for (was, kept, left) in PAIRS {
        assert!(rt;
            ran(rt.alloc(), *was, &pair)? == (*kept, Some(*left)),
            "at {was}"
        );
    }
    for (amounts, kept, left) in AMOUNTS {
        assert!(rt; ran(rt.alloc(), 10, &AddAll { amounts: *amounts })? == (*kept, Some(*left)));
    }
    Ok(())
}

#[test]
fn a_counter_counts_up_to_its_end(rt: HostRuntime) -> Result<(), Fail> {
    assert!(rt; counted(rt.alloc(), 41)? == (true, 41, Some(42)));
    assert!(rt; counted(rt.alloc(), u64::MAX)? == (false, u64::MAX, Some(u64::MAX)));
    assert!(rt; added_to(rt.alloc())? == Some(42));
    Ok(())
}
