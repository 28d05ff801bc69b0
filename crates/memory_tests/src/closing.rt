//! Tables that are closed, with two passes and with thirty-two.

ghost use Rattle.std.specs.Prelude.{◌≡◌, ◌≤◌, [], ◌∷◌, ◌++◌, IfOk};
ghost use Rattle.history_model.specs.declared.view.Phase.TheVariants.{Idle};
ghost use Rattle.word_table.specs.Closing.{AreAllPasses};

use crate::opening::Pair;
use crate::told::{Turn, call};
use io_ends::OutOfMemory;
use std::alloc::Global;
use std::sync::Wait;
use word_table::{CloseRefused, Desk, Pass};

// A desk of the words 3 and 4 with so many passes, of which the last stands apart.
fn open_many(
    alloc: Global,
    count: u32,
) -> Result<(Desk<Pair>, Vec<Pass<Pair>>, Pass<Pair>), OutOfMemory>
    requires count { (1 ≤ count) × (count ≤ 32) }
    ensures all { IfOk result
        (λ opened. AreAllPasses opened.0.table opened.0.seats (opened.1.items ++ opened.2 ∷ [])) }
    ensures last { IfOk result (λ opened. (opened.2.table ≡ opened.0.table)
        × (opened.2.view.phase ≡ Idle) × (opened.2.view.call ≡ 0)) }
{
    let base = vec![in alloc; 3u64, 4]?;
    let (desk, mut passes) = Desk::new(alloc, Pair, base, count)?;
    let Some(last) = passes.pop() else {
        unreachable!()
    };
    Ok((desk, passes, last))
}

// The words that a desk leaves. If no memory is found for them it is closed again, with the passes that came back.
fn close_all(
    alloc: Global,
    desk: Desk<Pair>,
    passes: Vec<Pass<Pair>>,
) -> Result<Vec<u64>, OutOfMemory>
    requires all { AreAllPasses desk.table desk.seats passes.items }
{
    let closed = match desk.close(alloc, passes) {
        Ok(closed) => closed,
        Err(CloseRefused { desk, passes }) => {
            let Ok(closed) = desk.close(alloc, passes) else {
                return Err(OutOfMemory);
            };
            closed
        }
    };
    Ok(closed.words().to_vec(alloc)?)
}

// A pass writes 9 into the first word, or does nothing.
fn write_or_not<R: Wait>(
    rt: &R,
    alloc: Global,
    desk: &Desk<Pair>,
    pass: &mut Pass<Pair>,
    writes: bool,
) -> Result<(), OutOfMemory>
    requires desk { pass.old.table ≡ desk.now.table }
    requires idle { (pass.old.view.phase ≡ Idle) × (pass.old.view.call ≡ 0) }
    ensures desk { pass.new.table ≡ desk.now.table }
    ensures idle { (pass.new.view.phase ≡ Idle) × (pass.new.view.who ≡ pass.old.view.who) }
{
    if writes {
        let _ = call(rt, alloc, desk, pass, &Turn::Write)?;
    }
    Ok(())
}

// The words that are left of 3 and 4 if of so many passes the last writes, or does nothing, and the others do nothing.
fn left_by<R: Wait>(
    rt: &R,
    alloc: Global,
    count: u32,
    writes: bool,
) -> Result<Vec<u64>, OutOfMemory>
    requires count { (1 ≤ count) × (count ≤ 32) }
{
    let (desk, mut passes, mut last) = open_many(alloc, count)?;
    write_or_not(rt, alloc, &desk, &mut last, writes)?;
    passes.push(last)?;
    close_all(alloc, desk, passes)
}

// Whether these words are left.
fn leaves<R: Wait>(
    rt: &R,
    alloc: Global,
    count: u32,
    writes: bool,
    left: &[u64],
) -> Result<bool, OutOfMemory>
    requires count { (1 ≤ count) × (count ≤ 32) }
{
    Ok(left_by(rt, alloc, count, writes)?.as_slice() == left)
}

// With two passes; and with thirty-two, of which the last has written.
#[test]
fn close_of_an_unused_desk_gives_the_base(rt: HostRuntime) {
    let unused = leaves(&rt, rt.alloc(), 2, false, &[3, 4]);
    assert!(rt; matches!(unused, Ok(true)));
    let used = leaves(&rt, rt.alloc(), 32, true, &[9, 4]);
    assert!(rt; matches!(used, Ok(true)));
}

// It is run with each allocation refused in turn, too.
#[test]
fn a_table_is_closed_or_no_memory_is_found(rt: HostRuntime) {
    let ended = leaves(&rt, rt.alloc(), 2, true, &[9, 4]);
    assert!(rt; matches!(ended, Ok(true) | Err(OutOfMemory)));
}
