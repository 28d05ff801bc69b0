//! Reading an input by several threads.

ghost use Rattle.std.specs.Prelude.{◌≡◌, ◌⊎◌, ℕ, IfSome, IfOk, MatchResult, Err};
ghost use Rattle.std.specs.Thread.{IsSync};
ghost use Rattle.script_reader.specs.declared.fault.Fault.{Fault as AnyFault};
ghost use Rattle.script_reader.specs.Input.{ClearingInput};
ghost use Rattle.script_reader.specs.Faults.{IsFirstFault};
ghost use Rattle.script_reader.specs.Grammar.{Spells};
ghost use Rattle.script_reader.specs.Pieces.{AreScripts};

use books_model::Books;
use script_reader::books::pieces::{Submitted, cut, input_of, read_opening, read_piece};
use script_reader::{Input, InputFault, Version, read_input};
use std::alloc::Global;
use std::thread::{Threads, join};
use worker_pool::heap;

/// The least bytes that are read by more than one thread.
pub const LEAST_SHARED: usize = 65_536;

/// Reads opening books and scripts as `read_input` does, by at most so many threads, of which this is one. A short text is
/// read by this one alone. It reads a text with a fault once more, and one for which memory ran out, and what a thread was
/// to read that cannot be started.
pub fn read_shared<R: Threads + Sync>(
    rt: &R,
    alloc: Global,
    bytes: &[u8],
    threads: u32,
) -> Result<Input, InputFault>
    ensures ok { IfOk result (λ input. Spells bytes.now input) }
    ensures read { (input : ClearingInput) → Spells bytes.now input
        → MatchResult result (λ found. found ≡ input) (λ fault. fault ≡ InputFault.OutOfMemory) }
    ensures refused { (number : ℕ) (why : AnyFault) → result ≡ Err (InputFault.Line number why)
        → IsFirstFault bytes.now number why }
    ensures faulty { (number : ℕ) (why : AnyFault) → IsFirstFault bytes.now number why
        → MatchResult result (λ _. ⊥)
        (λ fault. (fault ≡ InputFault.Line number why) ⊎ (fault ≡ InputFault.OutOfMemory)) }
{
    if threads > 1 && bytes.len() >= LEAST_SHARED {
        if let Some(input) = read_in_pieces(rt, alloc, bytes, threads) {
            return Ok(input);
        }
    }
    read_input(alloc, bytes)
}

// The input that the bytes spell, by at most so many threads. None for bytes that spell none, or more than an input may have,
// and if memory runs out.
fn read_in_pieces<R: Threads + Sync>(
    rt: &R,
    alloc: Global,
    bytes: &[u8],
    threads: u32,
) -> Option<Input>
    ensures { IfSome result (λ input. Spells bytes.now input) }
{
    heap::keep_blocks(alloc);
    let opening = read_opening(alloc, bytes)?;
    let scripts = scripts_of(
        rt,
        alloc,
        opening.version,
        &opening.books,
        opening.scripts,
        threads,
    )?;
    input_of(alloc, opening, scripts)
}

// The scripts of a piece of a text, by at most so many threads, each of which reads a piece of it.
fn scripts_of<'a, R: Threads + Sync>(
    rt: &R,
    alloc: Global,
    version: Version,
    books: &Books,
    piece: &'a [u8],
    threads: u32,
) -> Option<Vec<Submitted<'a>>>
    ensures { IfSome result (λ scripts. AreScripts version books.now piece.now scripts.items) }
{
    if threads < 2 || piece.len() < LEAST_SHARED {
        heap::enlarge(alloc);
        return read_piece(alloc, version, books, piece);
    }
    let half = threads / 2;
    let others = threads - half;
    let (first, second) = cut(piece);
    let (first, second) = join(
        rt,
        ||
            requires { IsSync R.row }
            ensures { IfSome result (λ scripts.
                AreScripts version books.entry.now first.entry.now scripts.items) }
        { scripts_of(rt, alloc, version, books, first, half) },
        ||
            requires { IsSync R.row }
            ensures { IfSome result (λ scripts.
                AreScripts version books.entry.now second.entry.now scripts.items) }
        { scripts_of(rt, alloc, version, books, second, others) },
    );
    let mut scripts = first?;
    let mut behind = second?;
    let Ok(()) = scripts.append(&mut behind) else {
        return None;
    };
    Some(scripts)
}
