//! Texts that are read in pieces: how one opens, where its scripts may be cut, the scripts of a piece, and the input of all.

ghost use Rattle.std.specs.Prelude.{◌≡◌, ℕ, ◌≤◌, List, ◌++◌, length, take, drop, All, IfSome, IfOk};
ghost use Rattle.script_reader.specs.Versions.{AreBooksWithin};
ghost use Rattle.script_reader.specs.Grammar.{Spells, submission_lines};
ghost use Rattle.script_reader.specs.Pieces.{AreScripts, CanStand, IsBetweenScripts, Opens};

use crate::books::books_of;
use crate::books::input::Input;
use crate::books::scripts::script_of;
use crate::books::version::Version;
use crate::fault::Refusal;
use crate::language::gathered::Gathered;
use crate::language::gathering::Gathering;
use crate::text::lines::Lines;
use crate::text::names::caller_of;
use crate::text::words::LINE_FEED;
use books_model::{Books, Script};
use std::alloc::Global;
use std::marker::Model;

/// How a text opens: its version, its books, and the bytes of its scripts, which end in front of the line `finish`.
#[derive(Drop)]
pub struct Opening<'a> {
    pub version: Version,
    pub books: Books,
    pub scripts: &'a [u8],
}

/// A script with the name of its caller, as both stand in a text.
#[derive(Drop)]
pub struct Submitted<'a> {
    caller: &'a str,
    script: Script,
}

impl<'a> Model for Submitted<'a> {
    ghost use Rattle.script_reader.specs.Input.{Submission};
    ghost use Rattle.script_reader.specs.Inner.Codes.{submission_code};

    ghost Value = { Submission };

    ghost coded = { submission_code };

    ghost view = { λ s. record { caller = s.caller.now; script = s.script } };
}

/// How a text opens that ends with the line `finish`. None for one with a fault in front of its scripts or without that line,
/// and if memory runs out.
pub fn read_opening(alloc: Global, bytes: &[u8]) -> Option<Opening<'_>>
    ensures { IfSome result (λ o. Opens bytes.now o.version o.books o.scripts.now) }
{
    let mut lines = Lines::new(bytes);
    let Ok((version, books)) = books_of(alloc, &mut lines) else {
        return None;
    };
    let scripts = lines.rest().strip_suffix(b"finish\n")?;
    Some(Opening {
        version,
        books,
        scripts,
    })
}

/// Cuts the bytes of scripts in two, in front of the first script that begins in their second half. The second part is empty
/// if none does.
pub fn cut(bytes: &[u8]) -> (&[u8], &[u8])
    ensures whole { result.0.now ++ result.1.now ≡ bytes.now }
    ensures between { IsBetweenScripts result.0.now result.1.now }
{
    bytes.split_at(script_from(bytes, bytes.len() / 2))
}

// Where the first script begins whose line stands behind a line feed from a place on, or the end of the bytes.
fn script_from(bytes: &[u8], from: usize) -> usize
    requires { from ≤ length bytes.now }
    ensures within { result ≤ length bytes.now }
    ensures between { IsBetweenScripts (take result bytes.now) (drop result bytes.now) }
{
    let mut place = from;
    while place < bytes.len() {
        let behind = place + 1;
        if bytes[place] == LINE_FEED && bytes[behind..].starts_with(b"script ") {
            return behind;
        }
        place = behind;
    }
    bytes.len()
}

/// The scripts of a piece of a text, in their order. None for a piece that is no list of whole scripts without fault, each by
/// itself, and if memory runs out. How many there are, and of how many callers, is not looked at.
pub fn read_piece<'a>(
    alloc: Global,
    version: Version,
    books: &Books,
    piece: &'a [u8],
) -> Option<Vec<Submitted<'a>>>
    ensures { IfSome result (λ scripts. AreScripts version books.now piece.now scripts.items) }
{
    let mut lines = Lines::new(piece);
    let mut scripts = Vec::new(alloc);
    while lines.len() > 0 {
        let Ok(submitted) = submitted_of(alloc, &mut lines, version, books) else {
            return None;
        };
        let Ok(()) = scripts.push(submitted) else {
            return None;
        };
    }
    Some(scripts)
}

// The script of the next lines, with its caller.
fn submitted_of<'a>(
    alloc: Global,
    lines: &mut Lines<'a>,
    version: Version,
    books: &Books,
) -> Result<Submitted<'a>, Refusal>
    ensures text { IfOk result (λ s. lines.old ≡ submission_lines s ++ lines.new) }
    ensures stands { IfOk result (λ s. CanStand version books.now s) }
{
    let words = lines.words()?;
    let caller = caller_of(&words)?;
    let script = script_of(alloc, lines, version, books)?;
    Ok(Submitted { caller, script })
}

/// The input of a text that opens so and has these scripts. None if they are too many, or their callers, and if memory
/// runs out.
pub fn input_of(alloc: Global, opening: Opening<'_>, scripts: Vec<Submitted<'_>>) -> Option<Input>
    requires within { AreBooksWithin opening.version opening.books }
    requires read { AreScripts opening.version opening.books opening.scripts.now scripts.items }
    ensures { IfSome result (λ input. (bytes : List ℕ)
        → Opens bytes opening.entry.version opening.entry.books opening.entry.scripts.now
        → Spells bytes input) }
{
    let Opening {
        version: _,
        books,
        scripts: _,
    } = opening;
    books.ranges();
    let mut callers = Gathering::new(alloc);
    for submitted in scripts {
        let Submitted { caller, script } = submitted;
        if callers.is_full_for(caller) {
            return None;
        }
        let Ok(()) = callers.add(alloc, caller, script) else {
            return None;
        };
    }
    Some(Input::new(books, Gathered::new(callers)))
}
