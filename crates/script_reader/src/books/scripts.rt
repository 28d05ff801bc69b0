//! The scripts of a text.

ghost use Rattle.std.specs.Prelude.{◌≡◌, ◌≤◌, ◌+◌, ℕ, List, All, [], ◌∷◌, ◌++◌, length, map, false, codes, IfOk, OnOk, Err};
ghost use Rattle.std.specs.List.{flat_map};
ghost use Rattle.books_model.specs.Scripts.{operations_of};
ghost use Rattle.books_model.specs.declared.script.Op.{Op as AnyOp};
ghost use Rattle.books_model.specs.declared.script.Part.{Part as AnyPart};
ghost use Rattle.script_reader.specs.declared.fault.Fault.{Fault as AnyFault};
ghost use Rattle.script_reader.specs.Text.{line, books_operation_words, part_words, script_lines, end_line};
ghost use Rattle.script_reader.specs.Input.{Submission, callers_of};
ghost use Rattle.script_reader.specs.Lines.{AreWords};
ghost use Rattle.script_reader.specs.Forms.{is_only};
ghost use Rattle.script_reader.specs.Inner.LinesAsWords.{BetweenParts, InFirst, lines_so_far, lines_inside, parts_with};
ghost use Rattle.script_reader.specs.Inner.OfVersion.{IsOperationOf, IsScriptOf};
ghost use Rattle.script_reader.specs.Inner.Branches.{branch_with, closing_word};
ghost use Rattle.script_reader.specs.Inner.Gatherings.{callers_in, IsEven};
ghost use Rattle.script_reader.specs.Faults.{IsFaultyBehind};
ghost use Rattle.script_reader.specs.Inner.Scripts.{IsReadOf, IsAdded};

use crate::books::operations::operation_of;
use crate::books::version::Version;
use crate::fault::{Fault, Refusal};
use crate::language::gathering::Gathering;
use crate::text::lines::Lines;
use crate::text::names::caller_of;
use crate::text::words::Words;
use books_model::limits::{MOST_ALTERNATIVES, MOST_OPERATIONS};
use books_model::{Books, Ops, Part, Script};
use std::alloc::Global;

// A branch of an alternative.
#[derive(Clone, Copy)]
enum Branch {
    First,
    Second,
}

impl Branch {
    // The word of the line that ends it.
    fn closing(self) -> &'static [u8]
        ensures { result.now ≡ closing_word self }
    {
        match self {
            Branch::First => b"else",
            Branch::Second => b"done",
        }
    }
}

// Adds the operations of the next lines to a branch that has none, up to the line that ends it. The script has this many
// operations before them.
fn add_branch(
    lines: &mut Lines<'_>,
    version: Version,
    books: &Books,
    branch: Branch,
    so_far: usize,
    operations: &mut Ops,
) -> Result<(), Refusal>
    requires none { operations.old ≡ [] }
    requires few { so_far ≤ MOST_OPERATIONS }
    ensures few { OnOk result (so_far + length operations.new ≤ MOST_OPERATIONS) }
    ensures range { OnOk result (All (IsOperationOf version books.now) operations.new) }
    ensures text { OnOk result (lines.old ≡ flat_map line (map books_operation_words operations.new)
        ++ (line (closing_word branch ∷ []) ++ lines.new)) }
    ensures fault { (why : AnyFault) → result ≡ Err (Refusal.LineFault why)
        → (subs : List Submission) (name : List ℕ) (parts : List AnyPart) (first : List AnyOp)
        → length (operations_of (parts_with parts (branch_with branch first []))) ≡ so_far
        → IsFaultyBehind (lines_inside version books.now subs name parts (branch_with branch first []))
        lines.old lines.new why }
{
    books.ranges();
    loop {
        let words = lines.words()?;
        if words.is_only(branch.closing()) {
            return Ok(());
        }
        let operation = operation_of(&words, version, books)?;
        if operations.len() >= MOST_OPERATIONS - so_far {
            return Err(Refusal::LineFault(Fault::Limit));
        }
        operations.push(operation)?;
    }
}

// The operations of a branch, and the line that ends it.
fn branch_of(
    alloc: Global,
    lines: &mut Lines<'_>,
    version: Version,
    books: &Books,
    branch: Branch,
    so_far: usize,
) -> Result<Ops, Refusal>
    requires few { so_far ≤ MOST_OPERATIONS }
    ensures few { IfOk result (λ operations. so_far + length operations ≤ MOST_OPERATIONS) }
    ensures range { IfOk result (λ operations. All (IsOperationOf version books.now) operations) }
    ensures text { IfOk result
        (λ operations. lines.old ≡ flat_map line (map books_operation_words operations)
        ++ (line (closing_word branch ∷ []) ++ lines.new)) }
    ensures fault { (why : AnyFault) → result ≡ Err (Refusal.LineFault why)
        → (subs : List Submission) (name : List ℕ) (parts : List AnyPart) (first : List AnyOp)
        → length (operations_of (parts_with parts (branch_with branch first []))) ≡ so_far
        → IsFaultyBehind (lines_inside version books.now subs name parts (branch_with branch first []))
        lines.old lines.new why }
{
    let mut operations = Ops::new(alloc);
    add_branch(lines, version, books, branch, so_far, &mut operations)?;
    Ok(operations)
}

// The alternative behind the line that begins it, with the line that ends it. The script has this many operations before.
fn alternative_of(
    alloc: Global,
    lines: &mut Lines<'_>,
    version: Version,
    books: &Books,
    so_far: usize,
) -> Result<(Ops, Ops), Refusal>
    requires few { so_far ≤ MOST_OPERATIONS }
    ensures few { IfOk result
        (λ both. so_far + length both.0 + length both.1 ≤ MOST_OPERATIONS) }
    ensures range { IfOk result (λ both. All (IsOperationOf version books.now) (both.0 ++ both.1)) }
    ensures text { IfOk result (λ both. line (codes "try" ∷ []) ++ lines.old
        ≡ flat_map line (part_words (Part.Either both.0 both.1)) ++ lines.new) }
    ensures fault { (why : AnyFault) → result ≡ Err (Refusal.LineFault why)
        → (subs : List Submission) (name : List ℕ) (parts : List AnyPart)
        → length (operations_of parts) ≡ so_far
        → IsFaultyBehind (lines_inside version books.now subs name parts (InFirst [])) lines.old lines.new
        why }
{
    books.ranges();
    let first = branch_of(alloc, lines, version, books, Branch::First, so_far)?;
    let so_far = so_far + first.len();
    let second = branch_of(alloc, lines, version, books, Branch::Second, so_far)?;
    Ok((first, second))
}

// Adds the parts of the next lines to an empty script, up to the line that ends it.
fn add_parts(
    alloc: Global,
    lines: &mut Lines<'_>,
    version: Version,
    books: &Books,
    script: &mut Script,
) -> Result<(), Refusal>
    requires { script.old ≡ [] }
    ensures range { OnOk result (IsScriptOf version books.now script.new) }
    ensures text { OnOk result (lines.old ≡ script_lines script.new ++ (end_line ++ lines.new)) }
    ensures fault { (why : AnyFault) → result ≡ Err (Refusal.LineFault why)
        → (subs : List Submission) (name : List ℕ)
        → IsFaultyBehind (lines_inside version books.now subs name [] BetweenParts) lines.old lines.new
        why }
{
    books.ranges();
    let mut operations = 0;
    let mut alternatives = 0;
    loop {
        let words = lines.words()?;
        if words.is_only(b"end") {
            return Ok(());
        }
        if words.is_only(b"try") {
            if alternatives >= MOST_ALTERNATIVES {
                return Err(Refusal::LineFault(Fault::Limit));
            }
            let (first, second) = alternative_of(alloc, lines, version, books, operations)?;
            operations += first.len() + second.len();
            alternatives += 1;
            script.push(Part::Either(first, second))?;
        } else {
            let operation = operation_of(&words, version, books)?;
            if operations >= MOST_OPERATIONS {
                return Err(Refusal::LineFault(Fault::Limit));
            }
            operations += 1;
            script.push(Part::One(operation))?;
        }
    }
}

// The parts of a script, and the line that ends it. What is wrong with its lines does not depend on the scripts before it,
// nor on its caller.
pub(crate) fn script_of(
    alloc: Global,
    lines: &mut Lines<'_>,
    version: Version,
    books: &Books,
) -> Result<Script, Refusal>
    ensures range { IfOk result (λ script. IsScriptOf version books.now script) }
    ensures text { IfOk result
        (λ script. lines.old ≡ script_lines script ++ (end_line ++ lines.new)) }
    ensures fault { (why : AnyFault) → result ≡ Err (Refusal.LineFault why)
        → (subs : List Submission) (name : List ℕ)
        → IsFaultyBehind (lines_inside version books.now subs name [] BetweenParts) lines.old lines.new
        why }
{
    let mut script = Script::new(alloc);
    add_parts(alloc, lines, version, books, &mut script)?;
    Ok(script)
}

// Adds the script that a line begins. It is not the line that finishes the text.
fn add_script(
    alloc: Global,
    lines: &mut Lines<'_>,
    version: Version,
    books: &Books,
    callers: &mut Gathering<Script>,
    words: &Words<'_>,
) -> Result<(), Refusal>
    requires even { IsEven callers.old }
    requires unfinished { is_only (codes "finish") words.now ≡ false }
    ensures even { OnOk result (IsEven callers.new) }
    ensures added { OnOk result
        (IsAdded version books.now words.now (callers_in callers.old) (callers_in callers.new) lines.old
        lines.new) }
    ensures fault { (why : AnyFault) → result ≡ Err (Refusal.LineFault why)
        → (subs : List Submission) (left : List ℕ) → callers_in callers.old ≡ callers_of subs
        → AreWords words.now → left ≡ line words.now ++ lines.old
        → IsFaultyBehind (lines_so_far version books.now subs) left lines.new why }
{
    let name = caller_of(words)?;
    if callers.is_full_for(name) {
        return Err(Refusal::LineFault(Fault::Limit));
    }
    let script = script_of(alloc, lines, version, books)?;
    callers.add(alloc, name, script)?;
    Ok(())
}

// Gathers the scripts of the next lines by caller, up to the line that finishes the text.
fn read_scripts(
    alloc: Global,
    lines: &mut Lines<'_>,
    version: Version,
    books: &Books,
    callers: &mut Gathering<Script>,
) -> Result<(), Refusal>
    requires none { callers_in callers.old ≡ [] }
    requires even { IsEven callers.old }
    ensures even { OnOk result (IsEven callers.new) }
    ensures found { OnOk result
        (IsReadOf version books.now (callers_in callers.new) lines.old lines.new) }
    ensures fault { (why : AnyFault) → result ≡ Err (Refusal.LineFault why)
        → IsFaultyBehind (lines_so_far version books.now []) lines.old lines.new why }
{
    books.ranges();
    loop {
        let words = lines.words()?;
        if words.is_only(b"finish") {
            return Ok(());
        }
        add_script(alloc, lines, version, books, callers, &words)?;
    }
}

// The scripts, gathered by caller, and the line that finishes the text.
pub(crate) fn scripts_of(
    alloc: Global,
    lines: &mut Lines<'_>,
    version: Version,
    books: &Books,
) -> Result<Gathering<Script>, Refusal>
    ensures even { IfOk result (λ callers. IsEven callers) }
    ensures found { IfOk result
        (λ callers. IsReadOf version books.now (callers_in callers) lines.old lines.new) }
    ensures fault { (why : AnyFault) → result ≡ Err (Refusal.LineFault why)
        → IsFaultyBehind (lines_so_far version books.now []) lines.old lines.new why }
{
    let mut callers = Gathering::new(alloc);
    read_scripts(alloc, lines, version, books, &mut callers)?;
    Ok(callers)
}
