//! Whole texts of a language.

ghost use Rattle.std.specs.Prelude.{◌≡◌, ◌⊎◌, ℕ, List, [], ◌∷◌, ◌++◌, false, codes, IfOk, OnOk, MatchResult, Err};
ghost use Rattle.script_reader.specs.declared.fault.Fault.{Fault as AnyFault};
ghost use Rattle.script_reader.specs.Text.{line, end_line};
ghost use Rattle.script_reader.specs.Lines.{AreWords};
ghost use Rattle.script_reader.specs.Forms.{is_only};
ghost use Rattle.script_reader.specs.Gathered.{CallerOf, SubmissionOf, callers_of};
ghost use Rattle.script_reader.specs.Reading.{IsFaultBehind};
ghost use Rattle.script_reader.specs.ListLanguage.{AreSizes, IsScriptIn, IsTextOf, IsFirstFaultIn, head_words, judge, lines_of};
ghost use Rattle.script_reader.specs.Inner.Gatherings.{callers_in, IsEven};
ghost use Rattle.script_reader.specs.Inner.ListScripts.{AreReadOf, HasTextInFront, IsGathered, lines_within, operations_text};

use crate::fault::{Fault, InputFault, Refusal, faulty_line};
use crate::language::Language;
use crate::language::gathered::Gathered;
use crate::language::gathering::Gathering;
use crate::text::lines::Lines;
use crate::text::names::caller_of;
use crate::text::words::{LINE_FEED, Words, occurrences};
use books_model::limits::MOST_OPERATIONS;
use std::alloc::Global;

/// Reads a text, all of the bytes. What a text spells is read, unless memory runs out, and nothing else is. The fault of a
/// text that is refused is its first.
pub fn read_text<L: Language>(
    alloc: Global,
    bytes: &[u8],
) -> Result<(L::Sizes, Gathered<L::Script>), InputFault>
    ensures ok { IfOk result (λ found.
        IsTextOf L.language bytes.now (L.sizes_of found.0) found.1) }
    ensures read { (sizes : List ℕ) (callers : List (CallerOf L.Script))
        → IsTextOf L.language bytes.now sizes callers
        → MatchResult result (λ found. (L.sizes_of found.0 ≡ sizes) × (found.1 ≡ callers))
        (λ fault. fault ≡ InputFault.OutOfMemory) }
    ensures refused { (number : ℕ) (why : AnyFault) → result ≡ Err (InputFault.Line number why)
        → IsFirstFaultIn L.language bytes.now number why }
    ensures faulty { (number : ℕ) (why : AnyFault) → IsFirstFaultIn L.language bytes.now number why
        → MatchResult result (λ _. ⊥)
        (λ fault. (fault ≡ InputFault.Line number why) ⊎ (fault ≡ InputFault.OutOfMemory)) }
{
    let mut lines = Lines::new(bytes);
    match front_of::<L>(alloc, &mut lines) {
        Ok(found) => {
            if lines.len() == 0 {
                return Ok(found);
            }
            let read = occurrences(&bytes[..bytes.len() - lines.len()], LINE_FEED);
            let line = read as u32 + 1;
            Err(InputFault::Line {
                line,
                why: Fault::End,
            })
        }
        Err(Refusal::OutOfMemory) => Err(InputFault::OutOfMemory),
        Err(Refusal::LineFault(why)) => {
            let read = occurrences(&bytes[..bytes.len() - lines.len()], LINE_FEED);
            let line = faulty_line(read, why);
            Err(InputFault::Line { line, why })
        }
    }
}

// The sizes and the scripts of the next lines, up to the last one.
fn front_of<L: Language>(
    alloc: Global,
    lines: &mut Lines<'_>,
) -> Result<(L::Sizes, Gathered<L::Script>), Refusal>
    ensures found { IfOk result (λ found.
        HasTextInFront L.language (L.sizes_of found.0) found.1 lines.old lines.new) }
    ensures fault { (why : AnyFault) → result ≡ Err (Refusal.LineFault why)
        → IsFaultBehind (judge L.language) [] lines.old lines.new why }
{
    let sizes = sizes_of::<L>(lines)?;
    let callers = scripts_of::<L>(alloc, lines, sizes)?;
    Ok((sizes, Gathered::new(callers)))
}

// The sizes of the first line, and the line that begins the scripts.
fn sizes_of<L: Language>(lines: &mut Lines<'_>) -> Result<L::Sizes, Refusal>
    ensures sized { IfOk result (λ sizes. AreSizes L.language (L.sizes_of sizes)) }
    ensures text { IfOk result (λ sizes. lines.old
        ≡ line (head_words L.language (L.sizes_of sizes)) ++ (line (codes "scripts" ∷ []) ++ lines.new)) }
    ensures fault { (why : AnyFault) → result ≡ Err (Refusal.LineFault why)
        → IsFaultBehind (judge L.language) [] lines.old lines.new why }
{
    let header = lines.words()?;
    let sizes = L::sizes(&header)?;
    let words = lines.words()?;
    if !words.is_only(b"scripts") {
        return Err(Refusal::LineFault(Fault::Word));
    }
    Ok(sizes)
}

// The scripts, gathered by caller, and the line that finishes the text.
fn scripts_of<L: Language>(
    alloc: Global,
    lines: &mut Lines<'_>,
    sizes: L::Sizes,
) -> Result<Gathering<L::Script>, Refusal>
    requires sized { AreSizes L.language (L.sizes_of sizes) }
    ensures even { IfOk result (λ callers. IsEven callers) }
    ensures found { IfOk result (λ callers.
        AreReadOf L.language (L.sizes_of sizes) (callers_in callers) lines.old lines.new) }
    ensures fault { (why : AnyFault) → result ≡ Err (Refusal.LineFault why)
        → IsFaultBehind (judge L.language) (lines_of L.language (L.sizes_of sizes) [])
        lines.old lines.new why }
{
    let mut callers = Gathering::new(alloc);
    read_scripts::<L>(alloc, lines, sizes, &mut callers)?;
    Ok(callers)
}

// Gathers the scripts of the next lines by caller, up to the line that finishes the text.
fn read_scripts<L: Language>(
    alloc: Global,
    lines: &mut Lines<'_>,
    sizes: L::Sizes,
    callers: &mut Gathering<L::Script>,
) -> Result<(), Refusal>
    requires sized { AreSizes L.language (L.sizes_of sizes) }
    requires none { callers_in callers.old ≡ [] }
    requires even { IsEven callers.old }
    ensures even { OnOk result (IsEven callers.new) }
    ensures found { OnOk result
        (AreReadOf L.language (L.sizes_of sizes) (callers_in callers.new) lines.old lines.new) }
    ensures fault { (why : AnyFault) → result ≡ Err (Refusal.LineFault why)
        → IsFaultBehind (judge L.language) (lines_of L.language (L.sizes_of sizes) [])
        lines.old lines.new why }
{
    loop {
        let words = lines.words()?;
        if words.is_only(b"finish") {
            return Ok(());
        }
        add_script::<L>(alloc, lines, sizes, callers, &words)?;
    }
}

// Adds the script that a line begins. It is not the line that finishes the text.
fn add_script<L: Language>(
    alloc: Global,
    lines: &mut Lines<'_>,
    sizes: L::Sizes,
    callers: &mut Gathering<L::Script>,
    words: &Words<'_>,
) -> Result<(), Refusal>
    requires sized { AreSizes L.language (L.sizes_of sizes) }
    requires even { IsEven callers.old }
    requires unfinished { is_only (codes "finish") words.now ≡ false }
    ensures even { OnOk result (IsEven callers.new) }
    ensures added { OnOk result
        (IsGathered L.language (L.sizes_of sizes) words.now (callers_in callers.old)
        (callers_in callers.new) lines.old lines.new) }
    ensures fault { (why : AnyFault) → result ≡ Err (Refusal.LineFault why)
        → (subs : List (SubmissionOf L.Script)) (left : List ℕ) → callers_in callers.old ≡ callers_of subs
        → AreWords words.now → left ≡ line words.now ++ lines.old
        → IsFaultBehind (judge L.language) (lines_of L.language (L.sizes_of sizes) subs)
        left lines.new why }
{
    let name = caller_of(words)?;
    if callers.is_full_for(name) {
        return Err(Refusal::LineFault(Fault::Limit));
    }
    let script = script_of::<L>(alloc, lines, sizes)?;
    callers.add(alloc, name, script)?;
    Ok(())
}

// The operations of a script, and the line that ends it. What is wrong with its lines does not depend on the scripts before
// it, nor on its caller.
fn script_of<L: Language>(
    alloc: Global,
    lines: &mut Lines<'_>,
    sizes: L::Sizes,
) -> Result<L::Script, Refusal>
    requires sized { AreSizes L.language (L.sizes_of sizes) }
    ensures range { IfOk result (λ script. IsScriptIn L.language (L.sizes_of sizes) script) }
    ensures text { IfOk result (λ script. lines.old
        ≡ operations_text L.language (L.language.operations script) ++ (end_line ++ lines.new)) }
    ensures fault { (why : AnyFault) → result ≡ Err (Refusal.LineFault why)
        → (subs : List (SubmissionOf L.Script)) (name : List ℕ)
        → IsFaultBehind (judge L.language) (lines_within L.language (L.sizes_of sizes) subs name [])
        lines.old lines.new why }
{
    let mut script = L::empty(alloc);
    add_operations::<L>(lines, sizes, &mut script)?;
    Ok(script)
}

// Adds the operations of the next lines to an empty script, up to the line that ends it.
fn add_operations<L: Language>(
    lines: &mut Lines<'_>,
    sizes: L::Sizes,
    script: &mut L::Script,
) -> Result<(), Refusal>
    requires sized { AreSizes L.language (L.sizes_of sizes) }
    requires none { L.language.operations script.old ≡ [] }
    ensures range { OnOk result (IsScriptIn L.language (L.sizes_of sizes) script.new) }
    ensures text { OnOk result (lines.old
        ≡ operations_text L.language (L.language.operations script.new) ++ (end_line ++ lines.new)) }
    ensures fault { (why : AnyFault) → result ≡ Err (Refusal.LineFault why)
        → (subs : List (SubmissionOf L.Script)) (name : List ℕ)
        → IsFaultBehind (judge L.language) (lines_within L.language (L.sizes_of sizes) subs name [])
        lines.old lines.new why }
{
    let mut count = 0;
    loop {
        let words = lines.words()?;
        if words.is_only(b"end") {
            return Ok(());
        }
        let operation = L::operation(&words, sizes)?;
        if count >= MOST_OPERATIONS {
            return Err(Refusal::LineFault(Fault::Limit));
        }
        count += 1;
        L::add(script, operation)?;
    }
}
