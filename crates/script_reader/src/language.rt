//! Languages of texts whose scripts are lists of operations, each a line: a word and numbers.

ghost use Rattle.std.specs.Prelude.{◌≡◌, [], ◌∷◌, ◌++◌, Some, IfOk, IfErr, OnOk};
ghost use Rattle.script_reader.specs.ListLanguage.{AreSizes, IsOperationIn, head_fault, head_words, operation_words};
ghost use Rattle.script_reader.specs.Rows.{row_fault};

pub mod gathered;
pub(crate) mod gathering;
mod heads;
pub(crate) mod reader;

use crate::fault::Fault;
use crate::text::words::Words;
use io_ends::OutOfMemory;
use std::alloc::Global;

/// A language of texts: a header with sizes, the line `scripts`, the scripts of callers, and the line `finish`. A script is
/// a list of operations. What is to be read of one line is the language's, and all else is that of every language.
pub trait Language: Sized {
    ghost use Rattle.std.specs.Prelude.{ℕ, List};
    ghost use Rattle.script_reader.specs.ListLanguage.{ListLanguage, IsListLanguage};

    /// The sizes of a header.
    type Sizes: Copy;

    /// An operation.
    type Operation: Copy;

    /// A list of operations.
    type Script: Drop;

    /// Its words and the ranges of its numbers.
    ghost language: { ListLanguage Self.Operation Self.Script };

    /// The sizes as they stand in a header, in order.
    ghost sizes_of: { Self.Sizes → List ℕ };

    /// The sizes of a header.
    fn sizes(words: &Words<'_>) -> Result<Self::Sizes, Fault>
        ensures found { IfOk result (λ sizes. AreSizes language (sizes_of sizes)
            × (words.now ≡ head_words language (sizes_of sizes))) }
        ensures err { IfErr result (λ why. head_fault language words.now ≡ Some why) };

    /// The operation of a line of a script, in a text with these sizes.
    fn operation(words: &Words<'_>, sizes: Self::Sizes) -> Result<Self::Operation, Fault>
        requires sized { AreSizes language (sizes_of sizes) }
        ensures found { IfOk result (λ op. IsOperationIn language (sizes_of sizes) op
            × (words.now ≡ operation_words language op)) }
        ensures err { IfErr result
            (λ why. row_fault (language.forms (sizes_of sizes)) words.now ≡ Some why) };

    /// A script with no operation.
    fn empty(alloc: Global) -> Self::Script
        ensures { language.operations result ≡ [] };

    /// Adds an operation at the end of a script.
    fn add(script: &mut Self::Script, operation: Self::Operation) -> Result<(), OutOfMemory>
        ensures { OnOk result (language.operations script.new
            ≡ language.operations script.old ++ operation ∷ []) };

    /// Its words can stand in a text, and an operation is told by its line.
    ghost lawful: { IsListLanguage language };
}
