//! Stores on words.

ghost use Rattle.std.specs.Prelude.{◌≡◌, ◌<◌, ◌≤◌, ℕ, List, length, All, IfOk};
ghost use Rattle.history_model.specs.Fitting.{IsGood};
ghost use Rattle.word_table.specs.declared.limits.TheConstants.{MOST_WORDS};
ghost use Rattle.books_model.specs.declared.limits.TheConstants.{MOST_OPERATIONS};
ghost use Rattle.script_reader.specs.declared.limits.TheConstants.{MOST_SCRIPTS};
ghost use Rattle.script_reader.specs.Gathered.{count_scripts, script_at};
ghost use Rattle.books_report.specs.Lines.{place_of_line, lent, scripts_of};
ghost use Rattle.books_report.specs.Stores.Interpreter.{Step};
ghost use Rattle.script_reader.specs.Journal.{IsPlaceOf};
ghost use Rattle.books_report.specs.Stores.Output.{state_left, text_of, StoreOf};
ghost use Rattle.txn_words.specs.Calls.{InEachState, IsReady, LeadsTo};
ghost use Rattle.txn_stores.specs.Journals.{script_count};
ghost use Rattle.txn_stores.specs.Standing.{HandsOn, StandsForSome, MeetsStep, UnlessFull};

use books_report::Line;
use books_report::stores::{OperationList, Outcome, StoreReply};
use history_model::Shape;
use io_ends::OutOfMemory;
use std::alloc::Global;
use txn_words::{Stop, Words};

/// A store: a shape whose words stand for the store's state, one operation on them, and the inputs that it is given.
pub trait Store: Shape + Copy {
    /// An operation of a script.
    type Op: Copy + Drop;

    /// What an operation tells.
    type Value: Drop;

    /// An input: callers with their scripts, and the sizes of the store.
    type Input;

    /// What the words stand for.
    ghost State: { Type 0 };

    /// These words of the shape stand for this state.
    ghost stands: { Self → List ℕ → State → Type 0 };

    /// What one operation does: one step of the interpreter.
    ghost step: { Self → Self.Op → State → Step Self.Value State };

    /// An operation whose numbers are in range.
    ghost is_operation: { Self → Self.Op → Type 0 };

    /// A script that the store can be given.
    ghost is_script: { Self → List Self.Op → Type 0 };

    /// What an input gives, and how it is printed.
    ghost told: { Self.Input → StoreOf Self.Op Self.Value State };

    /// The shape of an input's store.
    ghost shape_of: { Self.Input → Self };

    /// The shape of the input's store, on which an operation does what the input's interpreter does.
    fn shape_of(input: &Self::Input) -> Self
        ensures value { result ≡ shape_of input.now }
        ensures step { (told input.now).step ≡ step (shape_of input.now) };

    /// How many callers there are.
    fn callers(input: &Self::Input) -> u32
        ensures value { result ≡ length (told input.now).callers }
        ensures few { count_scripts (told input.now).callers ≤ MOST_SCRIPTS };

    /// How many scripts a caller has, by its number from 0.
    fn scripts_of(input: &Self::Input, caller: u32) -> u32
        requires { caller < length (told input.now).callers }
        ensures { result ≡ script_count (told input.now).callers caller };

    /// A script of a caller, both by their numbers from 0.
    fn script(input: &Self::Input, caller: u32, index: u32) -> &OperationList<Self::Op>
        requires caller { caller < length (told input.now).callers }
        requires index { index < script_count (told input.now).callers caller }
        ensures value { result.now ≡ script_at (told input.now).callers caller index }
        ensures range { is_script (shape_of input.now) result.now };

    /// The words that stand for what the store begins with.
    fn opening_words(alloc: Global, input: &Self::Input) -> Result<Vec<u64>, OutOfMemory>
        ensures room { IfOk result (λ words. (1 ≤ length words.items) × (length words.items ≤ MOST_WORDS)) }
        ensures count { IfOk result (λ words. length words.items
            ≡ Self.word_count (shape_of input.now)) }
        ensures stands { IfOk result (λ words. stands (shape_of input.now) words.items
            (told input.now).begins) };

    /// Runs one operation of a script. One that finds no room may have written words before it answers; whoever runs it undoes
    /// that. What it tells is gathered on `alloc`.
    fn run_operation<W: Words>(
        &self,
        alloc: Global,
        w: &mut W,
        op: Self::Op,
    ) -> Result<Outcome<Self::Value>, Stop>
        requires ready { IsReady W.Words w.old }
        requires stands { InEachState W.Words W.Shape.Shape w.old (StandsForSome (stands self.now)) }
        requires range { is_operation self.now op }
        ensures step { IfOk result (λ come. LeadsTo W.Words W.Shape.Shape w.old w.new
            (MeetsStep (stands self.now) (step self.now) op come)) }
        ensures stands { IfOk result (λ come. UnlessFull come
            (InEachState W.Words W.Shape.Shape w.new (StandsForSome (stands self.now)))) }
        ensures hands_on { HandsOn W.Words w.old w.new result };

    /// The whole output: a journal line for each line and reply, in their order, and what these words stand for, which is
    /// what the scripts leave.
    fn text(
        alloc: Global,
        input: &Self::Input,
        lines: &[Line],
        replies: &[&StoreReply<Self::Value>],
        words: &[u64],
    ) -> Result<Vec<u8>, OutOfMemory>
        requires beside { length lines.now ≡ length replies.now }
        requires places { All (λ l. IsPlaceOf (told input.now).callers (place_of_line l)) lines.now }
        requires good { IsGood (Self.word_count (shape_of input.now))
            (Self.good (shape_of input.now)) words.now }
        requires left { stands (shape_of input.now) words.now
            (state_left (told input.now) (scripts_of lines.now (lent replies.now))) }
        ensures { IfOk result (λ text. text.items
            ≡ text_of (told input.now) (scripts_of lines.now (lent replies.now))
            ((told input.now).closing (state_left (told input.now) (scripts_of lines.now (lent replies.now))))) };

    /// The good words are those that stand for some state.
    ghost good_stand: { (shape : Self) (words : List ℕ) → Self.good shape words
        → StandsForSome (stands shape) words };

    ghost stand_good: { (shape : Self) (words : List ℕ) → StandsForSome (stands shape) words
        → Self.good shape words };

    /// A script has not too many operations, each with its numbers in range.
    ghost few: { (shape : Self) (script : List Self.Op) → is_script shape script
        → length script ≤ MOST_OPERATIONS };

    ghost each: { (shape : Self) (script : List Self.Op) → is_script shape script
        → All (is_operation shape) script };
}
