//! A language of two operations, as a program of one's own would have it.

ghost use Rattle.std.specs.Prelude.{◌≡◌, ℕ, List, ◌<◌, [], ◌∷◌, ◌++◌, Some, IfOk, IfErr, OnOk, OnErr, length, slice_get};
ghost use Rattle.script_reader.specs.ListLanguage.{IsOperationIn, operation_words};
ghost use Rattle.script_reader.specs.Rows.{row_fault};
ghost use Rattle.texts_tests.specs.Steps.{step_forms, steps};

use io_ends::OutOfMemory;
use script_reader::{Fault, Language, Words};
use std::alloc::Global;
use std::marker::Model;

/// The greatest account. The least is 1.
pub const GREATEST_ACCOUNT: u32 = 9;

/// The greatest size of a header. The least is 1.
pub const GREATEST_MOST: u64 = 100;

// The least and the greatest account.
const ACCOUNTS: (u64, u64) = (1, GREATEST_ACCOUNT as u64);

/// An operation.
#[derive(Clone, Copy, Debug, PartialEq, Eq)]
pub enum Step {
    /// Adds so much to an account: at most the size of the header.
    Add(u32, u64),
    /// Shows an account.
    Show(u32),
}

/// Operations in order.
#[derive(Debug, Drop)]
pub struct StepScript {
    steps: Vec<Step>,
}

impl Model for StepScript {
    ghost use Rattle.std.specs.Prelude.{List};
    ghost use Rattle.texts_tests.specs.declared.steps.Step.{Step};

    ghost Value = { List Step };

    ghost view = { λ s. s.steps.items };
}

impl StepScript {
    /// No operation. It takes no memory.
    pub fn new(alloc: Global) -> StepScript
        ensures { result ≡ [] }
    {
        StepScript {
            steps: Vec::new(alloc),
        }
    }

    /// Adds an operation at the end.
    pub fn push(&mut self, step: Step) -> Result<(), OutOfMemory>
        ensures ok { OnOk result (self.new ≡ self.old ++ step ∷ []) }
        ensures err { OnErr result (self.new ≡ self.old) }
    {
        self.steps.push(step)?;
        Ok(())
    }

    /// How many operations there are.
    pub fn len(&self) -> usize
        ensures { result ≡ length self.now }
    {
        self.steps.len()
    }

    /// The operation at a place, from 0.
    pub fn at(&self, i: usize) -> Step
        requires { i < length self.now }
        ensures { slice_get self.now i ≡ Some result }
    {
        self.steps[i]
    }
}

/// The language.
pub struct Steps;

impl Language for Steps {
    ghost use Rattle.std.specs.Prelude.{[], ◌∷◌};
    ghost use Rattle.texts_tests.specs.Steps.{steps, steps_lawful};

    type Sizes = u64;

    type Operation = Step;

    type Script = StepScript;

    ghost language = { steps };

    ghost sizes_of = { λ most. most ∷ [] };

    fn sizes(words: &Words<'_>) -> Result<u64, Fault> {
        words.one_size(b"steps", b"most", (1, GREATEST_MOST))
    }

    fn operation(words: &Words<'_>, most: u64) -> Result<Step, Fault> {
        match words.len() {
            2 => show_of(words),
            3 => add_of(words, most),
            _ => Err(Fault::Word),
        }
    }

    fn empty(alloc: Global) -> StepScript {
        StepScript::new(alloc)
    }

    fn add(script: &mut StepScript, step: Step) -> Result<(), OutOfMemory> {
        script.push(step)
    }

    ghost lawful = { steps_lawful };
}

// The operation of a line of two words.
fn show_of(words: &Words<'_>) -> Result<Step, Fault>
    requires { length words.now ≡ 2 }
    ensures found { IfOk result (λ step. (sizes : List ℕ) → IsOperationIn steps sizes step
        × (words.now ≡ operation_words steps step)) }
    ensures err { IfErr result
        (λ why. (sizes : List ℕ) → row_fault (step_forms sizes) words.now ≡ Some why) }
{
    if !words.is_row(b"show", 2) {
        return Err(Fault::Word);
    }
    let account = words.one_number(ACCOUNTS)?;
    Ok(Step::Show(account as u32))
}

// The operation of a line of three words.
fn add_of(words: &Words<'_>, most: u64) -> Result<Step, Fault>
    requires three { length words.now ≡ 3 }
    requires most { most < u64.MAX }
    ensures found { IfOk result (λ step. IsOperationIn steps (most ∷ []) step
        × (words.now ≡ operation_words steps step)) }
    ensures err { IfErr result
        (λ why. row_fault (step_forms (most ∷ [])) words.now ≡ Some why) }
{
    if !words.is_row(b"add", 3) {
        return Err(Fault::Word);
    }
    let (account, amount) = words.two_numbers(ACCOUNTS, (1, most))?;
    Ok(Step::Add(account as u32, amount))
}
