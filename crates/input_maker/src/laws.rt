//! What follows of generated inputs, and the greatest seed: each law is the contract of a function that does nothing.

ghost use Rattle.std.specs.Prelude.{◌≡◌};
ghost use Rattle.input_maker.specs.Statements.{MadeInputsAreInputs, MadeInputsFit};
ghost use Rattle.input_maker.specs.Days.{FirstKindIsDone, MadeCash, MadeQuantities, NoneIsFull, SecondKindKeepsCash};

use crate::limits::GREATEST_SEED;

/// The greatest seed, in digits. All else cites the constant.
pub fn greatest_sizes()
    ensures seed { GREATEST_SEED ≡ 2147483647 }
{}

/// Each generated text is the text of an input: it has no fault.
pub fn made_inputs_are_inputs()
    ensures { MadeInputsAreInputs }
{}

/// Each generated text is small enough to be read by the program that runs it.
pub fn made_inputs_fit()
    ensures { MadeInputsFit }
{}

/// What a generated day comes to, in every order of its scripts.
pub fn made_days()
    ensures cash { MadeCash }
    ensures quantities { MadeQuantities }
    ensures first_kind { FirstKindIsDone }
    ensures second_kind { SecondKindKeepsCash }
    ensures blocks { NoneIsFull }
{}
