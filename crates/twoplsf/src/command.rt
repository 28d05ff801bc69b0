//! The words of the command line.

ghost use Rattle.std.specs.Prelude.{◌≡◌, ℕ, IfSome, IfNone};
ghost use Rattle.books_model.specs.Ranges.{IsWithin};
ghost use Rattle.script_reader.specs.Text.{number};
ghost use Rattle.twoplsf.specs.Command.{IsValidCommand, texts_of};
ghost use Rattle.twoplsf.specs.Commands.{ArePlanned, IsCommand, reads_text};

use input_maker::limits::GREATEST_SEED;
use script_reader::limits::{MOST_CALLERS, MOST_SCRIPTS, MOST_WORKERS};
use script_reader::numeral;
use txn_cells::MOST_ROUNDS;

/// What is asked of an input that the program makes.
#[derive(Clone, Copy, Debug, PartialEq, Eq)]
pub struct Plan {
    /// The number with which drawing begins.
    pub seed: u32,
    /// How many callers there are.
    pub callers: u32,
    /// How many scripts each of them has.
    pub scripts: u32,
}

/// What the words ask for.
#[derive(Clone, Copy, Debug, PartialEq, Eq)]
pub enum Command {
    /// An input is read, and run by so many workers.
    Run(u32),
    /// An input is read, and a text behind it is compared with it.
    Check,
    /// The input of a record store is read, and run by so many workers.
    Records(u32),
    /// The input of a limit order book is read, and run by so many workers.
    Orders(u32),
    /// An input is made and printed.
    Make(Plan),
    /// An input is made and run by so many workers, and its output is checked.
    Drill { workers: u32, plan: Plan },
    /// So many workers add to cells, in so many rounds each.
    Cells { workers: u32, rounds: u32 },
}

impl Command {
    /// Whether it reads a text.
    pub fn reads(self) -> bool
        ensures { result ≡ reads_text self }
    {
        match self {
            Command::Run(_) | Command::Check | Command::Records(_) | Command::Orders(_) => true,
            Command::Make(_) | Command::Drill { .. } | Command::Cells { .. } => false,
        }
    }
}

/// The command that the words are. It takes no memory.
pub fn command_of(words: &[String]) -> Option<Command>
    ensures some { IfSome result (IsCommand (texts_of words.now)) }
    ensures none { IfNone result (¬ IsValidCommand (texts_of words.now)) }
{
    let [name, rest @ ..] = words else {
        return None;
    };
    match (name.as_str(), rest) {
        ("run", [workers]) => Some(Command::Run(workers_of(workers.as_bytes())?)),
        ("check", []) => Some(Command::Check),
        ("records", [workers]) => Some(Command::Records(workers_of(workers.as_bytes())?)),
        ("orders", [workers]) => Some(Command::Orders(workers_of(workers.as_bytes())?)),
        ("make", [seed, callers, scripts]) => {
            let plan = plan_of(seed.as_bytes(), callers.as_bytes(), scripts.as_bytes())?;
            Some(Command::Make(plan))
        }
        ("drill", [workers, seed, callers, scripts]) => {
            let (workers, plan) = drill_of(
                workers.as_bytes(),
                seed.as_bytes(),
                callers.as_bytes(),
                scripts.as_bytes(),
            )?;
            Some(Command::Drill { workers, plan })
        }
        ("cells", [workers, rounds]) => {
            let workers = workers_of(workers.as_bytes())?;
            let rounds = number_within(rounds.as_bytes(), 1, MOST_ROUNDS)?;
            Some(Command::Cells { workers, rounds })
        }
        _ => None,
    }
}

// The number of workers that a word is. It takes no memory.
fn workers_of(word: &[u8]) -> Option<u32>
    ensures some { IfSome result (λ w. (word.now ≡ number w) × IsWithin 1 MOST_WORKERS w) }
    ensures none { IfNone result ((w : ℕ) → word.now ≡ number w
        → ¬ IsWithin 1 MOST_WORKERS w) }
{
    number_within(word, 1, MOST_WORKERS)
}

// The number of workers that a word is, and the plan that three others are. It takes no memory.
fn drill_of(workers: &[u8], seed: &[u8], callers: &[u8], scripts: &[u8]) -> Option<(u32, Plan)>
    ensures some { IfSome result (λ d. (workers.now ≡ number d.0) × IsWithin 1 MOST_WORKERS d.0
        × ArePlanned seed.now callers.now scripts.now d.1.seed d.1.callers d.1.scripts) }
    ensures none { IfNone result ((w s c n : ℕ) → workers.now ≡ number w
        → IsWithin 1 MOST_WORKERS w → ¬ ArePlanned seed.now callers.now scripts.now s c n) }
{
    let workers = workers_of(workers)?;
    let plan = plan_of(seed, callers, scripts)?;
    Some((workers, plan))
}

// The plan that three words are. It takes no memory.
fn plan_of(seed: &[u8], callers: &[u8], scripts: &[u8]) -> Option<Plan>
    ensures some { IfSome result (λ plan. ArePlanned seed.now callers.now scripts.now
        plan.seed plan.callers plan.scripts) }
    ensures none { IfNone result ((s c n : ℕ)
        → ¬ ArePlanned seed.now callers.now scripts.now s c n) }
{
    let seed = number_within(seed, 0, GREATEST_SEED)?;
    let callers = number_within(callers, 1, MOST_CALLERS as u32)?;
    let scripts = number_within(scripts, 1, MOST_SCRIPTS as u32)?;
    if u64::from(callers) * u64::from(scripts) > MOST_SCRIPTS as u64 {
        return None;
    }
    Some(Plan {
        seed,
        callers,
        scripts,
    })
}

// The number that a word is, if it is one between two others, which both count. It takes no memory.
fn number_within(word: &[u8], least: u32, most: u32) -> Option<u32>
    ensures some { IfSome result (λ n. (word.now ≡ number n) × IsWithin least most n) }
    ensures none { IfNone result ((n : ℕ) → word.now ≡ number n → ¬ IsWithin least most n) }
{
    match numeral(word) {
        Some(found) if found >= u64::from(least) && found <= u64::from(most) => Some(found as u32),
        _ => None,
    }
}
