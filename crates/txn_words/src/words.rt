//! Words that a transaction reads and writes.

ghost use Rattle.std.specs.Prelude.{◌≡◌, ◌≢◌, ◌<◌, ◌≤◌, ◌++◌, ◌∷◌, [], Option, None, Err, IfOk, OnOk};
ghost use Rattle.history_model.specs.declared.event.Event.TheVariants.{Read};
ghost use Rattle.history_model.specs.Traces.{Trace, Begins};
ghost use Rattle.history_model.specs.Fitting.{SomeFits};
ghost use Rattle.history_model.specs.Marks.{count_writes};
ghost use Rattle.txn_words.specs.declared.words.Stop.{Stop};
ghost use Rattle.txn_words.specs.Steps.{EndsWithWrite, stop_after};
ghost use Rattle.txn_words.specs.Marks.{TakesBack};

use history_model::Shape;
use io_ends::OutOfMemory;

/// Why a transaction has to be given up. Whoever is given one hands the words back, and calls nothing more of them.
#[derive(Clone, Copy, Debug, PartialEq, Eq)]
pub enum Stop {
    /// It gives way to another transaction, and may be tried again.
    Yield,
    /// No memory was found.
    Memory,
}

/// How far a transaction had come, to go back to.
#[derive(Clone, Copy, Debug, PartialEq, Eq)]
pub struct Mark {
    /// How many writes its trace had.
    pub writes: usize,
}

impl From<OutOfMemory> for Stop {
    ghost use Rattle.std.specs.Prelude.{◌≡◌};
    ghost use Rattle.txn_words.specs.declared.words.Stop.TheVariants.{Memory};

    fn from(_: OutOfMemory) -> Self
        ensures { result ≡ Memory }
    {
        Stop::Memory
    }

    ghost from_gives = { λ _ stop. stop ≡ Memory };
}

/// The words that a transaction sees, with the trace of all that it did to them.
///
/// Contracts speak of what a call did to every good word list on which the trace is legal, and not of the words
/// as they are: what is beneath may be shared.
pub trait Words {
    type Shape: Shape;

    /// What the words began from. No value of this type need ever be made.
    type Origin;

    /// The value that says how many words there are, and which word lists are good.
    ghost shape: { Self → Self.Shape };

    /// What the words began from, which no call changes.
    ghost origin: { Self → Self.Origin };

    /// What was done so far, oldest first.
    ghost trace: { Self → Trace };

    /// None until a call answers a `Stop`, and that `Stop` from then on.
    ghost stop: { Self → Option Stop };

    /// What the implementor promises of each value that a job is given. It holds after every call, a refused one too.
    ghost is_sound: { Self → Type 0 };

    /// The word at place `a`, as this transaction sees it.
    fn read(&mut self, a: u64) -> Result<u64, Stop>
        requires within { a < Self.Shape.word_count (shape self.old) }
        requires going { stop self.old ≡ None }
        requires sound { is_sound self.old }
        ensures value { IfOk result (λ v. trace self.new ≡ trace self.old ++ Read a v ∷ []) }
        ensures begins { Begins (trace self.old) (trace self.new) }
        ensures stops { stop self.new ≡ stop_after result }
        ensures shape { shape self.new ≡ shape self.old }
        ensures origin { origin self.new ≡ origin self.old }
        ensures sound { is_sound self.new };

    /// Puts `v` into the word at place `a`. An implementor that keeps the old value may read the word first, which the
    /// trace then shows.
    fn write(&mut self, a: u64, v: u64) -> Result<(), Stop>
        requires within { a < Self.Shape.word_count (shape self.old) }
        requires going { stop self.old ≡ None }
        requires sound { is_sound self.old }
        ensures value { OnOk result (EndsWithWrite (trace self.old) (trace self.new) a v) }
        ensures begins { Begins (trace self.old) (trace self.new) }
        ensures stops { stop self.new ≡ stop_after result }
        ensures shape { shape self.new ≡ shape self.old }
        ensures origin { origin self.new ≡ origin self.old }
        ensures sound { is_sound self.new };

    /// Marks where the transaction is, to go back there later. It takes no memory, and does nothing to the words.
    fn mark(&mut self) -> Mark
        requires going { stop self.old ≡ None }
        requires sound { is_sound self.old }
        ensures writes { result.writes ≡ count_writes (trace self.old) }
        ensures trace { trace self.new ≡ trace self.old }
        ensures going { stop self.new ≡ None }
        ensures shape { shape self.new ≡ shape self.old }
        ensures origin { origin self.new ≡ origin self.old }
        ensures sound { is_sound self.new };

    /// Takes back all writes since the mark: it writes the values that they found, the newest first, as any write does. So a
    /// mark stays good, and one that was taken before it too. It gives way to nobody, since each of these words was
    /// written before.
    ///
    /// A mark that was taken later than what was gone back to since names writes that went back: if the trace has as
    /// many, going back to it is allowed, and takes back what its number says.
    fn back_to(&mut self, m: Mark) -> Result<(), Stop>
        requires mark { m.writes ≤ count_writes (trace self.old) }
        requires going { stop self.old ≡ None }
        requires sound { is_sound self.old }
        ensures back { OnOk result
            (TakesBack (Self.Shape.word_count (shape self.old)) (Self.Shape.good (shape self.old))
            m.writes (trace self.old) (trace self.new)) }
        ensures begins { Begins (trace self.old) (trace self.new) }
        ensures stops { stop self.new ≡ stop_after result }
        ensures shape { shape self.new ≡ shape self.old }
        ensures origin { origin self.new ≡ origin self.old }
        ensures sound { is_sound self.new }
        ensures never_yields { result ≢ Err Stop.Yield };

    /// Some good list fits the trace, after a `Stop` too.
    ghost fits: { (words : Self) → is_sound words
        → SomeFits (Self.Shape.word_count (shape words)) (Self.Shape.good (shape words))
        (trace words) };
}
