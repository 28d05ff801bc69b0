//! The atomic operations of a seat, each as a kind of step that keeps the rule.
//!
//! An operation is proved here once, for every kind of step that fits it. Which kind it is exists in the proof alone.

ghost use Rattle.std.specs.Prelude.{List, ◌≡◌, ◌<◌, ◌==◌, ◌+◌, ◌^◌, ℕ, [], ◌∷◌, if◌then◌else◌, true, false, length, IfOk};
ghost use Rattle.history_model.specs.declared.entry.Entry.{Entry};
ghost use Rattle.history_model.specs.declared.view.View.{View};
ghost use Rattle.locks_rule.specs.Actions.{Action};
ghost use Rattle.history_model.specs.Fitting.{IsGood};
ghost use Rattle.word_table.specs.Kinds.{action_of, is_load, May, Stores, Grows, Took};
ghost use Rattle.atomic_table.specs.Table.{opening, Final, Joins, Seen, Splits, State};
ghost use Rattle.locks_rule.specs.Splits.{opening_view};
ghost use Rattle.std.specs.Slots.{slots_items, slots_len, IsFull};
ghost use Rattle.word_table.specs.Sound.{GroundHolds, numbers};

use crate::rule::{Counted, DeskRule, Ground};
use atomic_table::{Closed, Join, Play, Seat, Split, Table};
use history_model::{Shape, View};
use std::alloc::{AllocError, Global};
use std::marker::{Brand, Model, PhantomData};

/// The words of a desk's table, as threads share them.
///
/// The functions below reach them, and no others: so whatever the crate does to a word is a `Step` that its seat may
/// take, and a store, an exchange or an addition is a step of a kind that writes.
#[derive(Drop)]
pub(crate) struct TableWords<S: Shape> {
    table: Table<(), Counted, Ground<S>, DeskRule<S>, Global>,
}

impl<S: Shape> Model for TableWords<S> {
    ghost use Rattle.word_table.specs.Words.{WordsView};

    ghost Value = { WordsView S };

    ghost view = { λ t. record {
      table_id = t.table.shared.table_id;
      key = t.table.shared.key;
    } };
}

/// A seat of such a table. The functions below alone step with it, and count its steps: whatever loads or writes a word is
/// one step more. That it is cut or joined to another counts as none.
#[derive(Drop)]
pub(crate) struct TableSeat {
    seat: Seat<(), Counted>,
}

impl Model for TableSeat {
    ghost use Rattle.word_table.specs.Words.{SeatView, known};

    ghost Value = { SeatView };

    ghost view = { λ s. record {
      table_id = s.seat.table_id;
      id = s.seat.id;
      me = known s.seat.me;
      steps = s.seat.me.0.steps;
    } };
}

/// A kind of step, with the number of the seat that takes it, and what the step is about: a lock with the memory's word
/// that it is asked for or with the other seat, a word of the memory, or the call.
///
/// Contracts and proofs alone speak of it: `Kinds` in `specs/` says what a step of each kind does (`action_of`) and
/// when a seat may take it (`May`).
#[derive(Clone, Copy)]
pub enum Step {
    /// The own row is stored with the lock's bit set.
    SetReadBit { seat: u32, lock: u32, word: u64 },
    /// The own row is stored with the lock's bit cleared.
    ClearReadBit { seat: u32, lock: u32 },
    /// The lock's writer word is loaded, once the own bit is set.
    LoadWriter { seat: u32, lock: u32, word: u64 },
    /// The lock's writer word is made the seat's by a compare-exchange from 0.
    ClaimWriter { seat: u32, lock: u32, word: u64 },
    /// The row word of another seat is loaded, for an own claim.
    ScanRow { seat: u32, lock: u32, other: u32 },
    /// 0 is stored to the lock's writer word.
    ReleaseWriter { seat: u32, lock: u32 },
    /// The number of a new call is stored to the own CALLS word.
    BeginCall { seat: u32 },
    /// A value of the memory is loaded.
    LoadValue { seat: u32, word: u64 },
    /// A value is stored to a word of the memory, and the old one is noted.
    StoreValue { seat: u32, word: u64, value: u64 },
    /// The newest note is written back.
    UndoStore { seat: u32, word: u64, old: u64 },
    /// The call's number is stored to the own COMMITS word.
    CommitCall { seat: u32, kept: bool },
    /// 0 is stored to the own STAMPS word, and the call ends.
    ClearStamp { seat: u32 },
    /// The clock goes up by 1, and the call has a timestamp.
    DrawStamp { seat: u32 },
    /// The timestamp is stored to the own STAMPS word.
    AnnounceStamp { seat: u32 },
    /// The timestamp of a seat that the call met is loaded, and the attempt gives way if that is an earlier one.
    JudgeStamp { seat: u32, other: u32 },
    /// The timestamp of the attempt's cause is loaded, which showed this one.
    LoadCauseStamp { seat: u32, other: u32, stamp: u64 },
    /// The version of a lock that is held is loaded, at the attempt's first use of the lock.
    LoadVersion { seat: u32, lock: u32 },
    /// 1 more than the version that the call found of the lock is stored.
    StoreVersion { seat: u32, lock: u32, found: u64 },
}

/// The kind of a step, and the rule that a step of it tells of. A call picks both for its proof.
pub(crate) trait Kind {
    ghost use Rattle.std.specs.Prelude.{ℕ, List};
    ghost use Rattle.history_model.specs.declared.view.View.{View};
    ghost use Rattle.word_table.specs.declared.step.Step.{Step};

    /// Which step it is.
    ghost step: { Step };

    /// What held of the table's words and of all views when the step was taken.
    ghost sound: { List ℕ → List View → Type 0 };
}

impl Kind for Brand {
    ghost use Rattle.std.specs.Prelude.{⊤};
    ghost use Rattle.word_table.specs.declared.step.Step.TheVariants.{ReleaseWriter};

    ghost step = { ReleaseWriter 0 0 };

    ghost sound = { λ _ _. ⊤ };
}

/// What a load or an exchange tells: the step took place, in a state that met the rule, and is one more.
struct Takes<A> {
    kind: PhantomData<A>,
}

impl<A: Kind> Play<(), Counted> for Takes<A> {
    ghost use Rattle.std.specs.Prelude.{◌≡◌, ◌+◌};
    ghost use Rattle.word_table.specs.Kinds.{action_of, Took};
    ghost use Rattle.word_table.specs.Words.{known};

    ghost then = { λ st me found after. Took A.sound (action_of A.step me.0.view) (known me)
        (known after) found × (after.0.steps ≡ me.0.steps + 1) };
}

/// What a store tells, which finds nothing.
struct Puts<A> {
    kind: PhantomData<A>,
}

impl<A: Kind> Play<(), Counted> for Puts<A> {
    ghost use Rattle.std.specs.Prelude.{◌≡◌, ◌+◌, ℕ};
    ghost use Rattle.word_table.specs.Kinds.{action_of, Took};
    ghost use Rattle.word_table.specs.Words.{known};

    ghost then = { λ st me new after.
        ((known after ≡ ((action_of A.step me.0.view).view new, me.1))
        × ((found : ℕ) × Took A.sound (action_of A.step me.0.view) (known me) (known after) found))
        × (after.0.steps ≡ me.0.steps + 1) };
}

/// A seat is cut as its view is. The new seat took no step yet.
struct Cuts<A> {
    cut: PhantomData<A>,
}

impl<A: Split<View>> Split<Counted> for Cuts<A> {
    ghost left = { λ v. record { view = A.left v.view; steps = v.steps } };

    ghost right = { λ v. record { view = A.right v.view; steps = 0 } };
}

/// Two seats are joined as their views are. The steps are those of the first.
struct Unites<A> {
    join: PhantomData<A>,
}

impl<A: Join<View>> Join<Counted> for Unites<A> {
    ghost both = { λ v w. record { view = A.both v.view w.view; steps = v.steps } };

    ghost spent = { record { view = A.spent; steps = 0 } };
}

fn load_by<S: Shape, A: Kind>(
    table: &TableWords<S>,
    seat: &mut TableSeat,
    word: usize,
    step: &Step,
) -> u64
    requires table { (seat.old.table_id ≡ table.now.table_id) × (word < table.now.table_id.words) }
    requires kind { step.now ≡ A.step }
    requires action { let x : Action = action_of step.now seat.old.me.0 in (word ≡ x.at)
        × ((w : ℕ) → x.writes w ≡ w) }
    requires sound { (words : List ℕ) (views : List View)
        → GroundHolds S.word_count S.good table.now.key words views → A.sound words views }
    requires may { May (IsGood (S.word_count table.now.key.shape) (S.good table.now.key.shape))
        step.now seat.old.me.0 }
    ensures seat { seat.new.table_id ≡ seat.old.table_id }
    ensures steps { seat.new.steps ≡ seat.old.steps + 1 }
    ensures took { Took A.sound (action_of step.now seat.old.me.0) seat.old.me seat.new.me result }
{
    table.table.shared.load::<Takes<A>>(&mut seat.seat, word)
}

fn store_by<S: Shape, A: Kind>(
    table: &TableWords<S>,
    seat: &mut TableSeat,
    word: usize,
    new: u64,
    step: &Step,
)
    requires table { (seat.old.table_id ≡ table.now.table_id) × (word < table.now.table_id.words) }
    requires kind { step.now ≡ A.step }
    requires action { let x : Action = action_of step.now seat.old.me.0 in (word ≡ x.at)
        × ((w : ℕ) → x.view w ≡ x.view new) }
    requires sound { (words : List ℕ) (views : List View)
        → GroundHolds S.word_count S.good table.now.key words views → A.sound words views }
    requires may { May (IsGood (S.word_count table.now.key.shape) (S.good table.now.key.shape))
        step.now seat.old.me.0 }
    requires stored { Stores (action_of step.now seat.old.me.0) seat.old.me.0 new }
    ensures seat { seat.new.table_id ≡ seat.old.table_id }
    ensures steps { seat.new.steps ≡ seat.old.steps + 1 }
    ensures view { seat.new.me ≡ ((action_of step.now seat.old.me.0).view new, seat.old.me.1) }
    ensures took { (found : ℕ)
        × Took A.sound (action_of step.now seat.old.me.0) seat.old.me seat.new.me found }
{
    table
        .table
        .shared
        .store::<Puts<A>>(&mut seat.seat, word, new)
}

fn exchange_by<S: Shape, A: Kind>(
    table: &TableWords<S>,
    seat: &mut TableSeat,
    word: usize,
    old: u64,
    new: u64,
    step: &Step,
) -> u64
    requires table { (seat.old.table_id ≡ table.now.table_id) × (word < table.now.table_id.words) }
    requires kind { step.now ≡ A.step }
    requires action { let x : Action = action_of step.now seat.old.me.0 in (word ≡ x.at)
        × ((w : ℕ) → x.writes w ≡ if w == old then new else w) }
    requires sound { (words : List ℕ) (views : List View)
        → GroundHolds S.word_count S.good table.now.key words views → A.sound words views }
    requires may { May (IsGood (S.word_count table.now.key.shape) (S.good table.now.key.shape))
        step.now seat.old.me.0 }
    ensures seat { seat.new.table_id ≡ seat.old.table_id }
    ensures steps { seat.new.steps ≡ seat.old.steps + 1 }
    ensures took { Took A.sound (action_of step.now seat.old.me.0) seat.old.me seat.new.me result }
{
    table
        .table
        .shared
        .compare_exchange::<Takes<A>>(&mut seat.seat, word, old, new)
}

fn add_by<S: Shape, A: Kind>(
    table: &TableWords<S>,
    seat: &mut TableSeat,
    word: usize,
    step: &Step,
) -> u64
    requires table { (seat.old.table_id ≡ table.now.table_id) × (word < table.now.table_id.words) }
    requires kind { step.now ≡ A.step }
    requires action { let x : Action = action_of step.now seat.old.me.0 in (word ≡ x.at)
        × ((w : ℕ) → x.writes w ≡ w + 1) }
    requires sound { (words : List ℕ) (views : List View)
        → GroundHolds S.word_count S.good table.now.key words views → A.sound words views }
    requires may { May (IsGood (S.word_count table.now.key.shape) (S.good table.now.key.shape))
        step.now seat.old.me.0 }
    requires room { Grows (IsGood (S.word_count table.now.key.shape) (S.good table.now.key.shape))
        (action_of step.now seat.old.me.0) seat.old.me.0 }
    ensures seat { seat.new.table_id ≡ seat.old.table_id }
    ensures steps { seat.new.steps ≡ seat.old.steps + 1 }
    ensures took { Took A.sound (action_of step.now seat.old.me.0) seat.old.me seat.new.me result }
{
    table
        .table
        .shared
        .fetch_add::<Takes<A>>(&mut seat.seat, word, 1)
}

/// A load that is the step `step`.
pub(crate) fn load<S: Shape>(
    table: &TableWords<S>,
    seat: &mut TableSeat,
    word: usize,
    step: &Step,
) -> u64
    requires table { (seat.old.table_id ≡ table.now.table_id) × (word < table.now.table_id.words) }
    requires loads { is_load step.now ≡ true }
    requires action { let x : Action = action_of step.now seat.old.me.0 in (word ≡ x.at)
        × ((w : ℕ) → x.writes w ≡ w) }
    requires may { May (IsGood (S.word_count table.now.key.shape) (S.good table.now.key.shape))
        step.now seat.old.me.0 }
    ensures seat { seat.new.table_id ≡ seat.old.table_id }
    ensures steps { seat.new.steps ≡ seat.old.steps + 1 }
    ensures took { Took (GroundHolds S.word_count S.good table.now.key)
        (action_of step.now seat.old.me.0) seat.old.me seat.new.me result }
{
    load_by::<S, Brand>(table, seat, word, step)
}

/// A store that is the step `step`.
pub(crate) fn store<S: Shape>(
    table: &TableWords<S>,
    seat: &mut TableSeat,
    word: usize,
    new: u64,
    step: &Step,
)
    requires table { (seat.old.table_id ≡ table.now.table_id) × (word < table.now.table_id.words) }
    requires writes { is_load step.now ≡ false }
    requires action { let x : Action = action_of step.now seat.old.me.0 in (word ≡ x.at)
        × ((w : ℕ) → x.view w ≡ x.view new) }
    requires may { May (IsGood (S.word_count table.now.key.shape) (S.good table.now.key.shape))
        step.now seat.old.me.0 }
    requires stored { Stores (action_of step.now seat.old.me.0) seat.old.me.0 new }
    ensures seat { seat.new.table_id ≡ seat.old.table_id }
    ensures steps { seat.new.steps ≡ seat.old.steps + 1 }
    ensures view { seat.new.me ≡ ((action_of step.now seat.old.me.0).view new, seat.old.me.1) }
    ensures took { (found : ℕ)
        × Took (GroundHolds S.word_count S.good table.now.key) (action_of step.now seat.old.me.0)
        seat.old.me seat.new.me found }
{
    store_by::<S, Brand>(table, seat, word, new, step)
}

/// A compare-exchange that is the step `step`. It gives the number found.
pub(crate) fn exchange<S: Shape>(
    table: &TableWords<S>,
    seat: &mut TableSeat,
    word: usize,
    old: u64,
    new: u64,
    step: &Step,
) -> u64
    requires table { (seat.old.table_id ≡ table.now.table_id) × (word < table.now.table_id.words) }
    requires writes { is_load step.now ≡ false }
    requires action { let x : Action = action_of step.now seat.old.me.0 in (word ≡ x.at)
        × ((w : ℕ) → x.writes w ≡ if w == old then new else w) }
    requires may { May (IsGood (S.word_count table.now.key.shape) (S.good table.now.key.shape))
        step.now seat.old.me.0 }
    ensures seat { seat.new.table_id ≡ seat.old.table_id }
    ensures steps { seat.new.steps ≡ seat.old.steps + 1 }
    ensures took { Took (GroundHolds S.word_count S.good table.now.key)
        (action_of step.now seat.old.me.0) seat.old.me seat.new.me result }
{
    exchange_by::<S, Brand>(table, seat, word, old, new, step)
}

/// A fetch-and-add of 1 that is the step `step`. It gives the number found.
pub(crate) fn add<S: Shape>(
    table: &TableWords<S>,
    seat: &mut TableSeat,
    word: usize,
    step: &Step,
) -> u64
    requires table { (seat.old.table_id ≡ table.now.table_id) × (word < table.now.table_id.words) }
    requires writes { is_load step.now ≡ false }
    requires action { let x : Action = action_of step.now seat.old.me.0 in (word ≡ x.at)
        × ((w : ℕ) → x.writes w ≡ w + 1) }
    requires may { May (IsGood (S.word_count table.now.key.shape) (S.good table.now.key.shape))
        step.now seat.old.me.0 }
    requires room { Grows (IsGood (S.word_count table.now.key.shape) (S.good table.now.key.shape))
        (action_of step.now seat.old.me.0) seat.old.me.0 }
    ensures seat { seat.new.table_id ≡ seat.old.table_id }
    ensures steps { seat.new.steps ≡ seat.old.steps + 1 }
    ensures took { Took (GroundHolds S.word_count S.good table.now.key)
        (action_of step.now seat.old.me.0) seat.old.me seat.new.me result }
    ensures fits { result + 1 < 2 ^ 64 }
{
    add_by::<S, Brand>(table, seat, word, step)
}

/// The words of a table as it begins, and the seat that has all its numbers.
pub(crate) fn lay_table<S: Shape>(
    alloc: Global,
    words: &[u64],
    ground: &Ground<S>,
) -> Result<(TableWords<S>, TableSeat), AllocError>
    requires { GroundHolds S.word_count S.good ground.now words.now
        (opening_view ground.now.base.items ground.now.seats (numbers 0 ground.now.seats) [] ∷ []) }
    ensures table { IfOk result (λ t. (t.0.table_id.words ≡ length words.now)
        × (t.0.table_id.slots ≡ 0) × (t.0.key ≡ ground.now)) }
    ensures seat { IfOk result (λ t. (t.1.table_id ≡ t.0.table_id) × (t.1.steps ≡ 0)
        × (t.1.me
        ≡ (opening_view ground.now.base.items ground.now.seats (numbers 0 ground.now.seats) [], []))) }
{
    let (table, seat) = Table::of_words(alloc, words, ground)?;
    Ok((TableWords { table }, TableSeat { seat }))
}

/// How many words the table has.
pub(crate) fn word_count<S: Shape>(table: &TableWords<S>) -> usize
    ensures { result ≡ table.now.table_id.words }
{
    table.table.word_count()
}

/// The end of the table: its words as they are, while the seat knows what it knows.
pub(crate) fn close_with<S: Shape>(table: TableWords<S>, seat: TableSeat) -> Closed<(), Global>
    requires { seat.table_id ≡ table.table_id }
    ensures counts { (slots_len result.words ≡ table.table_id.words)
        × (slots_len result.slots ≡ table.table_id.slots) }
    ensures values { IsFull result.words × IsFull result.slots
        × Final (Seen (λ s. GroundHolds S.word_count S.good table.key s.words s.views)
        seat.id seat.me.0) (slots_items result.words) (slots_items result.slots) }
{
    let TableWords { table } = table;
    let TableSeat { seat } = seat;
    table.close_with(seat)
}

/// A seat is cut in two. No word is written.
pub(crate) fn split<S: Shape, A: Split<View>>(
    table: &TableWords<S>,
    seat: &mut TableSeat,
) -> TableSeat
    requires table { (seat.old.table_id ≡ table.now.table_id) × (0 < table.now.table_id.words) }
    requires splits { Splits (λ (s : State (Unit {0}) View). GroundHolds S.word_count S.good table.now.key s.words s.views)
        seat.old.id seat.old.me.0 (A.left seat.old.me.0) (A.right seat.old.me.0) }
    ensures tables { (seat.new.table_id ≡ seat.old.table_id)
        × (result.table_id ≡ seat.old.table_id) }
    ensures steps { (seat.new.steps ≡ seat.old.steps) × (result.steps ≡ 0) }
    ensures left { seat.new.me ≡ (A.left seat.old.me.0, seat.old.me.1) }
    ensures right { result.me ≡ (A.right seat.old.me.0, []) }
{
    TableSeat {
        seat: table.table.shared.split_seat::<Cuts<A>>(&mut seat.seat),
    }
}

/// Two seats are made one. No word is written.
pub(crate) fn join<S: Shape, A: Join<View>>(
    table: &TableWords<S>,
    seat: &mut TableSeat,
    other: TableSeat,
)
    requires table { (seat.old.table_id ≡ table.now.table_id)
        × (other.table_id ≡ table.now.table_id) × (0 < table.now.table_id.words) }
    requires other { other.me.1 ≡ [] }
    requires joins { Joins (λ (s : State (Unit {0}) View). GroundHolds S.word_count S.good table.now.key s.words s.views)
        seat.old.id seat.old.me.0 other.id other.me.0 (A.both seat.old.me.0 other.me.0) A.spent }
    ensures table { seat.new.table_id ≡ seat.old.table_id }
    ensures steps { seat.new.steps ≡ seat.old.steps }
    ensures seat { seat.new.me ≡ (A.both seat.old.me.0 other.me.0, seat.old.me.1) }
{
    let TableSeat { seat: other } = other;
    table
        .table
        .shared
        .join_seat::<Unites<A>>(&mut seat.seat, other);
}
