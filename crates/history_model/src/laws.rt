//! The laws of traces, of entries and items, and of the table's words, each the contract of a function that does nothing.
//!
//! A proof cites a law by calling its function, or the lemma of `proofs/` behind it.

ghost use Rattle.history_model.specs.Statements.{AppendedAfter, AppendedLegal, KeptLength, LegalByPlaces, LastEventStands, LastWriteStands, UnwrittenStays, TouchedByLast, WritesUndone, NotedWrite, AppendedReplay, LastReplayed, WordsApart, FewAttempts, OfEachFittingState};
ghost use Rattle.history_model.specs.Marks.{NotesByParts, NotesCounted, RestUndone, OneNoteMore, WrittenReadsTheSame};
ghost use Rattle.history_model.specs.ArrangementLaws.{OrderedIsLegal, SameWords, StandsLast, DropsItems};
ghost use Rattle.std.specs.Prelude.{◌≡◌};
ghost use Rattle.history_model.specs.declared.TheConstants.{LOCKS};

use crate::shape::Shape;

/// What an appended trace leaves is what its second part leaves of what its first part leaves.
pub fn appended_after()
    ensures { AppendedAfter }
{}

/// An appended trace is legal exactly if its first part is, and its second part is on what the first leaves.
pub fn appended_legal()
    ensures { AppendedLegal }
{}

/// A trace keeps the number of words.
pub fn kept_length()
    ensures { KeptLength }
{}

/// A trace is legal exactly if each of its reads finds its value in what the events before it leave.
pub fn legal_by_places()
    ensures { LegalByPlaces }
{}

/// A legal trace leaves in each word the value of its last event there, or what the word had before.
pub fn last_event_stands()
    ensures { LastEventStands }
{}

/// A trace, legal or not, leaves in each word the value that it wrote there last, or what the word had before.
pub fn last_write_stands()
    ensures { LastWriteStands }
{}

/// A word that a trace does not write stays.
pub fn unwritten_stays()
    ensures { UnwrittenStays }
{}

/// A trace has a last event on exactly the words that it touches.
pub fn touched_by_last()
    ensures { TouchedByLast }
{}

/// The notes of a trace's writes, written back newest first, restore the words.
pub fn writes_undone()
    ensures { WritesUndone }
{}

/// A write that is noted last and written back first leaves what the earlier notes, written back, leave.
pub fn noted_write()
    ensures { NotedWrite }
{}

/// The notes of a trace's front and then those of its rest are the notes of the whole, as many as it has writes.
pub fn notes_by_parts()
    ensures parts { NotesByParts }
    ensures counted { NotesCounted }
{}

/// The notes of a trace but those of its front, written back newest first, leave what the front leaves.
pub fn rest_undone()
    ensures { RestUndone }
{}

/// A read of a word and a write of it make one note more, of what was read.
pub fn one_note_more()
    ensures { OneNoteMore }
{}

/// A word that a trace wrote is read as the same on every list on which the trace is legal.
pub fn written_reads_the_same()
    ensures { WrittenReadsTheSame }
{}

/// The second part of a list of entries is replayed on what its first part leaves.
pub fn appended_replay()
    ensures { AppendedReplay }
{}

/// The last entry of a list does its writes if it was kept, and leaves the words if it was not.
pub fn last_replayed()
    ensures { LastReplayed }
{}

/// The words of the shared table are different words: each name's range stands behind the one before it, and within
/// its range each has a word of its own.
pub fn words_apart()
    ensures { WordsApart }
{}

/// A call has fewer abandoned attempts than there are seats: each gave way to another seat, and no two to the same.
pub fn few_attempts()
    ensures { FewAttempts }
{}

/// A word has a value in each good state that fits a trace exactly if each fitting state has it there.
pub fn of_each_fitting_state<S: Shape>()
    ensures { (shape : _) → OfEachFittingState (S.word_count shape) (S.good shape) }
{}

/// How many locks the words share, in digits.
pub fn number_of_locks()
    ensures { LOCKS ≡ 1024 }
{}

/// Every list of the items that keeps the order of their uses is legal, and leaves the newest values.
pub fn ordered_is_legal<S: Shape>()
    ensures { (shape : _) → OrderedIsLegal (S.good shape) }
{}

/// All such lists leave the same words.
pub fn same_words<S: Shape>()
    ensures { (shape : _) → SameWords (S.good shape) }
{}

/// An item whose versions are all current and which no pass had seen may stand at the end of an arrangement.
pub fn stands_last<S: Shape>()
    ensures { (shape : _) → StandsLast (S.good shape) }
{}

/// Without some of the items that wrote nothing the rest has an arrangement.
pub fn drops_items<S: Shape>()
    ensures { (shape : _) → DropsItems (S.good shape) }
{}
