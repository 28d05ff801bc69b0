//! The rule of values: why the words with all unfinished writes taken back are what was committed leaves, in any order
//! that respects the versions of locks.
//!
//! It has definitions and laws alone, and nothing of it runs. A commit stores to a word of its own seat, locks have
//! versions, and the history is any order of what calls did that respects the versions which they used.
//!
//! The definitions stand in `specs/`: `Values` has the values of words beside the notes that undo writes; `History` the
//! items of what the views have seen, the versions of locks and the newest values; `Records` what entries and calls are
//! known by; `Versions` the value invariant in its parts; `Steps` each kind of step on calls, values and entries once,
//! when a seat may take it and what it does; `Joins` what two views have seen together; `Keeping` what it means that a
//! kind of step keeps the invariant, and what a step of another rule must leave alone; `Closing` what follows from it;
//! `Opening` how the table begins; `Undone` the memory with all unfinished writes taken back.
#![tactic(auto)]

pub mod laws;
