//! What was done.

use books_model::Reply;
use txn_books::BooksShape;
use word_table::Closed;

/// A script that was run.
pub type Done = txn_commit::Done<Reply>;

/// What a day came to: its items in the order in which they are printed, and the closed table.
#[derive(Drop)]
pub struct DayEnd {
    pub done: Vec<Done>,
    pub closed: Closed<BooksShape>,
}
