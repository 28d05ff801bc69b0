//! What all workers of a day share.

use crate::rule::Stealer;
use script_reader::Input;
use std::alloc::Global;
use std::sync::Wait;
use txn_books::BooksShape;
use word_table::Desk;
use worker_gate::Gate;

/// What each worker of a day works with: the table for the input's books, and the deques that its callers were dealt to.
#[derive(Drop)]
pub(crate) struct Work<'a, R: Wait, G: Gate> {
    pub rt: &'a R,
    pub alloc: Global,
    pub desk: &'a Desk<BooksShape>,
    pub shape: BooksShape,
    pub stealers: &'a [Stealer],
    pub input: &'a Input,
    pub gate: &'a G,
}
