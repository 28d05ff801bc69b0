//! The texts of clearing books and of journals.
#![tactic(auto)]

pub mod books;
pub mod check;
pub mod journal;
pub mod laws;
pub mod limits;
pub mod line;
pub mod stores;
pub mod words;

pub use books::books_text;
pub use check::{Checked, check_text};
pub use journal::journal_text;
pub use line::Line;
