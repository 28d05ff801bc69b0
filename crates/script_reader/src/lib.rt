//! Reads clearing books and scripts from a text, and the scripts of other stores from texts of other languages.
#![tactic(auto)]

pub mod books;
pub mod fault;
pub mod language;
pub mod laws;
pub mod limits;
pub mod text;

pub use books::front::{read_front, read_input};
pub use books::input::Input;
pub use books::version::Version;
pub use fault::{Fault, InputFault};
pub use language::Language;
pub use language::gathered::Gathered;
pub use language::reader::read_text;
pub use text::lines::Lines;
pub use text::numbers::numeral;
pub use text::words::Words;
