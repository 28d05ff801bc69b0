//! Lines of a text, their words, and the numbers and names that words are.

pub mod decimal;
pub mod lines;
pub(crate) mod names;
pub mod numbers;
pub mod words;
