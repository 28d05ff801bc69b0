//! Tests of the public calls of io_ends, books_model, script_reader, books_report, record_text and order_text that no row
//! of the program shows, in a crate of their own: they rest on what those promise, and do not prove them again.
#![tactic(auto)]

#[cfg(test)]
mod ends;
#[cfg(test)]
mod languages;
#[cfg(test)]
mod laws;
#[cfg(test)]
mod operations;
#[cfg(test)]
mod plain;
#[cfg(test)]
mod printed;
pub mod steps;
