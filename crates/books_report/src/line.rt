//! Lines of a journal.

/// A script that was run: its caller and its index among the caller's scripts, both from 0, and how often it was
/// restarted.
#[derive(Clone, Copy, Debug, PartialEq, Eq)]
pub struct Line {
    pub caller: u32,
    pub index: u32,
    pub restarts: u32,
}
