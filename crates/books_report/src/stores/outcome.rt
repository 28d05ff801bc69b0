//! How an operation ends.

/// How one operation of a script ends.
#[derive(Debug, Drop)]
pub enum Outcome<V> {
    /// It tells this value.
    Gives(V),
    /// What it asks for is absent.
    Absent,
    /// There is no room for what it brings.
    Full,
}
