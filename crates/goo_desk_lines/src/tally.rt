//! How many lines were answered in which way.

/// How many lines were accepted or repeated, and how many were not.
#[derive(Debug, Clone, Copy, PartialEq, Eq)]
pub struct Tally {
    /// Lines whose request was accepted, now or before.
    pub good: usize,
    /// Lines whose request was refused, and lines that state none.
    pub bad: usize,
}
