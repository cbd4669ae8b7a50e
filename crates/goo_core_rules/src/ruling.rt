//! Rulings on commands: a refusal, the reply of an earlier import, or a change.

use goo_ranges::Edit;
use goo_types::notice::Notice;
use goo_types::refusal::Refusal;
use goo_types::reply::Reply;

/// What an accepted command changes, and its reply.
#[derive(Drop)]
pub struct Change {
    /// What it is answered.
    pub reply: Reply,
    /// What becomes of the rows, one edit after another.
    pub edits: Vec<Edit>,
    /// The notice that an export sends.
    pub notice: Option<Notice>,
}

/// The ruling on a command whose key isn't kept.
#[derive(Drop)]
pub enum Ruling {
    /// The first check that fails.
    Refused(Refusal),
    /// It is an import of a notice that was accepted before, with this reply.
    Repeated(Reply),
    /// No check fails.
    Passed(Change),
}
