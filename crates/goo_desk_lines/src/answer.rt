//! Answers to lines, and their texts.
ghost use Rattle.std.specs.Prelude.{◌≡◌};
ghost use Rattle.goo_desk_lines.specs.Answers.{answer_text, is_carried_out, is_good};

use arrayvec::ArrayString;
use goo_desk_outcome::{Unreadable, outcome_text, unreadable_text};
use goo_types::outcome::Outcome;

/// What a line is answered.
#[derive(Debug, Clone, Copy, PartialEq, Eq)]
pub enum LineAnswer {
    /// Its request was decided on.
    Decided(Outcome),
    /// It states no request.
    Unreadable(Unreadable),
}

/// Whether the request was carried out, now or before.
fn is_carried_out(outcome: &Outcome) -> bool
    ensures { result ≡ is_carried_out outcome.now }
{
    match outcome {
        Outcome::Accepted(_) => true,
        Outcome::Repeated(_) => true,
        Outcome::Refused(_) => false,
    }
}

impl LineAnswer {
    /// The text of the answer, without a line feed. It takes no memory.
    pub fn text(&self) -> ArrayString<256>
        ensures { result.bytes ≡ answer_text self.now }
    {
        match self {
            LineAnswer::Decided(outcome) => outcome_text(*outcome),
            LineAnswer::Unreadable(reason) => unreadable_text(*reason),
        }
    }

    /// Whether the line's request was carried out, now or before.
    pub fn is_good(&self) -> bool
        ensures { result ≡ is_good self.now }
    {
        match self {
            LineAnswer::Decided(outcome) => is_carried_out(outcome),
            LineAnswer::Unreadable(_) => false,
        }
    }
}
