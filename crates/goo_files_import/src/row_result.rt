//! What became of a row of an import.

use goo_types::outcome::Outcome;
use goo_types::refusal::Refusal;

/// What became of a row of an import.
#[derive(Clone, Copy, Debug, PartialEq, Eq)]
pub enum RowResult {
    /// Its declaration was accepted.
    Accepted,
    /// It was accepted before, under this key.
    Repeated,
    /// It was refused.
    Refused(Refusal),
    /// The row states no declaration.
    Unreadable,
}

impl RowResult {
    ghost use Rattle.std.specs.Prelude.{◌≡◌};
    ghost use Rattle.goo_files_import.specs.Results.{result_of};

    /// The result of a row, by the outcome of its request.
    pub(crate) fn of(outcome: Outcome) -> RowResult
        ensures { result ≡ result_of outcome }
    {
        match outcome {
            Outcome::Accepted(_) => RowResult::Accepted,
            Outcome::Repeated(_) => RowResult::Repeated,
            Outcome::Refused(refusal) => RowResult::Refused(refusal),
        }
    }
}
