//! Requests that change nothing: a registry is as though they had never been sent, or sent once.
//!
//! `specs/Idle.antt` says it of a list of requests that was answered: the refused and the repeated
//! ones, left out of it, leave the same state, and the others their outcomes. It is a clause of
//! `Registry::run`, of the state that is there in the end. `specs/Again.antt` says it of requests
//! that are sent again at once. Whoever sends a request again because he lost the answer, or
//! applies each entry of a log once or several times, rests on that.

ghost use Rattle.goo_spec_laws.specs.Again.{AgainIsIdle, CopiesAreIdle};
ghost use Rattle.goo_spec_laws.specs.Idle.{OthersNeverMakeADifference};

/// The law of requests that are sent again at once, for every state and every request.
///
/// - `at_once`: the request again changes nothing. Where it was accepted or repeated, it is
///   repeated with its reply; where it was refused, the refusal is the same.
/// - `copies`: in a list each request may be followed by any number of copies of itself. The state
///   in the end is the same, each request has the outcome that it has without them, and each copy
///   the one of `at_once`.
pub fn sent_again()
    ensures at_once { AgainIsIdle }
    ensures copies { CopiesAreIdle }
{}

/// The refused and the repeated requests of any list, left out of it, leave the same state, and the
/// others have the same outcomes.
pub fn left_out()
    ensures { OthersNeverMakeADifference }
{}
