//! What the dates of a lot rule: nothing is given or exported once trade is closed, nothing is
//! cancelled or held once it is over, and nothing expires before it is.
//!
//! `specs/Deadlines.antt` says it of a list of requests that was answered. It is a clause of
//! `Registry::run`.

ghost use Rattle.goo_spec_laws.specs.Deadlines.{AlwaysInTime};

/// The law, over every list of requests within their limits, from every sound state.
pub fn in_time()
    ensures { AlwaysInTime }
{}
