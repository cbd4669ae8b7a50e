//! What never changes again: places that are final, serials, lots, receipts and the records of
//! acts.
//!
//! `specs/Final.antt` says it of a list of requests that was answered. It is a clause of
//! `Registry::run`.

ghost use Rattle.goo_spec_laws.specs.Final.{NeverAgain};

/// The law, over every list of requests within their limits, from every sound state.
pub fn never_again()
    ensures { NeverAgain }
{}
