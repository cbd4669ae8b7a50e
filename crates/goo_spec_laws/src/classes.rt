//! Certificates counted by class: by technology, by month, by country, or by whatever a lot states.
//!
//! `specs/Classes.antt` says of a list of requests that was answered that the own certificates of
//! each class are those that there were and those that were issued, and that each of them is held,
//! cancelled, expired, withdrawn or exported. It is a clause of `Registry::run`.

ghost use Rattle.goo_spec_laws.specs.Classes.{AlwaysAddUp};

/// The law, over every list of requests within their limits, from every sound state.
pub fn adds_up()
    ensures { AlwaysAddUp }
{}
