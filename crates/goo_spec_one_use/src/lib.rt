//! A certificate is cancelled once: a law over registries that send one another notices.
//!
//! `specs/Used.antt` says it of the worlds of `goo_spec_one_home`: registries of distinct codes
//! that begin as they are created, and any list of requests and deliveries of notices, with nothing
//! known of their values.
#![tactic(auto)]

ghost use Rattle.goo_spec_one_use.specs.Used.{CancelledOnce, CancelledForGood};

/// The law, over all lists of events. The one premise is that the registries' codes differ.
///
/// - `once`: among all registries, no certificate is cancelled by two requests, nor twice by one.
/// - `for_good`: a cancelled certificate keeps its place in its registry whatever happens later; no
///   other registry has it at home from then on, so none holds it, and no notice under way names
///   it.
pub fn one_use()
    ensures once { CancelledOnce }
    ensures for_good { CancelledForGood }
{}
