//! Worked cases over tables and over lists: each answer is the one written down, and in the end
//! both show the same.

use crate::acts::Act;
use crate::asking::{asks, plays};
use crate::cases::{
    CARRIERS, CORRECTION_LIMITS, CORRECTIONS, DEADLINES, DECLARATIONS, EXCHANGE, KEYS_AND_BODIES,
    MOVES, NOTICES, REFUSALS,
};
use crate::claims::holds;
use crate::deeds::is_alike;
use crate::script::{Line, requests};
use crate::sight::tell_certificates;
use goo_core_shelf::shelf::Shelf;
use goo_desk_body::read_command;
use goo_desk_outcome::outcome_text;
use goo_registry::Registry;
use goo_types::holder_code::HolderCode;
use goo_types::outcome::Outcome;
use goo_types::request::Request;
use std::alloc::Global;
use std::process::Abort;

/// Who asks what, and what that is answered.
pub type Exchange = (&'static str, &'static str, &'static str);

/// A worked case for a new registry.
#[derive(Clone, Copy)]
pub struct Case {
    /// Its name among the cases of its topic.
    pub name: &'static str,
    /// The first serial of its registry.
    pub serial: u64,
    /// How many requests of the script come first.
    pub begun: usize,
    /// What is asked then.
    pub asked: &'static [Exchange],
    /// The certificates and the audit that are shown in the end; empty where that isn't written
    /// down.
    pub shown: &'static str,
}

/// The requests that come first in a case.
fn first_of(rt: &impl Abort, case: &Case) -> &'static [Line] {
    requests().get(..case.begun).expect(rt, "so many requests")
}

/// After a case a registry's certificates are those that are written down.
fn ends<S: Shelf>(rt: &impl Abort, alloc: Global, registry: &mut Registry<S>, case: &Case) {
    if !case.shown.is_empty() {
        let mut shown = String::new(alloc);
        tell_certificates(rt, alloc, registry, &mut shown);
        holds(rt, shown.as_str() == case.shown, case.name);
    }
}

/// An outcome has the text that is written down.
fn is_outcome(rt: &impl Abort, outcome: Outcome, exchange: &Exchange) {
    let text = outcome_text(outcome);
    holds(rt, text.as_str() == exchange.2, exchange.1)
}

/// These requests come to what is written down.
pub fn exchanges<S: Shelf>(
    rt: &impl Abort,
    alloc: Global,
    registry: &mut Registry<S>,
    asked: &[Exchange],
) {
    for exchange in asked {
        let outcome = asks(rt, alloc, registry, exchange.0, exchange.1).expect(rt, "an outcome");
        is_outcome(rt, outcome, exchange);
    }
}

/// A case, one request at a time.
pub fn answers<S: Shelf>(rt: &impl Abort, alloc: Global, registry: &mut Registry<S>, case: &Case) {
    plays(rt, alloc, registry, first_of(rt, case), 0);
    exchanges(rt, alloc, registry, case.asked);
    ends(rt, alloc, registry, case)
}

/// The requests of a case in a list.
fn requests_of(rt: &impl Abort, alloc: Global, case: &Case) -> Vec<Request> {
    let mut requests = Vec::new(alloc);
    for (caller, body, _) in case.asked {
        let caller = HolderCode::read(caller.as_bytes()).expect(rt, "a holder");
        requests
            .push(read_command(alloc, &caller, body.as_bytes()).expect(rt, "a request"))
            .expect(rt, "memory");
    }
    requests
}

/// What requests in a list came to is what the case says.
fn are_outcomes(rt: &impl Abort, outcomes: &[Outcome], asked: &[Exchange]) {
    holds(rt, outcomes.len() == asked.len(), "as many outcomes");
    for (outcome, exchange) in outcomes.iter().zip(asked) {
        is_outcome(rt, *outcome, exchange);
    }
}

/// A case, its requests in one list.
pub fn runs<S: Shelf>(rt: &impl Abort, alloc: Global, registry: &mut Registry<S>, case: &Case) {
    plays(rt, alloc, registry, first_of(rt, case), 0);
    let requests = requests_of(rt, alloc, case);
    match registry.run(alloc, &requests) {
        Ok(outcomes) => are_outcomes(rt, &outcomes, case.asked),
        Err(_) => panic!(rt; "the run stopped"),
    }
    ends(rt, alloc, registry, case)
}

/// All of these cases, one request at a time and in a list, are answered and shown alike over lists
/// and over tables.
fn are_alike(rt: &impl Abort, alloc: Global, cases: &[Case]) {
    for case in cases {
        is_alike(rt, alloc, case.serial, Act::Plays(case, false), case.name);
        is_alike(rt, alloc, case.serial, Act::Plays(case, true), case.name);
    }
}

#[test]
fn cases_of_keys_and_bodies(rt: HostRuntime) {
    are_alike(&rt, rt.alloc(), &KEYS_AND_BODIES)
}

#[test]
fn cases_of_refusals(rt: HostRuntime) {
    are_alike(&rt, rt.alloc(), &REFUSALS)
}

#[test]
fn cases_of_declarations(rt: HostRuntime) {
    are_alike(&rt, rt.alloc(), &DECLARATIONS)
}

#[test]
fn cases_of_corrections(rt: HostRuntime) {
    are_alike(&rt, rt.alloc(), &CORRECTIONS)
}

#[test]
fn cases_of_correction_limits(rt: HostRuntime) {
    are_alike(&rt, rt.alloc(), &CORRECTION_LIMITS)
}

#[test]
fn cases_of_moves(rt: HostRuntime) {
    are_alike(&rt, rt.alloc(), &MOVES)
}

#[test]
fn cases_of_deadlines(rt: HostRuntime) {
    are_alike(&rt, rt.alloc(), &DEADLINES)
}

#[test]
fn cases_of_carriers(rt: HostRuntime) {
    are_alike(&rt, rt.alloc(), &CARRIERS)
}

#[test]
fn cases_of_exchange(rt: HostRuntime) {
    are_alike(&rt, rt.alloc(), &EXCHANGE)
}

#[test]
fn cases_of_notices(rt: HostRuntime) {
    are_alike(&rt, rt.alloc(), &NOTICES)
}
