//! Requests in a list, and a registry handed back to what keeps its records.

use crate::asking::{AskedLine, is_outcome, request_of};
use crate::claims::holds;
use crate::desk::TestDesk;
use crate::places::held;
use crate::stages::april;
use crate::values::day_of;
use goo_core_shelf::shelf::Shelf;
use goo_types::outcome::Outcome;
use goo_types::request::Request;
use std::alloc::Global;
use std::process::Abort;

/// A hundred certificates are given, and the date doesn't move.
const TWO: [AskedLine; 2] = [
    (
        "SUN",
        r#"{"command":"transfer","first":"07000000000100","giver":1,"key":"given","last":"07000000000199","taker":2}"#,
        r#"{"outcome":"accepted","reply":{"count":100}}"#,
    ),
    (
        "ISSUER",
        r#"{"command":"advance","day":"2025-04-05","key":"date"}"#,
        r#"{"code":20,"name":"DateBackwards","outcome":"refused"}"#,
    ),
];

/// The requests of lines.
fn requests_of(rt: &impl Abort, alloc: Global, lines: &[AskedLine]) -> Vec<Request> {
    let mut requests = Vec::new(alloc);
    for (caller, body, _) in lines {
        requests
            .push(request_of(rt, alloc, caller, body))
            .expect(rt, "memory");
    }
    requests
}

/// What requests came to is what their lines say.
fn are_outcomes(rt: &impl Abort, outcomes: &[Outcome], lines: &[AskedLine]) {
    holds(rt, outcomes.len() == lines.len(), "as many outcomes");
    for (outcome, (_, _, wanted)) in outcomes.iter().zip(lines) {
        is_outcome(rt, *outcome, wanted);
    }
}

/// Requests in a list come to their outcomes, one after another.
fn runs(rt: &impl Abort, desk: &mut TestDesk, lines: &[AskedLine]) {
    let requests = requests_of(rt, desk.alloc(), lines);
    match desk.run(&requests) {
        Ok(outcomes) => are_outcomes(rt, &outcomes, lines),
        Err(_) => panic!(rt; "the run stopped"),
    }
}

/// The hundred certificates are shown.
fn shows_the_hundred(rt: &impl Abort, desk: &mut TestDesk) {
    desk.shows(rt, 2, &[(100, 199, held(2))])
}

/// The hundred certificates are given, once, and a list of no requests changes nothing.
fn runs_two_and_none(rt: &impl Abort, desk: &mut TestDesk) {
    runs(rt, desk, &TWO);
    shows_the_hundred(rt, desk);
    runs(rt, desk, &[]);
    shows_the_hundred(rt, desk)
}

#[test]
fn two_requests_and_none(rt: HostRuntime) {
    let mut desk = april(&rt, rt.alloc());
    runs_two_and_none(&rt, &mut desk)
}

/// What keeps the records of registry 7 in April.
fn is_of_april<S: Shelf>(rt: &impl Abort, shelf: &mut S) {
    let today = day_of(rt, "2025-04-05");
    holds(
        rt,
        matches!(shelf.code(), Ok(code) if code.get() == 7)
            && shelf.today() == Ok(today)
            && matches!(shelf.counters(), Ok(counters) if counters.serial() == 1202)
            && shelf.refused_calls() == 0,
        "the registry of April",
    );
}

#[test]
fn what_keeps_the_records_is_handed_back(rt: HostRuntime) {
    let mut shelf = april(&rt, rt.alloc()).into_lists();
    is_of_april(&rt, &mut shelf)
}
