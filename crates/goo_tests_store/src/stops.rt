//! FaultyDisks in memory that stop at one call, at each in turn: what a crash leaves is opened again, and
//! all requests are sent again.

use crate::acts::{Act, Done};
use crate::asking::{asks, is_outcome, plays, plays_one};
use crate::claims::holds;
use crate::deeds::{Deed, does, shows};
use crate::disks::{FaultyDisks, blank, crashed, stopping};
use crate::reopened::END_SHOWN;
use crate::script::requests;
use crate::sight::sight;
use goo_core_shelf::shelf::Shelf;
use goo_registry::{ReadFault, Registry};
use goo_store_open::fault::OpenFault;
use goo_types::fault::Fault;
use goo_types::holder_code::HolderCode;
use std::alloc::Global;
use std::process::Abort;

/// What a new registry shows before the first request, and after each.
pub fn sights_of<S: Shelf>(
    rt: &impl Abort,
    alloc: Global,
    registry: &mut Registry<S>,
) -> Vec<String> {
    let mut shown = Vec::new(alloc);
    shown.push(sight(rt, alloc, registry)).expect(rt, "memory");
    for line in requests() {
        plays_one(rt, alloc, registry, line, "accepted");
        shown.push(sight(rt, alloc, registry)).expect(rt, "memory");
    }
    shown
}

/// How many requests are answered: all, or those up to the first `Store`, and then each is answered
/// so.
fn answered_by<S: Shelf>(rt: &impl Abort, alloc: Global, registry: &mut Registry<S>) -> usize {
    let mut answered = 0usize;
    for (at, line) in requests().iter().enumerate() {
        match asks(rt, alloc, registry, line.0, line.1) {
            Ok(outcome) => {
                holds(rt, answered == at, "an answer after a fault");
                is_outcome(rt, alloc, outcome, "accepted", line.2, line.1);
                answered = at.saturating_add(1);
            }
            Err(fault) => holds(rt, fault == Fault::Store, "a fault of the store"),
        }
    }
    answered
}

/// Nothing is shown any more.
fn is_silent<S: Shelf>(rt: &impl Abort, alloc: Global, registry: &mut Registry<S>) {
    let issuer = HolderCode::read(b"ISSUER").expect(rt, "a holder");
    let read = registry.audit(alloc, &issuer).err();
    holds(
        rt,
        read == Some(ReadFault::Store),
        "nothing is shown any more",
    );
}

/// How many requests are answered; where it isn't all, nothing is shown any more.
pub fn answers_or_stops<S: Shelf>(
    rt: &impl Abort,
    alloc: Global,
    registry: &mut Registry<S>,
) -> usize {
    let answered = answered_by(rt, alloc, registry);
    if answered < requests().len() {
        is_silent(rt, alloc, registry);
    }
    answered
}

/// How many requests a new registry on disks answers, and the disks as they stand then.
pub fn runs_on(rt: &impl Abort, alloc: Global, disks: FaultyDisks) -> (usize, FaultyDisks) {
    let (done, disks) = does(rt, alloc, disks, &Deed::Begins(1, Act::Runs));
    match done {
        Done::Answered(answered) => (answered, disks),
        Done::Refused(OpenFault::Store) | Done::Unopened => (0, disks),
        _ => panic!(rt; "no run"),
    }
}

/// Whether this is shown after so many requests.
fn is_shown_after(wanted: &[String], kept: usize, shown: &str) -> bool {
    match wanted.get(kept) {
        Some(text) => text.as_str() == shown,
        None => false,
    }
}

/// How many requests the registry has kept that shows this: those answered, or one more.
fn kept_of(rt: &impl Abort, shown: &str, answered: usize, wanted: &[String]) -> usize {
    if is_shown_after(wanted, answered, shown) {
        return answered;
    }
    let more = answered.saturating_add(1);
    let is_one_more = is_shown_after(wanted, more, shown);
    holds(rt, is_one_more, shown);
    more
}

/// A registry that was opened after a stop has kept the requests answered, or one more: sent again,
/// those are repeated.
pub fn goes_on_from<S: Shelf>(
    rt: &impl Abort,
    alloc: Global,
    registry: &mut Registry<S>,
    answered: usize,
    wanted: &[String],
) {
    let shown = sight(rt, alloc, registry);
    let kept = kept_of(rt, &shown, answered, wanted);
    plays(rt, alloc, registry, requests(), kept)
}

/// A registry is begun on disks that hold none, and comes to the end of all requests.
fn starts_over(rt: &impl Abort, alloc: Global, disks: FaultyDisks) {
    let begins = Deed::Begins(1, Act::Sends(requests(), 0));
    let _disks = shows(rt, alloc, disks, &begins, END_SHOWN);
}

/// What a stop left on disks is opened: the end is that of a run without a stop. Where it is no
/// registry, no request was answered.
pub fn goes_on(
    rt: &impl Abort,
    alloc: Global,
    disks: FaultyDisks,
    answered: usize,
    wanted: &[String],
) {
    let opens = Deed::Opens(Act::GoesOn(answered, wanted));
    let (done, disks) = does(rt, alloc, disks, &opens);
    match done {
        Done::Shown(shown) => holds(rt, shown.as_str() == END_SHOWN, "the end of all requests"),
        Done::Refused(OpenFault::NotARegistry) => {
            holds(rt, answered == 0, "no request was answered");
            starts_over(rt, alloc, disks)
        }
        _ => panic!(rt; "what a stop left is not opened"),
    }
}

/// Whether disks stop before all requests are answered; what a crash leaves goes on.
fn stops_on(rt: &impl Abort, alloc: Global, disks: FaultyDisks, wanted: &[String]) -> bool {
    let (answered, disks) = runs_on(rt, alloc, disks);
    goes_on(rt, alloc, crashed(disks), answered, wanted);
    answered < requests().len()
}

/// What the registry shows without a stop, request by request: no two neighbours are alike.
pub fn wanted_sights(rt: &impl Abort, alloc: Global) -> Vec<String> {
    let (done, _disks) = does(rt, alloc, blank(alloc), &Deed::Begins(1, Act::Sights));
    let Done::Sighted(shown) = done else {
        panic!(rt; "nothing is shown");
    };
    for (text, next) in shown.iter().zip(shown.iter().skip(1)) {
        holds(
            rt,
            text.as_str() != next.as_str(),
            "two that are shown alike",
        );
    }
    shown
}

/// More rounds than any loop over stops or lapses needs.
pub const ROUNDS: u64 = 1000;

/// The log stops at every fourth call from this one on.
fn log_stops(rt: &impl Abort, alloc: Global, from: u64) {
    let wanted = wanted_sights(rt, alloc);
    for round in 0..ROUNDS {
        let calls = from.saturating_add(4 * round);
        if !stops_on(rt, alloc, stopping(alloc, calls, u64::MAX), &wanted) {
            return;
        }
    }
    panic!(rt; "a stop at each call")
}

#[test]
fn the_log_stops_at_the_first_call(rt: HostRuntime) {
    log_stops(&rt, rt.alloc(), 0)
}

#[test]
fn the_log_stops_at_the_second_call(rt: HostRuntime) {
    log_stops(&rt, rt.alloc(), 1)
}

#[test]
fn the_log_stops_at_the_third_call(rt: HostRuntime) {
    log_stops(&rt, rt.alloc(), 2)
}

#[test]
fn the_log_stops_at_the_fourth_call(rt: HostRuntime) {
    log_stops(&rt, rt.alloc(), 3)
}

#[test]
fn the_database_file_stops(rt: HostRuntime) {
    let alloc = rt.alloc();
    let wanted = wanted_sights(&rt, alloc);
    for calls in 0..ROUNDS {
        if !stops_on(&rt, alloc, stopping(alloc, u64::MAX, calls), &wanted) {
            return;
        }
    }
    panic!(&rt; "a stop at each call")
}
