//! A certificate of each of a hundred and one lots, over tables and over lists: no notice names
//! them all.

use crate::acts::Act;
use crate::asking::{asks, is_outcome, plays};
use crate::claims::holds;
use crate::deeds::is_alike;
use crate::script::requests;
use crate::sight::tell_audit;
use crate::worked::{Exchange, exchanges};
use goo_core_shelf::shelf::Shelf;
use goo_registry::Registry;
use std::alloc::Global;
use std::process::Abort;

/// How many of the script's requests come first.
const DEVICE: usize = 5;

/// Another registry, which is sent a hundred and one parts, and then a hundred.
const EXPORTS: [Exchange; 3] = [
    (
        "ISSUER",
        r#"{"command":"add_peer","key":"peer","peer":9}"#,
        r#"{"outcome":"accepted","reply":{}}"#,
    ),
    (
        "SUN",
        r#"{"account":5,"command":"export","first":"07000000000001","giver":1,"key":"all","last":"07000000000101","peer":9}"#,
        r#"{"code":30,"name":"TooManyParts","outcome":"refused"}"#,
    ),
    (
        "SUN",
        r#"{"account":5,"command":"export","first":"07000000000001","giver":1,"key":"fewer","last":"07000000000100","peer":9}"#,
        r#"{"outcome":"accepted","reply":{"count":100,"notice":1}}"#,
    ),
];

/// A certificate is issued for a day: that of this serial.
fn declares<S: Shelf>(
    rt: &impl Abort,
    alloc: Global,
    registry: &mut Registry<S>,
    day: &str,
    serial: u64,
) {
    let body = format!(in alloc;
        "{{\"aux_wh\":0,\"command\":\"declare\",\"device\":\"500000000000000012\",\"first_day\":\"{day}\",\"gross_wh\":1000000,\"key\":\"{day}\",\"last_day\":\"{day}\"}}"
    ).expect(rt, "memory");
    let reply = format!(in alloc;
        "{{\"carry\":0,\"count\":1,\"first\":\"07{serial:012}\",\"last\":\"07{serial:012}\"}}"
    ).expect(rt, "memory");
    let outcome = asks(rt, alloc, registry, "ISSUER", &body).expect(rt, "an outcome");
    is_outcome(rt, alloc, outcome, "accepted", &reply, day)
}

/// A certificate is issued for each of the first days of a month, after so many others.
fn declares_days<S: Shelf>(
    rt: &impl Abort,
    alloc: Global,
    registry: &mut Registry<S>,
    month: &str,
    days: u32,
    before: u64,
) {
    for number in 1..=days {
        let day = format!(in alloc; "{month}-{number:02}").expect(rt, "memory");
        declares(
            rt,
            alloc,
            registry,
            &day,
            before.wrapping_add(u64::from(number)),
        );
    }
}

/// A certificate of each of a hundred and one days is issued.
fn declares_all<S: Shelf>(rt: &impl Abort, alloc: Global, registry: &mut Registry<S>) {
    declares_days(rt, alloc, registry, "2024-10", 31, 0);
    declares_days(rt, alloc, registry, "2024-11", 30, 31);
    declares_days(rt, alloc, registry, "2024-12", 31, 61);
    declares_days(rt, alloc, registry, "2025-01", 9, 92)
}

/// The audit after that.
fn are_audited<S: Shelf>(rt: &impl Abort, alloc: Global, registry: &mut Registry<S>) {
    let mut audit = String::new(alloc);
    tell_audit(rt, alloc, registry, &mut audit);
    holds(
        rt,
        audit.as_str() == "500000000000000012 101000000 0 101 0 0\n",
        "the audit",
    )
}

/// A new registry sends a hundred parts, and no more.
pub fn sends_parts<S: Shelf>(rt: &impl Abort, alloc: Global, registry: &mut Registry<S>) {
    let first = requests().get(..DEVICE).expect(rt, "so many requests");
    plays(rt, alloc, registry, first, 0);
    declares_all(rt, alloc, registry);
    are_audited(rt, alloc, registry);
    exchanges(rt, alloc, registry, &EXPORTS)
}

#[test]
fn a_notice_has_a_hundred_parts_at_most(rt: HostRuntime) {
    is_alike(&rt, rt.alloc(), 1, Act::SendsParts, "a hundred parts")
}
