//! A certificate that goes back and forth between two registries: after each event it has one home,
//! or is on one road.

use crate::asking::{AskedLine, is_outcome};
use crate::claims::holds;
use crate::desk::TestDesk;
use crate::lots::{JANUARY, lot_of};
use crate::stages::april;
use crate::values::{code_of, day_of, number};
use crate::world::World;
use goo_types::outcome::Outcome;
use std::alloc::Global;
use std::process::Abort;

/// What happens in a world: a request at a registry, or a notice that comes to one. Both are
/// counted from 0.
#[derive(Clone, Copy)]
enum Event {
    Asks(usize, &'static str, &'static str),
    Brings(usize, usize),
}

/// An event, what it comes to, and then the certificate's home, or the sender and number of the
/// notice it is on.
type EventRow = (Event, &'static str, Option<u8>, Option<(u8, u32)>);

/// Where registry 7 stands in the world.
const SEVEN: usize = 0;
/// Where registry 9 stands.
const NINE: usize = 1;

/// One holder and one account of registry 9, which knows registry 7.
const NINTH: [AskedLine; 3] = [
    (
        "ISSUER",
        r#"{"command":"open_holder","holder":"WIND","key":"a","name":"Wind"}"#,
        r#"{"outcome":"accepted","reply":{}}"#,
    ),
    (
        "ISSUER",
        r#"{"command":"open_account","holder":"WIND","key":"b"}"#,
        r#"{"outcome":"accepted","reply":{"account":1}}"#,
    ),
    (
        "ISSUER",
        r#"{"command":"add_peer","key":"c","peer":7}"#,
        r#"{"outcome":"accepted","reply":{}}"#,
    ),
];

/// The certificate leaves registry 7 for account 1 of registry 9.
const OUT: &str =
    r#"{"account":1,"command":"export","first":"07000000000020","giver":1,"key":"out","last":"07000000000020","peer":9}"#;
/// It leaves registry 9 for account 1 of registry 7.
const BACK: &str =
    r#"{"account":1,"command":"export","first":"07000000000020","giver":1,"key":"back","last":"07000000000020","peer":7}"#;
/// It leaves registry 7 once more.
const OUT_AGAIN: &str =
    r#"{"account":1,"command":"export","first":"07000000000020","giver":1,"key":"again","last":"07000000000020","peer":9}"#;

/// It is sent away with the first notice of a registry.
const FIRST: &str = r#"{"outcome":"accepted","reply":{"count":1,"notice":1}}"#;
/// It is sent away with the second notice.
const SECOND: &str = r#"{"outcome":"accepted","reply":{"count":1,"notice":2}}"#;
/// It is taken in.
const IN: &str = r#"{"outcome":"accepted","reply":{"count":1}}"#;
/// It was taken in before.
const IN_BEFORE: &str = r#"{"outcome":"repeated","reply":{"count":1}}"#;
/// The notice is for another registry.
const WRONG: &str = r#"{"code":23,"name":"WrongRegistry","outcome":"refused"}"#;

/// Out and back and out again; the first notice comes once more, and the last one to its sender.
const ROWS: [EventRow; 8] = [
    (Event::Asks(SEVEN, "SUN", OUT), FIRST, None, Some((7, 1))),
    (Event::Brings(0, NINE), IN, Some(9), None),
    (Event::Asks(NINE, "WIND", BACK), FIRST, None, Some((9, 1))),
    (Event::Brings(1, SEVEN), IN, Some(7), None),
    (
        Event::Asks(SEVEN, "SUN", OUT_AGAIN),
        SECOND,
        None,
        Some((7, 2)),
    ),
    (Event::Brings(0, NINE), IN_BEFORE, None, Some((7, 2))),
    (Event::Brings(2, SEVEN), WRONG, None, Some((7, 2))),
    (Event::Brings(2, NINE), IN, Some(9), None),
];

/// Registry 9.
fn ninth(rt: &impl Abort, alloc: Global) -> TestDesk {
    let mut desk = TestDesk::new(alloc, code_of(rt, 9), day_of(rt, "2025-04-05"));
    desk.plays(rt, &NINTH);
    desk
}

/// Registry 7, and registry 9: each knows the other.
fn seven_and_nine(rt: &impl Abort, alloc: Global) -> World {
    let mut world = World::new(alloc);
    world.adds(rt, april(rt, alloc));
    world.adds(rt, ninth(rt, alloc));
    world
}

/// What an event comes to.
fn happens(rt: &impl Abort, world: &mut World, event: &Event) -> Outcome {
    match event {
        Event::Asks(at, caller, body) => world.asks(rt, *at, caller, body),
        Event::Brings(which, to) => world.brings(rt, *which, *to),
    }
}

/// An event comes to this.
fn comes_to(rt: &impl Abort, world: &mut World, event: &Event, wanted: &str) {
    let outcome = happens(rt, world, event);
    is_outcome(rt, outcome, wanted);
}

/// Then certificate ..0020 is at home in this registry, or on the road with this notice.
fn is_found(rt: &impl Abort, world: &mut World, home: Option<u8>, road: Option<(u8, u32)>) {
    world.collects(rt);
    let lot = lot_of(rt, &JANUARY);
    holds(
        rt,
        world.home(rt, number(20), &lot) == home && world.road(rt, number(20), &lot) == road,
        "where it is found",
    );
}

/// An event comes to what it has to, and the certificate is found where it has to be.
fn goes(rt: &impl Abort, world: &mut World, row: &EventRow) {
    comes_to(rt, world, &row.0, row.1);
    is_found(rt, world, row.2, row.3)
}

#[test]
fn out_and_back_and_out_again(rt: HostRuntime) {
    let mut world = seven_and_nine(&rt, rt.alloc());
    for row in &ROWS {
        goes(&rt, &mut world, row);
    }
}
