//! Three registries that know one another, each with three certificates: of electricity, of gas,
//! and of hydrogen.

use crate::asking::AskedLine;
use crate::desk::TestDesk;
use crate::values::{code_of, day_of};
use crate::world::World;
use std::alloc::Global;
use std::process::Abort;

/// How many certificates each issues.
pub const CERTIFICATES: u64 = 3;

/// What each registry is asked first: a holder and an account.
const MEMBERS: [AskedLine; 2] = [
    (
        "ISSUER",
        r#"{"command":"open_holder","holder":"SUN","key":"a","name":"Sun Power"}"#,
        r#"{"outcome":"accepted","reply":{}}"#,
    ),
    (
        "ISSUER",
        r#"{"command":"open_account","holder":"SUN","key":"b"}"#,
        r#"{"outcome":"accepted","reply":{"account":1}}"#,
    ),
];

/// What registry 7 is asked then: a device of electricity, two certificates of one lot, one of
/// another, and the other registries.
const SEVEN: [AskedLine; 5] = [
    (
        "ISSUER",
        r#"{"account":1,"capacity_w":2000000,"command":"register_device","commissioned":"2020-06-15","country":"DE","device":"500000000000000012","key":"c","site":"North field","source":"F01010100","support":"none","tech":"T010000"}"#,
        r#"{"outcome":"accepted","reply":{}}"#,
    ),
    (
        "ISSUER",
        r#"{"aux_wh":0,"command":"declare","device":"500000000000000012","first_day":"2025-01-01","gross_wh":2000000,"key":"d","last_day":"2025-01-15"}"#,
        r#"{"outcome":"accepted","reply":{"carry":0,"count":2,"first":"07000000000001","last":"07000000000002"}}"#,
    ),
    (
        "ISSUER",
        r#"{"aux_wh":0,"command":"declare","device":"500000000000000012","first_day":"2025-01-16","gross_wh":1000000,"key":"e","last_day":"2025-01-31"}"#,
        r#"{"outcome":"accepted","reply":{"carry":0,"count":1,"first":"07000000000003","last":"07000000000003"}}"#,
    ),
    (
        "ISSUER",
        r#"{"command":"add_peer","key":"f","peer":8}"#,
        r#"{"outcome":"accepted","reply":{}}"#,
    ),
    (
        "ISSUER",
        r#"{"command":"add_peer","key":"g","peer":9}"#,
        r#"{"outcome":"accepted","reply":{}}"#,
    ),
];

/// What registry 8 is asked then: a device of gas, two certificates of one lot, one of another, and
/// the other registries.
const EIGHT: [AskedLine; 5] = [
    (
        "ISSUER",
        r#"{"account":1,"capacity_w":2000000,"carrier":"gas","command":"register_device","commissioned":"2020-06-15","country":"DE","device":"500000000000000012","key":"c","site":"North field","source":"F01010100","support":"none","tech":"T010000"}"#,
        r#"{"outcome":"accepted","reply":{}}"#,
    ),
    (
        "ISSUER",
        r#"{"aux_wh":0,"command":"declare","device":"500000000000000012","first_day":"2025-01-01","gross_wh":2000000,"key":"d","last_day":"2025-01-15"}"#,
        r#"{"outcome":"accepted","reply":{"carry":0,"count":2,"first":"08000000000001","last":"08000000000002"}}"#,
    ),
    (
        "ISSUER",
        r#"{"aux_wh":0,"command":"declare","device":"500000000000000012","first_day":"2025-01-16","gross_wh":1000000,"key":"e","last_day":"2025-01-31"}"#,
        r#"{"outcome":"accepted","reply":{"carry":0,"count":1,"first":"08000000000003","last":"08000000000003"}}"#,
    ),
    (
        "ISSUER",
        r#"{"command":"add_peer","key":"f","peer":7}"#,
        r#"{"outcome":"accepted","reply":{}}"#,
    ),
    (
        "ISSUER",
        r#"{"command":"add_peer","key":"g","peer":9}"#,
        r#"{"outcome":"accepted","reply":{}}"#,
    ),
];

/// What registry 9 is asked then: a device of hydrogen, two certificates of one lot, one of
/// another, and the other registries.
const NINE: [AskedLine; 5] = [
    (
        "ISSUER",
        r#"{"account":1,"capacity_w":2000000,"carrier":"hydrogen","command":"register_device","commissioned":"2020-06-15","country":"DE","device":"500000000000000012","key":"c","site":"North field","source":"F01010100","support":"none","tech":"T010000"}"#,
        r#"{"outcome":"accepted","reply":{}}"#,
    ),
    (
        "ISSUER",
        r#"{"aux_wh":0,"command":"declare","device":"500000000000000012","first_day":"2025-01-01","gross_wh":2000000,"key":"d","last_day":"2025-01-15"}"#,
        r#"{"outcome":"accepted","reply":{"carry":0,"count":2,"first":"09000000000001","last":"09000000000002"}}"#,
    ),
    (
        "ISSUER",
        r#"{"aux_wh":0,"command":"declare","device":"500000000000000012","first_day":"2025-01-16","gross_wh":1000000,"key":"e","last_day":"2025-01-31"}"#,
        r#"{"outcome":"accepted","reply":{"carry":0,"count":1,"first":"09000000000003","last":"09000000000003"}}"#,
    ),
    (
        "ISSUER",
        r#"{"command":"add_peer","key":"f","peer":7}"#,
        r#"{"outcome":"accepted","reply":{}}"#,
    ),
    (
        "ISSUER",
        r#"{"command":"add_peer","key":"g","peer":8}"#,
        r#"{"outcome":"accepted","reply":{}}"#,
    ),
];

/// A registry of three certificates that knows two others.
fn registry(rt: &impl Abort, alloc: Global, code: u8, own: &[AskedLine]) -> TestDesk {
    let mut desk = TestDesk::new(alloc, code_of(rt, code), day_of(rt, "2025-03-01"));
    desk.plays(rt, &MEMBERS);
    desk.plays(rt, own);
    desk
}

/// Three registries, each of which knows the others.
pub fn three(rt: &impl Abort, alloc: Global) -> World {
    let mut world = World::new(alloc);
    world.adds(rt, registry(rt, alloc, 7, &SEVEN));
    world.adds(rt, registry(rt, alloc, 8, &EIGHT));
    world.adds(rt, registry(rt, alloc, 9, &NINE));
    world
}
