//! The registry that the tests begin with.

use crate::asking::AskedLine;
use crate::desk::TestDesk;
use crate::values::{code_of, day_of};
use std::alloc::Global;
use std::process::Abort;

/// Two holders with an account each and a device of the first; the certificates of January, the
/// carry of February, the date and the certificate of March; another registry.
const BEGINNING: [AskedLine; 10] = [
    (
        "ISSUER",
        r#"{"command":"open_holder","holder":"SUN","key":"s1","name":"Sun Power"}"#,
        r#"{"outcome":"accepted","reply":{}}"#,
    ),
    (
        "ISSUER",
        r#"{"command":"open_account","holder":"SUN","key":"s2"}"#,
        r#"{"outcome":"accepted","reply":{"account":1}}"#,
    ),
    (
        "ISSUER",
        r#"{"command":"open_holder","holder":"VOLT","key":"s3","name":"Volt"}"#,
        r#"{"outcome":"accepted","reply":{}}"#,
    ),
    (
        "ISSUER",
        r#"{"command":"open_account","holder":"VOLT","key":"s4"}"#,
        r#"{"outcome":"accepted","reply":{"account":2}}"#,
    ),
    (
        "ISSUER",
        r#"{"account":1,"capacity_w":2000000,"command":"register_device","commissioned":"2020-06-15","country":"DE","device":"500000000000000012","key":"s5","site":"North field","source":"F01010100","support":"none","tech":"T010000"}"#,
        r#"{"outcome":"accepted","reply":{}}"#,
    ),
    (
        "ISSUER",
        r#"{"aux_wh":34567890,"command":"declare","device":"500000000000000012","first_day":"2025-01-01","gross_wh":1234567890,"key":"s6","last_day":"2025-01-31"}"#,
        r#"{"outcome":"accepted","reply":{"carry":0,"count":1200,"first":"07000000000001","last":"07000000001200"}}"#,
    ),
    (
        "ISSUER",
        r#"{"aux_wh":0,"command":"declare","device":"500000000000000012","first_day":"2025-02-01","gross_wh":999999,"key":"s7","last_day":"2025-02-28"}"#,
        r#"{"outcome":"accepted","reply":{"carry":999999,"count":0}}"#,
    ),
    (
        "ISSUER",
        r#"{"command":"advance","day":"2025-04-05","key":"s8"}"#,
        r#"{"outcome":"accepted","reply":{"expired":0}}"#,
    ),
    (
        "ISSUER",
        r#"{"aux_wh":0,"command":"declare","device":"500000000000000012","first_day":"2025-03-01","gross_wh":1,"key":"s9","last_day":"2025-03-31"}"#,
        r#"{"outcome":"accepted","reply":{"carry":0,"count":1,"first":"07000000001201","last":"07000000001201"}}"#,
    ),
    (
        "ISSUER",
        r#"{"command":"add_peer","key":"s10","peer":9}"#,
        r#"{"outcome":"accepted","reply":{}}"#,
    ),
];

/// Registry 7 on 5 April 2025, which knows registry 9.
pub fn april(rt: &impl Abort, alloc: Global) -> TestDesk {
    let mut desk = TestDesk::new(alloc, code_of(rt, 7), day_of(rt, "2025-03-01"));
    desk.plays(rt, &BEGINNING);
    desk
}
