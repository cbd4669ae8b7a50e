//! A registry that is made, and runs that go on where the one before them ended.

use crate::disks::Disks;
use crate::requests::{ACCEPTED, FIRST, REPEATED};
use crate::steps::{Step, StepRow, come_to};

/// A registry is made once, and answers its first requests once.
const BEGINNING: [StepRow; 6] = [
    (Step::Inits(7, 1), "0\nready 07\n"),
    (Step::Inits(7, 1), "1 goo: already there\n"),
    (Step::Runs(FIRST), ACCEPTED),
    (Step::Runs(FIRST), REPEATED),
    (Step::Inits(8, 2), "1 goo: already there\n"),
    (Step::Runs(""), "0\n"),
];

/// Lines that are refused or can't be read, between others, and new requests after them: the next
/// account, the next certificate.
const GOING_ON: [StepRow; 4] = [
    (
        Step::Runs(
            r#"ISSUER {"aux_wh":0,"command":"declare","device":"500000000000000012","first_day":"2025-02-01","gross_wh":5,"key":"d3","last_day":"2025-02-28"}
ISSUER {"command":"open_account","holder":"SUN","key":"a4"}
"#,
        ),
        r#"1
{"code":11,"name":"PeriodOrder","outcome":"refused"}
{"outcome":"accepted","reply":{"account":2}}
"#,
    ),
    (
        Step::Runs("ISSUER {\"command\":\"advance\"\n"),
        "1\n{\"fault\":\"NotJson\",\"outcome\":\"unreadable\"}\n",
    ),
    (
        Step::Runs(
            r#"ISSUER {"command":"advance","day":"2025-04-05","key":"d4"}
ISSUER {"aux_wh":0,"command":"declare","device":"500000000000000012","first_day":"2025-03-01","gross_wh":1,"key":"d5","last_day":"2025-03-31"}
ISSUER {"command":"open_account","holder":"SUN","key":"a5"}
"#,
        ),
        r#"0
{"outcome":"accepted","reply":{"expired":0}}
{"outcome":"accepted","reply":{"carry":0,"count":1,"first":"07000000001201","last":"07000000001201"}}
{"outcome":"accepted","reply":{"account":3}}
"#,
    ),
    (Step::Runs(FIRST), REPEATED),
];

#[test]
fn a_run_goes_on_where_the_last_one_ended(rt: HostRuntime) {
    let alloc = rt.alloc();
    let disks = come_to(&rt, alloc, Disks::blank(alloc), &BEGINNING);
    let _disks = come_to(&rt, alloc, disks, &GOING_ON);
}

/// Another registry, whose first certificate has the next serial that it was made with.
const ANOTHER: [StepRow; 2] = [
    (Step::Inits(42, 500), "0\nready 42\n"),
    (
        Step::Runs(FIRST),
        r#"0
{"outcome":"accepted","reply":{}}
{"outcome":"accepted","reply":{"account":1}}
{"outcome":"accepted","reply":{}}
{"outcome":"accepted","reply":{"carry":0,"count":1200,"first":"42000000000500","last":"42000000001699"}}
{"outcome":"accepted","reply":{"carry":999999,"count":0}}
"#,
    ),
];

#[test]
fn a_registry_begins_with_its_own_code_and_serial(rt: HostRuntime) {
    let alloc = rt.alloc();
    let _disks = come_to(&rt, alloc, Disks::blank(alloc), &ANOTHER);
}
