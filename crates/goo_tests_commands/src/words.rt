//! Each word that opening a registry can end with, after which the disks hold what they held.

use crate::claims::holds;
use crate::disks::Disks;
use crate::requests::{ACCEPTED, FIRST, REPEATED};
use crate::steps::{EDITED, Step, StepRow, come_to, comes_to, does};
use std::alloc::Global;
use std::process::Abort;

/// A registry with some records.
const REGISTRY: [StepRow; 2] = [
    (Step::Inits(7, 1), "0\nready 07\n"),
    (Step::Runs(FIRST), ACCEPTED),
];

/// What is told where there is no registry.
const NO_REGISTRY: &str = "3 goo: not a registry\n";

/// Runs where there is no registry, until one is made.
const NONE: [StepRow; 4] = [
    (Step::Runs(FIRST), NO_REGISTRY),
    (Step::Runs(""), NO_REGISTRY),
    (Step::Inits(7, 1), "0\nready 07\n"),
    (Step::Runs(FIRST), ACCEPTED),
];

/// A run over tables of somebody else.
const SOMEBODY_ELSES: [StepRow; 3] = [
    (
        Step::Edits(
            "CREATE TABLE plan (id INTEGER PRIMARY KEY) STRICT; INSERT INTO plan VALUES (1)",
        ),
        EDITED,
    ),
    (Step::Runs(FIRST), NO_REGISTRY),
    (Step::Runs(""), NO_REGISTRY),
];

/// A registry of a later version, one with the number of the first version on tables of this one,
/// and one with a value that breaks a rule: each until that is undone.
const CHANGED: [StepRow; 15] = [
    (Step::Edits("UPDATE meta SET version = 9"), EDITED),
    (Step::Runs(FIRST), "3 goo: version 9\n"),
    (Step::Inits(7, 1), "1 goo: already there\n"),
    (Step::Edits("UPDATE meta SET version = 1"), EDITED),
    (Step::Runs(FIRST), "3 goo: damaged\n"),
    (Step::Inits(7, 1), "1 goo: already there\n"),
    (Step::Edits("UPDATE meta SET version = 2"), EDITED),
    (Step::Runs(FIRST), REPEATED),
    (Step::Edits("UPDATE device SET carry = 1"), EDITED),
    (Step::Runs(FIRST), "3 goo: damaged\n"),
    (Step::Runs(""), "3 goo: damaged\n"),
    (Step::Inits(7, 1), "1 goo: already there\n"),
    (Step::Edits("UPDATE device SET carry = 999999"), EDITED),
    (Step::Runs(FIRST), REPEATED),
    (Step::Runs(""), "0\n"),
];

#[test]
fn of_disks_that_hold_no_registry(rt: HostRuntime) {
    let alloc = rt.alloc();
    // SQLite makes an empty database of files that hold nothing, so what they hold is looked at
    // from the second run on
    let (told, disks) = does(&rt, alloc, Disks::blank(alloc), &Step::Runs(FIRST));
    holds(&rt, told.as_str() == NO_REGISTRY, &told);
    let _disks = come_to(&rt, alloc, disks, &NONE);
    let _disks = come_to(&rt, alloc, Disks::blank(alloc), &SOMEBODY_ELSES);
}

#[test]
fn of_a_registry_that_somebody_changed(rt: HostRuntime) {
    let alloc = rt.alloc();
    let disks = come_to(&rt, alloc, Disks::blank(alloc), &REGISTRY);
    let _disks = come_to(&rt, alloc, disks, &CHANGED);
}

/// How many calls come before each of two disks stops: both stop at once, or one of them.
const STOPS: [(u64, u64); 3] = [(0, 0), (0, u64::MAX), (u64::MAX, 0)];

/// What is told where a disk fails.
const FAULT: &str = "3 goo: store fault\n";

/// A new account.
const ACCOUNT: &str = "ISSUER {\"command\":\"open_account\",\"holder\":\"SUN\",\"key\":\"a4\"}\n";

/// A step on disks that fail is told so. After that they work again.
fn fails(rt: &impl Abort, alloc: Global, disks: Disks, step: Step<'static>) -> Disks {
    comes_to(rt, alloc, disks, &(step, FAULT)).crashed()
}

#[test]
fn of_disks_that_stop_at_once(rt: HostRuntime) {
    let alloc = rt.alloc();
    let mut disks = come_to(&rt, alloc, Disks::blank(alloc), &REGISTRY);
    for (log_calls, db_calls) in STOPS {
        let blank = Disks::blank(alloc).stopping(log_calls, db_calls);
        let blank = fails(&rt, alloc, blank, Step::Inits(7, 1));
        let _blank = fails(
            &rt,
            alloc,
            blank.stopping(log_calls, db_calls),
            Step::Runs(FIRST),
        );
        disks = fails(
            &rt,
            alloc,
            disks.stopping(log_calls, db_calls),
            Step::Runs(FIRST),
        );
        disks = fails(
            &rt,
            alloc,
            disks.stopping(log_calls, db_calls),
            Step::Inits(7, 1),
        );
    }
    let _disks = comes_to(&rt, alloc, disks, &(Step::Runs(FIRST), REPEATED));
}

#[test]
fn of_disks_that_are_full(rt: HostRuntime) {
    let alloc = rt.alloc();
    let _blank = fails(&rt, alloc, Disks::blank(alloc).full(), Step::Inits(7, 1));
    let disks = come_to(&rt, alloc, Disks::blank(alloc), &REGISTRY);
    let disks = fails(&rt, alloc, disks.full(), Step::Runs(ACCOUNT));
    let _disks = comes_to(&rt, alloc, disks, &(Step::Runs(FIRST), REPEATED));
}
