//! A registry of version 1 becomes one of version 2 when it is first opened: the same state, its
//! pieces joined, all at once or not at all.

use crate::claims::holds;
use crate::disks::Disks;
use crate::requests::{ACCEPTED, FIRST, REPEATED};
use crate::steps::{EDITED, Step, StepRow, come_to, comes_to, does};
use std::alloc::Global;
use std::process::Abort;

/// The tables of version 1, which has no corrections and no carriers, and whose pieces may be cut.
const OLD: &str =
    "DROP TABLE correction; DROP TABLE device_carrier; DROP TABLE lot_carrier; UPDATE meta SET version = 1; \
UPDATE piece SET last = 7000000000099 WHERE first = 7000000000001; \
INSERT INTO piece VALUES (7000000000100, 7000000000199, 1, 1, 1, 0), (7000000000200, 7000000001200, 1, 1, 1, 0)";

/// A registry of version 1 with the certificates of January in three pieces.
const OF_VERSION_1: [StepRow; 3] = [
    (Step::Inits(7, 1), "0\nready 07\n"),
    (Step::Runs(FIRST), ACCEPTED),
    (Step::Edits(OLD), EDITED),
];

/// It is renewed once. Then it has one piece, since the other two can be put there again, where
/// they are one piece too many; and pieces that could be one are damaged.
const RENEWED: [StepRow; 10] = [
    (
        Step::Runs(""),
        "goo: registry.db: version 1 becomes version 2\n0\n",
    ),
    (Step::Runs(FIRST), REPEATED),
    (Step::Inits(7, 1), "1 goo: already there\n"),
    (
        Step::Edits(
            "INSERT INTO piece VALUES (7000000000100, 7000000000199, 1, 1, 1, 0), (7000000000200, 7000000001200, 1, 1, 1, 0)",
        ),
        EDITED,
    ),
    (Step::Runs(""), "3 goo: damaged\n"),
    (
        Step::Edits("UPDATE piece SET last = 7000000000099 WHERE first = 7000000000001"),
        EDITED,
    ),
    (Step::Runs(""), "3 goo: damaged\n"),
    (
        Step::Edits(
            "DELETE FROM piece WHERE first > 7000000000001; UPDATE piece SET last = 7000000001200",
        ),
        EDITED,
    ),
    (Step::Runs(FIRST), REPEATED),
    (Step::Runs(""), "0\n"),
];

/// What the tables of version 1 are refused for, which leaves them as they are: a value that breaks
/// a rule, the version of other tables, a table too few.
const REFUSED: [StepRow; 11] = [
    (Step::Edits("UPDATE device SET carry = 1"), EDITED),
    (Step::Runs(FIRST), "3 goo: damaged\n"),
    (Step::Edits("UPDATE device SET carry = 999999"), EDITED),
    (Step::Edits("UPDATE meta SET version = 3"), EDITED),
    (Step::Runs(FIRST), "3 goo: version 3\n"),
    (Step::Inits(7, 1), "1 goo: already there\n"),
    (Step::Edits("UPDATE meta SET version = 2"), EDITED),
    (Step::Runs(FIRST), "3 goo: damaged\n"),
    (Step::Edits("UPDATE meta SET version = 1"), EDITED),
    (
        Step::Runs(""),
        "goo: registry.db: version 1 becomes version 2\n0\n",
    ),
    (Step::Runs(FIRST), REPEATED),
];

#[test]
fn when_it_is_first_opened(rt: HostRuntime) {
    let alloc = rt.alloc();
    let disks = come_to(&rt, alloc, Disks::blank(alloc), &OF_VERSION_1);
    let _disks = come_to(&rt, alloc, disks, &RENEWED);
}

#[test]
fn unless_it_is_refused(rt: HostRuntime) {
    let alloc = rt.alloc();
    let disks = come_to(&rt, alloc, Disks::blank(alloc), &OF_VERSION_1);
    let _disks = come_to(&rt, alloc, disks, &REFUSED);
}

/// More rounds than a renewal makes calls.
const ROUNDS: u64 = 1000;

/// What is told where a disk stops before the renewal, and in its course.
const FAULTS: [&str; 2] = [
    "3 goo: store fault\n",
    "goo: registry.db: version 1 becomes version 2\n3 goo: store fault\n",
];

/// Whether a run stops on disks that hold a registry of version 1. After a crash they hold it as it
/// was, or renewed.
fn stops_on(rt: &impl Abort, alloc: Global, log_calls: u64, db_calls: u64) -> bool {
    let disks = come_to(rt, alloc, Disks::blank(alloc), &OF_VERSION_1);
    let disks = disks.stopping(log_calls, db_calls);
    let (told, disks) = does(rt, alloc, disks, &Step::Runs(FIRST));
    let is_stopped = FAULTS.contains(&told.as_str());
    let (again, disks) = does(rt, alloc, disks.crashed(), &Step::Runs(FIRST));
    holds(rt, is_stopped || told.as_str().ends_with(REPEATED), &told);
    holds(rt, again.as_str().ends_with(REPEATED), &again);
    let _disks = comes_to(rt, alloc, disks, &(Step::Runs(FIRST), REPEATED));
    is_stopped
}

#[test]
fn where_the_log_stops(rt: HostRuntime) {
    let alloc = rt.alloc();
    for round in 0..ROUNDS {
        if !stops_on(&rt, alloc, round, u64::MAX) {
            return;
        }
    }
    panic!(&rt; "a stop in each round")
}

#[test]
fn where_the_database_file_stops(rt: HostRuntime) {
    let alloc = rt.alloc();
    for round in 0..ROUNDS {
        if !stops_on(&rt, alloc, u64::MAX, round) {
            return;
        }
    }
    panic!(&rt; "a stop in each round")
}
