//! Tables that were damaged, one value at a time.

use crate::acts::Act;
use crate::claims::holds;
use crate::deeds::{Deed, after, judged, shown};
use crate::disks::{FaultyDisks, blank};
use crate::script::{CANCELLATION, requests};
use crate::worked::Case;
use goo_store_open::fault::OpenFault;
use std::alloc::Global;
use std::process::Abort;

/// What is done to the tables, how it is undone, and why they are not opened in between.
pub type Damage = (&'static str, &'static str, OpenFault);

/// Values that are damaged.
const VALUES: [Damage; 16] = [
    (
        "UPDATE device SET carry = 1",
        "UPDATE device SET carry = 0",
        OpenFault::Damaged,
    ),
    (
        "UPDATE device SET last_day = NULL",
        "UPDATE device SET last_day = '2025-03-31'",
        OpenFault::Damaged,
    ),
    (
        "UPDATE meta SET next_serial = 1201",
        "UPDATE meta SET next_serial = 1202",
        OpenFault::Damaged,
    ),
    (
        "UPDATE meta SET next_cancellation = 1",
        "UPDATE meta SET next_cancellation = 2",
        OpenFault::Damaged,
    ),
    (
        "UPDATE account SET closed = 1 WHERE number = 1",
        "UPDATE account SET closed = 0 WHERE number = 1",
        OpenFault::Damaged,
    ),
    (
        "UPDATE lot SET expires_on = '2026-08-01' WHERE first_day = '2025-01-01'",
        "UPDATE lot SET expires_on = '2026-07-31' WHERE first_day = '2025-01-01'",
        OpenFault::Damaged,
    ),
    (
        "UPDATE piece SET account = 9 WHERE first = 7000000000011",
        "UPDATE piece SET account = 1 WHERE first = 7000000000011",
        OpenFault::Damaged,
    ),
    (
        "UPDATE holder SET name = '' WHERE code = 'SUN'",
        "UPDATE holder SET name = 'Sun Power' WHERE code = 'SUN'",
        OpenFault::Damaged,
    ),
    (
        "UPDATE meta SET today = '2026-08-01'",
        "UPDATE meta SET today = '2025-04-05'",
        OpenFault::Damaged,
    ),
    (
        "INSERT INTO piece VALUES (7000000000005, 7000000000006, 1, 1, 1, 0)",
        "DELETE FROM piece WHERE first = 7000000000005",
        OpenFault::Damaged,
    ),
    (
        "UPDATE piece SET act = 1 WHERE first = 7000000000011",
        "UPDATE piece SET act = 0 WHERE first = 7000000000011",
        OpenFault::Damaged,
    ),
    (
        "UPDATE piece SET lot = 9 WHERE first = 7000000000011",
        "UPDATE piece SET lot = 1 WHERE first = 7000000000011",
        OpenFault::Damaged,
    ),
    (
        "UPDATE piece SET kind = 3 WHERE first = 7000000000011",
        "UPDATE piece SET kind = 1 WHERE first = 7000000000011",
        OpenFault::Damaged,
    ),
    (
        "UPDATE account SET holder = 'NOBODY' WHERE number = 2",
        "UPDATE account SET holder = 'VOLT' WHERE number = 2",
        OpenFault::Damaged,
    ),
    (
        "UPDATE declaration SET first_day = '2025-01-02' WHERE first_day = '2025-01-01'",
        "UPDATE declaration SET first_day = '2025-01-01' WHERE first_day = '2025-01-02'",
        OpenFault::Damaged,
    ),
    (
        "INSERT INTO peer VALUES (-9)",
        "DELETE FROM peer WHERE code = -9",
        OpenFault::Damaged,
    ),
];

/// Tables that are damaged, and the row of `meta`.
const TABLES: [Damage; 6] = [
    (
        "CREATE TABLE plan (id INTEGER PRIMARY KEY) STRICT",
        "DROP TABLE plan",
        OpenFault::Damaged,
    ),
    (
        "CREATE INDEX by_lot ON piece (lot)",
        "DROP INDEX by_lot",
        OpenFault::Damaged,
    ),
    (
        "CREATE VIEW lots AS SELECT id FROM lot",
        "DROP VIEW lots",
        OpenFault::Damaged,
    ),
    (
        "UPDATE meta SET version = 9",
        "UPDATE meta SET version = 2",
        OpenFault::Version(9),
    ),
    (
        "UPDATE meta SET version = 1",
        "UPDATE meta SET version = 2",
        OpenFault::Version(1),
    ),
    (
        "DELETE FROM meta",
        "INSERT INTO meta VALUES (1, 2, 7, '2025-04-05', 1202, 3, 2, 1, 1)",
        OpenFault::NotARegistry,
    ),
];

/// An index of ours that is gone, and that comes back behind the tables that were made after it:
/// the schema isn't ours again.
const INDEX_MOVED: [&str; 2] = [
    "DROP INDEX piece_by_kind",
    "CREATE INDEX piece_by_kind ON piece (kind, first)",
];

/// February is lowered, which takes the certificate of March back, and then January by the carry
/// that this left.
const CORRECTED: Case = Case {
    name: "corrections",
    serial: 1,
    begun: 9,
    asked: &[
        (
            "ISSUER",
            r#"{"command":"correct","device":"500000000000000012","first":"07000000001201","first_day":"2025-02-01","key":"c1","last":"07000000001201","less_wh":999998,"reason":"meter read twice"}"#,
            r#"{"outcome":"accepted","reply":{"carry":2,"count":1,"withdrawal":1}}"#,
        ),
        (
            "ISSUER",
            r#"{"command":"correct","device":"500000000000000012","first":"","first_day":"2025-01-01","key":"c2","last":"","less_wh":2,"reason":"meter read twice"}"#,
            r#"{"outcome":"accepted","reply":{"carry":0,"count":0,"withdrawal":0}}"#,
        ),
    ],
    shown: "",
};

/// Corrections that are damaged. Some leave the device's sum as it was.
const CORRECTIONS: [Damage; 10] = [
    (
        "UPDATE correction SET less = 1 WHERE id = 2",
        "UPDATE correction SET less = 2 WHERE id = 2",
        OpenFault::Damaged,
    ),
    (
        "DELETE FROM correction WHERE id = 2",
        "INSERT INTO correction VALUES (2, '500000000000000012', '2025-01-01', 2, 0)",
        OpenFault::Damaged,
    ),
    (
        "UPDATE correction SET first_day = '2025-02-01' WHERE id = 2",
        "UPDATE correction SET first_day = '2025-01-01' WHERE id = 2",
        OpenFault::Damaged,
    ),
    (
        "UPDATE correction SET first_day = '2025-01-31' WHERE id = 2",
        "UPDATE correction SET first_day = '2025-01-01' WHERE id = 2",
        OpenFault::Damaged,
    ),
    (
        "UPDATE correction SET device = '500000000000000029' WHERE id = 2",
        "UPDATE correction SET device = '500000000000000012' WHERE id = 2",
        OpenFault::Damaged,
    ),
    (
        "INSERT INTO correction VALUES (3, '500000000000000012', '2025-01-01', -1, 0); UPDATE correction SET less = 3 WHERE id = 2",
        "DELETE FROM correction WHERE id = 3; UPDATE correction SET less = 2 WHERE id = 2",
        OpenFault::Damaged,
    ),
    (
        "UPDATE correction SET withdrawal = 2 WHERE id = 2",
        "UPDATE correction SET withdrawal = 0 WHERE id = 2",
        OpenFault::Damaged,
    ),
    (
        "UPDATE correction SET withdrawal = -1 WHERE id = 2",
        "UPDATE correction SET withdrawal = 0 WHERE id = 2",
        OpenFault::Damaged,
    ),
    (
        "UPDATE correction SET withdrawal = 0 WHERE id = 1",
        "UPDATE correction SET withdrawal = 1 WHERE id = 1",
        OpenFault::Damaged,
    ),
    (
        "UPDATE receipt SET n3 = -1 WHERE key = 'c1'",
        "UPDATE receipt SET n3 = 1 WHERE key = 'c1'",
        OpenFault::Damaged,
    ),
];

/// Tables that are damaged are not opened, for this reason, and are opened once that is undone.
fn is_refused(rt: &impl Abort, alloc: Global, disks: FaultyDisks, damage: &Damage) -> FaultyDisks {
    let disks = after(rt, alloc, disks, &Deed::Edits(damage.0));
    let (word, disks) = judged(rt, alloc, disks);
    holds(rt, word == Some(damage.2), damage.0);
    let disks = after(rt, alloc, disks, &Deed::Edits(damage.1));
    let (word, disks) = judged(rt, alloc, disks);
    holds(rt, word == None, damage.1);
    disks
}

/// Tables that were changed by a text are not opened, as they are damaged.
pub fn is_damaged(rt: &impl Abort, alloc: Global, disks: FaultyDisks, sql: &str) -> FaultyDisks {
    let disks = after(rt, alloc, disks, &Deed::Edits(sql));
    let (word, disks) = judged(rt, alloc, disks);
    holds(rt, word == Some(OpenFault::Damaged), sql);
    disks
}

/// The same of each of some damages, one after another.
pub fn are_refused(
    rt: &impl Abort,
    alloc: Global,
    disks: FaultyDisks,
    damages: &[Damage],
) -> FaultyDisks {
    let mut disks = disks;
    for damage in damages {
        disks = is_refused(rt, alloc, disks, damage);
    }
    disks
}

#[test]
fn damages_are_met(rt: HostRuntime) {
    let alloc = rt.alloc();
    let cancelled = requests()
        .get(..=CANCELLATION)
        .expect(&rt, "no cancellation");
    let begins = Deed::Begins(1, Act::Sends(cancelled, 0));
    let (_, disks) = shown(&rt, alloc, blank(alloc), &begins);
    let disks = are_refused(&rt, alloc, disks, &VALUES);
    let mut disks = are_refused(&rt, alloc, disks, &TABLES);
    for sql in INDEX_MOVED {
        disks = is_damaged(&rt, alloc, disks, sql);
    }
}

#[test]
fn damages_of_corrections_are_met(rt: HostRuntime) {
    let alloc = rt.alloc();
    let begins = Deed::Begins(1, Act::Plays(&CORRECTED, false));
    let (_, disks) = shown(&rt, alloc, blank(alloc), &begins);
    let _disks = are_refused(&rt, alloc, disks, &CORRECTIONS);
}
