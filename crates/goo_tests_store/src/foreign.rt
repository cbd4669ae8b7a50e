//! Databases whose tables are not those of a registry, or not all of them.

use crate::claims::holds;
use crate::deeds::{Deed, after, judged};
use crate::disks::{FaultyDisks, blank};
use goo_store_open::fault::OpenFault;
use std::alloc::Global;
use std::process::Abort;

/// A text that is run on a database, and why it is refused then, if it is.
type ForeignRow = (&'static str, Option<OpenFault>);

/// The table `meta` of a registry, alone.
const META: &str =
    "CREATE TABLE meta (id INTEGER PRIMARY KEY, version INTEGER NOT NULL, code INTEGER NOT NULL, today TEXT NOT NULL, next_serial INTEGER NOT NULL, next_account INTEGER NOT NULL, next_cancellation INTEGER NOT NULL, next_withdrawal INTEGER NOT NULL, next_notice INTEGER NOT NULL) STRICT";

/// A table of somebody else.
const PLAN: &str = "CREATE TABLE plan (id INTEGER PRIMARY KEY) STRICT; INSERT INTO plan VALUES (1)";

/// The tables of a registry before that of its accounts.
const BEFORE_ACCOUNT: &str =
    "CREATE TABLE meta (id INTEGER PRIMARY KEY, version INTEGER NOT NULL, code INTEGER NOT NULL, today TEXT NOT NULL, next_serial INTEGER NOT NULL, next_account INTEGER NOT NULL, next_cancellation INTEGER NOT NULL, next_withdrawal INTEGER NOT NULL, next_notice INTEGER NOT NULL) STRICT; CREATE TABLE holder (code TEXT NOT NULL PRIMARY KEY, name TEXT NOT NULL) STRICT";

/// Its tables and indexes after that, up to the last one of the first version.
const AFTER_ACCOUNT: &str =
    "CREATE TABLE device (gsrn TEXT NOT NULL PRIMARY KEY, account INTEGER NOT NULL, country TEXT NOT NULL, site TEXT NOT NULL, tech TEXT NOT NULL, source TEXT NOT NULL, capacity_w INTEGER NOT NULL, commissioned TEXT NOT NULL, support TEXT NOT NULL, last_day TEXT, carry INTEGER NOT NULL) STRICT; CREATE TABLE declaration (id INTEGER PRIMARY KEY, device TEXT NOT NULL, first_day TEXT NOT NULL, last_day TEXT NOT NULL, gross INTEGER NOT NULL, aux INTEGER NOT NULL, UNIQUE (device, first_day)) STRICT; CREATE TABLE lot (id INTEGER PRIMARY KEY, origin INTEGER NOT NULL, device TEXT NOT NULL, country TEXT NOT NULL, site TEXT NOT NULL, tech TEXT NOT NULL, source TEXT NOT NULL, capacity_w INTEGER NOT NULL, commissioned TEXT NOT NULL, support TEXT NOT NULL, first_day TEXT NOT NULL, last_day TEXT NOT NULL, expires_on TEXT, issued_on TEXT NOT NULL, UNIQUE (origin, device, first_day)) STRICT; CREATE TABLE piece (first INTEGER PRIMARY KEY, last INTEGER NOT NULL, lot INTEGER NOT NULL, kind INTEGER NOT NULL, account INTEGER NOT NULL, act INTEGER NOT NULL) STRICT; CREATE TABLE peer (code INT NOT NULL PRIMARY KEY) STRICT; CREATE TABLE receipt (caller TEXT NOT NULL, key TEXT NOT NULL, command BLOB NOT NULL, kind INTEGER NOT NULL, n1 INTEGER NOT NULL, n2 INTEGER NOT NULL, n3 INTEGER NOT NULL, PRIMARY KEY (caller, key)) STRICT; CREATE TABLE cancellation (number INTEGER PRIMARY KEY, account INTEGER NOT NULL, first INTEGER NOT NULL, last INTEGER NOT NULL, beneficiary TEXT NOT NULL, use_first TEXT NOT NULL, use_last TEXT NOT NULL, day TEXT NOT NULL) STRICT; CREATE TABLE withdrawal (number INTEGER PRIMARY KEY, first INTEGER NOT NULL, last INTEGER NOT NULL, reason TEXT NOT NULL, day TEXT NOT NULL) STRICT; CREATE TABLE notice_out (number INTEGER PRIMARY KEY, account INTEGER NOT NULL, body TEXT NOT NULL) STRICT; CREATE TABLE notice_in (sender INTEGER NOT NULL, number INTEGER NOT NULL, body TEXT NOT NULL, PRIMARY KEY (sender, number)) STRICT; CREATE INDEX piece_by_account ON piece (account, first); CREATE INDEX piece_by_kind ON piece (kind, first)";

/// The tables that the second version has besides, in their order.
const SECOND_VERSION: &str =
    "CREATE TABLE correction (id INTEGER PRIMARY KEY, device TEXT NOT NULL, first_day TEXT NOT NULL, less INTEGER NOT NULL, withdrawal INTEGER NOT NULL) STRICT; CREATE TABLE device_carrier (gsrn TEXT NOT NULL PRIMARY KEY, carrier TEXT NOT NULL) STRICT; CREATE TABLE lot_carrier (lot INTEGER PRIMARY KEY, carrier TEXT NOT NULL) STRICT";

/// The row of `meta` that a registry begins with.
const BEGINNING: &str = "INSERT INTO meta VALUES (1, 2, 7, '2025-03-01', 1, 1, 1, 1, 1)";

/// Why tables with no row of `meta` are refused.
const NONE: Option<OpenFault> = Some(OpenFault::NotARegistry);

/// A text that is run on disks makes a database of them that is refused with this word, and as
/// often as it is opened.
fn is_told(
    rt: &impl Abort,
    alloc: Global,
    disks: FaultyDisks,
    sql: &str,
    word: Option<OpenFault>,
) -> FaultyDisks {
    let disks = after(rt, alloc, disks, &Deed::Edits(sql));
    let (told, disks) = judged(rt, alloc, disks);
    holds(rt, told == word, sql);
    let (told, disks) = judged(rt, alloc, disks);
    holds(rt, told == word, sql);
    disks
}

/// Texts that are run on disks in turn, and the word after each.
fn are_told(rt: &impl Abort, alloc: Global, disks: FaultyDisks, rows: &[ForeignRow]) {
    let mut disks = disks;
    for (sql, word) in rows {
        disks = is_told(rt, alloc, disks, sql, *word);
    }
}

/// A table of somebody else, and his own `meta`.
const SOMEBODY_ELSES: [ForeignRow; 2] = [
    (PLAN, NONE),
    (
        "CREATE TABLE meta (id INTEGER PRIMARY KEY, version INTEGER NOT NULL) STRICT; INSERT INTO meta VALUES (1, 9)",
        NONE,
    ),
];

/// A `meta` of ours with no other tables of ours.
const VERSIONS: [ForeignRow; 8] = [
    (META, NONE),
    (
        "INSERT INTO meta VALUES (1, 9, 7, '2025-03-01', 1, 1, 1, 1, 1)",
        Some(OpenFault::Version(9)),
    ),
    (
        "UPDATE meta SET version = 4294967295",
        Some(OpenFault::Version(u32::MAX)),
    ),
    (
        "UPDATE meta SET version = 4294967296",
        Some(OpenFault::Damaged),
    ),
    ("UPDATE meta SET version = -9", Some(OpenFault::Damaged)),
    ("UPDATE meta SET version = 1", Some(OpenFault::Version(1))),
    ("UPDATE meta SET version = 2", Some(OpenFault::Damaged)),
    ("UPDATE meta SET id = 2", NONE),
];

/// The table of accounts.
const ACCOUNT: &str =
    "CREATE TABLE account (number INTEGER PRIMARY KEY, holder TEXT NOT NULL, closed INTEGER NOT NULL) STRICT";

/// All tables of ours, those of the first version before the others, and then not all of them: each
/// version has its own tables.
const OURS: [ForeignRow; 15] = [
    (BEFORE_ACCOUNT, NONE),
    (ACCOUNT, NONE),
    (AFTER_ACCOUNT, NONE),
    (BEGINNING, Some(OpenFault::Version(2))),
    ("UPDATE meta SET version = 3", Some(OpenFault::Version(3))),
    (SECOND_VERSION, Some(OpenFault::Version(3))),
    ("UPDATE meta SET version = 1", Some(OpenFault::Version(1))),
    ("UPDATE meta SET version = 2", None),
    ("UPDATE meta SET version = 3", Some(OpenFault::Version(3))),
    ("UPDATE meta SET version = 2", None),
    ("DROP TABLE lot_carrier", Some(OpenFault::Damaged)),
    (
        "UPDATE meta SET version = 9; DROP TABLE piece",
        Some(OpenFault::Version(9)),
    ),
    ("UPDATE meta SET version = 1", Some(OpenFault::Version(1))),
    ("UPDATE meta SET version = 2", Some(OpenFault::Damaged)),
    ("DELETE FROM meta", NONE),
];

/// Tables of the first version, with white space and words of their own: they are opened, and are
/// those of the second version then.
const FIRST: [ForeignRow; 5] = [
    (BEFORE_ACCOUNT, NONE),
    (
        "create table account (\n\tnumber integer primary key,\n\tholder text not null,\n\tclosed integer not null\n) strict",
        NONE,
    ),
    (AFTER_ACCOUNT, NONE),
    (
        "INSERT INTO meta VALUES (1, 1, 7, '2025-03-01', 1, 1, 1, 1, 1)",
        None,
    ),
    ("UPDATE meta SET version = 1", Some(OpenFault::Version(1))),
];

#[test]
fn tables_of_somebody_else_and_ours(rt: HostRuntime) {
    let alloc = rt.alloc();
    are_told(&rt, alloc, blank(alloc), &SOMEBODY_ELSES);
    are_told(&rt, alloc, blank(alloc), &OURS);
    are_told(&rt, alloc, blank(alloc), &FIRST)
}

#[test]
fn a_meta_alone_and_behind_another_table(rt: HostRuntime) {
    let alloc = rt.alloc();
    for first in ["", PLAN] {
        let disks = is_told(&rt, alloc, blank(alloc), first, NONE);
        are_told(&rt, alloc, disks, &VERSIONS);
    }
}

/// Tables of accounts, ours and others, and why all tables are refused then, if they are.
const ACCOUNTS: [ForeignRow; 10] = [
    (ACCOUNT, None),
    (
        "CREATE TABLE account (number INTEGER PRIMARY KEY, holder TEXT NOT NULL) STRICT",
        Some(OpenFault::Damaged),
    ),
    (
        "CREATE TABLE account (number INTEGER PRIMARY KEY, holder TEXT NOT NULL, shut INTEGER NOT NULL) STRICT",
        Some(OpenFault::Damaged),
    ),
    (
        "CREATE TABLE account (number INTEGER PRIMARY KEY, holder TEXT NOT NULL, closed INTEGER) STRICT",
        Some(OpenFault::Damaged),
    ),
    (
        "CREATE TABLE account (number INTEGER PRIMARY KEY, holder TEXT NOT NULL, closed TEXT NOT NULL) STRICT",
        Some(OpenFault::Damaged),
    ),
    (
        "CREATE TABLE account (number INTEGER PRIMARY KEY, holder TEXT NOT NULL, closed INTEGER NOT NULL)",
        Some(OpenFault::Damaged),
    ),
    (
        "CREATE TABLE account (number INTEGER PRIMARY KEY, holder TEXT NOT NULL, closed INTEGER NOT NULL DEFAULT 0) STRICT",
        Some(OpenFault::Damaged),
    ),
    (
        "CREATE TABLE account (number INTEGER PRIMARY KEY, holder TEXT NOT NULL COLLATE NOCASE, closed INTEGER NOT NULL) STRICT",
        Some(OpenFault::Damaged),
    ),
    (
        "CREATE TABLE account (number INTEGER PRIMARY KEY, holder TEXT NOT NULL, closed INTEGER NOT NULL CHECK (closed < 2)) STRICT",
        Some(OpenFault::Damaged),
    ),
    (
        "CREATE TABLE account (number INTEGER PRIMARY KEY, holder TEXT NOT NULL REFERENCES holder (code), closed INTEGER NOT NULL) STRICT",
        Some(OpenFault::Damaged),
    ),
];

#[test]
fn another_table_of_accounts(rt: HostRuntime) {
    let alloc = rt.alloc();
    for (account, word) in ACCOUNTS {
        let rows = [
            (BEFORE_ACCOUNT, NONE),
            (account, NONE),
            (AFTER_ACCOUNT, NONE),
            (SECOND_VERSION, NONE),
            (BEGINNING, word),
        ];
        are_told(&rt, alloc, blank(alloc), &rows);
    }
}
