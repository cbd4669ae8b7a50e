//! A registry of version 1, which is renewed when it is opened.

use crate::acts::Act;
use crate::damages::is_damaged;
use crate::deeds::{Deed, after, shown, shows};
use crate::disks::{FaultyDisks, blank};
use std::alloc::Global;
use std::process::Abort;

/// The tables of version 1, with the certificates of January in three pieces.
const OLD: &str =
    "DROP TABLE correction; DROP TABLE device_carrier; DROP TABLE lot_carrier; UPDATE meta SET version = 1; \
UPDATE piece SET last = 7000000000099 WHERE first = 7000000000001; \
INSERT INTO piece VALUES (7000000000100, 7000000000199, 1, 1, 1, 0), (7000000000200, 7000000001200, 1, 1, 1, 0)";

/// The pieces of before beside the one that they became, and then alone.
const CUT: [&str; 2] = [
    "INSERT INTO piece VALUES (7000000000100, 7000000000199, 1, 1, 1, 0), (7000000000200, 7000000001200, 1, 1, 1, 0)",
    "UPDATE piece SET last = 7000000000099 WHERE first = 7000000000001",
];

/// A registry of version 1, and what it shows.
fn made(rt: &impl Abort, alloc: Global) -> (String, FaultyDisks) {
    let begins = Deed::Begins(1, Act::Moves);
    let (shown, disks) = shown(rt, alloc, blank(alloc), &begins);
    (shown, after(rt, alloc, disks, &Deed::Edits(OLD)))
}

#[test]
fn it_is_the_same_registry(rt: HostRuntime) {
    let alloc = rt.alloc();
    let (wanted, disks) = made(&rt, alloc);
    let opens = Deed::Opens(Act::Keeps);
    let disks = shows(&rt, alloc, disks, &opens, &wanted);
    let mut disks = shows(&rt, alloc, disks, &opens, &wanted);
    for sql in CUT {
        disks = is_damaged(&rt, alloc, disks, sql);
    }
}
