//! A log that a run leaves behind, as its database file could not take what is in it: it belongs to
//! that file, and no refused command takes it away.

use crate::claims::holds;
use crate::disks::Disks;
use crate::requests::{ACCEPTED, FIRST, REPEATED};
use crate::steps::{Step, StepRow, come_to, does};
use std::alloc::Global;
use std::process::Abort;

/// A new registry.
const MADE: [StepRow; 1] = [(Step::Inits(7, 1), "0\nready 07\n")];

/// A command that is refused where a registry is, and the accepted requests once more.
const REFUSED: [StepRow; 2] = [
    (Step::Inits(7, 1), "1 goo: already there\n"),
    (Step::Runs(FIRST), REPEATED),
];

/// More rounds than a run makes calls of the database file.
const ROUNDS: u64 = 1000;

/// Whether a run during which the database file stops leaves its log behind; None where it could
/// not answer all. What is left behind is found after a command that is refused.
fn leaves(rt: &impl Abort, alloc: Global, calls: u64) -> Option<bool> {
    let disks = come_to(rt, alloc, Disks::blank(alloc), &MADE);
    let disks = disks.stopping(u64::MAX, calls);
    let (told, disks) = does(rt, alloc, disks, &Step::Runs(FIRST));
    if told.as_str() != ACCEPTED {
        return None;
    }
    let is_left = !disks.has_no_log();
    let _disks = come_to(rt, alloc, disks.crashed(), &REFUSED);
    Some(is_left)
}

#[test]
fn stays_where_a_command_is_refused(rt: HostRuntime) {
    let alloc = rt.alloc();
    let mut logs = 0u64;
    for calls in 0..ROUNDS {
        match leaves(&rt, alloc, calls) {
            None => {}
            Some(true) => logs = logs.saturating_add(1),
            Some(false) => {
                holds(&rt, logs > 0, "a log that is left behind");
                return;
            }
        }
    }
    panic!(&rt; "a stop in each round")
}
