//! An `init` that stops half-way, at every third call of a disk: what a crash leaves is taken by
//! the next `init`, or is the registry.

use crate::claims::holds;
use crate::disks::Disks;
use crate::requests::{ACCEPTED, FIRST};
use crate::steps::{Step, comes_to, does};
use std::alloc::Global;
use std::process::Abort;

/// More rounds than an `init` makes calls.
const ROUNDS: u64 = 1000;

const READY: &str = "0\nready 07\n";

const THERE: &str = "1 goo: already there\n";

const FAULT: &str = "3 goo: store fault\n";

/// Whether an `init` stops on disks. After a crash the next one makes the registry, or finds it,
/// and a run works.
fn stops_on(rt: &impl Abort, alloc: Global, disks: Disks) -> bool {
    let (told, disks) = does(rt, alloc, disks, &Step::Inits(7, 1));
    let (again, disks) = does(rt, alloc, disks.crashed(), &Step::Inits(7, 1));
    let is_made = told.as_str() == READY && again.as_str() == THERE;
    let is_stopped = told.as_str() == FAULT;
    holds(rt, is_made || is_stopped, &told);
    holds(
        rt,
        again.as_str() == READY || again.as_str() == THERE,
        &again,
    );
    let _disks = comes_to(rt, alloc, disks, &(Step::Runs(FIRST), ACCEPTED));
    is_stopped
}

#[test]
fn at_a_call_of_the_log(rt: HostRuntime) {
    let alloc = rt.alloc();
    for round in 0..ROUNDS {
        let disks = Disks::blank(alloc).stopping(3 * round, u64::MAX);
        if !stops_on(&rt, alloc, disks) {
            return;
        }
    }
    panic!(&rt; "a stop in each round")
}

#[test]
fn at_a_call_of_the_database_file(rt: HostRuntime) {
    let alloc = rt.alloc();
    for round in 0..ROUNDS {
        let disks = Disks::blank(alloc).stopping(u64::MAX, 3 * round);
        if !stops_on(&rt, alloc, disks) {
            return;
        }
    }
    panic!(&rt; "a stop in each round")
}
