//! FaultyDisks that refuse one write and work before and after it: the registry answers `Store` from then
//! on, and what it answered before is kept.

use crate::disks::{FaultyDisks, lapsing};
use crate::script::requests;
use crate::stops::{ROUNDS, goes_on, runs_on, wanted_sights};
use std::alloc::Global;
use std::process::Abort;

/// Whether a registry on disks is refused a write before all requests are answered; what the disks
/// hold is opened again and goes on.
fn lapses_on(rt: &impl Abort, alloc: Global, disks: FaultyDisks, wanted: &[String]) -> bool {
    let (answered, disks) = runs_on(rt, alloc, disks);
    goes_on(rt, alloc, disks, answered, wanted);
    answered < requests().len()
}

#[test]
fn the_log_refuses_one_write(rt: HostRuntime) {
    let alloc = rt.alloc();
    let wanted = wanted_sights(&rt, alloc);
    for round in 0..ROUNDS {
        if !lapses_on(&rt, alloc, lapsing(alloc, 7 * round), &wanted) {
            return;
        }
    }
    panic!(&rt; "a lapse at each write")
}
