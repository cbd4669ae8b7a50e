//! How far a run of requests goes.

ghost use Rattle.std.specs.Prelude.{◌≡◌, ◌+◌, ◌<◌, ◌≤◌, OnOk, vec_len, vec_capacity};
ghost use Rattle.goo_core_reads.specs.Requests.{IsNoted};

use goo_types::fault::Fault;

/// Adds the outcome of a request of a run, for which there is room, to those of the requests before
/// it.
///
/// # Errors
///
/// The fault of the answer; the list is then unchanged.
pub fn note<T: Drop>(done: &mut Vec<T>, answer: Result<T, Fault>) -> Result<(), Fault>
    requires room { vec_len done.old < vec_capacity done.old }
    ensures noted { IsNoted done.old.items done.new.items answer result }
    ensures len { OnOk result (vec_len done.new ≡ vec_len done.old + 1) }
    ensures capacity { vec_capacity done.old ≤ vec_capacity done.new }
{
    match answer {
        Ok(outcome) => match done.push(outcome) {
            Ok(()) => Ok(()),
            Err(_) => unreachable!(),
        },
        Err(fault) => Err(fault),
    }
}
