//! The certificates of an account run by run, once a hundred of them were transferred.

use crate::asking::plays;
use crate::claims::holds;
use crate::script::{CANCELLATION, requests};
use goo_core_shelf::shelf::Shelf;
use goo_registry::{ReadFault, Registry, RunPlace};
use goo_types::account_no::AccountNo;
use goo_types::holder_code::HolderCode;
use goo_types::number::Number;
use goo_types::piece::Piece;
use std::alloc::Global;
use std::process::Abort;

/// A run's serials: those after the first of the three, from the second to the third.
type Serials = (u64, u64, u64);

/// The runs of the first account.
const RUNS: [Serials; 3] = [(0, 1, 99), (99, 200, 1200), (1200, 1201, 1201)];

/// What of the first run lies after a serial amid it.
const AMID: Serials = (50, 51, 99);

/// A holder, and the first account.
fn first_account(rt: &impl Abort, holder: &str) -> (HolderCode, AccountNo) {
    let holder = HolderCode::read(holder.as_bytes()).expect(rt, "a holder");
    let account = AccountNo::new(1).expect(rt, "no account");
    (holder, account)
}

/// What a holder is shown of the first account after a serial, or from the first certificate on
/// after 0.
fn next_run<S: Shelf>(
    rt: &impl Abort,
    registry: &mut Registry<S>,
    holder: &str,
    after: u64,
) -> Result<Option<Piece>, ReadFault> {
    let (holder, account) = first_account(rt, holder);
    registry.next_run(&holder, account, Number::new(7, after))
}

/// The run that was found has these ends.
fn is_run(rt: &impl Abort, found: Result<Option<Piece>, ReadFault>, serials: Serials) {
    let is_so =
        matches!(found, Ok(Some(run)) if run.first.serial() == serials.1 && run.last.serial() == serials.2);
    holds(rt, is_so, "the next run");
}

/// All runs are read one after another.
fn reads_all<S: Shelf>(rt: &impl Abort, registry: &mut Registry<S>) {
    let (_holder, account) = first_account(rt, "SUN");
    let mut place = RunPlace::after(None);
    for serials in RUNS {
        let found = registry.read_run(account, &mut place);
        is_run(rt, found, serials);
    }
    let last = registry.read_run(account, &mut place);
    holds(rt, matches!(last, Ok(None)), "no further run is read");
}

/// A hundred certificates are transferred, and the giver's account is shown run by run to its
/// holder alone.
pub fn shows_runs<S: Shelf>(rt: &impl Abort, alloc: Global, registry: &mut Registry<S>) {
    let transferred = requests()
        .get(..CANCELLATION)
        .expect(rt, "so many requests");
    plays(rt, alloc, registry, transferred, 0);
    for serials in RUNS {
        let found = next_run(rt, registry, "SUN", serials.0);
        is_run(rt, found, serials);
    }
    let amid = next_run(rt, registry, "SUN", AMID.0);
    is_run(rt, amid, AMID);
    reads_all(rt, registry);
    let last = next_run(rt, registry, "SUN", 1201);
    holds(rt, matches!(last, Ok(None)), "no further run");
    let denied = next_run(rt, registry, "VOLT", 0);
    holds(
        rt,
        matches!(denied, Err(ReadFault::NotAllowed)),
        "another holder",
    );
}
