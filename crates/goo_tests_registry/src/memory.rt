//! Memory refused at any one allocation. `tools/trials/refuse-memory` runs this test with each allocation
//! refused in turn.
//!
//! A request that was refused memory changed nothing: the registry shows what it showed before, and
//! the request sent again under its key is accepted, and not repeated.

use crate::asking::{AskedLine, ISSUER, is_outcome, runs_are};
use crate::claims::holds;
use crate::desk::TestDesk;
use crate::lines::{BEGINS, ENDS, REPEATED, RETURN, TRADES};
use crate::places::{away, held, over, taken, used};
use goo_desk_body::read_command;
use goo_registry::{ReadFault, RunFault};
use goo_types::account_no::AccountNo;
use goo_types::day::Day;
use goo_types::fault::Fault;
use goo_types::holder_code::HolderCode;
use goo_types::outcome::Outcome;
use goo_types::piece::Piece;
use goo_types::place::Place;
use goo_types::registry_code::RegistryCode;
use goo_types::request::Request;
use std::process::Abort;
use std::test::Fail;

/// The runs of an account as the issuing body is shown them; asked twice where memory was refused.
fn runs_of(desk: &mut TestDesk, account: u32) -> Result<Vec<Piece>, Fail> {
    let issuer = HolderCode::read(ISSUER.as_bytes())?;
    let account = AccountNo::new(account).ok_or("no account")?;
    match desk.holdings(&issuer, account) {
        Ok(runs) => Ok(runs),
        Err(ReadFault::Unknown) => Ok(Vec::new(desk.alloc())),
        Err(_) => Ok(desk.holdings(&issuer, account)?),
    }
}

/// The certificates issued for all devices; asked twice where memory was refused.
fn issued_in_all(desk: &mut TestDesk) -> Result<u64, Fail> {
    let issuer = HolderCode::read(ISSUER.as_bytes())?;
    let totals = match desk.audit(&issuer) {
        Ok(totals) => totals,
        Err(_) => desk.audit(&issuer)?,
    };
    match totals.first() {
        Some(device) => Ok(device.issued),
        None => Ok(0),
    }
}

/// What the registry shows of its accounts and its certificates.
#[derive(Drop)]
struct Sight {
    first: Vec<Piece>,
    second: Vec<Piece>,
    issued: u64,
}

impl Sight {
    fn of(desk: &mut TestDesk) -> Result<Sight, Fail> {
        let issued = issued_in_all(desk)?;
        let first = runs_of(desk, 1)?;
        let second = runs_of(desk, 2)?;
        Ok(Sight {
            first,
            second,
            issued,
        })
    }

    fn is(&self, other: &Sight) -> bool {
        self.issued == other.issued
            && self.first.as_slice() == other.first.as_slice()
            && self.second.as_slice() == other.second.as_slice()
    }
}

/// The registry shows what it showed before.
fn shows_again(rt: &impl Abort, desk: &mut TestDesk, before: &Sight) -> Result<(), Fail> {
    let now = Sight::of(desk)?;
    holds(rt, now.is(before), "the same is shown again");
    Ok(())
}

/// What a request comes to, at once or after memory was refused, which changed nothing of what was
/// shown before.
fn outcome_of(
    rt: &impl Abort,
    desk: &mut TestDesk,
    request: &Request,
    before: &Sight,
) -> Result<Outcome, Fail> {
    match desk.apply(request) {
        Ok(outcome) => Ok(outcome),
        Err(fault) => {
            holds(rt, fault == Fault::Memory, "memory is what is wanted");
            shows_again(rt, desk, before)?;
            Ok(desk.apply(request)?)
        }
    }
}

/// A request comes to this.
fn carries_out(
    rt: &impl Abort,
    desk: &mut TestDesk,
    request: &Request,
    wanted: &str,
) -> Result<(), Fail> {
    let before = Sight::of(desk)?;
    let outcome = outcome_of(rt, desk, request, &before)?;
    is_outcome(rt, outcome, wanted);
    Ok(())
}

/// The request of a line; read twice where memory was refused.
fn request_in(desk: &TestDesk, line: &AskedLine) -> Result<Request, Fail> {
    let caller = HolderCode::read(line.0.as_bytes())?;
    match read_command(desk.alloc(), &caller, line.1.as_bytes()) {
        Ok(request) => Ok(request),
        Err(_) => Ok(read_command(desk.alloc(), &caller, line.1.as_bytes())?),
    }
}

/// A line.
fn carries_out_one(rt: &impl Abort, desk: &mut TestDesk, line: &AskedLine) -> Result<(), Fail> {
    let request = request_in(desk, line)?;
    carries_out(rt, desk, &request, line.2)
}

/// Each line in order.
fn carries_out_all(rt: &impl Abort, desk: &mut TestDesk, lines: &[AskedLine]) -> Result<(), Fail> {
    for line in lines {
        carries_out_one(rt, desk, line)?;
    }
    Ok(())
}

/// The issuing body is shown these runs of account 1.
fn shows(rt: &impl Abort, desk: &mut TestDesk, wanted: &[(u64, u64, Place)]) -> Result<(), Fail> {
    let runs = runs_of(desk, 1)?;
    runs_are(rt, &runs, wanted);
    Ok(())
}

/// What the request at this place of the list comes to when it is sent again, where so many of them
/// stand.
fn wanted_again(stand: usize, index: usize) -> Option<&'static str> {
    if index < stand {
        return REPEATED.get(index).copied();
    }
    match ENDS.get(index) {
        Some(line) => Some(line.2),
        None => None,
    }
}

/// The first outcomes of the list, where so many of its requests stood before.
fn comes_to(rt: &impl Abort, outcomes: &[Outcome], stand: usize) -> Result<(), Fail> {
    for (index, outcome) in outcomes.iter().enumerate() {
        let wanted = wanted_again(stand, index).ok_or("so many outcomes")?;
        is_outcome(rt, *outcome, wanted);
    }
    Ok(())
}

/// All outcomes of the list.
fn all_come_to(rt: &impl Abort, outcomes: &[Outcome], stand: usize) -> Result<(), Fail> {
    holds(rt, outcomes.len() == ENDS.len(), "all outcomes");
    comes_to(rt, outcomes, stand)
}

/// A run that stopped is sent again: the requests that stand are repeated, and the others accepted.
fn runs_again(
    rt: &impl Abort,
    desk: &mut TestDesk,
    requests: &[Request],
    stand: usize,
) -> Result<(), Fail> {
    match desk.run(requests) {
        Ok(outcomes) => all_come_to(rt, &outcomes, stand),
        Err(_) => Err(Fail::new("the run stopped twice")),
    }
}

/// A run stopped since memory was refused, and is sent again.
fn goes_on(
    rt: &impl Abort,
    desk: &mut TestDesk,
    requests: &[Request],
    stop: &RunFault,
) -> Result<(), Fail> {
    let stand = stop.done.len();
    holds(
        rt,
        stop.fault == Fault::Memory && stand < ENDS.len(),
        "it goes on",
    );
    comes_to(rt, &stop.done, 0)?;
    runs_again(rt, desk, requests, stand)
}

/// The last requests in a list come to their outcomes, at once or after memory was refused.
fn runs(rt: &impl Abort, desk: &mut TestDesk, requests: &[Request]) -> Result<(), Fail> {
    match desk.run(requests) {
        Ok(outcomes) => all_come_to(rt, &outcomes, 0),
        Err(stop) => goes_on(rt, desk, requests, &stop),
    }
}

/// The last requests, in one list.
fn ends(rt: &impl Abort, desk: &mut TestDesk) -> Result<(), Fail> {
    let requests = [request_in(desk, &ENDS[0])?, request_in(desk, &ENDS[1])?];
    runs(rt, desk, &requests)
}

/// What is shown once certificates were moved, used up, sent away and withdrawn.
fn shows_trades(rt: &impl Abort, desk: &mut TestDesk) -> Result<(), Fail> {
    shows(
        rt,
        desk,
        &[
            (1, 10, used(1, 1)),
            (11, 12, taken(1, 1)),
            (13, 19, held(1)),
            (20, 29, away(1, 1)),
            (30, 99, held(1)),
            (200, 1200, held(1)),
        ],
    )
}

/// What is shown in the end.
fn shows_end(rt: &impl Abort, desk: &mut TestDesk) -> Result<(), Fail> {
    shows(
        rt,
        desk,
        &[
            (1, 10, used(1, 1)),
            (11, 12, taken(1, 1)),
            (13, 100, over(1)),
            (200, 1200, over(1)),
        ],
    )?;
    holds(rt, issued_in_all(desk)? == 1200, "all that was issued");
    Ok(())
}

/// All requests in order, and what is shown in between and in the end.
fn carries_on(rt: &impl Abort, desk: &mut TestDesk) -> Result<(), Fail> {
    carries_out_all(rt, desk, &BEGINS)?;
    carries_out_all(rt, desk, &TRADES)?;
    shows_trades(rt, desk)?;
    carries_out_all(rt, desk, &RETURN)?;
    ends(rt, desk)?;
    shows_end(rt, desk)
}

#[test]
fn each_request_stands_or_changed_nothing(rt: HostRuntime) -> Result<(), Fail> {
    let seven = RegistryCode::new(7).unwrap();
    let today = Day::read(b"2025-03-01")?;
    let mut desk = TestDesk::new(rt.alloc(), seven, today);
    carries_on(&rt, &mut desk)
}
