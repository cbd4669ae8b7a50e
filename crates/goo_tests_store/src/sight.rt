//! What a registry shows to the issuing body, as one text.

use crate::asking::asks;
use crate::script::PROBES;
use goo_core_shelf::found::DeviceTotals;
use goo_core_shelf::shelf::Shelf;
use goo_desk_outcome::outcome_text;
use goo_notice::write;
use goo_registry::{CancellationStatement, ReadFault, Registry};
use goo_types::account_no::AccountNo;
use goo_types::act_no::ActNo;
use goo_types::holder_code::HolderCode;
use goo_types::notice::Notice;
use goo_types::number::Number;
use goo_types::piece::Piece;
use goo_types::place::Place;
use std::alloc::Global;
use std::process::Abort;

/// The issuing body.
fn issuer(rt: &impl Abort) -> HolderCode {
    HolderCode::read(b"ISSUER").expect(rt, "a holder")
}

/// More of a text.
fn adds(rt: &impl Abort, text: &mut String, more: &str) {
    text.push_str(more).expect(rt, "memory");
}

/// A place in a word.
fn place_word(rt: &impl Abort, alloc: Global, place: Place) -> String {
    let word = match place {
        Place::Held(_) => String::from_str(alloc, "held"),
        Place::Expired(_) => String::from_str(alloc, "expired"),
        Place::Cancelled(_, act) => format!(in alloc; "cancelled:{}", act.get()),
        Place::Withdrawn(_, act) => format!(in alloc; "withdrawn:{}", act.get()),
        Place::Exported(_, act) => format!(in alloc; "exported:{}", act.get()),
    };
    word.expect(rt, "memory")
}

/// A run's account, its numbers, the period of its lot, and its place.
fn line_of(rt: &impl Abort, alloc: Global, run: &Piece) -> String {
    let first = run.first.text();
    let last = run.last.text();
    let day = run.lot.first_day().text();
    let place = place_word(rt, alloc, run.place);
    let line = format!(in alloc;
        "{} {} {} {} {place}\n",
        run.place.account().get(),
        first.as_str(),
        last.as_str(),
        day.as_str()
    );
    line.expect(rt, "memory")
}

/// A line for each run.
fn tell_runs(rt: &impl Abort, alloc: Global, runs: &[Piece], text: &mut String) {
    for run in runs {
        adds(rt, text, &line_of(rt, alloc, run));
    }
}

/// Why something isn't shown.
fn tell_fault(rt: &impl Abort, alloc: Global, fault: ReadFault, text: &mut String) {
    let line = format!(in alloc; "{fault:?}\n").expect(rt, "memory");
    adds(rt, text, &line)
}

/// What is answered to requests that are refused in any state.
fn tell_answers<S: Shelf>(
    rt: &impl Abort,
    alloc: Global,
    registry: &mut Registry<S>,
    text: &mut String,
) {
    for (caller, body) in &PROBES {
        let outcome = asks(rt, alloc, registry, caller, body).expect(rt, "an outcome");
        adds(rt, text, outcome_text(outcome).as_str());
        adds(rt, text, "\n");
    }
}

/// Whether a holder is known, by what he is shown of a certificate that isn't there.
fn tell_holder<S: Shelf>(
    rt: &impl Abort,
    alloc: Global,
    registry: &mut Registry<S>,
    holder: &str,
    text: &mut String,
) {
    let holder = HolderCode::read(holder.as_bytes()).expect(rt, "a holder");
    let absent = Number::new(7, 1202).expect(rt, "no number");
    match registry.place_of(alloc, &holder, absent) {
        Ok(_) => adds(rt, text, "there\n"),
        Err(fault) => tell_fault(rt, alloc, fault, text),
    }
}

/// The certificates of an account.
fn tell_holdings<S: Shelf>(
    rt: &impl Abort,
    alloc: Global,
    registry: &mut Registry<S>,
    account: u32,
    text: &mut String,
) {
    let account = AccountNo::new(account).expect(rt, "no account");
    match registry.holdings(alloc, &issuer(rt), account) {
        Ok(runs) => tell_runs(rt, alloc, &runs, text),
        Err(fault) => tell_fault(rt, alloc, fault, text),
    }
}

/// The energy and the certificates of a device.
fn totals_line(rt: &impl Abort, alloc: Global, device: &DeviceTotals) -> String {
    let line = format!(in alloc;
        "{} {} {} {} {} {}\n",
        device.device.text(),
        device.declared_wh,
        device.corrected_wh,
        device.issued,
        device.withdrawn_certificates,
        device.carry_wh
    );
    line.expect(rt, "memory")
}

/// The energy and the certificates of each device.
pub fn tell_audit<S: Shelf>(
    rt: &impl Abort,
    alloc: Global,
    registry: &mut Registry<S>,
    text: &mut String,
) {
    let totals = registry.audit(alloc, &issuer(rt)).expect(rt, "an audit");
    for device in &totals {
        adds(rt, text, &totals_line(rt, alloc, device));
    }
}

/// For whom certificates were used up, by whom, when, and which.
fn tell_statement(
    rt: &impl Abort,
    alloc: Global,
    statement: &CancellationStatement,
    text: &mut String,
) {
    let day = statement.record.day().text();
    let line = format!(in alloc;
        "{} {} {}\n",
        statement.holder.text(),
        day.as_str(),
        statement.record.beneficiary().text()
    );
    adds(rt, text, &line.expect(rt, "memory"));
    tell_runs(rt, alloc, &statement.runs, text)
}

/// The first cancellation.
fn tell_cancellation<S: Shelf>(
    rt: &impl Abort,
    alloc: Global,
    registry: &mut Registry<S>,
    text: &mut String,
) {
    let first = ActNo::new(1).expect(rt, "no act");
    match registry.cancellation(alloc, &issuer(rt), first) {
        Ok(statement) => tell_statement(rt, alloc, &statement, text),
        Err(fault) => tell_fault(rt, alloc, fault, text),
    }
}

/// The text of a notice.
fn tell_written(rt: &impl Abort, alloc: Global, notice: &Notice, text: &mut String) {
    let bytes = write(alloc, notice).expect(rt, "memory");
    adds(rt, text, str::from_utf8(&bytes).expect(rt, "a text"));
    adds(rt, text, "\n")
}

/// The first notice.
fn tell_notice<S: Shelf>(
    rt: &impl Abort,
    alloc: Global,
    registry: &mut Registry<S>,
    text: &mut String,
) {
    let first = ActNo::new(1).expect(rt, "no act");
    match registry.notice(alloc, &issuer(rt), first) {
        Ok(notice) => tell_written(rt, alloc, &notice, text),
        Err(fault) => tell_fault(rt, alloc, fault, text),
    }
}

/// The certificates of both accounts, and the audit.
pub fn tell_certificates<S: Shelf>(
    rt: &impl Abort,
    alloc: Global,
    registry: &mut Registry<S>,
    text: &mut String,
) {
    tell_holdings(rt, alloc, registry, 1, text);
    tell_holdings(rt, alloc, registry, 2, text);
    tell_audit(rt, alloc, registry, text)
}

/// All that a registry shows.
pub fn sight<S: Shelf>(rt: &impl Abort, alloc: Global, registry: &mut Registry<S>) -> String {
    let mut text = String::new(alloc);
    tell_answers(rt, alloc, registry, &mut text);
    tell_holder(rt, alloc, registry, "SUN", &mut text);
    tell_holder(rt, alloc, registry, "VOLT", &mut text);
    tell_certificates(rt, alloc, registry, &mut text);
    tell_cancellation(rt, alloc, registry, &mut text);
    tell_notice(rt, alloc, registry, &mut text);
    text
}
