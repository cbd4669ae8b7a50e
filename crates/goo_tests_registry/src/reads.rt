//! Who is shown what.

use crate::asking::{AskedLine, ISSUER, SUN, VOLT};
use crate::claims::holds;
use crate::desk::TestDesk;
use crate::lots::{JANUARY, lot_of};
use crate::places::{held, used};
use crate::stages::april;
use crate::values::{account_of, act_of, day_of, holder_of, number, number_of, serials};
use goo_core_shelf::found::DeviceTotals;
use goo_registry::{CancellationStatement, ReadFault};
use goo_types::lot::Lot;
use goo_types::notice::Notice;
use goo_types::number::Number;
use goo_types::piece::Piece;
use goo_types::place::Place;
use std::process::Abort;

/// Ten certificates are used up.
const CANCELLATION: [AskedLine; 1] = [(
    "SUN",
    r#"{"account":1,"beneficiary":"Bäckerei Müller","command":"cancel","first":"07000000000001","key":"ten","last":"07000000000010","use_first":"2025-01-01","use_last":"2025-03-31"}"#,
    r#"{"outcome":"accepted","reply":{"cancellation":1,"count":10}}"#,
)];

/// Ten are sent to account 5 of registry 9.
const EXPORT: [AskedLine; 1] = [(
    "SUN",
    r#"{"account":5,"command":"export","first":"07000000000020","giver":1,"key":"away","last":"07000000000029","peer":9}"#,
    r#"{"outcome":"accepted","reply":{"count":10,"notice":1}}"#,
)];

/// Who isn't shown the first cancellation or notice, or the second, and why: there is none, and
/// only the issuing body learns it.
const HIDDEN: [(&str, u32, ReadFault); 3] = [
    (VOLT, 1, ReadFault::NotAllowed),
    (ISSUER, 2, ReadFault::Unknown),
    (SUN, 2, ReadFault::NotAllowed),
];

/// Who isn't shown the certificate of this serial, and why.
const NO_PLACES: [(&str, u64, ReadFault); 5] = [
    (VOLT, 1, ReadFault::Unknown),
    (VOLT, 1202, ReadFault::Unknown),
    (ISSUER, 1202, ReadFault::Unknown),
    ("NOBODY", 1, ReadFault::NotAllowed),
    ("NOBODY", 1202, ReadFault::NotAllowed),
];

/// Who is shown the certificates of this account, and why not.
const HOLDINGS: [(&str, u32, Option<ReadFault>); 5] = [
    (SUN, 1, None),
    (ISSUER, 1, None),
    (VOLT, 1, Some(ReadFault::NotAllowed)),
    (VOLT, 3, Some(ReadFault::NotAllowed)),
    (ISSUER, 3, Some(ReadFault::Unknown)),
];

/// The place of a certificate, as a caller is shown it.
fn place(
    rt: &impl Abort,
    desk: &mut TestDesk,
    caller: &str,
    number: Number,
) -> Result<(Lot, Place), ReadFault> {
    let caller = holder_of(rt, caller);
    desk.place_of(&caller, number)
}

/// Why a caller isn't shown the place of a certificate.
fn no_place(
    rt: &impl Abort,
    desk: &mut TestDesk,
    caller: &str,
    number: Number,
) -> Option<ReadFault> {
    place(rt, desk, caller, number).err()
}

/// The first certificate's place is shown to its holder and to the issuing body.
fn shows_a_place(rt: &impl Abort, desk: &mut TestDesk) {
    let (lot, place) = place(rt, desk, SUN, number(1)).expect(rt, "a place");
    let january = lot_of(rt, &JANUARY);
    holds(rt, place == held(1) && lot.is(&january), "a place");
    holds(rt, no_place(rt, desk, ISSUER, number(1)) == None, ISSUER);
}

/// Places are kept from these callers, for these reasons.
fn keeps_places(rt: &impl Abort, desk: &mut TestDesk) {
    for (caller, serial, wanted) in &NO_PLACES {
        let kept = no_place(rt, desk, caller, number_of(rt, 7, *serial));
        holds(rt, kept == Some(*wanted), caller);
    }
}

/// Why a caller isn't shown the certificates of an account.
fn no_holdings(
    rt: &impl Abort,
    desk: &mut TestDesk,
    caller: &str,
    account: u32,
) -> Option<ReadFault> {
    let account = account_of(rt, account);
    let caller = holder_of(rt, caller);
    desk.holdings(&caller, account).err()
}

/// The certificates of accounts are shown, or kept, as the table says.
fn shows_holdings(rt: &impl Abort, desk: &mut TestDesk) {
    for (caller, account, wanted) in &HOLDINGS {
        let kept = no_holdings(rt, desk, caller, *account);
        holds(rt, kept == *wanted, caller);
    }
}

/// A cancellation, as a caller is shown it.
fn cancellation(
    rt: &impl Abort,
    desk: &mut TestDesk,
    caller: &str,
    number: u32,
) -> Result<CancellationStatement, ReadFault> {
    let number = act_of(rt, number);
    let caller = holder_of(rt, caller);
    desk.cancellation(&caller, number)
}

/// Who used up ten certificates, from which account, and for whom.
fn states_whose(rt: &impl Abort, statement: &CancellationStatement) {
    let record = &statement.record;
    holds(
        rt,
        statement.holder.text() == SUN
            && record.account().get() == 1
            && record.range() == serials(1, 10)
            && record.beneficiary().text() == "Bäckerei Müller",
        "whose, from where and for whom",
    );
}

/// For which time, and on which day.
fn states_when(rt: &impl Abort, statement: &CancellationStatement) {
    let use_first = day_of(rt, "2025-01-01");
    let use_last = day_of(rt, "2025-03-31");
    let day = day_of(rt, "2025-04-05");
    let record = &statement.record;
    holds(
        rt,
        record.use_first() == use_first && record.use_last() == use_last && record.day() == day,
        "for which time",
    );
}

/// Which certificates they are: one run.
fn states_which(rt: &impl Abort, runs: &[Piece]) {
    holds(
        rt,
        matches!(runs, [run] if run.first == number(1) && run.last == number(10) && run.place == used(1, 1)),
        "which certificates",
    );
}

/// The statement of ten certificates that account 1 used up in April 2025.
fn states_ten(rt: &impl Abort, statement: &CancellationStatement) {
    states_whose(rt, statement);
    states_when(rt, statement);
    states_which(rt, &statement.runs)
}

/// The cancellation is shown to a caller.
fn shows_ten(rt: &impl Abort, desk: &mut TestDesk, caller: &str) {
    let statement = cancellation(rt, desk, caller, 1).expect(rt, "a cancellation");
    states_ten(rt, &statement)
}

/// The cancellation is shown to the account's holder and to the issuing body; to others, and where
/// there is none, it isn't.
fn shows_cancellations(rt: &impl Abort, desk: &mut TestDesk) {
    shows_ten(rt, desk, SUN);
    shows_ten(rt, desk, ISSUER);
    for (caller, number, wanted) in &HIDDEN {
        let kept = cancellation(rt, desk, caller, *number).err();
        holds(rt, kept == Some(*wanted), caller);
    }
}

/// The notice of ten certificates of January for account 5 of registry 9.
fn names_ten(rt: &impl Abort, sent: &Notice) {
    let january = lot_of(rt, &JANUARY);
    holds(
        rt,
        sent.sender().get() == 7
            && sent.addressee().get() == 9
            && sent.number().get() == 1
            && sent.account().get() == 5
            && sent.parts().len() == 1
            && sent.parts()[0].range == serials(20, 29)
            && sent.parts()[0].lot.is(&january),
        "ten certificates",
    );
}

/// A notice, as a caller is shown it.
fn notice(
    rt: &impl Abort,
    desk: &mut TestDesk,
    caller: &str,
    number: u32,
) -> Result<Notice, ReadFault> {
    let number = act_of(rt, number);
    let caller = holder_of(rt, caller);
    desk.notice(&caller, number)
}

/// The notice is shown to a caller.
fn shows_notice(rt: &impl Abort, desk: &mut TestDesk, caller: &str) {
    let sent = notice(rt, desk, caller, 1).expect(rt, "a notice");
    names_ten(rt, &sent)
}

/// The notice is shown to the exporting holder and to the issuing body; to others, and where there
/// is none, it isn't.
fn shows_notices(rt: &impl Abort, desk: &mut TestDesk) {
    shows_notice(rt, desk, SUN);
    shows_notice(rt, desk, ISSUER);
    for (caller, number, wanted) in &HIDDEN {
        let kept = notice(rt, desk, caller, *number).err();
        holds(rt, kept == Some(*wanted), caller);
    }
}

/// The audit, as a caller is shown it.
fn audit(
    rt: &impl Abort,
    desk: &mut TestDesk,
    caller: &str,
) -> Result<Vec<DeviceTotals>, ReadFault> {
    let caller = holder_of(rt, caller);
    desk.audit(&caller)
}

/// Why a caller isn't shown the audit.
fn no_audit(rt: &impl Abort, desk: &mut TestDesk, caller: &str) -> Option<ReadFault> {
    audit(rt, desk, caller).err()
}

/// One device, with what it declared, what was issued for it, and its carry; no correction took
/// anything off.
fn has_one_device(rt: &impl Abort, totals: &[DeviceTotals]) {
    holds(
        rt,
        matches!(totals, [device] if device.device.text() == "500000000000000012"
            && device.declared_wh == 1_201_000_000
            && device.corrected_wh == 0
            && device.issued == 1201
            && device.withdrawn_certificates == 0
            && device.carry_wh == 0),
        "an audit",
    );
}

/// The audit is shown to the issuing body alone.
fn shows_an_audit(rt: &impl Abort, desk: &mut TestDesk) {
    let totals = audit(rt, desk, ISSUER).expect(rt, "an audit");
    has_one_device(rt, &totals);
    holds(
        rt,
        no_audit(rt, desk, SUN) == Some(ReadFault::NotAllowed),
        SUN,
    );
    holds(
        rt,
        no_audit(rt, desk, "NOBODY") == Some(ReadFault::NotAllowed),
        "NOBODY",
    );
}

/// Each read of a registry is shown to those who may see it, and kept from the others: in April,
/// and after ten certificates were used up and ten sent.
fn shows_each_what_is_theirs(rt: &impl Abort, desk: &mut TestDesk) {
    shows_a_place(rt, desk);
    keeps_places(rt, desk);
    shows_holdings(rt, desk);
    shows_an_audit(rt, desk);
    desk.plays(rt, &CANCELLATION);
    shows_cancellations(rt, desk);
    desk.plays(rt, &EXPORT);
    shows_notices(rt, desk)
}

#[test]
fn each_is_shown_what_is_theirs(rt: HostRuntime) {
    let mut desk = april(&rt, rt.alloc());
    shows_each_what_is_theirs(&rt, &mut desk)
}
