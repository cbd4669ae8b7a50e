//! What a shelf finds, over tables and over lists: nothing in a new registry, and then what was
//! asked for.

use crate::acts::Act;
use crate::claims::holds;
use crate::deeds::is_alike;
use crate::worked::Case;
use goo_core_shelf::counters::Counters;
use goo_core_shelf::found::DeviceTotals;
use goo_core_shelf::shelf::Shelf;
use goo_types::account_no::AccountNo;
use goo_types::act_no::ActNo;
use goo_types::day::Day;
use goo_types::fault::Fault;
use goo_types::gsrn::Gsrn;
use goo_types::holder_code::HolderCode;
use goo_types::number::Number;
use goo_types::piece::Piece;
use goo_types::range::Range;
use goo_types::registry_code::RegistryCode;
use std::alloc::Global;
use std::process::Abort;

/// The last serial of all.
const LAST: u64 = 999_999_999_999;

/// A holder with two accounts, the second of which is closed, a device, another registry, the next
/// month, what the device declared, and a correction that takes off January what the last
/// certificate and one Wh of the carry stood for.
pub const MEMBERS: Case = Case {
    name: "members",
    serial: 1,
    begun: 0,
    asked: &[
        (
            "ISSUER",
            r#"{"command":"open_holder","holder":"SUN","key":"1","name":"Sun Power"}"#,
            r#"{"outcome":"accepted","reply":{}}"#,
        ),
        (
            "ISSUER",
            r#"{"command":"open_holder","holder":"SUN","key":"1","name":"Sun Power"}"#,
            r#"{"outcome":"repeated","reply":{}}"#,
        ),
        (
            "ISSUER",
            r#"{"command":"open_account","holder":"SUN","key":"1"}"#,
            r#"{"code":2,"name":"KeyReused","outcome":"refused"}"#,
        ),
        (
            "ISSUER",
            r#"{"command":"open_holder","holder":"SUN","key":"2","name":"Sun"}"#,
            r#"{"code":4,"name":"HolderExists","outcome":"refused"}"#,
        ),
        (
            "ISSUER",
            r#"{"command":"open_account","holder":"SUN","key":"2"}"#,
            r#"{"outcome":"accepted","reply":{"account":1}}"#,
        ),
        (
            "ISSUER",
            r#"{"command":"open_account","holder":"SUN","key":"3"}"#,
            r#"{"outcome":"accepted","reply":{"account":2}}"#,
        ),
        (
            "ISSUER",
            r#"{"account":1,"capacity_w":2000000,"command":"register_device","commissioned":"2020-06-01","country":"DE","device":"500000000000000012","key":"4","site":"North field","source":"F01010100","support":"none","tech":"T010000"}"#,
            r#"{"outcome":"accepted","reply":{}}"#,
        ),
        (
            "ISSUER",
            r#"{"command":"add_peer","key":"5","peer":9}"#,
            r#"{"outcome":"accepted","reply":{}}"#,
        ),
        (
            "ISSUER",
            r#"{"account":2,"command":"close_account","key":"6"}"#,
            r#"{"outcome":"accepted","reply":{}}"#,
        ),
        (
            "ISSUER",
            r#"{"command":"advance","day":"2025-04-01","key":"7"}"#,
            r#"{"outcome":"accepted","reply":{"expired":0}}"#,
        ),
        (
            "ISSUER",
            r#"{"aux_wh":34567890,"command":"declare","device":"500000000000000012","first_day":"2025-01-01","gross_wh":1234567890,"key":"8","last_day":"2025-01-31"}"#,
            r#"{"outcome":"accepted","reply":{"carry":0,"count":1200,"first":"07000000000001","last":"07000000001200"}}"#,
        ),
        (
            "ISSUER",
            r#"{"aux_wh":0,"command":"declare","device":"500000000000000012","first_day":"2025-02-01","gross_wh":999999,"key":"9","last_day":"2025-02-28"}"#,
            r#"{"outcome":"accepted","reply":{"carry":999999,"count":0}}"#,
        ),
        (
            "ISSUER",
            r#"{"command":"correct","device":"500000000000000012","first":"07000000001200","first_day":"2025-01-01","key":"10","last":"07000000001200","less_wh":1000001,"reason":"meter read twice"}"#,
            r#"{"outcome":"accepted","reply":{"carry":999998,"count":1,"withdrawal":1}}"#,
        ),
    ],
    shown: "",
};

/// A new registry's next numbers.
fn has_first_numbers(rt: &impl Abort, counters: &Counters) {
    holds(rt, counters.serial() == LAST, "the next serial");
    holds(rt, counters.account() == 1, "the next account");
    holds(rt, counters.notice() == 1, "the next notice");
    holds(rt, counters.cancellation() == 1, "the next cancellation");
    holds(rt, counters.withdrawal() == 1, "the next withdrawal");
}

/// A new registry's code, date and next numbers.
fn has_its_own<S: Shelf>(rt: &impl Abort, shelf: &mut S) {
    let today = Day::read(b"2025-03-01").expect(rt, "a day");
    has_first_numbers(rt, &shelf.counters().expect(rt, "counters"));
    holds(
        rt,
        matches!(shelf.code(), Ok(code) if code.get() == 7),
        "the code",
    );
    holds(rt, shelf.today() == Ok(today), "the date");
}

/// A new registry's shelf has no members.
fn has_nobody<S: Shelf>(rt: &impl Abort, shelf: &mut S) {
    let holder = HolderCode::read(b"SUN").expect(rt, "a holder");
    let account = AccountNo::new(1).expect(rt, "no account");
    let code = RegistryCode::new(7).expect(rt, "no code");
    holds(rt, matches!(shelf.holder(&holder), Ok(None)), "no holder");
    holds(rt, matches!(shelf.account(account), Ok(None)), "no account");
    holds(rt, matches!(shelf.peer(code), Ok(false)), "no peer");
}

/// A new registry's shelf has no acts.
fn has_no_act<S: Shelf>(rt: &impl Abort, alloc: Global, shelf: &mut S) {
    let act = ActNo::new(1).expect(rt, "no act");
    holds(
        rt,
        matches!(shelf.cancelled(act), Ok(None)),
        "no cancellation",
    );
    holds(rt, matches!(shelf.sent(alloc, act), Ok(None)), "no notice");
}

/// What can be taken off a device's declaration that begins on a day, in Wh, if there is one.
fn can_take_off<S: Shelf>(
    rt: &impl Abort,
    shelf: &mut S,
    device: &Gsrn,
    first_day: &[u8],
) -> Option<u64> {
    let first_day = Day::read(first_day).expect(rt, "a day");
    match shelf.correctable(device, first_day) {
        Ok(Some(left)) => Some(left.get()),
        Ok(None) => None,
        Err(_) => panic!(rt; "a declaration that can't be read"),
    }
}

/// A new registry's shelf has neither devices nor lots.
fn has_no_device<S: Shelf>(rt: &impl Abort, shelf: &mut S) {
    let device = Gsrn::read(b"500000000000000012").expect(rt, "a device");
    let code = RegistryCode::new(7).expect(rt, "no code");
    let first = Day::read(b"2025-01-01").expect(rt, "a day");
    let progress = shelf.progress(&device).expect(rt, "progress");
    holds(rt, progress.last_day.is_none(), "no period");
    holds(rt, progress.carry.get() == 0, "no carry");
    holds(rt, matches!(shelf.device(&device), Ok(None)), "no device");
    holds(
        rt,
        matches!(shelf.lot(code, &device, first), Ok(None)),
        "no lot",
    );
    holds(
        rt,
        can_take_off(rt, shelf, &device, b"2025-01-01").is_none(),
        "no declaration",
    );
}

/// There are no rows.
fn are_none(rt: &impl Abort, rows: Result<Vec<Piece>, Fault>) {
    holds(rt, rows.expect(rt, "rows").is_empty(), "no rows")
}

/// There is no further row.
fn is_none(rt: &impl Abort, row: Result<Option<Piece>, Fault>) {
    holds(rt, matches!(row, Ok(None)), "no further row")
}

/// A new registry's shelf has no rows.
fn is_empty<S: Shelf>(rt: &impl Abort, alloc: Global, shelf: &mut S) {
    let first = Number::new(7, 1).expect(rt, "no number");
    let range = Range::new(first, first).expect(rt, "no range");
    let account = AccountNo::new(1).expect(rt, "no account");
    let last_day = Day::read(b"2099-12-31").expect(rt, "a day");
    are_none(rt, shelf.meeting(alloc, range));
    are_none(rt, shelf.pieces_of(alloc, account));
    holds(
        rt,
        matches!(shelf.holds(account), Ok(false)),
        "nothing held",
    );
    is_none(rt, shelf.next_of(account, None));
    is_none(rt, shelf.next_expiring(last_day, Some(first)));
    holds(
        rt,
        shelf.totals(alloc).expect(rt, "totals").is_empty(),
        "no totals",
    );
}

/// The shelf of a new registry finds nothing.
pub fn finds_nothing<S: Shelf>(rt: &impl Abort, alloc: Global, shelf: &mut S) {
    has_its_own(rt, shelf);
    has_nobody(rt, shelf);
    has_no_act(rt, alloc, shelf);
    has_no_device(rt, shelf);
    is_empty(rt, alloc, shelf)
}

/// Whether an account is found, and whether it is closed.
fn is_closed<S: Shelf>(rt: &impl Abort, shelf: &mut S, number: u32) -> Option<bool> {
    let number = AccountNo::new(number).expect(rt, "no number");
    match shelf.account(number) {
        Ok(Some(account)) => Some(account.is_closed()),
        Ok(None) => None,
        Err(_) => panic!(rt; "an account that can't be read"),
    }
}

/// The holder with an open account and a closed one.
fn has_accounts<S: Shelf>(rt: &impl Abort, shelf: &mut S) {
    let holder = HolderCode::read(b"SUN").expect(rt, "a holder");
    let is_named = matches!(shelf.holder(&holder), Ok(Some(name)) if name.text() == "Sun Power");
    holds(rt, is_named, "the holder's name");
    holds(
        rt,
        is_closed(rt, shelf, 1) == Some(false),
        "an open account",
    );
    holds(
        rt,
        is_closed(rt, shelf, 2) == Some(true),
        "a closed account",
    );
}

/// The device, with the end of its last period.
fn has_a_device<S: Shelf>(rt: &impl Abort, shelf: &mut S) {
    let gsrn = Gsrn::read(b"500000000000000012").expect(rt, "a device");
    let is_known =
        matches!(shelf.device(&gsrn), Ok(Some(device)) if device.capacity_w().get() == 2_000_000);
    holds(rt, is_known, "the device");
    let progress = shelf.progress(&gsrn).expect(rt, "progress");
    let last = Day::read(b"2025-02-28").expect(rt, "a day");
    holds(rt, progress.last_day == Some(last), "the last period");
    holds(rt, progress.carry.get() == 999_998, "the carry");
}

/// What can be taken off the declarations of the device: the net energy of each that begins on the
/// day, less what was taken off.
fn has_declarations<S: Shelf>(rt: &impl Abort, shelf: &mut S) {
    let device = Gsrn::read(b"500000000000000012").expect(rt, "a device");
    let other = Gsrn::read(b"500000000000000029").expect(rt, "a device");
    let january = can_take_off(rt, shelf, &device, b"2025-01-01");
    let february = can_take_off(rt, shelf, &device, b"2025-02-01");
    holds(rt, january == Some(1_198_999_999), "January");
    holds(rt, february == Some(999_999), "February");
    let end = can_take_off(rt, shelf, &device, b"2025-01-31");
    holds(rt, end.is_none(), "a day on which none begins");
    let others = can_take_off(rt, shelf, &other, b"2025-01-01");
    holds(rt, others.is_none(), "another device");
}

/// The first account holds certificates, and the closed one none.
fn has_certificates<S: Shelf>(rt: &impl Abort, shelf: &mut S) {
    let first = AccountNo::new(1).expect(rt, "no account");
    let closed = AccountNo::new(2).expect(rt, "no account");
    holds(rt, matches!(shelf.holds(first), Ok(true)), "some held");
    holds(rt, matches!(shelf.holds(closed), Ok(false)), "none held");
}

/// The totals of the device.
fn are_its_totals(rt: &impl Abort, totals: &[DeviceTotals]) {
    holds(
        rt,
        matches!(totals, [device] if device.declared_wh == 1_200_999_999
            && device.corrected_wh == 1_000_001
            && device.issued == 1_200
            && device.withdrawn_certificates == 1
            && device.carry_wh == 999_998),
        "the totals",
    );
}

/// The other registry, the numbers of the next account and the next withdrawal, and the date.
fn has_a_peer<S: Shelf>(rt: &impl Abort, shelf: &mut S) {
    let nine = RegistryCode::new(9).expect(rt, "no code");
    let today = Day::read(b"2025-04-01").expect(rt, "a day");
    holds(
        rt,
        matches!(shelf.peer(nine), Ok(true)),
        "the other registry",
    );
    let counters = shelf.counters().expect(rt, "counters");
    holds(rt, counters.account() == 3, "the next account");
    holds(rt, counters.withdrawal() == 2, "the next withdrawal");
    holds(rt, shelf.today() == Ok(today), "the date");
}

/// The shelf of a registry that was asked for its members finds them.
pub fn finds_members<S: Shelf>(rt: &impl Abort, alloc: Global, shelf: &mut S) {
    has_accounts(rt, shelf);
    has_a_device(rt, shelf);
    has_declarations(rt, shelf);
    has_certificates(rt, shelf);
    are_its_totals(rt, &shelf.totals(alloc).expect(rt, "totals"));
    has_a_peer(rt, shelf)
}

#[test]
fn in_a_new_registry(rt: HostRuntime) {
    is_alike(&rt, rt.alloc(), LAST, Act::FindsNothing, "nothing")
}

#[test]
fn among_members(rt: HostRuntime) {
    is_alike(&rt, rt.alloc(), 1, Act::FindsMembers, "members")
}

#[test]
fn run_by_run(rt: HostRuntime) {
    is_alike(&rt, rt.alloc(), 1, Act::ShowsRuns, "runs")
}
