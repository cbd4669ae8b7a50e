//! Declarations: their checks, and the certificates that they earn (Directive (EU) 2018/2001,
//! Article 19(2)).
ghost use Rattle.std.specs.Prelude.{◌≡◌, ◌+◌, ◌-◌, ◌≤◌, ◌*◌, ◌/◌, ◌%◌, ◌||◌, true, false, nat_lt};
ghost use Rattle.std.specs.Prelude.{IfErr, IfOk};
ghost use Rattle.std.specs.Option.{option_to_list};
ghost use Rattle.goo_types.specs.declared.fault.Fault.TheVariants.{Memory};
ghost use Rattle.goo_types.specs.declared.refusal.Refusal.TheVariants.{NumbersExhausted};
ghost use Rattle.goo_types.specs.declared.command.Declare.{Declare};
ghost use Rattle.goo_spec.specs.Checks.{is_shut as shut_test};
ghost use Rattle.goo_spec.specs.Checks.{first_refusal, when};
ghost use Rattle.goo_spec.specs.Days.{is_before as before_test, are_in_one_month as one_month_test};
ghost use Rattle.goo_spec.specs.State.{State, serials};
ghost use Rattle.goo_spec.specs.Declare.{device_checks, earned, next_number, range_of};
ghost use Rattle.goo_spec.specs.Declare.{lot_of as lot_def, begins_too_early as early_test};
ghost use Rattle.goo_spec.specs.Declare.{most_energy as most};
ghost use Rattle.goo_spec.specs.Declare.{declare_refusal, declare_reply, with_issue};
ghost use Rattle.goo_spec.specs.Energy.{lowered, total};
ghost use Rattle.goo_spec.specs.Sound.{IsSound};
ghost use Rattle.goo_ranges_rows.specs.Rows.{AreRowsOf};
ghost use Rattle.goo_core_shelf.specs.Shelf.{Looks, IsReady};
ghost use Rattle.goo_core_moves.specs.Ruling.{IsRuling, plain_meaning};
ghost use Rattle.goo_core_judges.specs.Issue.{IsStandingIf, IsStanding, appraisal_of, appraisal_with};
ghost use Rattle.goo_core_judges.specs.Issue.{IsIssueRuling, terms_of, energy_checks};

use crate::issue::{Appraisal, Terms, issue_edits, issue_of, issued_range, numbers_from};
use goo_core_reads::callers::is_issuer;
use goo_core_rules::days::{is_before, is_over};
use goo_core_rules::declare::{Earnings, earn};
use goo_core_rules::ruling::{Change, Ruling};
use goo_core_shelf::account::Account;
use goo_core_shelf::device::Device;
use goo_core_shelf::found::Progress;
use goo_core_shelf::own::Meta;
use goo_core_shelf::shelf::Shelf;
use goo_types::command::Declare;
use goo_types::day::Day;
use goo_types::fault::Fault;
use goo_types::gsrn::Gsrn;
use goo_types::holder_code::HolderCode;
use goo_types::limits::SERIALS;
use goo_types::lot::Lot;
use goo_types::refusal::Refusal;
use goo_types::reply::Reply;
use std::alloc::Global;

/// What a declaration is judged by.
#[derive(Clone, Copy)]
pub struct Standing {
    /// The device.
    pub device: Device,
    /// Its account.
    pub account: Option<Account>,
    /// Its last accepted period, and its carry.
    pub progress: Progress,
    /// What the registry knows of itself.
    pub meta: Meta,
}

/// Whether an account is there and closed.
fn is_shut(account: Option<Account>) -> bool
    ensures { result ≡ shut_test account }
{
    match account {
        Some(account) => account.is_closed(),
        None => false,
    }
}

/// Whether both days are in one month of the calendar.
fn are_in_one_month(first_day: Day, last_day: Day) -> bool
    ensures { result ≡ one_month_test first_day last_day }
{
    first_day.is_in_month_of(last_day)
}

/// Whether a period that begins then isn't after another's end.
fn begins_too_early(last_day: Option<Day>, first_day: Day) -> bool
    ensures { result ≡ early_test last_day first_day }
{
    match last_day {
        Some(last_day) => !is_before(last_day, first_day),
        None => false,
    }
}

/// The lot of the certificates that a declaration earns.
fn lot_of(declaration: &Declare, standing: &Standing) -> Lot
    requires period { before_test declaration.now.last_day declaration.now.first_day ≡ false }
    requires month { one_month_test declaration.now.first_day declaration.now.last_day ≡ true }
    requires past { before_test declaration.now.last_day standing.now.meta.today ≡ true }
    requires commissioned { before_test declaration.now.first_day standing.now.device.commissioned
        ≡ false }
    ensures { (s : State) → IsStanding s declaration.now.device standing.now
        → result ≡ lot_def s declaration.now standing.now.device }
{
    let fields = standing
        .device
        .lot_fields(standing.meta.code, declaration, standing.meta.today);
    Lot::new(fields).unwrap()
}

/// The most energy in Wh that a device can have produced in a period; the one hour more is for the
/// change of the clocks.
fn most_energy(device: &Device, declaration: &Declare) -> u128
    requires { before_test declaration.now.last_day declaration.now.first_day ≡ false }
    ensures { result ≡ most device.now declaration.now }
{
    let days = declaration.first_day.days_to(declaration.last_day);
    u128::from(device.capacity_w().get()) * (24 * u128::from(days) + 1)
}

/// What a declaration is judged by, if its device is known.
fn read_standing<S: Shelf>(shelf: &mut S, device: &Gsrn) -> Result<Option<Standing>, Fault>
    ensures { Looks (S.seen shelf.old) (S.seen shelf.new) result
        (λ standing. IsStandingIf (S.seen shelf.old).state device.now standing) }
{
    let Some(found) = shelf.device_record(device)? else {
        return Ok(None);
    };
    let account = shelf.account(found.device.account())?;
    let meta = shelf.registry()?;
    Ok(Some(Standing {
        device: found.device,
        account,
        progress: found.progress,
        meta,
    }))
}

/// What a declaration earns: a certificate for each whole MWh of the net energy with the carry
/// (Directive (EU) 2018/2001, Article 19(2)).
#[tactic(auto, using(goo_spec::proofs::Balancing::earned_from_carry, goo_spec::proofs::Balancing::carry_from_carry))]
fn settle(declaration: &Declare, standing: &Standing, lot: &Lot) -> Appraisal
    requires { declaration.now.aux ≤ declaration.now.gross }
    ensures { (s : State) → lowered s declaration.now.device ≤ total s declaration.now.device
        → IsStanding s declaration.now.device standing.now
        → lot.now ≡ lot_def s declaration.now standing.now.device
        → result
        ≡ appraisal_with
        (when (nat_lt serials (s.next_serial + earned s declaration.now)) NumbersExhausted)
        (terms_of s declaration.now standing.now.device) }
{
    let Earnings { count, carry } = earn(standing.progress.carry, declaration);
    let serial = standing.meta.counters.serial();
    if SERIALS < serial + count {
        return Appraisal::Fails(Refusal::NumbersExhausted);
    }
    let issued = numbers_from(standing.meta.code, serial, count);
    Appraisal::Passes(Terms {
        carry,
        issue: issue_of(issued, lot, standing.device.account()),
    })
}

/// The appraisal of a declaration, by the checks against its device's earlier ones and its
/// capacity.
#[tactic(auto, unfolding(goo_spec::specs::Days::is_over))]
fn appraise_energy(declaration: &Declare, standing: &Standing, lot: &Lot) -> Appraisal
    requires { before_test declaration.now.last_day declaration.now.first_day ≡ false }
    ensures { (s : State) → lowered s declaration.now.device ≤ total s declaration.now.device
        → IsStanding s declaration.now.device standing.now
        → lot.now ≡ lot_def s declaration.now standing.now.device
        → result
        ≡ appraisal_with (first_refusal (energy_checks s declaration.now standing.now.device))
        (terms_of s declaration.now standing.now.device) }
{
    if begins_too_early(standing.progress.last_day, declaration.first_day) {
        return Appraisal::Fails(Refusal::PeriodOrder);
    }
    if is_over(lot, standing.meta.today) {
        return Appraisal::Fails(Refusal::Stale);
    }
    let gross = declaration.gross.get();
    if gross < declaration.aux.get() {
        return Appraisal::Fails(Refusal::AuxExceedsGross);
    }
    if most_energy(&standing.device, declaration) < u128::from(gross) {
        return Appraisal::Fails(Refusal::OverCapacity);
    }
    settle(declaration, standing, lot)
}

/// The appraisal of a declaration, by the checks that ask for its device.
fn appraise_standing(declaration: &Declare, standing: &Standing) -> Appraisal
    ensures { (s : State) → lowered s declaration.now.device ≤ total s declaration.now.device
        → IsStanding s declaration.now.device standing.now
        → result
        ≡ appraisal_with (first_refusal (device_checks s declaration.now standing.now.device))
        (terms_of s declaration.now standing.now.device) }
{
    if is_shut(standing.account) {
        return Appraisal::Fails(Refusal::AccountClosed);
    }
    if is_before(declaration.last_day, declaration.first_day)
        || !are_in_one_month(declaration.first_day, declaration.last_day)
    {
        return Appraisal::Fails(Refusal::PeriodSpan);
    }
    if !is_before(declaration.last_day, standing.meta.today) {
        return Appraisal::Fails(Refusal::FuturePeriod);
    }
    if is_before(declaration.first_day, standing.device.commissioned()) {
        return Appraisal::Fails(Refusal::BeforeCommissioning);
    }
    let lot = lot_of(declaration, standing);
    appraise_energy(declaration, standing, &lot)
}

/// The appraisal of a declaration, by all its checks.
///
/// # Errors
///
/// `Store` where the shelf answers it, `Memory` where memory was refused. State and rows stay as
/// they are.
#[tactic(auto, unfolding(crate::specs::Issue::appraisal_of))]
pub fn appraise<S: Shelf>(
    shelf: &mut S,
    caller: &HolderCode,
    declaration: &Declare,
) -> Result<Appraisal, Fault>
    requires ready { IsReady (S.seen shelf.old) }
    requires sound { (S.seen shelf.old).defects ≡ 0 → IsSound (S.seen shelf.old).state }
    ensures { Looks (S.seen shelf.old) (S.seen shelf.new) result
        (λ appraisal. appraisal
        ≡ appraisal_of (S.seen shelf.old).state caller.now declaration.now) }
{
    if !is_issuer(caller) {
        return Ok(Appraisal::Fails(Refusal::NotAllowed));
    }
    match read_standing(shelf, &declaration.device)? {
        Some(standing) => Ok(appraise_standing(declaration, &standing)),
        None => Ok(Appraisal::Fails(Refusal::UnknownDevice)),
    }
}

/// The ruling that issues what a declaration earns.
fn issue(alloc: Global, terms: Terms) -> Result<Ruling, Fault>
    ensures ruling { IfOk result (IsIssueRuling terms) }
    ensures memory { IfErr result (λ fault. fault ≡ Memory) }
{
    let edits = issue_edits(alloc, terms.issue)?;
    Ok(Ruling::Passed(Change {
        reply: Reply::Declared {
            carry: terms.carry,
            issued: issued_range(&terms.issue),
        },
        edits,
        notice: None,
    }))
}

/// The ruling on a declaration.
///
/// # Errors
///
/// `Store` where the shelf answers it, `Memory` where memory was refused. State and rows stay as
/// they are.
pub fn judge_declare<S: Shelf>(
    alloc: Global,
    shelf: &mut S,
    caller: &HolderCode,
    declaration: &Declare,
) -> Result<Ruling, Fault>
    requires ready { IsReady (S.seen shelf.old) }
    requires sound { (S.seen shelf.old).defects ≡ 0 → IsSound (S.seen shelf.old).state }
    requires rows { (S.seen shelf.old).defects ≡ 0
        → AreRowsOf (S.seen shelf.old).state.at (S.seen shelf.old).rows }
    ensures { Looks (S.seen shelf.old) (S.seen shelf.new) result
        (IsRuling
        (plain_meaning (declare_refusal (S.seen shelf.old).state caller.now declaration.now)
        (declare_reply (S.seen shelf.old).state declaration.now)
        (with_issue (S.seen shelf.old).state declaration.now).at
        (λ rows. 1)
        (option_to_list
        (range_of (next_number (S.seen shelf.old).state)
        (earned (S.seen shelf.old).state declaration.now)))) (S.seen shelf.old).rows) }
{
    match appraise(shelf, caller, declaration)? {
        Appraisal::Fails(refusal) => Ok(Ruling::Refused(refusal)),
        Appraisal::Passes(terms) => issue(alloc, terms),
    }
}
