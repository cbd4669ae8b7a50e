//! Corrections: their checks, and the certificates that they take back.
ghost use Rattle.std.specs.Prelude.{◌≡◌, None, Some, [], IfOk, IfErr};
ghost use Rattle.std.specs.Option.{option_to_list};
ghost use Rattle.std.specs.FinMap.{get};
ghost use Rattle.goo_types.specs.Piece.{at_of, IsRising};
ghost use Rattle.goo_types.specs.declared.fault.Fault.TheVariants.{Memory};
ghost use Rattle.goo_types.specs.declared.reply.Reply.TheVariants as reply;
ghost use Rattle.goo_spec.specs.Checks.{first_refusal};
ghost use Rattle.goo_spec.specs.Correct.{correct_refusal, correct_reply, with_correction, count_in};
ghost use Rattle.goo_spec.specs.Correct.{is_lot_of as lot_test};
ghost use Rattle.goo_spec.specs.Maps.{each, count_of, least_failing};
ghost use Rattle.goo_spec.specs.Sound.{IsSound};
ghost use Rattle.goo_ranges_rows.specs.Rows.{AreRowsOf};
ghost use Rattle.goo_core_shelf.specs.Shelf.{Looks, IsReady};
ghost use Rattle.goo_core_moves.specs.AccountRuns.{account_runs, runs_in};
ghost use Rattle.goo_core_judges.specs.Correct.{range_checks, entry_by, IsEntry};
ghost use Rattle.goo_core_moves.specs.Moves.{IsChangeRuling};
ghost use Rattle.goo_core_moves.specs.Ruling.{IsRuling, plain_meaning};
ghost use Rattle.goo_core_moves.specs.Withdraw.{withdrawn};

use goo_core_moves::range_checks::least_not_held;
use goo_core_moves::withdraw::withdraw_met;
use goo_core_reads::callers::is_issuer;
use goo_core_rules::correct::lower;
use goo_core_rules::ruling::{Change, Ruling};
use goo_core_shelf::own::Meta;
use goo_core_shelf::shelf::Shelf;
use goo_ranges::Book;
use goo_types::act_no::ActNo;
use goo_types::command::Correct;
use goo_types::fault::Fault;
use goo_types::gsrn::Gsrn;
use goo_types::holder_code::HolderCode;
use goo_types::lot::Lot;
use goo_types::number::Number;
use goo_types::piece::Piece;
use goo_types::range::Range;
use goo_types::refusal::Refusal;
use goo_types::registry_code::RegistryCode;
use goo_types::reply::Reply;
use goo_types::wh::Wh;
use std::alloc::Global;

/// How many numbers a range has, if there is one.
fn count_of_any(range: Option<Range>) -> u64
    ensures { result ≡ count_in range }
{
    match range {
        Some(range) => range.len(),
        None => 0,
    }
}

/// The carry that a correction leaves a device with this carry, whose declaration has so much left;
/// or why it is refused.
fn carry_left(carry: Wh, left: Option<Wh>, correct: &Correct) -> Result<u64, Refusal>
    ensures { result ≡ entry_by carry left correct.now }
{
    let Some(left) = left else {
        return Err(Refusal::UnknownDeclaration);
    };
    if left.get() < correct.less.get() {
        return Err(Refusal::OverCorrected);
    }
    let lowered = lower(carry, correct.less);
    if count_of_any(correct.range) == lowered.count {
        Ok(lowered.carry)
    } else {
        Err(Refusal::WrongCount)
    }
}

/// The carry that a correction leaves its device, or the first check that fails of those before the
/// ones over its range.
fn enter<S: Shelf>(
    shelf: &mut S,
    caller: &HolderCode,
    correct: &Correct,
) -> Result<Result<u64, Refusal>, Fault>
    requires ready { IsReady (S.seen shelf.old) }
    requires sound { (S.seen shelf.old).defects ≡ 0 → IsSound (S.seen shelf.old).state }
    ensures { Looks (S.seen shelf.old) (S.seen shelf.new) result
        (IsEntry (S.seen shelf.old).state caller.now correct.now) }
{
    if !is_issuer(caller) {
        return Ok(Err(Refusal::NotAllowed));
    }
    let Some(found) = shelf.device_record(&correct.device)? else {
        return Ok(Err(Refusal::UnknownDevice));
    };
    let left = shelf.correctable(&correct.device, correct.first_day)?;
    Ok(carry_left(found.progress.carry, left, correct))
}

/// Whether a lot is the registry's own, of the device.
fn is_lot_of(own: RegistryCode, device: &Gsrn, lot: &Lot) -> bool
    ensures { result ≡ lot_test own device.now lot.now }
{
    lot.origin() == own && lot.device() == *device
}

/// The least number of the range that is there and whose lot isn't an own one of the device.
fn least_other(book: &Book, range: Range, own: RegistryCode, device: Gsrn) -> Option<Number>
    ensures { result
        ≡ least_failing (λ lot place. lot_test own device lot) (at_of book.now) (each range) }
{
    book.least_not(
        range,
        move |lot, _| -> bool
            ensures { result ≡ lot_test own device lot }
        { is_lot_of(own, &device, &lot) },
    )
}

/// The ruling on a correction that withdraws certificates, from the rows that its range meets.
fn correct_certificates(
    alloc: Global,
    met: Vec<Piece>,
    device: &Gsrn,
    range: Range,
    meta: Meta,
    carry: u64,
) -> Result<Ruling, Fault>
    requires { IsRising met.items }
    ensures ruling { IfOk result
        (IsChangeRuling
        (first_refusal
        (range_checks (at_of met.items) meta.code meta.counters.withdrawal device.now range))
        (reply.Corrected carry (count_of range) (Some meta.counters.withdrawal)) None range
        (withdrawn range meta.counters.withdrawal)
        (account_runs (at_of met.items) range) met.items) }
    ensures memory { IfErr result (λ fault. fault ≡ Memory) }
{
    let book = Book::of_rows(met);
    if let Some(number) = book.least_missing(range) {
        return Ok(Ruling::Refused(Refusal::UnknownNumber(number)));
    }
    if let Some(number) = least_other(&book, range, meta.code, *device) {
        return Ok(Ruling::Refused(Refusal::OtherDevice(number)));
    }
    if let Some(number) = least_not_held(&book, range) {
        return Ok(Ruling::Refused(Refusal::NotHeld(number)));
    }
    let Some(withdrawal) = ActNo::new(meta.counters.withdrawal()) else {
        return Ok(Ruling::Refused(Refusal::NumbersExhausted));
    };
    let edits = withdraw_met(alloc, book, range, withdrawal)?;
    Ok(Ruling::Passed(Change {
        reply: Reply::Corrected {
            carry,
            count: range.len(),
            withdrawal: Some(withdrawal),
        },
        edits,
        notice: None,
    }))
}

/// The change of a correction that withdraws nothing.
fn unranged(alloc: Global, carry: u64) -> Change
    ensures answered { result.reply ≡ reply.Corrected carry 0 None }
    ensures edits { result.edits.items ≡ [] }
    ensures sent { result.notice ≡ None }
{
    Change {
        reply: Reply::Corrected {
            carry,
            count: 0,
            withdrawal: None,
        },
        edits: Vec::new(alloc),
        notice: None,
    }
}

/// The ruling on a correction.
///
/// # Errors
///
/// `Store` where the shelf answers it, `Memory` where memory was refused. State and rows stay as
/// they are.
pub fn judge_correct<S: Shelf>(
    alloc: Global,
    shelf: &mut S,
    caller: &HolderCode,
    correct: &Correct,
) -> Result<Ruling, Fault>
    requires ready { IsReady (S.seen shelf.old) }
    requires sound { (S.seen shelf.old).defects ≡ 0 → IsSound (S.seen shelf.old).state }
    requires rows { (S.seen shelf.old).defects ≡ 0
        → AreRowsOf (S.seen shelf.old).state.at (S.seen shelf.old).rows }
    ensures { Looks (S.seen shelf.old) (S.seen shelf.new) result
        (IsRuling
        (plain_meaning (correct_refusal (S.seen shelf.old).state caller.now correct.now)
        (correct_reply (S.seen shelf.old).state correct.now)
        (with_correction (S.seen shelf.old).state correct.now).at
        (λ rows. runs_in (get (S.seen shelf.old).state.at) correct.now.range)
        (option_to_list correct.now.range)) (S.seen shelf.old).rows) }
{
    let carry = match enter(shelf, caller, correct)? {
        Ok(carry) => carry,
        Err(refusal) => return Ok(Ruling::Refused(refusal)),
    };
    let Some(range) = correct.range else {
        return Ok(Ruling::Passed(unranged(alloc, carry)));
    };
    let meta = shelf.registry()?;
    let met = shelf.meeting(alloc, range)?;
    correct_certificates(alloc, met, &correct.device, range, meta, carry)
}
