//! Imports: their checks, and the certificates of notices that they take in.
ghost use Rattle.std.specs.Prelude.{◌≡◌, ◌≤◌, ◌<◌, List, [], ◌∷◌, ◌++◌, length, sum_by, None, IfOk};
ghost use Rattle.std.specs.Prelude.{IfErr, OnOk};
ghost use Rattle.goo_types.specs.Piece.{IsRising};
ghost use Rattle.goo_types.specs.Notice.{IsWhole};
ghost use Rattle.goo_types.specs.declared.fault.Fault.TheVariants.{Memory};
ghost use Rattle.goo_types.specs.declared.piece.Piece.{Piece as Row};
ghost use Rattle.goo_spec.specs.Checks.{first_refusal};
ghost use Rattle.goo_spec.specs.Maps.{count_of};
ghost use Rattle.goo_ranges_rows.specs.Rows.{AreRowsOf};
ghost use Rattle.goo_core_shelf.specs.Meta.{meta_of};
ghost use Rattle.goo_core_shelf.specs.Shelf.{Looks, IsReady};
ghost use Rattle.goo_core_judges.specs.Import.{IsEntry, IsArriving, AreArriving, standing_checks};
ghost use Rattle.goo_core_judges.specs.Import.{fresh_meaning, import_meaning};
ghost use Rattle.goo_core_judges.specs.Taking.{IsTakeRuling, AreMet};
ghost use Rattle.goo_core_moves.specs.Ruling.{IsRuling};

use crate::taking::take_parts;
use goo_core_moves::arriving::{Arriving, is_stale, numbers_refusal};
use goo_core_reads::callers::is_issuer;
use goo_core_rules::import::is_for_another_registry;
use goo_core_rules::ruling::{Change, Ruling};
use goo_core_shelf::found::Arrival;
use goo_core_shelf::own::Meta;
use goo_core_shelf::shelf::Shelf;
use goo_ranges::Book;
use goo_types::account_no::AccountNo;
use goo_types::command::Import;
use goo_types::day::Day;
use goo_types::fault::Fault;
use goo_types::holder_code::HolderCode;
use goo_types::part::Part;
use goo_types::refusal::Refusal;
use goo_types::registry_code::RegistryCode;
use goo_types::reply::Reply;
use std::alloc::{AllocError, Global};

/// What the registry knows of itself, or the first check before that for the same notice that
/// fails.
fn enter<S: Shelf>(
    shelf: &mut S,
    caller: &HolderCode,
    import: &Import,
) -> Result<Result<Meta, Refusal>, Fault>
    requires { IsReady (S.seen shelf.old) }
    ensures { Looks (S.seen shelf.old) (S.seen shelf.new) result
        (IsEntry (S.seen shelf.old).state caller.now import.now) }
{
    if !is_issuer(caller) {
        return Ok(Err(Refusal::NotAllowed));
    }
    let meta = shelf.registry()?;
    if is_for_another_registry(&import.notice, meta.code) {
        return Ok(Err(Refusal::WrongRegistry));
    }
    if !shelf.peer(import.notice.sender())? {
        return Ok(Err(Refusal::UnknownPeer));
    }
    Ok(Ok(meta))
}

/// The checks of the account that is to hold the certificates, and of their age on a day.
fn standing_refusal<S: Shelf>(
    shelf: &mut S,
    import: &Import,
    today: Day,
) -> Result<Option<Refusal>, Fault>
    ensures { Looks (S.seen shelf.old) (S.seen shelf.new) result
        (λ refusal. today ≡ (S.seen shelf.old).state.today
        → refusal ≡ first_refusal (standing_checks (S.seen shelf.old).state import.now)) }
{
    let Some(account) = shelf.account(import.notice.account())? else {
        return Ok(Some(Refusal::UnknownAccount));
    };
    if account.is_closed() {
        return Ok(Some(Refusal::AccountClosed));
    }
    if is_stale(import.notice.parts(), today) {
        return Ok(Some(Refusal::Stale));
    }
    Ok(None)
}

/// What is known of a part.
fn arrive<S: Shelf>(alloc: Global, shelf: &mut S, part: &Part) -> Result<Arriving, Fault>
    ensures { Looks (S.seen shelf.old) (S.seen shelf.new) result
        (IsArriving (S.seen shelf.old).state (S.seen shelf.old).rows part.now) }
{
    let lot = part.lot;
    let known = shelf.lot(lot.origin(), &lot.device(), lot.first_day())?;
    let rows = shelf.meeting(alloc, part.range)?;
    Ok(Arriving {
        part: *part,
        book: Book::of_rows(rows),
        known,
    })
}

/// Puts one more part behind others.
fn push_arriving(arriving: &mut Vec<Arriving>, part: Arriving) -> Result<(), AllocError>
    ensures { OnOk result (arriving.new.items ≡ arriving.old.items ++ part ∷ []) }
{
    arriving.push(part)?;
    Ok(())
}

/// What is known of the parts of a notice.
fn arrive_all<S: Shelf>(
    alloc: Global,
    shelf: &mut S,
    parts: &[Part],
) -> Result<Vec<Arriving>, Fault>
    requires { IsReady (S.seen shelf.old) }
    ensures { Looks (S.seen shelf.old) (S.seen shelf.new) result
        (λ arriving. AreArriving (S.seen shelf.old).state
        (S.seen shelf.old).rows parts.now arriving.items) }
{
    let mut arriving = Vec::new(alloc);
    for part in parts {
        let found = arrive(alloc, shelf, part)?;
        push_arriving(&mut arriving, found)?;
    }
    Ok(arriving)
}

/// How many certificates a part has.
fn count_in(part: &Part) -> u64
    ensures value { result ≡ count_of part.now.range }
    ensures limit { result ≤ 100_000_000_000_000 }
{
    let _first = part.range.first().get();
    let _last = part.range.last().get();
    part.range.len()
}

/// How many certificates some parts have.
fn count_in_all(parts: &[Part]) -> u64
    requires { length parts.now ≤ 100 }
    ensures { result ≡ sum_by (λ p. count_of p.range) parts.now }
{
    let mut count = 0;
    for part in parts {
        count += count_in(part);
    }
    count
}

/// The ruling on taking in a notice's certificates. That the rows make no book is told as a
/// conflict: those of a shelf always do.
fn take_in(
    alloc: Global,
    arriving: &[Arriving],
    own: RegistryCode,
    account: AccountNo,
    count: u64,
) -> Result<Ruling, Fault>
    ensures ruling { (rows : List Row) → IsRising rows → AreMet rows arriving.now
        → IfOk result (IsTakeRuling rows arriving.now own account count) }
    ensures memory { IfErr result (λ fault. fault ≡ Memory) }
{
    if let Some(refusal) = numbers_refusal(own, arriving) {
        return Ok(Ruling::Refused(refusal));
    }
    match take_parts(alloc, arriving, account)? {
        Some(edits) => Ok(Ruling::Passed(Change {
            reply: Reply::Imported { count },
            edits,
            notice: None,
        })),
        // Rows that a shelf keeps rise, so they make a book, and this never comes. A shelf that
        // lies could still hand out others; a refusal changes nothing then.
        None => Ok(Ruling::Refused(Refusal::NoticeConflict)),
    }
}

/// The ruling on an import whose notice is new, once its account may hold, in the registry of a
/// code.
fn import_certificates<S: Shelf>(
    alloc: Global,
    shelf: &mut S,
    import: &Import,
    own: RegistryCode,
) -> Result<Ruling, Fault>
    requires ready { IsReady (S.seen shelf.old) }
    requires rows { (S.seen shelf.old).defects ≡ 0
        → AreRowsOf (S.seen shelf.old).state.at (S.seen shelf.old).rows }
    ensures { Looks (S.seen shelf.old) (S.seen shelf.new) result
        (λ ruling. own ≡ (S.seen shelf.old).state.own
        → first_refusal (standing_checks (S.seen shelf.old).state import.now) ≡ None
        → IsRuling (fresh_meaning (S.seen shelf.old).state import.now)
        (S.seen shelf.old).rows ruling) }
{
    let notice = &import.notice;
    let parts = notice.parts();
    let count = count_in_all(parts);
    let account = notice.account();
    let arriving = arrive_all(alloc, shelf, parts)?;
    take_in(alloc, &arriving, own, account, count)
}

/// The ruling on an import whose notice is new, in a registry that knows this of itself.
fn judge_fresh<S: Shelf>(
    alloc: Global,
    shelf: &mut S,
    import: &Import,
    meta: &Meta,
) -> Result<Ruling, Fault>
    requires { (S.seen shelf.old).defects ≡ 0
        → AreRowsOf (S.seen shelf.old).state.at (S.seen shelf.old).rows }
    ensures { Looks (S.seen shelf.old) (S.seen shelf.new) result
        (λ ruling. meta.now ≡ meta_of (S.seen shelf.old).state
        → IsRuling (fresh_meaning (S.seen shelf.old).state import.now)
        (S.seen shelf.old).rows ruling) }
{
    if let Some(refusal) = standing_refusal(shelf, import, meta.today)? {
        return Ok(Ruling::Refused(refusal));
    }
    import_certificates(alloc, shelf, import, meta.code)
}

/// The ruling on an import.
///
/// # Errors
///
/// `Store` where the shelf answers it, `Memory` where memory was refused. State and rows stay as
/// they are.
pub fn judge_import<S: Shelf>(
    alloc: Global,
    shelf: &mut S,
    caller: &HolderCode,
    import: &Import,
) -> Result<Ruling, Fault>
    requires ready { IsReady (S.seen shelf.old) }
    requires rows { (S.seen shelf.old).defects ≡ 0
        → AreRowsOf (S.seen shelf.old).state.at (S.seen shelf.old).rows }
    ensures { Looks (S.seen shelf.old) (S.seen shelf.new) result
        (IsRuling (import_meaning (S.seen shelf.old).state caller.now import.now)
        (S.seen shelf.old).rows) }
{
    let meta = match enter(shelf, caller, import)? {
        Ok(meta) => meta,
        Err(refusal) => return Ok(Ruling::Refused(refusal)),
    };
    match shelf.arrived(alloc, &import.notice)? {
        Arrival::Same => Ok(Ruling::Repeated(Reply::Imported {
            count: count_in_all(import.notice.parts()),
        })),
        Arrival::Other => Ok(Ruling::Refused(Refusal::NoticeConflict)),
        Arrival::Absent => judge_fresh(alloc, shelf, import, &meta),
    }
}
