//! An account's row, and its certificates run by run.

ghost use Rattle.std.specs.Prelude.{◌≡◌, Some, IfOk, IfSome, OnErr};
ghost use Rattle.goo_core_reads.specs.Ahead.{IsSeen, IsPlaceAfter};
ghost use Rattle.goo_ranges_rows.specs.Rows.{AreRowsOf};
ghost use Rattle.goo_spec.specs.Sound.{IsSound};
ghost use Rattle.goo_core_shelf.specs.Shelf.{Looks, IsReady};
ghost use Rattle.goo_spec_runs.specs.NextRun.{from_of, BeginsFrom};
ghost use Rattle.goo_registry_reads.specs.AccountReads.{IsAccountShown, IsHeadingShown};
ghost use Rattle.goo_registry_reads.specs.AccountReads.{IsRunRead, IsRunShown};

use crate::access::{absent_denial, account_denial};
use crate::heading::Heading;
use goo_core_reads::denial::Denial;
use goo_core_reads::next_run::next_run_naming;
use goo_core_reads::run_place::RunPlace;
use goo_core_shelf::account::Account;
use goo_core_shelf::shelf::Shelf;
use goo_types::account_no::AccountNo;
use goo_types::fault::Fault;
use goo_types::holder_code::HolderCode;
use goo_types::piece::Piece;

/// An account, or why it isn't shown.
fn find_account<S: Shelf>(
    shelf: &mut S,
    caller: &HolderCode,
    account: AccountNo,
) -> Result<Result<Account, Denial>, Fault>
    ensures { Looks (S.seen shelf.old) (S.seen shelf.new) result
        (IsAccountShown (S.seen shelf.old).state caller.now account) }
{
    let found = shelf.account(account)?;
    if let Some(denial) = account_denial(caller, &found) {
        return Ok(Err(denial));
    }
    match found {
        Some(account) => Ok(Ok(account)),
        None => Ok(Err(absent_denial(caller))),
    }
}

/// What stands before an account's certificates, or why it isn't shown.
///
/// # Errors
///
/// `Store` where the shelf answers it, `Memory` where memory was refused. State and rows stay as
/// they are. Within an answer, `NotAllowed` to a caller who is neither the issuing body nor the
/// account's holder, and `Unknown` to the issuing body for an account that isn't there.
pub fn find_heading<S: Shelf>(
    shelf: &mut S,
    caller: &HolderCode,
    account: AccountNo,
) -> Result<Result<Heading, Denial>, Fault>
    ensures { Looks (S.seen shelf.old) (S.seen shelf.new) result
        (IsHeadingShown (S.seen shelf.old).state caller.now account) }
{
    let row = match find_account(shelf, caller, account)? {
        Ok(row) => row,
        Err(denial) => return Ok(Err(denial)),
    };
    let own = shelf.registry()?;
    Ok(Ok(Heading {
        code: own.code,
        today: own.today,
        account,
        holder: row.holder(),
        closed: row.is_closed(),
    }))
}

/// The first run of an account's certificates after what was read, whoever asks. The place then lies
/// after it, and where it lay if there is none.
///
/// # Errors
///
/// `Store` where the shelf answers it, `Memory` where memory was refused. State, rows and place
/// stay as they are.
pub fn find_run_after<S: Shelf>(
    shelf: &mut S,
    account: AccountNo,
    place: &mut RunPlace,
) -> Result<Result<Option<Piece>, Denial>, Fault>
    requires rows { (S.seen shelf.old).defects ≡ 0
        → AreRowsOf (S.seen shelf.old).state.at (S.seen shelf.old).rows }
    requires sound { (S.seen shelf.old).defects ≡ 0 → IsSound (S.seen shelf.old).state }
    ensures looks { Looks (S.seen shelf.old) (S.seen shelf.new) result
        (IsRunRead (S.seen shelf.old) account place.old) }
    ensures begins { IfOk result
        (λ shown. IfOk shown (λ found. IfSome found (BeginsFrom (from_of place.old.after)))) }
    ensures place { IfOk result
        (λ shown. IfOk shown (λ found. IsPlaceAfter place.old found place.new)) }
    ensures denied { IfOk result (λ shown. OnErr shown (place.new ≡ place.old)) }
    ensures stays { OnErr result (place.new ≡ place.old) }
    ensures ahead { (S.seen shelf.new).defects ≡ 0
        → IfOk result
        (λ shown. IfOk shown
        (λ found. IfSome found
        (λ run. IsSeen account (Some run.last) (S.seen shelf.old).rows place.new.ahead))) }
{
    let found = next_run_naming(shelf, account, place)?;
    Ok(Ok(found))
}

/// The first run of an account's certificates after what was read, or why it isn't shown. The place
/// then lies after it, and where it lay if there is none.
///
/// # Errors
///
/// `Store` where the shelf answers it, `Memory` where memory was refused. State, rows and place
/// stay as they are. Within an answer, `NotAllowed` to a caller who is neither the issuing body nor
/// the account's holder, and `Unknown` to the issuing body for an account that isn't there.
pub fn find_next_run<S: Shelf>(
    shelf: &mut S,
    caller: &HolderCode,
    account: AccountNo,
    place: &mut RunPlace,
) -> Result<Result<Option<Piece>, Denial>, Fault>
    requires rows { (S.seen shelf.old).defects ≡ 0
        → AreRowsOf (S.seen shelf.old).state.at (S.seen shelf.old).rows }
    requires sound { (S.seen shelf.old).defects ≡ 0 → IsSound (S.seen shelf.old).state }
    ensures looks { Looks (S.seen shelf.old) (S.seen shelf.new) result
        (IsRunShown (S.seen shelf.old) caller.now account place.old) }
    ensures begins { IfOk result
        (λ shown. IfOk shown (λ found. IfSome found (BeginsFrom (from_of place.old.after)))) }
    ensures place { IfOk result
        (λ shown. IfOk shown (λ found. IsPlaceAfter place.old found place.new)) }
    ensures denied { IfOk result (λ shown. OnErr shown (place.new ≡ place.old)) }
    ensures stays { OnErr result (place.new ≡ place.old) }
    ensures ahead { (S.seen shelf.new).defects ≡ 0
        → IfOk result
        (λ shown. IfOk shown
        (λ found. IfSome found
        (λ run. IsSeen account (Some run.last) (S.seen shelf.old).rows place.new.ahead))) }
{
    if let Err(denial) = find_account(shelf, caller, account)? {
        return Ok(Err(denial));
    }
    find_run_after(shelf, account, place)
}
