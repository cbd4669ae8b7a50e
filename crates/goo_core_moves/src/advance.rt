//! Moving the registry's date on: its checks, and the certificates that expire (Directive (EU)
//! 2018/2001, Article 19(3)).
ghost use Rattle.std.specs.Prelude.{◌≡◌, ◌≤◌, ◌<◌, [], length, IfOk, IfErr};
ghost use Rattle.goo_types.specs.Piece.{IsRising};
ghost use Rattle.goo_types.specs.declared.fault.Fault.TheVariants.{Memory};
ghost use Rattle.goo_spec.specs.Advance.{advance_checks, advance_refusal, advance_reply, with_day};
ghost use Rattle.goo_spec.specs.Checks.{first_refusal};
ghost use Rattle.goo_spec.specs.Sound.{IsSound};
ghost use Rattle.goo_ranges_rows.specs.Plans.{IsMoveOf};
ghost use Rattle.goo_ranges_rows.specs.Rows.{AreRowsOf};
ghost use Rattle.goo_core_shelf.specs.Rows.{expiring_on};
ghost use Rattle.goo_core_shelf.specs.Shelf.{Looks, IsReady};
ghost use Rattle.goo_core_moves.specs.Advance.{expired_place, count_in, IsExpiry};
ghost use Rattle.goo_core_moves.specs.Ruling.{IsRuling, plain_meaning};

use crate::edits::push_edit;
use goo_core_reads::callers::is_issuer;
use goo_core_rules::days::is_before;
use goo_core_rules::ruling::{Change, Ruling};
use goo_core_shelf::shelf::Shelf;
use goo_ranges::Edit;
use goo_types::command::Advance;
use goo_types::day::Day;
use goo_types::fault::Fault;
use goo_types::holder_code::HolderCode;
use goo_types::piece::Piece;
use goo_types::place::Place;
use goo_types::refusal::Refusal;
use goo_types::reply::Reply;
use std::alloc::{AllocError, Global};

/// The checks of moving the date on.
#[tactic(auto, unfolding(goo_spec::specs::Advance::advance_refusal))]
fn entry_refusal<S: Shelf>(
    shelf: &mut S,
    caller: &HolderCode,
    advance: &Advance,
) -> Result<Option<Refusal>, Fault>
    requires { IsReady (S.seen shelf.old) }
    ensures { Looks (S.seen shelf.old) (S.seen shelf.new) result
        (λ refusal. refusal ≡ advance_refusal (S.seen shelf.old).state caller.now advance.now) }
{
    if !is_issuer(caller) {
        return Ok(Some(Refusal::NotAllowed));
    }
    if !is_before(shelf.today()?, advance.day) {
        return Ok(Some(Refusal::DateBackwards));
    }
    Ok(None)
}

/// How many certificates a row has.
fn count_of_row(row: &Piece) -> u64
    requires { row.now.first ≤ row.now.last }
    ensures value { result ≡ count_in row.now }
    ensures limit { row.now.last < 100_000_000_000_000 }
{
    1 + row.last.get() - row.first.get()
}

/// The edit that lets the certificates of a row expire.
fn expire_row(alloc: Global, row: &Piece) -> Result<Edit, AllocError>
    ensures { IfOk result (IsMoveOf expired_place row.now) }
{
    let mut delete = Vec::new(alloc);
    delete.push(row.first)?;
    let mut insert = Vec::new(alloc);
    insert.push(Piece {
        first: row.first,
        last: row.last,
        lot: row.lot,
        place: Place::Expired(row.place.account()),
    })?;
    Ok(Edit { delete, insert })
}

/// What lets the certificates of some rows expire.
#[derive(Drop)]
struct Expiry {
    /// One edit for each row.
    edits: Vec<Edit>,
    /// How many certificates there are.
    expired: u64,
}

/// Lets the certificates expire whose lot is over on a day, row by row: the edit of a row is made
/// as it is found, so that no more than one row is held at a time.
fn expire_rows<S: Shelf>(alloc: Global, shelf: &mut S, day: Day) -> Result<Expiry, Fault>
    requires ready { IsReady (S.seen shelf.old) }
    requires rising { (S.seen shelf.old).defects ≡ 0 → IsRising (S.seen shelf.old).rows }
    ensures { Looks (S.seen shelf.old) (S.seen shelf.new) result
        (λ expiry. IsExpiry
        (expiring_on day (S.seen shelf.old).rows) expiry.edits.items expiry.expired) }
{
    let mut edits = Vec::new(alloc);
    let mut expired: u64 = 0;
    let mut after = None;
    loop {
        let Some(row) = shelf.next_expiring(day, after)? else {
            return Ok(Expiry { edits, expired });
        };
        // Only rows of a store that lies can have so many certificates that this isn't their sum.
        expired = expired.saturating_add(count_of_row(&row));
        let edit = expire_row(alloc, &row)?;
        push_edit(&mut edits, edit)?;
        after = Some(row.last);
    }
}

/// The ruling on moving the date on.
///
/// # Errors
///
/// `Store` where the shelf answers it, `Memory` where memory was refused. State and rows stay as
/// they are.
pub fn judge_advance<S: Shelf>(
    alloc: Global,
    shelf: &mut S,
    caller: &HolderCode,
    advance: &Advance,
) -> Result<Ruling, Fault>
    requires ready { IsReady (S.seen shelf.old) }
    requires sound { (S.seen shelf.old).defects ≡ 0 → IsSound (S.seen shelf.old).state }
    requires rows { (S.seen shelf.old).defects ≡ 0
        → AreRowsOf (S.seen shelf.old).state.at (S.seen shelf.old).rows }
    ensures { Looks (S.seen shelf.old) (S.seen shelf.new) result
        (IsRuling
        (plain_meaning (advance_refusal (S.seen shelf.old).state caller.now advance.now)
        (advance_reply (S.seen shelf.old).state advance.now)
        (with_day (S.seen shelf.old).state advance.now).at
        (λ rows. length (expiring_on advance.now.day rows)) []) (S.seen shelf.old).rows) }
{
    if let Some(refusal) = entry_refusal(shelf, caller, advance)? {
        return Ok(Ruling::Refused(refusal));
    }
    let expiry = expire_rows(alloc, shelf, advance.day)?;
    Ok(Ruling::Passed(Change {
        reply: Reply::Advanced {
            expired: expiry.expired,
        },
        edits: expiry.edits,
        notice: None,
    }))
}
