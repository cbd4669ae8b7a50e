//! Transfers: their checks, and the certificates that they move.
ghost use Rattle.std.specs.Prelude.{◌≡◌, [], ◌∷◌, None, IfOk, IfErr};
ghost use Rattle.goo_spec.specs.Checks.{first_refusal};
ghost use Rattle.goo_core_shelf.specs.Shelf.{Looks, IsReady};
ghost use Rattle.goo_core_moves.specs.Transfer.{entry_checks};
ghost use Rattle.goo_core_rules.specs.Trade.{trade_checks};
ghost use Rattle.goo_spec.specs.Transfer.{transfer_refusal, transfer_reply, with_transfer};
ghost use Rattle.goo_ranges_rows.specs.Rows.{AreRowsOf};
ghost use Rattle.goo_core_moves.specs.Moves.{IsMoveRuling};
ghost use Rattle.goo_core_moves.specs.Ruling.{IsRuling, plain_meaning};
ghost use Rattle.goo_types.specs.Piece.{at_of, IsRising};
ghost use Rattle.goo_types.specs.declared.fault.Fault.TheVariants.{Memory};
ghost use Rattle.goo_types.specs.declared.place.Place.TheVariants.{Held};
ghost use Rattle.goo_types.specs.declared.reply.Reply.TheVariants.{Moved};
ghost use Rattle.goo_spec.specs.Maps.{count_of};

use goo_core_reads::callers::is_holder;
use goo_core_rules::moved_rows::move_met;
use goo_core_rules::range_checks::trade_refusal;
use goo_core_rules::ruling::{Change, Ruling};
use goo_core_shelf::shelf::Shelf;
use goo_ranges::Book;
use goo_types::command::Transfer;
use goo_types::day::Day;
use goo_types::fault::Fault;
use goo_types::holder_code::HolderCode;
use goo_types::piece::Piece;
use goo_types::place::Place;
use goo_types::refusal::Refusal;
use goo_types::reply::Reply;
use std::alloc::Global;

/// The checks of a transfer before those over its range.
fn entry_refusal<S: Shelf>(
    shelf: &mut S,
    caller: &HolderCode,
    transfer: &Transfer,
) -> Result<Option<Refusal>, Fault>
    requires { IsReady (S.seen shelf.old) }
    ensures { Looks (S.seen shelf.old) (S.seen shelf.new) result
        (λ refusal. refusal
        ≡ first_refusal (entry_checks (S.seen shelf.old).state caller.now transfer.now)) }
{
    if !is_holder(caller, &shelf.account(transfer.giver)?) {
        return Ok(Some(Refusal::NotAllowed));
    }
    if transfer.giver == transfer.taker {
        return Ok(Some(Refusal::SameAccount));
    }
    let Some(taker) = shelf.account(transfer.taker)? else {
        return Ok(Some(Refusal::UnknownAccount));
    };
    if taker.is_closed() {
        return Ok(Some(Refusal::AccountClosed));
    }
    Ok(None)
}

/// The ruling on a transfer, from the rows that its range meets.
fn move_certificates(
    alloc: Global,
    met: Vec<Piece>,
    transfer: &Transfer,
    today: Day,
) -> Result<Ruling, Fault>
    requires { IsRising met.items }
    ensures ruling { IfOk result
        (IsMoveRuling
        (first_refusal (trade_checks (at_of met.items) transfer.now.range transfer.now.giver today))
        (Moved (count_of transfer.now.range)) None transfer.now.range
        (Held transfer.now.taker) met.items) }
    ensures memory { IfErr result (λ fault. fault ≡ Memory) }
{
    let book = Book::of_rows(met);
    if let Some(refusal) = trade_refusal(&book, transfer.range, transfer.giver, today) {
        return Ok(Ruling::Refused(refusal));
    }
    let range = transfer.range;
    let edits = move_met(alloc, book, range, Place::Held(transfer.taker))?;
    Ok(Ruling::Passed(Change {
        reply: Reply::Moved { count: range.len() },
        edits,
        notice: None,
    }))
}

/// The ruling on a transfer.
///
/// # Errors
///
/// `Store` where the shelf answers it, `Memory` where memory was refused. State and rows stay as
/// they are.
pub fn judge_transfer<S: Shelf>(
    alloc: Global,
    shelf: &mut S,
    caller: &HolderCode,
    transfer: &Transfer,
) -> Result<Ruling, Fault>
    requires ready { IsReady (S.seen shelf.old) }
    requires rows { (S.seen shelf.old).defects ≡ 0
        → AreRowsOf (S.seen shelf.old).state.at (S.seen shelf.old).rows }
    ensures { Looks (S.seen shelf.old) (S.seen shelf.new) result
        (IsRuling
        (plain_meaning (transfer_refusal (S.seen shelf.old).state caller.now transfer.now)
        (transfer_reply (S.seen shelf.old).state transfer.now)
        (with_transfer (S.seen shelf.old).state transfer.now).at
        (λ rows. 1) (transfer.now.range ∷ [])) (S.seen shelf.old).rows) }
{
    if let Some(refusal) = entry_refusal(shelf, caller, transfer)? {
        return Ok(Ruling::Refused(refusal));
    }
    let today = shelf.today()?;
    let met = shelf.meeting(alloc, transfer.range)?;
    move_certificates(alloc, met, transfer, today)
}
