//! Cancellations: their checks, and the certificates that they take out of circulation.
ghost use Rattle.std.specs.Prelude.{◌≡◌, [], ◌∷◌, None, IfOk, IfErr};
ghost use Rattle.goo_types.specs.Piece.{at_of, IsRising};
ghost use Rattle.goo_types.specs.declared.fault.Fault.TheVariants.{Memory};
ghost use Rattle.goo_types.specs.declared.place.Place.TheVariants as place;
ghost use Rattle.goo_types.specs.declared.reply.Reply.TheVariants as reply;
ghost use Rattle.goo_spec.specs.Cancel.{cancel_refusal, cancel_reply, with_cancellation};
ghost use Rattle.goo_spec.specs.Checks.{first_refusal};
ghost use Rattle.goo_spec.specs.Maps.{count_of};
ghost use Rattle.goo_ranges_rows.specs.Rows.{AreRowsOf};
ghost use Rattle.goo_core_shelf.specs.Shelf.{Looks, IsReady};
ghost use Rattle.goo_core_moves.specs.Cancel.{entry_checks, range_checks};
ghost use Rattle.goo_core_moves.specs.Moves.{IsMoveRuling};
ghost use Rattle.goo_core_moves.specs.Ruling.{IsRuling, plain_meaning};

use goo_core_reads::callers::is_holder;
use goo_core_rules::days::is_before;
use goo_core_rules::moved_rows::move_met;
use goo_core_rules::range_checks::least_not_held_by;
use goo_core_rules::ruling::{Change, Ruling};
use goo_core_shelf::counters::Counters;
use goo_core_shelf::shelf::Shelf;
use goo_ranges::Book;
use goo_types::act_no::ActNo;
use goo_types::command::Cancel;
use goo_types::fault::Fault;
use goo_types::holder_code::HolderCode;
use goo_types::piece::Piece;
use goo_types::place::Place;
use goo_types::refusal::Refusal;
use goo_types::reply::Reply;
use std::alloc::Global;

/// The checks of a cancellation before those over its range.
fn entry_refusal<S: Shelf>(
    shelf: &mut S,
    caller: &HolderCode,
    cancel: &Cancel,
) -> Result<Option<Refusal>, Fault>
    requires { IsReady (S.seen shelf.old) }
    ensures { Looks (S.seen shelf.old) (S.seen shelf.new) result
        (λ refusal. refusal
        ≡ first_refusal (entry_checks (S.seen shelf.old).state caller.now cancel.now)) }
{
    if !is_holder(caller, &shelf.account(cancel.account)?) {
        return Ok(Some(Refusal::NotAllowed));
    }
    if is_before(cancel.use_last, cancel.use_first) {
        return Ok(Some(Refusal::UsePeriod));
    }
    Ok(None)
}

/// The ruling on a cancellation, from the rows that its range meets.
fn cancel_certificates(
    alloc: Global,
    met: Vec<Piece>,
    cancel: &Cancel,
    counters: Counters,
) -> Result<Ruling, Fault>
    requires { IsRising met.items }
    ensures ruling { IfOk result
        (IsMoveRuling
        (first_refusal (range_checks (at_of met.items) counters.cancellation cancel.now))
        (reply.Cancelled counters.cancellation (count_of cancel.now.range)) None cancel.now.range
        (place.Cancelled cancel.now.account counters.cancellation) met.items) }
    ensures memory { IfErr result (λ fault. fault ≡ Memory) }
{
    let range = cancel.range;
    let book = Book::of_rows(met);
    if let Some(number) = book.least_missing(range) {
        return Ok(Ruling::Refused(Refusal::UnknownNumber(number)));
    }
    if let Some(number) = least_not_held_by(&book, range, cancel.account) {
        return Ok(Ruling::Refused(Refusal::NotHeld(number)));
    }
    let Some(cancellation) = ActNo::new(counters.cancellation()) else {
        return Ok(Ruling::Refused(Refusal::NumbersExhausted));
    };
    let edits = move_met(
        alloc,
        book,
        range,
        Place::Cancelled(cancel.account, cancellation),
    )?;
    Ok(Ruling::Passed(Change {
        reply: Reply::Cancelled {
            cancellation,
            count: range.len(),
        },
        edits,
        notice: None,
    }))
}

/// The ruling on a cancellation.
///
/// # Errors
///
/// `Store` where the shelf answers it, `Memory` where memory was refused. State and rows stay as
/// they are.
pub fn judge_cancel<S: Shelf>(
    alloc: Global,
    shelf: &mut S,
    caller: &HolderCode,
    cancel: &Cancel,
) -> Result<Ruling, Fault>
    requires ready { IsReady (S.seen shelf.old) }
    requires rows { (S.seen shelf.old).defects ≡ 0
        → AreRowsOf (S.seen shelf.old).state.at (S.seen shelf.old).rows }
    ensures { Looks (S.seen shelf.old) (S.seen shelf.new) result
        (IsRuling
        (plain_meaning (cancel_refusal (S.seen shelf.old).state caller.now cancel.now)
        (cancel_reply (S.seen shelf.old).state cancel.now)
        (with_cancellation (S.seen shelf.old).state cancel.now).at
        (λ rows. 1) (cancel.now.range ∷ [])) (S.seen shelf.old).rows) }
{
    if let Some(refusal) = entry_refusal(shelf, caller, cancel)? {
        return Ok(Ruling::Refused(refusal));
    }
    let counters = shelf.counters()?;
    let met = shelf.meeting(alloc, cancel.range)?;
    cancel_certificates(alloc, met, cancel, counters)
}
