//! Exports: their checks, and the notices that they send.
ghost use Rattle.std.specs.Prelude.{◌≡◌, None, IfOk, IfErr};
ghost use Rattle.goo_types.specs.Piece.{at_of, IsRising};
ghost use Rattle.goo_types.specs.declared.fault.Fault.TheVariants.{Memory};
ghost use Rattle.goo_spec.specs.Checks.{first_refusal};
ghost use Rattle.goo_spec.specs.Export.{export_refusal, export_reply, with_export, notice_of};
ghost use Rattle.goo_spec.specs.Sound.{IsSound};
ghost use Rattle.goo_ranges_rows.specs.Rows.{AreRowsOf};
ghost use Rattle.goo_core_shelf.specs.Shelf.{Looks, IsReady};
ghost use Rattle.goo_core_judges.specs.Export.{entry_checks, sending_checks, notice_with, IsUnsendable};
ghost use Rattle.goo_core_judges.specs.Export.{IsExportRuling, export_meaning};
ghost use Rattle.goo_core_moves.specs.Ruling.{IsRuling};

use crate::parts::parts_in;
use goo_core_reads::callers::is_holder;
use goo_core_rules::export::sending_edits;
use goo_core_rules::range_checks::trade_refusal;
use goo_core_rules::ruling::{Change, Ruling};
use goo_core_shelf::own::Meta;
use goo_core_shelf::shelf::Shelf;
use goo_ranges::Book;
use goo_types::act_no::ActNo;
use goo_types::command::Export;
use goo_types::fault::Fault;
use goo_types::holder_code::HolderCode;
use goo_types::notice::Notice;
use goo_types::part::Part;
use goo_types::piece::Piece;
use goo_types::refusal::Refusal;
use goo_types::reply::Reply;
use std::alloc::Global;

/// The checks of an export before those over its range.
fn entry_refusal<S: Shelf>(
    shelf: &mut S,
    caller: &HolderCode,
    export: &Export,
) -> Result<Option<Refusal>, Fault>
    requires { IsReady (S.seen shelf.old) }
    ensures { Looks (S.seen shelf.old) (S.seen shelf.new) result
        (λ refusal. refusal
        ≡ first_refusal (entry_checks (S.seen shelf.old).state caller.now export.now)) }
{
    if !is_holder(caller, &shelf.account(export.giver)?) {
        return Ok(Some(Refusal::NotAllowed));
    }
    if !shelf.peer(export.peer)? {
        return Ok(Some(Refusal::UnknownPeer));
    }
    Ok(None)
}

/// The notice of some parts, or why they aren't sent. That they make no notice is told as an
/// unknown peer: it is met only where a registry would send to itself, and its own code is no peer
/// of it.
fn write_notice(meta: &Meta, export: &Export, parts: Vec<Part>) -> Result<Notice, Refusal>
    ensures free { IfOk result
        (λ notice. first_refusal (sending_checks parts.items meta.now.counters.notice) ≡ None) }
    ensures says { IfOk result
        (λ notice. notice
        ≡ notice_with meta.now.code meta.now.counters.notice export.now parts.items) }
    ensures refused { IfErr result
        (IsUnsendable meta.now.code meta.now.counters.notice export.now parts.items) }
{
    if parts.len() > 100 {
        return Err(Refusal::TooManyParts);
    }
    let Some(number) = ActNo::new(meta.counters.notice()) else {
        return Err(Refusal::NumbersExhausted);
    };
    match Notice::new(meta.code, export.peer, number, export.account, parts) {
        Ok(notice) => Ok(notice),
        Err(_) => Err(Refusal::UnknownPeer),
    }
}

/// The ruling on an export, from the rows that its range meets.
fn send_certificates(
    alloc: Global,
    met: Vec<Piece>,
    export: &Export,
    meta: &Meta,
) -> Result<Ruling, Fault>
    requires { IsRising met.items }
    ensures ruling { IfOk result
        (IsExportRuling meta.now.code meta.now.counters.notice meta.now.today export.now
        met.items) }
    ensures memory { IfErr result (λ fault. fault ≡ Memory) }
{
    let range = export.range;
    let book = Book::of_rows(met);
    if let Some(refusal) = trade_refusal(&book, range, export.giver, meta.today) {
        return Ok(Ruling::Refused(refusal));
    }
    let pieces = book.to_pieces()?;
    let parts = parts_in(alloc, &pieces, range)?;
    let notice = match write_notice(meta, export, parts) {
        Ok(notice) => notice,
        Err(refusal) => return Ok(Ruling::Refused(refusal)),
    };
    let number = notice.number();
    let edits = sending_edits(alloc, book, export, number)?;
    Ok(Ruling::Passed(Change {
        reply: Reply::Exported {
            notice: number,
            count: range.len(),
        },
        edits,
        notice: Some(notice),
    }))
}

/// The ruling on an export.
///
/// # Errors
///
/// `Store` where the shelf answers it, `Memory` where memory was refused. State and rows stay as
/// they are.
pub fn judge_export<S: Shelf>(
    alloc: Global,
    shelf: &mut S,
    caller: &HolderCode,
    export: &Export,
) -> Result<Ruling, Fault>
    requires ready { IsReady (S.seen shelf.old) }
    requires sound { (S.seen shelf.old).defects ≡ 0 → IsSound (S.seen shelf.old).state }
    requires rows { (S.seen shelf.old).defects ≡ 0
        → AreRowsOf (S.seen shelf.old).state.at (S.seen shelf.old).rows }
    ensures { Looks (S.seen shelf.old) (S.seen shelf.new) result
        (IsRuling (export_meaning (S.seen shelf.old).state caller.now export.now)
        (S.seen shelf.old).rows) }
{
    if let Some(refusal) = entry_refusal(shelf, caller, export)? {
        return Ok(Ruling::Refused(refusal));
    }
    let range = export.range;
    let _first = range.first();
    let meta = shelf.registry()?;
    let met = shelf.meeting(alloc, range)?;
    send_certificates(alloc, met, export, &meta)
}
