//! The decision on a request.
ghost use Rattle.std.specs.Prelude.{◌≡◌, None};
ghost use Rattle.std.specs.FinMap.{get};
ghost use Rattle.goo_spec.specs.Sound.{IsSound};
ghost use Rattle.goo_ranges_rows.specs.Rows.{AreRowsOf};
ghost use Rattle.goo_core_shelf.specs.Shelf.{Looks, IsReady};
ghost use Rattle.goo_core_judges.specs.Decision.{IsDecision, IsRulingWithoutEdits};
ghost use Rattle.goo_core_moves.specs.Ruling.{IsRuling, meaning_of};

use crate::add_peer::judge_add_peer;
use crate::close_account::judge_close_account;
use crate::correct::judge_correct;
use crate::declare::judge_declare;
use crate::export::judge_export;
use crate::import::judge_import;
use crate::open_account::judge_open_account;
use crate::open_holder::judge_open_holder;
use crate::register_device::judge_register_device;
use crate::verdict::Verdict;
use goo_core_moves::advance::judge_advance;
use goo_core_moves::cancel::judge_cancel;
use goo_core_moves::transfer::judge_transfer;
use goo_core_moves::withdraw::judge_withdraw;
use goo_core_reads::kept::kept_decision;
use goo_core_rules::decision::{Decision, decision_by};
use goo_core_rules::ruling::{Change, Ruling};
use goo_core_shelf::shelf::Shelf;
use goo_types::command::Command;
use goo_types::fault::Fault;
use goo_types::holder_code::HolderCode;
use goo_types::request::Request;
use std::alloc::Global;

/// The ruling on a command that leaves the rows as they are.
fn without_edits(alloc: Global, verdict: Verdict) -> Ruling
    ensures { IsRulingWithoutEdits verdict result }
{
    match verdict {
        Verdict::Fails(refusal) => Ruling::Refused(refusal),
        Verdict::Passes(reply) => Ruling::Passed(Change {
            reply,
            edits: Vec::new(alloc),
            notice: None,
        }),
    }
}

/// The ruling on a command, by its judge.
fn judge<S: Shelf>(
    alloc: Global,
    shelf: &mut S,
    caller: &HolderCode,
    command: &Command,
) -> Result<Ruling, Fault>
    requires ready { IsReady (S.seen shelf.old) }
    requires sound { (S.seen shelf.old).defects ≡ 0 → IsSound (S.seen shelf.old).state }
    requires rows { (S.seen shelf.old).defects ≡ 0
        → AreRowsOf (S.seen shelf.old).state.at (S.seen shelf.old).rows }
    ensures { Looks (S.seen shelf.old) (S.seen shelf.new) result
        (IsRuling (meaning_of (S.seen shelf.old).state caller.now command.now)
        (S.seen shelf.old).rows) }
{
    match command {
        Command::OpenHolder(x) => Ok(without_edits(alloc, judge_open_holder(shelf, caller, x)?)),
        Command::OpenAccount(x) => Ok(without_edits(alloc, judge_open_account(shelf, caller, x)?)),
        Command::CloseAccount(x) => Ok(without_edits(
            alloc,
            judge_close_account(shelf, caller, x)?,
        )),
        Command::RegisterDevice(x) => Ok(without_edits(
            alloc,
            judge_register_device(shelf, caller, x)?,
        )),
        Command::Declare(x) => judge_declare(alloc, shelf, caller, x),
        Command::Correct(x) => judge_correct(alloc, shelf, caller, x),
        Command::Transfer(x) => judge_transfer(alloc, shelf, caller, x),
        Command::Cancel(x) => judge_cancel(alloc, shelf, caller, x),
        Command::Withdraw(x) => judge_withdraw(alloc, shelf, caller, x),
        Command::Advance(x) => judge_advance(alloc, shelf, caller, x),
        Command::AddPeer(x) => Ok(without_edits(alloc, judge_add_peer(shelf, caller, x)?)),
        Command::Export(x) => judge_export(alloc, shelf, caller, x),
        Command::Import(x) => judge_import(alloc, shelf, caller, x),
    }
}

/// The decision on a request whose key isn't kept.
fn decide_fresh<S: Shelf>(
    alloc: Global,
    shelf: &mut S,
    request: &Request,
) -> Result<Decision, Fault>
    requires ready { IsReady (S.seen shelf.old) }
    requires sound { (S.seen shelf.old).defects ≡ 0 → IsSound (S.seen shelf.old).state }
    requires rows { (S.seen shelf.old).defects ≡ 0
        → AreRowsOf (S.seen shelf.old).state.at (S.seen shelf.old).rows }
    requires fresh { (S.seen shelf.old).defects ≡ 0
        → get (S.seen shelf.old).state.receipts (request.now.caller, request.now.key) ≡ None }
    ensures { Looks (S.seen shelf.old) (S.seen shelf.new) result
        (IsDecision (S.seen shelf.old).state (S.seen shelf.old).rows request.now) }
{
    // A request in hand is within its limits: its command comes with that fact.
    let _ = request.command();
    let ruling = judge(alloc, shelf, &request.caller, &request.command)?;
    decision_by(alloc, request, ruling)
}

/// Decides on a request. It changes nothing: an accepted request is carried out by committing its
/// plan. A key that is kept answers first, then the command's checks in their order. A plan edits
/// the rows once at most, but once for each run of one account that is withdrawn, for each part
/// that is imported, and for each row that expires. An edit of a range deletes and inserts at most
/// two rows more than meet it.
///
/// # Errors
///
/// `Store` where the shelf answers it, `Memory` where memory was refused: a fault takes the place
/// of any answer. State and rows stay as they are.
///
/// # Example
///
/// ```rust,ignore
/// match decide(alloc, &mut shelf, &request)? {
///     // The change is made only here; `reply` is what the request is answered.
///     Decision::Accept(plan, reply) => shelf.commit(alloc, &plan)?,
///     // It was carried out before, with this reply.
///     Decision::Repeated(reply) => {}
///     // `refusal.name()` and `refusal.code()` say why.
///     Decision::Refused(refusal) => {}
/// }
/// ```
pub fn decide<S: Shelf>(alloc: Global, shelf: &mut S, request: &Request) -> Result<Decision, Fault>
    requires sound { (S.seen shelf.old).defects ≡ 0 → IsSound (S.seen shelf.old).state }
    requires rows { (S.seen shelf.old).defects ≡ 0
        → AreRowsOf (S.seen shelf.old).state.at (S.seen shelf.old).rows }
    ensures { Looks (S.seen shelf.old) (S.seen shelf.new) result
        (IsDecision (S.seen shelf.old).state (S.seen shelf.old).rows request.now) }
{
    let receipt = shelf.receipt(alloc, &request.caller, &request.key, &request.command)?;
    match kept_decision(receipt) {
        Some(decision) => Ok(decision),
        None => decide_fresh(alloc, shelf, request),
    }
}
