//! Withdrawals: their checks, and the certificates that they take back.
ghost use Rattle.std.specs.Prelude.{◌≡◌, ℕ, ◌+◌, ◌≤◌, None, List, [], ◌∷◌, length, count_by};
ghost use Rattle.std.specs.Prelude.{Option, IfOk, IfErr, OnOk};
ghost use Rattle.std.specs.FinMap.{get};
ghost use Rattle.goo_types.specs.Piece.{Label, at_of, IsForward, IsRising};
ghost use Rattle.goo_types.specs.declared.fault.Fault.TheVariants.{Memory};
ghost use Rattle.goo_types.specs.declared.piece.Piece as piece;
ghost use Rattle.goo_types.specs.declared.reply.Reply.TheVariants as reply;
ghost use Rattle.goo_spec.specs.Checks.{first_refusal};
ghost use Rattle.goo_spec.specs.Maps.{count_of};
ghost use Rattle.goo_spec.specs.Withdraw.{withdraw_refusal, withdraw_reply, with_withdrawal};
ghost use Rattle.goo_ranges.specs.Change.{meets, one_if};
ghost use Rattle.goo_ranges_rows.specs.Rows.{AreRowsOf};
ghost use Rattle.goo_core_shelf.specs.Shelf.{Looks, IsReady};
ghost use Rattle.goo_core_moves.specs.AccountRuns.{account_runs};
ghost use Rattle.goo_core_rules.specs.Changes.{AreEditsFor};
ghost use Rattle.goo_core_moves.specs.Changes.{AreMade};
ghost use Rattle.goo_core_moves.specs.Moves.{IsChangeRuling};
ghost use Rattle.goo_core_moves.specs.Ruling.{IsRuling, plain_meaning};
ghost use Rattle.goo_core_moves.specs.Withdraw.{range_checks, withdrawn, run_withdrawn, runs_withdrawn};
ghost use Rattle.goo_core_moves.specs.Withdraw.{AreCommon};

use crate::edits::push_edit;
use crate::range_checks::least_not_held;
use goo_core_reads::callers::is_issuer;
use goo_core_rules::ruling::{Change, Ruling};
use goo_core_shelf::counters::Counters;
use goo_core_shelf::shelf::Shelf;
use goo_ranges::{Book, Edit};
use goo_types::act_no::ActNo;
use goo_types::command::Withdraw;
use goo_types::fault::Fault;
use goo_types::holder_code::HolderCode;
use goo_types::piece::Piece;
use goo_types::place::Place;
use goo_types::range::Range;
use goo_types::refusal::Refusal;
use goo_types::reply::Reply;
use std::alloc::Global;

/// The numbers that a run and a range have in common, if there are any.
fn common_part(run: &Piece, range: Range) -> Option<Range>
    requires { IsForward run.now }
    ensures { AreCommon run.now range result }
{
    let first = run.first.max(range.first());
    let last = run.last.min(range.last());
    Range::new(first, last)
}

/// Withdraws the certificates of a run of one account that lie in the range, if there are any.
fn withdraw_run(
    book: &mut Book,
    edits: &mut Vec<Edit>,
    run: &Piece,
    range: Range,
    act: ActNo,
) -> Result<(), Fault>
    requires forward { IsForward run.now }
    requires rising { IsRising book.old }
    ensures made { OnOk result
        ((met : List piece.Piece) (change : ℕ → Option Label → Option Label)
        → AreMade range met change book.old edits.old.items
        → AreMade range met
        (λ n o. run_withdrawn range act run.now n (change n o)) book.new edits.new.items) }
    ensures one { OnOk result
        (length edits.new.items
        ≡ length edits.old.items + one_if (meets range.first range.last run.now)) }
    ensures stays { OnOk result (IsRising book.new) }
    ensures memory { IfErr result (λ fault. fault ≡ Memory) }
{
    let Some(part) = common_part(run, range) else {
        return Ok(());
    };
    let edit = book.reassign(part, Place::Withdrawn(run.place.account(), act))?;
    push_edit(edits, edit)?;
    Ok(())
}

/// Withdraws the certificates of a range, with an edit for each of these runs that it meets.
fn withdraw_runs(
    alloc: Global,
    runs: &[Piece],
    book: &mut Book,
    range: Range,
    act: ActNo,
) -> Result<Vec<Edit>, Fault>
    requires runs_rise { IsRising runs.now }
    requires book_rises { IsRising book.old }
    ensures made { IfOk result
        (λ edits. AreMade range book.old (runs_withdrawn range act runs.now) book.new edits.items) }
    ensures one_each { IfOk result
        (λ edits. length edits.items ≡ count_by (meets range.first range.last) runs.now) }
    ensures memory { IfErr result (λ fault. fault ≡ Memory) }
{
    let mut edits = Vec::new(alloc);
    for run in runs {
        withdraw_run(book, &mut edits, run, range, act)?;
    }
    Ok(edits)
}

/// The edits that withdraw the certificates of a range, from a book of the rows that it meets: one
/// for each run of numbers of one account.
pub fn withdraw_met(
    alloc: Global,
    mut book: Book,
    range: Range,
    act: ActNo,
) -> Result<Vec<Edit>, Fault>
    ensures edits { IfOk result
        (λ edits. (range.first ≤ range.last)
        × AreEditsFor range book (withdrawn range act) edits.items) }
    ensures few { IfOk result (λ edits. length edits.items ≤ account_runs (at_of book) range) }
    ensures memory { IfErr result (λ fault. fault ≡ Memory) }
{
    let _first = range.first();
    let runs = book.account_runs()?;
    withdraw_runs(alloc, &runs, &mut book, range, act)
}

/// The ruling on a withdrawal, from the rows that its range meets.
fn withdraw_certificates(
    alloc: Global,
    met: Vec<Piece>,
    withdraw: &Withdraw,
    counters: Counters,
) -> Result<Ruling, Fault>
    requires { IsRising met.items }
    ensures ruling { IfOk result
        (IsChangeRuling
        (first_refusal (range_checks (at_of met.items) counters.withdrawal withdraw.now))
        (reply.Withdrawn counters.withdrawal (count_of withdraw.now.range)) None withdraw.now.range
        (withdrawn withdraw.now.range counters.withdrawal)
        (account_runs (at_of met.items) withdraw.now.range) met.items) }
    ensures memory { IfErr result (λ fault. fault ≡ Memory) }
{
    let range = withdraw.range;
    let book = Book::of_rows(met);
    if let Some(number) = book.least_missing(range) {
        return Ok(Ruling::Refused(Refusal::UnknownNumber(number)));
    }
    if let Some(number) = least_not_held(&book, range) {
        return Ok(Ruling::Refused(Refusal::NotHeld(number)));
    }
    let Some(withdrawal) = ActNo::new(counters.withdrawal()) else {
        return Ok(Ruling::Refused(Refusal::NumbersExhausted));
    };
    let edits = withdraw_met(alloc, book, range, withdrawal)?;
    Ok(Ruling::Passed(Change {
        reply: Reply::Withdrawn {
            withdrawal,
            count: range.len(),
        },
        edits,
        notice: None,
    }))
}

/// The ruling on a withdrawal.
///
/// # Errors
///
/// `Store` where the shelf answers it, `Memory` where memory was refused. State and rows stay as
/// they are.
#[tactic(auto, unfolding(goo_spec::specs::Withdraw::withdraw_refusal))]
pub fn judge_withdraw<S: Shelf>(
    alloc: Global,
    shelf: &mut S,
    caller: &HolderCode,
    withdraw: &Withdraw,
) -> Result<Ruling, Fault>
    requires ready { IsReady (S.seen shelf.old) }
    requires rows { (S.seen shelf.old).defects ≡ 0
        → AreRowsOf (S.seen shelf.old).state.at (S.seen shelf.old).rows }
    ensures { Looks (S.seen shelf.old) (S.seen shelf.new) result
        (IsRuling
        (plain_meaning (withdraw_refusal (S.seen shelf.old).state caller.now withdraw.now)
        (withdraw_reply (S.seen shelf.old).state withdraw.now)
        (with_withdrawal (S.seen shelf.old).state withdraw.now).at
        (λ rows. account_runs (get (S.seen shelf.old).state.at) withdraw.now.range)
        (withdraw.now.range ∷ [])) (S.seen shelf.old).rows) }
{
    if !is_issuer(caller) {
        return Ok(Ruling::Refused(Refusal::NotAllowed));
    }
    let counters = shelf.counters()?;
    let met = shelf.meeting(alloc, withdraw.range)?;
    withdraw_certificates(alloc, met, withdraw, counters)
}
