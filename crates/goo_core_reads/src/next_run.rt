//! The certificates of an account, run by run, so that no more than a few of their rows are held at
//! a time.

ghost use Rattle.std.specs.Prelude.{◌≡◌, ◌≤◌, ◌<◌, Some, None, IfOk, IfSome, OnErr};
ghost use Rattle.std.specs.Option.{ForSome};
ghost use Rattle.std.specs.FinMap.{get};
ghost use Rattle.goo_types.specs.Piece.{IsForward, Follows};
ghost use Rattle.goo_ranges_rows.specs.Rows.{AreRowsOf};
ghost use Rattle.goo_core_shelf.specs.Shelf.{Looks};
ghost use Rattle.goo_core_shelf.specs.Rows.{next_row, EndsFrom};
ghost use Rattle.goo_spec.specs.Sound.{IsSound};
ghost use Rattle.goo_spec_runs.specs.NextRun.{from_of, part_from as cut, IsNextRun, BeginsFrom};
ghost use Rattle.goo_core_reads.specs.Reads.{kept_where, names};
ghost use Rattle.goo_core_reads.specs.Ahead.{IsSeen, IsPlaceAfter};

use crate::run_place::RunPlace;
use goo_core_shelf::shelf::Shelf;
use goo_types::account_no::AccountNo;
use goo_types::fault::Fault;
use goo_types::number::Number;
use goo_types::piece::Piece;

/// What of a row lies after a number that it ends after.
fn part_from(row: &Piece, after: &Option<Number>) -> Piece
    requires forward { IsForward row.now }
    requires ends { from_of after.now ≤ row.now.last }
    ensures { result ≡ cut (from_of after.now) row.now }
{
    let from = match after {
        Some(number) => number.get() + 1,
        None => 0,
    };
    if from <= row.first.get() {
        *row
    } else {
        Piece {
            first: Number::between(row.first, row.last, from),
            ..*row
        }
    }
}

/// The row ahead, if the run goes on with it.
fn follower(run: &Piece, ahead: &Option<Piece>) -> Option<Piece>
    ensures follows { ForSome result (λ row. (ahead.now ≡ Some row) × Follows run.now row) }
    ensures apart { result ≡ None → ForSome ahead.now (λ row. ¬ (Follows run.now row)) }
{
    match ahead {
        Some(row) if run.is_followed_by(row) => Some(*row),
        _ => None,
    }
}

/// The run that begins with a row, or with what of it lies after a number, and the place after it:
/// the run goes on for as long as rows follow, and the row that doesn't is the one ahead.
fn reach<S: Shelf>(
    shelf: &mut S,
    account: AccountNo,
    row: &Piece,
    after: &Option<Number>,
) -> Result<(Piece, RunPlace), Fault>
    requires rows { (S.seen shelf.old).defects ≡ 0
        → AreRowsOf (S.seen shelf.old).state.at (S.seen shelf.old).rows }
    requires sound { (S.seen shelf.old).defects ≡ 0 → IsSound (S.seen shelf.old).state }
    requires ahead { EndsFrom (from_of after.now) row.now }
    ensures looks { Looks (S.seen shelf.old) (S.seen shelf.new) result
        (λ found.
        (Some row.now ≡ next_row account after.now (S.seen shelf.old).rows
        → IsNextRun (kept_where (names account) (get (S.seen shelf.old).state.at))
        (from_of after.now) (Some found.0))
        × IsSeen account (Some found.0.last) (S.seen shelf.old).rows found.1.ahead) }
    ensures begins { IfOk result (λ found. BeginsFrom (from_of after.now) found.0) }
    ensures place { IfOk result (λ found. found.1.after ≡ Some found.0.last) }
{
    let mut run = part_from(row, after);
    let mut ahead = shelf.next_of(account, Some(run.last))?;
    while let Some(next) = follower(&run, &ahead) {
        // Numbers end somewhere, so this does.
        let _end = next.last.get();
        run.last = next.last;
        ahead = shelf.next_of(account, Some(run.last))?;
    }
    Ok((run, RunPlace::before(run.last, ahead)))
}

/// The run that begins with a row, or with what of it lies after a place. The place then lies after
/// the run.
fn read_from<S: Shelf>(
    shelf: &mut S,
    account: AccountNo,
    row: &Piece,
    place: &mut RunPlace,
) -> Result<Option<Piece>, Fault>
    requires rows { (S.seen shelf.old).defects ≡ 0
        → AreRowsOf (S.seen shelf.old).state.at (S.seen shelf.old).rows }
    requires sound { (S.seen shelf.old).defects ≡ 0 → IsSound (S.seen shelf.old).state }
    requires ahead { EndsFrom (from_of place.old.after) row.now }
    ensures looks { Looks (S.seen shelf.old) (S.seen shelf.new) result
        (λ found. Some row.now ≡ next_row account place.old.after (S.seen shelf.old).rows
        → IsNextRun (kept_where (names account) (get (S.seen shelf.old).state.at))
        (from_of place.old.after) found) }
    ensures begins { IfOk result (λ found. IfSome found (BeginsFrom (from_of place.old.after))) }
    ensures place { IfOk result (λ found. IsPlaceAfter place.old found place.new) }
    ensures stays { OnErr result (place.new ≡ place.old) }
    ensures ahead { (S.seen shelf.new).defects ≡ 0
        → IfOk result
        (λ found. IfSome found
        (λ run. IsSeen account (Some run.last) (S.seen shelf.old).rows place.new.ahead)) }
{
    let (run, next) = reach(shelf, account, row, &place.after)?;
    *place = next;
    Ok(Some(run))
}

/// The first of the maximal runs of the certificates after what was read whose place names an
/// account; None where there are none. The place then lies after it, and where it lay if there are
/// none.
///
/// # Errors
///
/// `Store` where the shelf answers it, `Memory` where memory was refused. State, rows and place
/// stay as they are.
pub fn next_run_naming<S: Shelf>(
    shelf: &mut S,
    account: AccountNo,
    place: &mut RunPlace,
) -> Result<Option<Piece>, Fault>
    requires rows { (S.seen shelf.old).defects ≡ 0
        → AreRowsOf (S.seen shelf.old).state.at (S.seen shelf.old).rows }
    requires sound { (S.seen shelf.old).defects ≡ 0 → IsSound (S.seen shelf.old).state }
    ensures looks { Looks (S.seen shelf.old) (S.seen shelf.new) result
        (λ found. IsSeen account place.old.after (S.seen shelf.old).rows place.old.ahead
        → IsNextRun (kept_where (names account) (get (S.seen shelf.old).state.at))
        (from_of place.old.after) found) }
    ensures begins { IfOk result (λ found. IfSome found (BeginsFrom (from_of place.old.after))) }
    ensures place { IfOk result (λ found. IsPlaceAfter place.old found place.new) }
    ensures stays { OnErr result (place.new ≡ place.old) }
    ensures ahead { (S.seen shelf.new).defects ≡ 0
        → IfOk result
        (λ found. IfSome found
        (λ run. IsSeen account (Some run.last) (S.seen shelf.old).rows place.new.ahead)) }
{
    if let Some(row) = place.ahead {
        return read_from(shelf, account, &row, place);
    }
    match shelf.next_of(account, place.after)? {
        Some(row) => read_from(shelf, account, &row, place),
        None => Ok(None),
    }
}
