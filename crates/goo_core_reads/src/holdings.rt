//! The certificates of an account.

ghost use Rattle.std.specs.Prelude.{◌≡◌, IfOk, IfErr};
ghost use Rattle.std.specs.FinMap.{get};
ghost use Rattle.goo_types.specs.Piece.{IsRising, at_of};
ghost use Rattle.goo_spec.specs.Runs.{AreRunsOf};
ghost use Rattle.goo_ranges_rows.specs.Rows.{AreRowsOf};
ghost use Rattle.goo_core_shelf.specs.Shelf.{Looks};
ghost use Rattle.goo_core_reads.specs.Reads.{kept_where, names};

use goo_core_shelf::shelf::Shelf;
use goo_ranges::Book;
use goo_types::account_no::AccountNo;
use goo_types::fault::Fault;
use goo_types::piece::Piece;
use std::alloc::Global;

/// The maximal runs of the certificates of some rows.
///
/// # Errors
///
/// `Memory` where an allocation was refused.
pub fn runs_of(rows: Vec<Piece>) -> Result<Vec<Piece>, Fault>
    requires { IsRising rows.items }
    ensures runs { IfOk result (λ runs. AreRunsOf (at_of rows.items) runs.items) }
    ensures memory { IfErr result (λ fault. fault ≡ Fault.Memory) }
{
    Book::of_rows(rows).runs()
}

/// The maximal runs of the certificates whose place names an account.
///
/// # Errors
///
/// `Store` where the shelf answers it, `Memory` where memory was refused. State and rows stay as
/// they are.
#[tactic(auto, using(crate::proofs::Keeping::named_runs))]
pub fn runs_naming<S: Shelf>(
    alloc: Global,
    shelf: &mut S,
    account: AccountNo,
) -> Result<Vec<Piece>, Fault>
    requires { (S.seen shelf.old).defects ≡ 0
        → AreRowsOf (S.seen shelf.old).state.at (S.seen shelf.old).rows }
    ensures { Looks (S.seen shelf.old) (S.seen shelf.new) result
        (λ runs. AreRunsOf
        (kept_where (names account) (get (S.seen shelf.old).state.at)) runs.items) }
{
    let rows = shelf.pieces_of(alloc, account)?;
    let runs = runs_of(rows)?;
    Ok(runs)
}
