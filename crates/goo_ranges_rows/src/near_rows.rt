//! The rows near a range, as some edits leave them.
ghost use Rattle.std.specs.Prelude.{◌≡◌, IfOk, IfErr, OnOk};
ghost use Rattle.std.specs.List.{filter};
ghost use Rattle.std.specs.List.Sorted.{IsNonDecreasingBy};
ghost use Rattle.goo_types.specs.Piece.{IsRising};
ghost use Rattle.goo_types.specs.declared.fault.Fault.TheVariants.{Memory};
ghost use Rattle.goo_ranges_rows.specs.Rows.{is_near as near_to, meeting, with_each};
ghost use Rattle.goo_ranges_rows.specs.Plans.{near_after as near_rows};

use crate::row_edits::{put_in, take_out_each};
use goo_ranges::Edit;
use goo_types::fault::Fault;
use goo_types::piece::Piece;
use goo_types::range::Range;
use std::alloc::AllocError;

/// Whether a row has a number of the range, or one next to it.
fn is_near(row: &Piece, range: &Range) -> bool
    ensures { result ≡ near_to range.now row.now }
{
    range.first().get() <= row.last.get() + 1 && row.first.get() <= range.last().get() + 1
}

/// Puts in those of some rows that are near the range.
fn put_in_near(rows: &mut Vec<Piece>, more: &[Piece], range: &Range) -> Result<(), AllocError>
    requires sorted { IsNonDecreasingBy (λ p. p.first) rows.old.items }
    ensures rows { OnOk result
        (rows.new.items ≡ with_each (meeting range.now more.now) rows.old.items) }
    ensures sorted { OnOk result (IsNonDecreasingBy (λ p. p.first) rows.new.items) }
{
    for row in more {
        if is_near(row, range) {
            put_in(rows, *row)?;
        }
    }
    Ok(())
}

/// The rows near a range as some edits, in their order, leave them, from the rows near it before.
/// It costs the rows of the edits, each looked at once.
///
/// # Errors
///
/// `Memory` where an allocation was refused.
pub fn near_after(near: Vec<Piece>, edits: &[Edit], range: &Range) -> Result<Vec<Piece>, Fault>
    requires { IsRising near.items }
    ensures rows { IfOk result (λ rows. rows.items ≡ near_rows range.now edits.now near.items) }
    ensures memory { IfErr result (λ fault. fault ≡ Memory) }
{
    let mut rows = near;
    for edit in edits {
        take_out_each(&mut rows, &edit.delete);
        put_in_near(&mut rows, &edit.insert, range)?;
    }
    Ok(rows)
}
