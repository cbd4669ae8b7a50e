//! The changes that join pieces which were cut, as version 1 keeps some.

ghost use Rattle.std.specs.Prelude.{◌≡◌, ◌↔◌, ◌++◌, All, IfOk, IfSome, IsOkUnless, IsTrue, OnOk};
ghost use Rattle.sqlite_keyed.specs.Keyed.{IsKeyedBy};
ghost use Rattle.goo_tables_rows.specs.Rows.{Tables, piece_key};
ghost use Rattle.goo_tables_accounts.specs.Changes.{PieceFits};
ghost use Rattle.goo_store_changes.specs.Changes.{ChangeFits};
ghost use Rattle.goo_store_plans.specs.JoiningChanges.{step_of, wide_of, JoinsPieces};
ghost use Rattle.goo_store_values.specs.declared.statement_fault.StatementFault.TheVariants.{Memory};

use goo_store_changes::table_change::TableChange;
use goo_store_rules::cut::joins;
use goo_store_values::statement_fault::StatementFault;
use goo_tables_rows::piece::PieceRow;
use std::alloc::Global;

/// Whether the columns can keep the numbers of a row.
fn fits(row: &PieceRow) -> bool
    ensures { IsTrue result ↔ PieceFits row.now }
{
    row.first < 1 << 63 && row.last < 1 << 63 && row.lot < 1 << 63
}

/// The row with the next one joined to it, where that goes on; adds the changes that join them.
fn join_next(
    changes: &mut Vec<TableChange>,
    row: PieceRow,
    next: Option<PieceRow>,
) -> Result<PieceRow, StatementFault>
    ensures changes { OnOk result (changes.new.items ≡ changes.old.items ++ step_of row next) }
    ensures row { IfOk result (λ wide. wide ≡ wide_of row next) }
    ensures fits { All ChangeFits changes.old.items
        → OnOk result (All ChangeFits changes.new.items) }
    ensures low { PieceFits row → IfSome next PieceFits → IfOk result PieceFits }
    ensures memory { PieceFits row → IfSome next PieceFits → IsOkUnless result Memory }
{
    let Some(next) = next else {
        return Ok(row);
    };
    if !joins(&row, &next) {
        return Ok(row);
    }
    if !fits(&row) || !fits(&next) {
        return Err(StatementFault::Refused);
    }
    let wide = PieceRow {
        last: next.last,
        ..row
    };
    changes.push(TableChange::DeletePiece(next.first))?;
    changes.push(TableChange::DeletePiece(row.first))?;
    changes.push(TableChange::InsertPiece(wide))?;
    Ok(wide)
}

/// The changes that join each piece with those that go on where it ends, from the last to the
/// first.
///
/// # Errors
///
/// `Memory`, and `Refused` where a number is too large for its column.
pub fn joining_changes(
    alloc: Global,
    pieces: &[PieceRow],
) -> Result<Vec<TableChange>, StatementFault>
    ensures joins { IfOk result
        (λ changes. (t : Tables) → t.pieces ≡ pieces.now → IsKeyedBy piece_key t.pieces
        → JoinsPieces t changes.items) }
    ensures fits { IfOk result (λ changes. All ChangeFits changes.items) }
    ensures memory { All PieceFits pieces.now → IsOkUnless result Memory }
{
    let mut changes = Vec::new(alloc);
    let mut next = None;
    for done in 0..pieces.len() {
        let row = pieces[pieces.len() - 1 - done];
        next = Some(join_next(&mut changes, row, next)?);
    }
    Ok(changes)
}
