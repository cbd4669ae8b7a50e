//! The changes that carry out the edits of a plan.

ghost use Rattle.std.specs.Prelude.{◌≡◌, ◌↔◌, ◌⊎◌, ◌++◌, ◌-◌, ◌≤◌, ◌<◌, ◌^◌, false, List, All};
ghost use Rattle.std.specs.Prelude.{Some, IfErr, IfOk, IfSome, IsNone, IsOk, IsOkUnless, IsTrue};
ghost use Rattle.std.specs.Prelude.{OnOk, length, map, slice_get};
ghost use Rattle.std.specs.List.{Any, Contains};
ghost use Rattle.goo_types.specs.declared.lot_fields.LotFields.{LotFields};
ghost use Rattle.sqlite.specs.Held.{state};
ghost use Rattle.goo_tables_rows.specs.Rows.{Lot as RowOfLot};
ghost use Rattle.goo_tables_accounts.specs.Changes.{PieceFits};
ghost use Rattle.goo_store_changes.specs.Changes.{ChangeFits};
ghost use Rattle.goo_store_plans.specs.EditChanges.{AreForEdits, AreRowsOf};
ghost use Rattle.goo_store_plans.specs.EditsGathered.{AddsEdit, CanBeTaken, HasNoNumber};
ghost use Rattle.goo_store_plans.specs.EditsGathered.{HasRowToBe};
ghost use Rattle.goo_store_plans.specs.EditsTaken.{CanTakeEdits};
ghost use Rattle.goo_store_plans.specs.LookingUp.{LooksUp};
ghost use Rattle.goo_store_plans.specs.LotNumbers.{AreNumbered, AreWith, IsNumberOf};
ghost use Rattle.goo_store_plans.specs.StoreFaults.{BlamesDisk};
ghost use Rattle.goo_store_values.specs.declared.statement_fault.StatementFault.TheVariants.{Memory, Refused};

use crate::lot_numbers::{NumberedLot, numbers_of};
use crate::new_pieces::piece_row;
use goo_ranges::Edit;
use goo_store_changes::table_change::TableChange;
use goo_store_values::statement_fault::StatementFault;
use goo_tables_rows::piece::PieceRow;
use goo_types::lot::Lot;
use goo_types::number::Number;
use goo_types::piece::Piece;
use sqlite::{Alter, Connection};
use std::alloc::Global;

/// Whether a lot is the last of some.
fn is_last(lots: &[Lot], lot: &Lot) -> bool
    ensures { IsTrue result ↔ (slice_get lots.now (length lots.now - 1) ≡ Some lot.now) }
{
    match lots.last() {
        Some(last) => last.is(lot),
        None => false,
    }
}

/// Adds a lot, unless it is the last.
fn note_lot(lots: &mut Vec<Lot>, lot: &Lot) -> Result<(), StatementFault>
    ensures kept { OnOk result
        ((x : LotFields) → Contains lots.old.items x → Contains lots.new.items x) }
    ensures noted { OnOk result (Contains lots.new.items lot.now) }
    ensures only { OnOk result
        ((x : LotFields) → Contains lots.new.items x → Contains lots.old.items x ⊎ (lot.now ≡ x)) }
    ensures memory { IsOkUnless result Memory }
{
    if is_last(lots, lot) {
        return Ok(());
    }
    lots.extend_from_slice(&[*lot])?;
    Ok(())
}

/// Adds the lots of pieces, once for those in a row that have one lot.
fn note_lots(lots: &mut Vec<Lot>, pieces: &[Piece]) -> Result<(), StatementFault>
    ensures kept { OnOk result
        ((x : LotFields) → Contains lots.old.items x → Contains lots.new.items x) }
    ensures noted { OnOk result (All (λ p. Contains lots.new.items p.lot) pieces.now) }
    ensures only { OnOk result
        ((x : LotFields) → Contains lots.new.items x → Contains lots.old.items x
        ⊎ Any (λ p. p.lot ≡ x) pieces.now) }
    ensures memory { IsOkUnless result Memory }
{
    for piece in pieces {
        note_lot(lots, &piece.lot)?;
    }
    Ok(())
}

/// The lots of the pieces that edits insert, once for those in a row that have one lot.
fn lots_inserted(alloc: Global, edits: &[Edit]) -> Result<Vec<Lot>, StatementFault>
    ensures noted { IfOk result
        (λ lots. All (λ e. All (λ p. Contains lots.items p.lot) e.insert.items) edits.now) }
    ensures only { IfOk result
        (λ lots. (x : LotFields) → Contains lots.items x
        → Any (λ e. Any (λ p. p.lot ≡ x) e.insert.items) edits.now) }
    ensures memory { IsOkUnless result Memory }
{
    let mut lots = Vec::new(alloc);
    for edit in edits {
        note_lots(&mut lots, &edit.insert)?;
    }
    Ok(lots)
}

/// The number of a lot, and its place among those found.
#[derive(Clone, Copy)]
struct NumberAt {
    place: usize,
    number: u64,
}

/// The number of a lot between two places, the second not counted, and its place.
fn number_between(found: &[NumberedLot], from: usize, to: usize, lot: &Lot) -> Option<NumberAt>
    requires { to ≤ length found.now }
    ensures numbers { IfSome result
        (λ at. (lots : List RowOfLot) → AreNumbered lots found.now
        → IsNumberOf lots at.number lot.now) }
    ensures fits { IfSome result (λ at. at.number < 2 ^ 63) }
    ensures none { IsNone result → HasNoNumber found.now from to lot.now }
{
    for place in from..to {
        let known = &found[place];
        if known.lot.is(lot) && known.number < 1 << 63 {
            let number = known.number;
            return Some(NumberAt { place, number });
        }
    }
    None
}

/// The number of a lot: from a place to the end, and else from the start to that place.
fn number_from(found: &[NumberedLot], from: usize, lot: &Lot) -> Result<NumberAt, StatementFault>
    ensures numbers { IfOk result
        (λ at. (lots : List RowOfLot) → AreNumbered lots found.now
        → IsNumberOf lots at.number lot.now) }
    ensures fits { IfOk result (λ at. at.number < 2 ^ 63) }
    ensures finds { Any (λ known. (known.lot ≡ lot.now) × (known.number < 2 ^ 63)) found.now
        → IsOk result }
    ensures cause { IfErr result (λ cause. cause ≡ Refused) }
{
    let end = found.len();
    if let Some(at) = number_between(found, from, end, lot) {
        return Ok(at);
    }
    match number_between(found, 0, from.min(end), lot) {
        Some(at) => Ok(at),
        None => Err(StatementFault::Refused),
    }
}

/// The rows of pieces, whose lots are looked for from a place on, which goes on with them.
fn piece_rows(
    alloc: Global,
    found: &[NumberedLot],
    place: &mut usize,
    pieces: &[Piece],
) -> Result<Vec<PieceRow>, StatementFault>
    ensures rows { IfOk result
        (λ rows. (lots : List RowOfLot) → AreNumbered lots found.now
        → AreRowsOf lots rows.items pieces.now) }
    ensures fits { IfOk result (λ rows. All PieceFits rows.items) }
    ensures memory { All (HasRowToBe found.now) pieces.now → IsOkUnless result Memory }
{
    let mut rows = Vec::new(alloc);
    for piece in pieces {
        let at = number_from(found, *place, &piece.lot)?;
        *place = at.place;
        let row = piece_row(piece, at.number)?;
        rows.push(row)?;
    }
    Ok(rows)
}

/// The deletions of the pieces that begin with these numbers.
fn push_deletes(changes: &mut Vec<TableChange>, firsts: &[Number]) -> Result<(), StatementFault>
    ensures items { OnOk result
        (changes.new.items ≡ changes.old.items ++ map (λ k. TableChange.DeletePiece k) firsts.now) }
    ensures fits { All ChangeFits changes.old.items
        → OnOk result (All ChangeFits changes.new.items) }
    ensures memory { IsOkUnless result Memory }
{
    for first in firsts {
        changes.push(TableChange::DeletePiece(first.get()))?;
    }
    Ok(())
}

/// The insertions of these rows.
fn push_inserts(changes: &mut Vec<TableChange>, rows: &[PieceRow]) -> Result<(), StatementFault>
    requires { All PieceFits rows.now }
    ensures items { OnOk result
        (changes.new.items ≡ changes.old.items ++ map (λ x. TableChange.InsertPiece x) rows.now) }
    ensures fits { All ChangeFits changes.old.items
        → OnOk result (All ChangeFits changes.new.items) }
    ensures memory { IsOkUnless result Memory }
{
    for row in rows {
        changes.push(TableChange::InsertPiece(*row))?;
    }
    Ok(())
}

/// The changes of one edit: first the deletions, and then the insertions.
fn push_edit(
    alloc: Global,
    changes: &mut Vec<TableChange>,
    found: &[NumberedLot],
    place: &mut usize,
    edit: &Edit,
) -> Result<(), StatementFault>
    ensures made { OnOk result (AddsEdit found.now edit.now changes.old.items changes.new.items) }
    ensures fits { All ChangeFits changes.old.items
        → OnOk result (All ChangeFits changes.new.items) }
    ensures memory { CanBeTaken found.now edit.now → IsOkUnless result Memory }
{
    let rows = piece_rows(alloc, found, place, &edit.insert)?;
    push_deletes(changes, &edit.delete)?;
    push_inserts(changes, &rows)
}

/// The changes of all edits, whose lots were found.
fn edit_changes(
    alloc: Global,
    found: &[NumberedLot],
    edits: &[Edit],
) -> Result<Vec<TableChange>, StatementFault>
    ensures made { IfOk result
        (λ changes. (lots : List RowOfLot) → AreNumbered lots found.now
        → AreForEdits lots edits.now changes.items) }
    ensures fits { IfOk result (λ changes. All ChangeFits changes.items) }
    ensures memory { All (CanBeTaken found.now) edits.now → IsOkUnless result Memory }
{
    let mut changes = Vec::new(alloc);
    let mut place = 0;
    for edit in edits {
        push_edit(alloc, &mut changes, found, &mut place, edit)?;
    }
    Ok(changes)
}

/// The changes that carry out edits in turn. The lots of the pieces that they insert are among
/// those that are added, or in the table.
///
/// # Errors
///
/// `Refused` where a lot is neither, `Memory`, and the errors of the statements.
pub fn changes_of_edits<S: Alter>(
    alloc: Global,
    conn: &mut Connection<S>,
    added: &[NumberedLot],
    edits: &[Edit],
) -> Result<Vec<TableChange>, StatementFault>
    ensures looks { LooksUp (state S.Store conn.old) (state S.Store conn.new) result
        (λ t changes. (lots : List RowOfLot) → AreWith t.lots added.now lots
        → AreForEdits lots edits.now changes.items) }
    ensures blames { BlamesDisk (state S.Store conn.old) (state S.Store conn.new) result
        (λ t. CanTakeEdits added.now t edits.now) }
    ensures fits { IfOk result (λ changes. All ChangeFits changes.items) }
    ensures outside { conn.old.in_transaction ≡ false → conn.new.in_transaction ≡ false }
{
    let lots = lots_inserted(alloc, edits)?;
    let found = numbers_of(alloc, conn, added, &lots)?;
    edit_changes(alloc, &found, edits)
}
