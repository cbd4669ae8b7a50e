//! Rows of `piece` beside their lots, as pieces.

ghost use Rattle.std.specs.Prelude.{◌≡◌, ◌+◌, ◌++◌, ◌↔◌, [], ◌∷◌, All, IfErr, IfOk, IfSome, IsOk};
ghost use Rattle.std.specs.Prelude.{IsOkUnless, OnOk, IsTrue, Some, map, option_map};
ghost use Rattle.std.specs.List.{cons_option};
ghost use Rattle.goo_types.specs.Piece.{IsRising};
ghost use Rattle.goo_core_shelf.specs.Rows.{EndsFrom};
ghost use Rattle.goo_tables_rows.specs.Beside.{joined_in};
ghost use Rattle.goo_spec_tables.specs.Places.{place_of, piece_of};
ghost use Rattle.goo_spec_tables.specs.Readable.{is_act, is_piece, names_act};
ghost use Rattle.goo_store_pieces.specs.Found.{KeepsLots, KeepsRead};
ghost use Rattle.goo_store_pieces.specs.Near.{reaching};
ghost use Rattle.goo_store_pieces.specs.Reading.{with_lot, IsReadablePiece, AreReadablePieces};
ghost use Rattle.goo_store_values.specs.Passing.{Accepts, Passes};
ghost use Rattle.goo_store_values.specs.declared.statement_fault.StatementFault.TheVariants.{Memory};

use crate::kept_lots::keep_lot;
use goo_store_plans::lot_numbers::NumberedLot;
use goo_store_values::lots::read_lot;
use goo_store_values::numbers;
use goo_store_values::statement_fault::StatementFault;
use goo_tables_rows::joined::JoinedRow;
use goo_tables_rows::piece::PieceRow;
use goo_types::fault::Fault;
use goo_types::lot::Lot;
use goo_types::piece::Piece;
use goo_types::place::Place;
use goo_types::range::Range;
use sqlite::Error;
use std::alloc::Global;

/// A place by its kind: 1 held, 2 cancelled, 3 expired, 4 withdrawn, 5 exported.
fn read_place(kind: u32, account: u32, act: u32) -> Result<Place, StatementFault>
    ensures value { IfOk result (λ place. place ≡ place_of kind account act) }
    ensures accepts { IsTrue (is_act account) → IsTrue (names_act kind act) → IsOk result }
{
    let account = numbers::account_no(account)?;
    match kind {
        1 => Ok(Place::Held(account)),
        2 => Ok(Place::Cancelled(account, numbers::act_no(act)?)),
        3 => Ok(Place::Expired(account)),
        4 => Ok(Place::Withdrawn(account, numbers::act_no(act)?)),
        5 => Ok(Place::Exported(account, numbers::act_no(act)?)),
        _ => Err(StatementFault::Refused),
    }
}

/// The piece that a row states beside its lot, which was read.
pub(crate) fn read_row(row: &PieceRow, lot: &Lot) -> Result<Piece, StatementFault>
    ensures value { IfOk result (λ piece. piece ≡ with_lot row.now lot.now) }
    ensures accepts { IsTrue (is_piece row.now) → IsOk result }
{
    Ok(Piece {
        first: numbers::number(row.first)?,
        last: numbers::number(row.last)?,
        lot: *lot,
        place: read_place(row.kind, row.account, row.act)?,
    })
}

/// The piece that a row states beside its lot.
fn read_piece(row: &JoinedRow) -> Result<Piece, StatementFault>
    ensures value { IfOk result (λ piece. piece ≡ piece_of (joined_in row.now)) }
    ensures accepts { IsReadablePiece (joined_in row.now) → IsOk result }
{
    read_row(&row.piece, &read_lot(&row.lot)?)
}

/// The piece that a row states beside its lot, which is kept.
fn read_beside(row: &JoinedRow, lots: &mut Vec<NumberedLot>) -> Result<Piece, StatementFault>
    ensures value { IfOk result (λ piece. piece ≡ piece_of (joined_in row.now)) }
    ensures accepts { IsReadablePiece (joined_in row.now) → IsOkUnless result Memory }
    ensures kept { KeepsLots (row.now ∷ []) lots.old.items lots.new.items }
{
    let piece = read_piece(row)?;
    keep_lot(lots, row.piece.lot, &piece.lot)?;
    Ok(piece)
}

/// The piece, if there is one. Its lot is kept.
pub fn read_maybe(
    found: Result<Option<JoinedRow>, Error>,
    lots: &mut Vec<NumberedLot>,
) -> Result<Option<Piece>, StatementFault>
    ensures value { Passes found result
        (λ row piece. piece ≡ option_map piece_of (option_map joined_in row)) }
    ensures accepts { Accepts found result
        (λ row. IfSome row (λ r. IsReadablePiece (joined_in r))) }
    ensures kept { KeepsRead found (λ row. cons_option row []) lots.old.items lots.new.items }
{
    match found? {
        Some(row) => Ok(Some(read_beside(&row, lots)?)),
        None => Ok(None),
    }
}

/// Whether a piece is a range that ends above a number.
pub fn is_beyond(piece: &Piece, after: u64) -> bool
    ensures { IsTrue result ↔ EndsFrom (after + 1) piece.now }
{
    piece.is_forward() && after < piece.last.get()
}

/// Whether the piece, if there is one, is a range that ends above a number.
pub fn is_none_or_beyond(piece: &Option<Piece>, after: u64) -> bool
    ensures { IsTrue result ↔ IfSome piece.now (EndsFrom (after + 1)) }
{
    match piece {
        Some(piece) => is_beyond(piece, after),
        None => true,
    }
}

/// The piece, if there is one, which must be a range that ends above a number. Its lot is kept.
pub fn read_beyond(
    found: Result<Option<JoinedRow>, Error>,
    after: u64,
    lots: &mut Vec<NumberedLot>,
) -> Result<Option<Piece>, StatementFault>
    ensures value { Passes found result
        (λ row piece. piece ≡ option_map piece_of (option_map joined_in row)) }
    ensures accepts { Accepts found result
        (λ row. IfSome row (λ r. IsReadablePiece (joined_in r))
        × IfSome (option_map piece_of (option_map joined_in row)) (EndsFrom (after + 1))) }
    ensures ahead { IfOk result (λ piece. IfSome piece (EndsFrom (after + 1))) }
    ensures kept { KeepsRead found (λ row. cons_option row []) lots.old.items lots.new.items }
{
    let piece = read_maybe(found, lots)?;
    if is_none_or_beyond(&piece, after) {
        Ok(piece)
    } else {
        Err(StatementFault::Refused)
    }
}

/// One row more. Its lot is kept.
fn push_read(
    pieces: &mut Vec<Piece>,
    row: &JoinedRow,
    lots: &mut Vec<NumberedLot>,
) -> Result<(), StatementFault>
    ensures pushed { OnOk result (pieces.new.items
        ≡ pieces.old.items ++ piece_of (joined_in row.now) ∷ []) }
    ensures accepts { IsReadablePiece (joined_in row.now) → IsOkUnless result Memory }
    ensures kept { KeepsLots (row.now ∷ []) lots.old.items lots.new.items }
{
    let piece = [read_beside(row, lots)?];
    pieces.extend_from_slice(&piece)?;
    Ok(())
}

/// Each row as a piece. Their lots are kept.
fn read_each(
    alloc: Global,
    rows: &[JoinedRow],
    lots: &mut Vec<NumberedLot>,
) -> Result<Vec<Piece>, StatementFault>
    ensures value { IfOk result (λ pieces. pieces.items ≡ map piece_of (map joined_in rows.now)) }
    ensures accepts { All (λ row. IsReadablePiece (joined_in row)) rows.now
        → IsOkUnless result Memory }
    ensures kept { KeepsLots rows.now lots.old.items lots.new.items }
{
    let mut pieces = Vec::new(alloc);
    for row in rows {
        push_read(&mut pieces, row, lots)?;
    }
    Ok(pieces)
}

/// Whether the pieces are ranges that rise and have no number in common.
pub fn are_rising(pieces: &[Piece]) -> bool
    ensures { IsTrue result ↔ IsRising pieces.now }
{
    let mut low = 0;
    for piece in pieces {
        if piece.first.get() < low || !piece.is_forward() {
            return false;
        }
        low = piece.last.get() + 1;
    }
    true
}

/// The pieces, which must rise. Their lots are kept.
pub fn read_rising(
    alloc: Global,
    found: Result<Vec<JoinedRow>, Error>,
    lots: &mut Vec<NumberedLot>,
) -> Result<Vec<Piece>, StatementFault>
    ensures value { Passes found result
        (λ rows pieces. pieces.items ≡ map piece_of (map joined_in rows.items)) }
    ensures accepts { Accepts found result (λ rows. AreReadablePieces rows.items) }
    ensures rising { IfOk result (λ pieces. IsRising pieces.items) }
    ensures kept { KeepsRead found (λ rows. rows.items) lots.old.items lots.new.items }
{
    let pieces = read_each(alloc, &found?, lots)?;
    if are_rising(&pieces) {
        Ok(pieces)
    } else {
        Err(StatementFault::Refused)
    }
}

/// The piece, if there is one and it is a range that ends above a number.
pub fn ending_behind(piece: &Option<Piece>, last: u64) -> Option<Piece>
    ensures { IfSome result (λ p. (piece.now ≡ Some p) × EndsFrom (last + 1) p) }
{
    match piece {
        Some(found) if is_beyond(found, last) => Some(*found),
        _ => None,
    }
}

/// A row as the only one.
pub fn alone(alloc: Global, row: Piece) -> Result<Vec<Piece>, Fault>
    ensures value { IfOk result (λ met. met.items ≡ row ∷ []) }
    ensures memory { IfErr result (λ fault. fault ≡ Fault.Memory) }
{
    let mut met = Vec::new(alloc);
    met.extend_from_slice(&[row])?;
    Ok(met)
}

/// The piece before a range, where it reaches to the range or ends right before it, and then those
/// that begin in it or right after it.
pub fn join_near(
    alloc: Global,
    range: Range,
    before: Option<Piece>,
    later: &[Piece],
) -> Result<Vec<Piece>, StatementFault>
    ensures value { IfOk result (λ pieces. pieces.items ≡ reaching range before ++ later.now) }
    ensures accepts { IsRising (reaching range before ++ later.now) → IsOkUnless result Memory }
    ensures rising { IfOk result (λ pieces. IsRising pieces.items) }
{
    let mut pieces = Vec::new(alloc);
    if let Some(piece) = before {
        if range.first().get() <= piece.last.get() + 1 {
            pieces.push(piece)?;
        }
    }
    pieces.extend_from_slice(later)?;
    if are_rising(&pieces) {
        Ok(pieces)
    } else {
        Err(StatementFault::Refused)
    }
}
