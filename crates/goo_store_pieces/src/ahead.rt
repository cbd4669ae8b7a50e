//! Rows of an account that are read ahead of the look-ups that walk along them.

ghost use Rattle.std.specs.Prelude.{◌≡◌, ◌+◌, ◌<◌, ⊤, IfOk, IfSome, List, None, Some};
ghost use Rattle.std.specs.Prelude.{option_and_then};
ghost use Rattle.goo_types.specs.declared.piece.Piece.{Piece};
ghost use Rattle.goo_core_shelf.specs.Rows.{EndsFrom};
ghost use Rattle.goo_tables_rows.specs.Rows.{Lot, Tables};
ghost use Rattle.goo_store_pieces.specs.Ahead.{told_in, AreAhead, IsAhead, IsPageOf, IsWholePageOf};
ghost use Rattle.goo_store_pieces.specs.Ahead.{KeepsAhead, KeepsWhole};
ghost use Rattle.goo_store_pieces.specs.Found.{KeepsRead};
ghost use Rattle.goo_store_pieces.specs.Reading.{AreReadablePieces};
ghost use Rattle.goo_store_plans.specs.Found.{AreStated};
ghost use Rattle.goo_store_values.specs.Passing.{Accepts, Passes};

use crate::kept_lots::lot_among;
use crate::pieces::{is_beyond, read_rising, read_row};
use goo_store_plans::lot_numbers::NumberedLot;
use goo_store_values::statement_fault::StatementFault;
use goo_tables_rows::joined::JoinedRow;
use goo_tables_rows::piece::PieceRow;
use goo_types::account_no::AccountNo;
use goo_types::piece::Piece;
use sqlite::Error;
use std::alloc::Global;

/// How many rows the statement for a page shows at most.
const PAGE: usize = 256;

/// A row that was read ahead.
#[derive(Clone, Copy)]
pub enum Ahead {
    /// As it stands in its table, without its lot.
    Row(PieceRow),
    /// As a piece, with its lot.
    Whole(Piece),
}

/// What comes after one of an account's rows.
#[derive(Clone, Copy)]
pub struct RowAhead {
    /// The account.
    pub account: AccountNo,
    /// The number at which the row ends.
    pub after: u64,
    /// The next row that names the account, if there is one.
    pub row: Option<Ahead>,
}

/// What comes after an account's row that ends at a number, where it is kept. A page's rows are
/// kept as they rise, so that it is found by halves.
pub fn ahead_among(ahead: &[RowAhead], account: AccountNo, after: u64) -> Option<Option<Ahead>>
    ensures { IfSome result
        (λ row. (t : Tables) → AreAhead t ahead.now → IsAhead t account after row) }
{
    let at = ahead.partition_point(|kept| kept.after < after);
    match ahead.get(at) {
        Some(kept) if kept.account == account && kept.after == after => Some(kept.row),
        _ => None,
    }
}

/// The piece that a row which was read ahead states, unless its lot is needed and isn't kept.
fn piece_ahead(row: &Ahead, lots: &[NumberedLot]) -> Option<Piece>
    ensures { IfSome result
        (λ piece. (known : List Lot) → AreStated known lots.now
        → told_in known row.now ≡ Some piece) }
{
    match row {
        Ahead::Row(row) => match read_row(row, &lot_among(lots, row.lot)?) {
            Ok(piece) => Some(piece),
            Err(_) => None,
        },
        Ahead::Whole(piece) => Some(*piece),
    }
}

/// The piece that a row which was read ahead states, unless its lot is needed and isn't kept; none
/// where no row comes. The piece ends above a number.
pub fn told_ahead(row: &Option<Ahead>, after: u64, lots: &[NumberedLot]) -> Option<Option<Piece>>
    ensures value { IfSome result
        (λ found. (known : List Lot) → AreStated known lots.now
        → found ≡ option_and_then (told_in known) row.now) }
    ensures beyond { IfSome result (λ found. IfSome found (EndsFrom (after + 1))) }
{
    let Some(row) = row else {
        return Some(None);
    };
    match piece_ahead(row, lots) {
        Some(piece) if is_beyond(&piece, after) => Some(Some(piece)),
        _ => None,
    }
}

/// Keeps what comes after an account's row; where memory for it is refused, it isn't kept.
fn keep_after(ahead: &mut Vec<RowAhead>, account: AccountNo, after: u64, row: Option<Ahead>)
    ensures { (t : Tables) → IsAhead t account after row
        → AreAhead t ahead.old.items → AreAhead t ahead.new.items }
{
    let _kept = ahead.extend_from_slice(&[RowAhead {
        account,
        after,
        row,
    }]);
}

/// Keeps that no row comes after the last one of a page, where the page could have had more.
fn keep_end(ahead: &mut Vec<RowAhead>, account: AccountNo, end: u64, count: usize)
    ensures { (t : Tables) → (count < 256 → IsAhead t account end None)
        → AreAhead t ahead.old.items → AreAhead t ahead.new.items }
{
    if count < PAGE {
        keep_after(ahead, account, end, None);
    }
}

/// Keeps a page of an account's rows in place of what was kept, each after the one before it.
fn keep_rows(ahead: &mut Vec<RowAhead>, account: AccountNo, after: u64, page: &[PieceRow])
    ensures { (t : Tables) → IsPageOf t account after page.now → AreAhead t ahead.new.items }
{
    ahead.clear();
    let mut end = after;
    for row in page {
        keep_after(ahead, account, end, Some(Ahead::Row(*row)));
        end = row.last;
    }
    keep_end(ahead, account, end, page.len());
}

/// The same with a page of pieces.
fn keep_pieces(ahead: &mut Vec<RowAhead>, account: AccountNo, after: u64, page: &[Piece])
    ensures { (t : Tables) → IsWholePageOf t account after page.now → AreAhead t ahead.new.items }
{
    ahead.clear();
    let mut end = after;
    for piece in page {
        keep_after(ahead, account, end, Some(Ahead::Whole(*piece)));
        end = piece.last.get();
    }
    keep_end(ahead, account, end, page.len());
}

/// The row that a page of an account's rows was asked to follow, once the page is kept.
pub fn read_rows(
    found: Result<Vec<PieceRow>, Error>,
    account: AccountNo,
    row: Piece,
    ahead: &mut Vec<RowAhead>,
) -> Result<Option<Piece>, StatementFault>
    ensures value { Passes found result (λ rows shown. shown ≡ Some row) }
    ensures accepts { Accepts found result (λ rows. ⊤) }
    ensures row { IfOk result (λ shown. shown ≡ Some row) }
    ensures ahead { KeepsAhead found account row.last ahead.old.items ahead.new.items }
{
    keep_rows(ahead, account, row.last.get(), &found?);
    Ok(Some(row))
}

/// The row that a page of an account's rows beside their lots was asked to follow, once the page is
/// kept. The lots of the page are kept too.
pub fn read_pieces(
    alloc: Global,
    found: Result<Vec<JoinedRow>, Error>,
    account: AccountNo,
    row: Piece,
    lots: &mut Vec<NumberedLot>,
    ahead: &mut Vec<RowAhead>,
) -> Result<Option<Piece>, StatementFault>
    ensures value { Passes found result (λ rows shown. shown ≡ Some row) }
    ensures accepts { Accepts found result (λ rows. AreReadablePieces rows.items) }
    ensures row { IfOk result (λ shown. shown ≡ Some row) }
    ensures kept { KeepsRead found (λ rows. rows.items) lots.old.items lots.new.items }
    ensures ahead { KeepsWhole found account row.last ahead.old.items ahead.new.items }
{
    let page = read_rising(alloc, found, lots)?;
    keep_pieces(ahead, account, row.last.get(), &page);
    Ok(Some(row))
}

/// Whether as many rows are a full page, and most of them were of the lot of the row before them.
fn are_most(shared: usize, rows: usize) -> bool {
    rows == PAGE && shared > PAGE / 3 * 2
}

/// Whether a page is full and most of its rows are of the lot of the row before them.
pub fn rows_share_lots(found: &Result<Vec<PieceRow>, Error>) -> bool {
    let Ok(page) = found else {
        return false;
    };
    let pairs = page.iter().zip(page.iter().skip(1));
    are_most(
        pairs.filter(|(row, next)| row.lot == next.lot).count(),
        page.len(),
    )
}

/// The same of rows beside their lots.
pub fn pieces_share_lots(found: &Result<Vec<JoinedRow>, Error>) -> bool {
    let Ok(page) = found else {
        return false;
    };
    let pairs = page.iter().zip(page.iter().skip(1));
    are_most(
        pairs
            .filter(|(row, next)| row.piece.lot == next.piece.lot)
            .count(),
        page.len(),
    )
}
