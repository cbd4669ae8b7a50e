//! The rows of pieces that edits insert.

ghost use Rattle.std.specs.Prelude.{◌≡◌, ◌<◌, ◌^◌, true, IfOk, IsOk};
ghost use Rattle.goo_types.specs.Piece.{IsForward};
ghost use Rattle.goo_tables_rows.specs.Rows.{Lot as LotOf};
ghost use Rattle.goo_tables_accounts.specs.Changes.{PieceFits};
ghost use Rattle.goo_spec_tables.specs.Places.{lot_of, piece_of, place_of};
ghost use Rattle.goo_spec_tables.specs.Readable.{is_act, is_piece, names_act};

use goo_store_values::statement_fault::StatementFault;
use goo_tables_rows::piece::PieceRow;
use goo_types::piece::Piece;
use goo_types::place::Place;

/// A place as a row keeps it.
#[derive(Clone, Copy)]
struct PlaceColumns {
    kind: u32,
    account: u32,
    act: u32,
}

/// The kind of a place, 1 to 5, its account, and its act, 0 where it has none.
fn place_columns(place: Place) -> PlaceColumns
    ensures states { place_of result.kind result.account result.act ≡ place }
    ensures account { is_act result.account ≡ true }
    ensures act { names_act result.kind result.act ≡ true }
{
    match place {
        Place::Held(account) => PlaceColumns {
            kind: 1,
            account: account.get(),
            act: 0,
        },
        Place::Cancelled(account, act) => PlaceColumns {
            kind: 2,
            account: account.get(),
            act: act.get(),
        },
        Place::Expired(account) => PlaceColumns {
            kind: 3,
            account: account.get(),
            act: 0,
        },
        Place::Withdrawn(account, act) => PlaceColumns {
            kind: 4,
            account: account.get(),
            act: act.get(),
        },
        Place::Exported(account, act) => PlaceColumns {
            kind: 5,
            account: account.get(),
            act: act.get(),
        },
    }
}

/// The row of a piece whose lot has this number; the piece must not run backwards.
pub fn piece_row(piece: &Piece, lot: u64) -> Result<PieceRow, StatementFault>
    requires { lot < 2 ^ 63 }
    ensures lot { IfOk result (λ row. row.lot ≡ lot) }
    ensures states { IfOk result
        (λ row. (l : LotOf) → lot_of l ≡ piece.now.lot → piece_of (row, l) ≡ piece.now) }
    ensures reads { IfOk result (λ row. is_piece row ≡ true) }
    ensures fits { IfOk result PieceFits }
    ensures accepts { IsForward piece.now → IsOk result }
{
    if !piece.is_forward() {
        return Err(StatementFault::Refused);
    }
    let place = place_columns(piece.place);
    Ok(PieceRow {
        first: piece.first.get(),
        last: piece.last.get(),
        lot,
        kind: place.kind,
        account: place.account,
        act: place.act,
    })
}
