//! Parts of a piece, and equal pieces.

ghost use Rattle.std.specs.Prelude.{◌≡◌, ◌↔◌, IsTrue};
ghost use Rattle.goo_ranges_pieces.specs.Change.{IsPart};
ghost use Rattle.goo_types.specs.Piece.{IsForward};

use goo_types::number::Number;
use goo_types::piece::Piece;
use goo_types::place::Place;

/// The part of a piece whose numbers are from `low` to `high`, at a place; None where there is
/// none.
pub fn part(piece: &Piece, low: u64, high: u64, place: Place) -> Option<Piece>
    requires { IsForward piece.now }
    ensures { IsPart piece.now low high place result }
{
    let first = piece.first.get().max(low);
    let last = piece.last.get().min(high);
    if first > last {
        return None;
    }
    Some(Piece {
        first: Number::between(piece.first, piece.last, first),
        last: Number::between(piece.first, piece.last, last),
        lot: piece.lot,
        place,
    })
}

/// Whether both have the same numbers, lot and place.
pub fn is_same(one: &Piece, other: &Piece) -> bool
    ensures { IsTrue result ↔ (one.now ≡ other.now) }
{
    one.first == other.first && one.last == other.last && one.has_label_of(other)
}
