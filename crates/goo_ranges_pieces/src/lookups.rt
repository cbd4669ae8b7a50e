//! Look-ups in lists of rising pieces: each searches the pieces by halves.

ghost use Rattle.std.specs.Prelude.{◌≡◌, ◌≤◌, suc};
ghost use Rattle.goo_types.specs.Number.{code_of};
ghost use Rattle.goo_types.specs.Piece.{at_of, IsRising};
ghost use Rattle.goo_spec.specs.Maps.{least_absent};
ghost use Rattle.goo_ranges_pieces.specs.Touching.{IsTouched};
ghost use Rattle.goo_ranges_pieces.specs.Walk.{span, IsRest};

use goo_types::number::Number;
use goo_types::piece::Piece;

/// The pieces from the first one on that ends at the number or after it.
pub fn reaching(pieces: &[Piece], number: u64) -> &[Piece]
    requires { IsRising pieces.now }
    ensures { IsRest pieces.now result.now number }
{
    let start = pieces.partition_point(|piece| piece.last.get() < number);
    &pieces[start..]
}

/// The least number from `first` to `last` that the pieces lack.
pub fn least_missing(pieces: &[Piece], first: Number, last: Number) -> Option<Number>
    requires rising { IsRising pieces.now }
    requires forward { first ≤ last }
    requires one_code { code_of first ≡ code_of last }
    ensures { result ≡ least_absent (at_of pieces.now) (span first (suc last)) }
{
    let mut next = first.get();
    for piece in reaching(pieces, next) {
        if next < piece.first.get() {
            break;
        }
        next = piece.last.get() + 1;
        if next > last.get() {
            return None;
        }
    }
    Some(Number::between(first, last, next))
}

/// The indices between which the pieces meet the range or are next to it.
pub fn touched(pieces: &[Piece], first: Number, last: Number) -> (usize, usize)
    requires rising { IsRising pieces.now }
    requires forward { first ≤ last }
    ensures { IsTouched pieces.now first last result.0 result.1 }
{
    let first = first.get();
    let last = last.get();
    let from = pieces.partition_point(|piece| piece.last.get() + 1 < first);
    let to = pieces.partition_point(|piece| piece.first.get() <= last + 1);
    (from, to)
}
