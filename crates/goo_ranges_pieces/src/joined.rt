//! Lists of pieces in which neighbours of one lot and place are joined.

ghost use Rattle.std.specs.Prelude.{◌≡◌, ◌≤◌, [], ◌∷◌, ◌++◌, OnOk, IfOk};
ghost use Rattle.std.specs.Option.{option_to_list};
ghost use Rattle.goo_ranges_pieces.specs.Change.{IsChanged, moved, cuts};
ghost use Rattle.goo_ranges_pieces.specs.Joining.{IsJoining};
ghost use Rattle.goo_types.specs.Piece.{IsRising};
ghost use Rattle.goo_spec.specs.Runs.{IsApart};

use crate::parts::part;
use goo_types::lot::Lot;
use goo_types::number::Number;
use goo_types::piece::Piece;
use goo_types::place::Place;
use std::alloc::{AllocError, Global};

/// Adds a piece at the end, joined with the last one where it follows that.
///
/// # Errors
///
/// `AllocError` where memory was refused.
pub fn push_joined(pieces: &mut Vec<Piece>, piece: Piece) -> Result<(), AllocError>
    requires { IsRising (pieces.old.items ++ piece ∷ []) }
    ensures joined { OnOk result (IsJoining (pieces.old.items ++ piece ∷ []) pieces.new.items) }
    ensures apart { OnOk result (IsApart pieces.old.items → IsApart pieces.new.items) }
{
    let end = pieces.len();
    if end > 0 && pieces[end - 1].is_followed_by(&piece) {
        let longer = Piece {
            last: piece.last,
            ..pieces[end - 1]
        };
        pieces[end - 1] = longer;
        return Ok(());
    }
    pieces.push(piece)?;
    Ok(())
}

/// Adds a piece at the end as [`push_joined`] does, if there is one.
///
/// # Errors
///
/// `AllocError` where memory was refused.
pub fn push_part(pieces: &mut Vec<Piece>, part: Option<Piece>) -> Result<(), AllocError>
    requires { IsRising (pieces.old.items ++ option_to_list part) }
    ensures joined { OnOk result
        (IsJoining (pieces.old.items ++ option_to_list part) pieces.new.items) }
    ensures apart { OnOk result (IsApart pieces.old.items → IsApart pieces.new.items) }
{
    match part {
        Some(piece) => push_joined(pieces, piece),
        None => Ok(()),
    }
}

/// The pieces with those of their numbers that the range has at the place, and neighbours of one
/// lot and place joined.
///
/// # Errors
///
/// `AllocError` where memory was refused.
pub fn moved_pieces(
    alloc: Global,
    touched: &[Piece],
    first: Number,
    last: Number,
    place: &Place,
) -> Result<Vec<Piece>, AllocError>
    requires rising { IsRising touched.now }
    requires forward { first ≤ last }
    ensures moved { IfOk result
        (λ out. IsChanged (moved first last place.now) (cuts first last) touched.now out.items) }
    ensures apart { IfOk result (λ out. IsApart out.items) }
{
    let first = first.get();
    let last = last.get();
    let mut out = Vec::new(alloc);
    for piece in touched {
        let left = part(piece, 0, first - 1, piece.place);
        let middle = part(piece, first, last, *place);
        let right = part(piece, last + 1, piece.last.get(), piece.place);
        push_part(&mut out, left)?;
        push_part(&mut out, middle)?;
        push_part(&mut out, right)?;
    }
    Ok(out)
}

/// The pieces with neighbours of one lot and place joined.
///
/// # Errors
///
/// `AllocError` where memory was refused.
pub fn joined_pieces(alloc: Global, pieces: &[Piece]) -> Result<Vec<Piece>, AllocError>
    requires { IsRising pieces.now }
    ensures joined { IfOk result (λ out. IsJoining pieces.now out.items) }
    ensures apart { IfOk result (λ out. IsApart out.items) }
{
    let mut out = Vec::new(alloc);
    for piece in pieces {
        push_joined(&mut out, *piece)?;
    }
    Ok(out)
}
