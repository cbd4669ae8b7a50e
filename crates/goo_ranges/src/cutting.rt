//! Lists of pieces of which numbers are cut out, and into which others are put.

ghost use Rattle.std.specs.Prelude.{◌≡◌, ◌+◌, ◌≤◌, ◌++◌, length, take, drop, OnOk, OnErr, IfOk};
ghost use Rattle.goo_ranges_pieces.specs.Change.{IsKept, IsSet};
ghost use Rattle.goo_ranges_pieces.specs.Walk.{end_of};
ghost use Rattle.goo_types.specs.Piece.{label_of, IsRising};

use goo_ranges_pieces::joined::push_part;
use goo_ranges_pieces::parts::part;
use goo_types::lot::Lot;
use goo_types::number::Number;
use goo_types::piece::Piece;
use goo_types::place::Place;
use std::alloc::{AllocError, Global};

/// The pieces with their numbers from `low` to `high` alone.
///
/// # Errors
///
/// `AllocError` where memory was refused.
pub fn kept_pieces(
    alloc: Global,
    pieces: &[Piece],
    low: u64,
    high: u64,
) -> Result<Vec<Piece>, AllocError>
    requires { IsRising pieces.now }
    ensures { IfOk result (λ out. IsKept low high pieces.now out.items) }
{
    let mut out = Vec::new(alloc);
    for piece in pieces {
        push_part(&mut out, part(piece, low, high, piece.place))?;
    }
    Ok(out)
}

/// A number that none of the pieces goes past, or `otherwise` where there is none.
fn last_number(pieces: &[Piece], otherwise: u64) -> u64
    ensures { end_of 0 pieces.now ≤ result + 1 }
{
    match pieces.last() {
        Some(piece) => piece.last.get(),
        None => otherwise,
    }
}

/// The pieces with one more in the place of its numbers.
///
/// # Errors
///
/// `AllocError` where memory was refused.
pub fn set_pieces(alloc: Global, replaced: &[Piece], new: &Piece) -> Result<Vec<Piece>, AllocError>
    requires { IsRising replaced.now }
    ensures { IfOk result
        (λ out. IsSet new.now.first new.now.last (label_of new.now) replaced.now out.items) }
{
    let first = new.first.get();
    let last = new.last.get();
    let end = last_number(replaced, last);
    let mut out = kept_pieces(alloc, replaced, 0, first - 1)?;
    let right = kept_pieces(alloc, replaced, last + 1, end)?;
    out.push(*new)?;
    out.extend_from_slice(&right)?;
    Ok(out)
}

/// Puts other pieces in the place of those from the index `from` on and below `to`. What stands
/// before stays where it is.
///
/// # Errors
///
/// `AllocError` where memory was refused; the pieces are then unchanged.
pub fn put_between(
    pieces: &mut Vec<Piece>,
    from: usize,
    to: usize,
    more: Vec<Piece>,
) -> Result<(), AllocError>
    requires order { from ≤ to }
    requires bound { to ≤ length pieces.old.items }
    ensures ok { OnOk result
        (pieces.new.items
        ≡ take from pieces.old.items ++ (more.items ++ drop to pieces.old.items)) }
    ensures err { OnErr result (pieces.new.items ≡ pieces.old.items) }
{
    pieces.splice(from..to, more)?;
    Ok(())
}
