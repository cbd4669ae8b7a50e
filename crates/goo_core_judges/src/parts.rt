//! The parts of a notice: the longest stretches of certificates of one lot.

ghost use Rattle.std.specs.Prelude.{◌≡◌, ◌≢◌, ◌≤◌, ◌<◌, ◌+◌, min, None, OnOk, IfOk, IfErr, IfSome};
ghost use Rattle.std.specs.Int.{IsInRange};
ghost use Rattle.goo_types.specs.Piece.{IsRising, at_of};
ghost use Rattle.goo_types.specs.declared.fault.Fault.TheVariants.{Memory};
ghost use Rattle.goo_spec.specs.Maps.{each, least_absent};
ghost use Rattle.goo_spec.specs.Parts.{ArePartsOf};
ghost use Rattle.goo_core_judges.specs.Parts.{IsLonger};
ghost use Rattle.goo_core_judges.specs.Walk.{IsStep};

use goo_types::fault::Fault;
use goo_types::lot::Lot;
use goo_types::number::Number;
use goo_types::part::Part;
use goo_types::piece::Piece;
use goo_types::range::Range;
use std::alloc::{AllocError, Global};

/// The numbers of a range from one to another.
fn stretch(range: Range, first: u64, last: u64) -> Range
    requires low { range.first ≤ first }
    requires up { first ≤ last }
    requires high { last ≤ range.last }
    ensures begins { result.first ≡ first }
    ensures ends { result.last ≡ last }
{
    let low = range.first();
    let high = range.last();
    let first = Number::between(low, high, first);
    let last = Number::between(low, high, last);
    Range::new(first, last).unwrap()
}

/// A part with the numbers of the range right behind it, where these have its lot.
fn joined(part: &Part, range: Range, lot: &Lot) -> Option<Part>
    ensures lot { IfSome result (λ p. (part.now.lot ≡ lot.now) × (p.lot ≡ lot.now)) }
    ensures range { IfSome result
        (λ p. (p.range.first ≡ part.now.range.first) × (p.range.last ≡ range.last)) }
    ensures other { result ≡ None → part.now.range.last + 1 ≡ range.first → part.now.lot ≢ lot.now }
{
    if !part.lot.is(lot) {
        return None;
    }
    let _begins = range.first().serial();
    let range = Range::new(part.range.first(), range.last())?;
    Some(Part { range, lot: *lot })
}

/// Puts the certificates of a range, all of one lot, behind those of some parts: into the last part
/// where that has the lot.
fn push_part(parts: &mut Vec<Part>, range: Range, lot: Lot) -> Result<(), AllocError>
    ensures { OnOk result (IsLonger parts.old.items range lot parts.new.items) }
{
    let part = Part { range, lot };
    let Some(last) = parts.pop() else {
        parts.push(part)?;
        return Ok(());
    };
    match joined(&last, range, &lot) {
        Some(longer) => parts.push(longer)?,
        None => {
            parts.push(last)?;
            parts.push(part)?;
        }
    }
    Ok(())
}

/// The part of a range that a piece has from a number on, if it has that number.
fn stretch_from(piece: &Piece, range: Range, next: u64) -> Option<Range>
    requires { range.first ≤ next }
    ensures there { IfSome result
        (λ r. (r.first ≡ next) × (next ≤ piece.now.last) × (next ≤ range.last)
        × (r.last ≡ min piece.now.last range.last)) }
    ensures none { result ≡ None → min piece.now.last range.last < next }
{
    let last = piece.last.get().min(range.last().get());
    if last < next {
        return None;
    }
    Some(stretch(range, next, last))
}

/// Puts the part of a range that a piece has from a number on behind some parts, and tells the next
/// number.
fn push_stretch(
    parts: &mut Vec<Part>,
    piece: &Piece,
    range: Range,
    next: u64,
) -> Result<u64, AllocError>
    requires { range.first ≤ next }
    ensures { IfOk result (IsStep parts.old.items piece.now range next parts.new.items) }
{
    let Some(numbers) = stretch_from(piece, range, next) else {
        return Ok(next);
    };
    push_part(parts, numbers, piece.lot)?;
    Ok(numbers.last().get() + 1)
}

/// The longest stretches of one lot among the certificates of a range, all of which are there.
///
/// # Errors
///
/// `Memory` where an allocation was refused.
pub fn parts_in(alloc: Global, pieces: &[Piece], range: Range) -> Result<Vec<Part>, Fault>
    requires rising { IsRising pieces.now }
    requires there { least_absent (at_of pieces.now) (each range) ≡ None }
    ensures parts { IfOk result (λ parts. ArePartsOf (at_of pieces.now) range parts.items) }
    ensures memory { IfErr result (λ fault. fault ≡ Memory) }
{
    let mut parts = Vec::new(alloc);
    let mut next = range.first().get();
    for piece in pieces {
        next = push_stretch(&mut parts, piece, range, next)?;
    }
    Ok(parts)
}
