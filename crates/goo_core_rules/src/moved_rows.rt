//! The edit of the rows that a range meets.

ghost use Rattle.std.specs.Prelude.{◌≡◌, ◌≤◌, [], ◌∷◌, length, IfOk, IfErr};
ghost use Rattle.goo_types.specs.Piece.{IsRising};
ghost use Rattle.goo_types.specs.declared.fault.Fault.TheVariants.{Memory};
ghost use Rattle.goo_ranges.specs.Change.{moved};
ghost use Rattle.goo_core_rules.specs.Changes.{AreEditsFor, AreSmall};

use goo_ranges::{Book, Edit};
use goo_types::fault::Fault;
use goo_types::place::Place;
use goo_types::range::Range;
use std::alloc::{AllocError, Global};

/// A list of one edit.
///
/// # Errors
///
/// `AllocError` where memory was refused.
pub fn single(alloc: Global, edit: Edit) -> Result<Vec<Edit>, AllocError>
    ensures { IfOk result (λ edits. edits.items ≡ edit ∷ []) }
{
    let mut edits = Vec::new(alloc);
    edits.push(edit)?;
    Ok(edits)
}

/// The edit that puts the certificates of a range in another place.
///
/// # Errors
///
/// `Memory` where an allocation was refused.
pub fn move_met(
    alloc: Global,
    mut book: Book,
    range: Range,
    place: Place,
) -> Result<Vec<Edit>, Fault>
    requires { IsRising book }
    ensures edits { IfOk result
        (λ edits. (range.first ≤ range.last)
        × AreEditsFor range book (moved range.first range.last place) edits.items
        × (length edits.items ≤ 1)) }
    ensures small { IfOk result (λ edits. AreSmall (range ∷ []) book edits.items) }
    ensures memory { IfErr result (λ fault. fault ≡ Memory) }
{
    let _first = range.first();
    let edit = book.reassign(range, place)?;
    Ok(single(alloc, edit)?)
}
