//! The edits of an export.

ghost use Rattle.std.specs.Prelude.{◌≡◌, ◌≤◌, length, IfOk, IfErr};
ghost use Rattle.goo_types.specs.Piece.{IsRising};
ghost use Rattle.goo_types.specs.declared.fault.Fault.TheVariants.{Memory};
ghost use Rattle.goo_types.specs.declared.place.Place.TheVariants.{Exported};
ghost use Rattle.goo_ranges.specs.Change.{moved};
ghost use Rattle.goo_core_rules.specs.Changes.{AreEditsFor};

use crate::moved_rows::move_met;
use goo_ranges::{Book, Edit};
use goo_types::act_no::ActNo;
use goo_types::command::Export;
use goo_types::fault::Fault;
use goo_types::place::Place;
use std::alloc::Global;

/// The edits that send the range of an export away with the notice of this number.
///
/// # Errors
///
/// `Memory` where an allocation was refused.
pub fn sending_edits(
    alloc: Global,
    book: Book,
    export: &Export,
    number: ActNo,
) -> Result<Vec<Edit>, Fault>
    requires { IsRising book }
    ensures edits { IfOk result
        (λ edits. (export.now.range.first ≤ export.now.range.last)
        × AreEditsFor export.now.range book
        (moved export.now.range.first export.now.range.last (Exported export.now.giver number))
        edits.items × (length edits.items ≤ 1)) }
    ensures memory { IfErr result (λ fault. fault ≡ Memory) }
{
    let place = Place::Exported(export.giver, number);
    move_met(alloc, book, export.range, place)
}
