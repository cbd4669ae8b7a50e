//! The edits that take in what a notice brings.

ghost use Rattle.std.specs.Prelude.{◌≡◌, List, IfOk, IfErr};
ghost use Rattle.goo_types.specs.Piece.{IsRising};
ghost use Rattle.goo_types.specs.declared.fault.Fault.TheVariants.{Memory};
ghost use Rattle.goo_types.specs.declared.piece.Piece.{Piece as Row};
ghost use Rattle.goo_ranges_rows.specs.Plans.{AreEditsOf};
ghost use Rattle.goo_ranges_rows.specs.Rows.{meeting};
ghost use Rattle.goo_core_judges.specs.Taking.{IsStepOf, IsTaking, AreMet};

use goo_core_moves::arriving::Arriving;
use goo_core_moves::edits::push_edit;
use goo_ranges::{Book, Edit};
use goo_ranges_rows::near_after;
use goo_types::account_no::AccountNo;
use goo_types::fault::Fault;
use goo_types::place::Place;
use std::alloc::Global;

/// The edit that takes in one part, after those of the parts before it; None where the rows make no
/// book, which those of a shelf always do.
fn take_part(arriving: &Arriving, edits: &[Edit], account: AccountNo) -> Result<Option<Edit>, Fault>
    ensures taken { (rows : List Row) → IsRising rows → AreEditsOf rows edits.now
        → arriving.now.book ≡ meeting arriving.now.part.range rows
        → IfOk result (IsStepOf rows edits.now arriving.now account) }
    ensures memory { IfErr result (λ fault. fault ≡ Memory) }
{
    let range = arriving.part.range;
    let rows = arriving.book.to_pieces()?;
    let near = near_after(rows, edits, &range)?;
    let Ok(mut book) = Book::new(near) else {
        return Ok(None);
    };
    let _first = range.first();
    let edit = book.add(range, arriving.part.lot, Place::Held(account))?;
    Ok(Some(edit))
}

/// The edits that take in all parts, one for each; None where the rows make no book, which those of
/// a shelf always do.
///
/// # Errors
///
/// `Memory` where an allocation was refused.
pub fn take_parts(
    alloc: Global,
    arriving: &[Arriving],
    account: AccountNo,
) -> Result<Option<Vec<Edit>>, Fault>
    ensures taken { (rows : List Row) → IsRising rows → AreMet rows arriving.now
        → IfOk result (IsTaking rows arriving.now account) }
    ensures memory { IfErr result (λ fault. fault ≡ Memory) }
{
    let mut edits = Vec::new(alloc);
    for part in arriving {
        let Some(edit) = take_part(part, &edits, account)? else {
            return Ok(None);
        };
        push_edit(&mut edits, edit)?;
    }
    Ok(Some(edits))
}
