//! The lots of rows that were found, which are kept beside their numbers, and those that were not.

ghost use Rattle.std.specs.Prelude.{◌≡◌, List, None, Ok, IfSome, IsOkUnless};
ghost use Rattle.goo_tables_rows.specs.Rows.{Lot as RowOfLot};
ghost use Rattle.goo_store_plans.specs.Found.{AreMissing, AreStated, IsMissing, IsStated};
ghost use Rattle.goo_store_values.specs.declared.statement_fault.StatementFault.TheVariants.{Memory};

use crate::room::make_room;
use goo_store_plans::known_rows::LotKey;
use goo_store_plans::lot_numbers::NumberedLot;
use goo_store_values::statement_fault::StatementFault;
use goo_types::lot::Lot;

/// How many lots of either kind are kept at most, so that a search of them takes little.
const MOST_LOTS: usize = 16;

/// The lot that is kept under this number, if one is.
pub fn lot_among(lots: &[NumberedLot], number: u64) -> Option<Lot>
    ensures { IfSome result
        (λ lot. (known : List RowOfLot) → AreStated known lots.now → IsStated known number lot) }
{
    for kept in lots {
        if kept.number == number {
            return Some(kept.lot);
        }
    }
    None
}

/// Keeps the lot that the row under this number states, unless one is kept under it.
pub fn keep_lot(lots: &mut Vec<NumberedLot>, number: u64, lot: &Lot) -> Result<(), StatementFault>
    ensures kept { (known : List RowOfLot) → AreStated known lots.old.items
        → IsStated known number lot.now → AreStated known lots.new.items }
    ensures memory { IsOkUnless result Memory }
{
    if lot_among(lots, number).is_some() {
        return Ok(());
    }
    make_room(lots, MOST_LOTS);
    lots.extend_from_slice(&[NumberedLot { number, lot: *lot }])?;
    Ok(())
}

/// Keeps that a lot which was looked up by this key is missing, if it wasn't found; where memory
/// for it is refused, it isn't kept.
pub fn keep_missing(
    missing: &mut Vec<LotKey>,
    key: LotKey,
    read: &Result<Option<Lot>, StatementFault>,
)
    ensures kept { (known : List RowOfLot) → AreMissing known missing.old.items
        → (read.now ≡ Ok None → IsMissing known key) → AreMissing known missing.new.items }
{
    let Ok(None) = read else {
        return;
    };
    make_room(missing, MOST_LOTS);
    let _kept = missing.extend_from_slice(&[key]);
}
