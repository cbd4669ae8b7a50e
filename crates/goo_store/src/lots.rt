//! Lots, as they are found.

ghost use Rattle.std.specs.Prelude.{◌≡◌, IfOk, IfSome, IsOkUnless, option_map};
ghost use Rattle.goo_tables_rows.specs.Rows.{lot_in};
ghost use Rattle.goo_store_pieces.specs.Found.{KeepsLot, KeepsRow};
ghost use Rattle.goo_spec_tables.specs.Places.{lot_of};
ghost use Rattle.goo_store_values.specs.Reading.{IsReadableLot};
ghost use Rattle.goo_store_values.specs.Passing.{Accepts, Passes};
ghost use Rattle.goo_store_values.specs.declared.statement_fault.StatementFault.TheVariants.{Memory};

use goo_store_pieces::kept_lots::keep_lot;
use goo_store_plans::lot_numbers::NumberedLot;
use goo_store_values::lots::read_lot;
use goo_store_values::statement_fault::StatementFault;
use goo_tables_rows::lot::LotRow;
use goo_types::lot::Lot;
use sqlite::Error;

/// The lot that a row states, which is kept.
fn read_kept(row: &LotRow, lots: &mut Vec<NumberedLot>) -> Result<Lot, StatementFault>
    ensures value { IfOk result (λ lot. lot ≡ lot_of (lot_in row.now)) }
    ensures accepts { IsReadableLot (lot_in row.now) → IsOkUnless result Memory }
    ensures kept { KeepsRow row.now lots.old.items lots.new.items }
{
    let lot = read_lot(row)?;
    keep_lot(lots, row.id, &lot)?;
    Ok(lot)
}

/// The lot, if there is one. It is kept.
pub(crate) fn read_found(
    found: Result<Option<LotRow>, Error>,
    lots: &mut Vec<NumberedLot>,
) -> Result<Option<Lot>, StatementFault>
    ensures value { Passes found result
        (λ row lot. lot ≡ option_map lot_of (option_map lot_in row)) }
    ensures accepts { Accepts found result (λ row. IfSome row (λ r. IsReadableLot (lot_in r))) }
    ensures kept { KeepsLot found lots.old.items lots.new.items }
{
    match found? {
        Some(row) => Ok(Some(read_kept(&row, lots)?)),
        None => Ok(None),
    }
}
