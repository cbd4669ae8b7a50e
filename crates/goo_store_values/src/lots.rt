//! Lots, as rows state them.

ghost use Rattle.std.specs.Prelude.{◌≡◌, IfOk, IsOk};
ghost use Rattle.goo_tables_rows.specs.Rows.{lot_in};
ghost use Rattle.goo_spec_tables.specs.Places.{lot_of};
ghost use Rattle.goo_store_values.specs.Reading.{IsReadableLot};

use crate::plants::read_plant;
use crate::statement_fault::StatementFault;
use crate::{numbers, texts};
use goo_tables_rows::lot::LotRow;
use goo_types::lot::Lot;
use goo_types::lot_fields::LotFields;

/// The lot that a row states.
///
/// # Errors
///
/// `Refused` where a column holds no such value, or the days make no lot.
pub fn read_lot(row: &LotRow) -> Result<Lot, StatementFault>
    ensures value { IfOk result (λ lot. lot ≡ lot_of (lot_in row.now)) }
    ensures accepts { IsReadableLot (lot_in row.now) → IsOk result }
{
    let plant = read_plant(&row.plant)?;
    let fields = LotFields {
        origin: numbers::registry_code(row.origin)?,
        device: texts::gsrn(&row.device)?,
        country: plant.country,
        site: plant.site,
        tech: plant.tech,
        source: plant.source,
        capacity_w: plant.capacity_w,
        commissioned: plant.commissioned,
        support: plant.support,
        first_day: texts::day(&row.first_day)?,
        last_day: texts::day(&row.last_day)?,
        issued_on: texts::day(&row.issued_on)?,
        carrier: texts::carrier(&row.carrier)?,
    };
    Lot::new(fields).ok_or(StatementFault::Refused)
}
