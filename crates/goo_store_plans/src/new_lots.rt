//! The rows of lots that become known.

ghost use Rattle.std.specs.Prelude.{◌≡◌, ◌<◌, ◌^◌, true, IfOk, IsOkUnless, option_map};
ghost use Rattle.std.specs.Prelude.{string_bytes};
ghost use Rattle.goo_types.specs.Texts.{day_text as text_of_day};
ghost use Rattle.goo_tables_rows.specs.Rows.{lot_in, plant_in};
ghost use Rattle.goo_spec_tables.specs.Kept.{IsKeptLot};
ghost use Rattle.goo_spec_tables.specs.Places.{lot_of};
ghost use Rattle.goo_spec_tables.specs.Readable.{is_lot, is_plant};
ghost use Rattle.goo_store_plans.specs.LotRows.{IsRowOfPlant};
ghost use Rattle.goo_store_values.specs.declared.statement_fault.StatementFault.TheVariants.{Memory};
ghost use Rattle.goo_tables_accounts.specs.Changes.{LotFits};

use crate::new_rows::{carrier_string, day_string};
use goo_store_values::plants::Plant;
use goo_store_values::statement_fault::StatementFault;
use goo_tables_rows::lot::LotRow;
use goo_tables_rows::plant::PlantRow;
use goo_types::day::Day;
use goo_types::lot::Lot;
use std::alloc::{AllocError, Global};

/// The text of a day, if there is one.
fn maybe_day_string(alloc: Global, day: Option<Day>) -> Result<Option<String>, AllocError>
    ensures { IfOk result (λ text. option_map string_bytes text ≡ option_map text_of_day day) }
{
    match day {
        Some(day) => Ok(Some(String::from_str(alloc, day.text().as_str())?)),
        None => Ok(None),
    }
}

/// What a lot states of its plant.
fn plant_of(lot: &Lot) -> Plant
    ensures country { result.country ≡ lot.now.country }
    ensures site { result.site ≡ lot.now.site }
    ensures tech { result.tech ≡ lot.now.tech }
    ensures source { result.source ≡ lot.now.source }
    ensures capacity_w { result.capacity_w ≡ lot.now.capacity_w }
    ensures commissioned { result.commissioned ≡ lot.now.commissioned }
    ensures support { result.support ≡ lot.now.support }
{
    Plant {
        country: lot.country(),
        site: lot.site(),
        tech: lot.tech(),
        source: lot.source(),
        capacity_w: lot.capacity_w(),
        commissioned: lot.commissioned(),
        support: lot.support(),
    }
}

/// The columns of a plant.
fn plant_row(alloc: Global, plant: &Plant) -> Result<PlantRow, AllocError>
    ensures states { IfOk result (λ row. IsRowOfPlant (plant_in row) plant.now) }
    ensures reads { IfOk result (λ row. is_plant (plant_in row) ≡ true) }
{
    Ok(PlantRow {
        country: String::from_str(alloc, plant.country.text())?,
        site: String::from_str(alloc, plant.site.text())?,
        tech: String::from_str(alloc, plant.tech.text())?,
        source: String::from_str(alloc, plant.source.text())?,
        capacity_w: plant.capacity_w.get(),
        commissioned: day_string(alloc, plant.commissioned)?,
        support: String::from_str(alloc, plant.support.word())?,
    })
}

/// The row of a lot under a number, with the day after which its held certificates expire.
pub fn lot_row(alloc: Global, lot: &Lot, number: u64) -> Result<LotRow, StatementFault>
    ensures id { IfOk result (λ row. row.id ≡ number) }
    ensures states { IfOk result (λ row. lot_of (lot_in row) ≡ lot.now) }
    ensures reads { IfOk result (λ row. is_lot (lot_in row) ≡ true) }
    ensures kept { IfOk result (λ row. IsKeptLot (lot_in row)) }
    ensures fits { IfOk result LotFits }
    ensures memory { number < 2 ^ 63 → IsOkUnless result Memory }
{
    if number >= 1 << 63 {
        return Err(StatementFault::Refused);
    }
    let _by_the_rules = lot.fields();
    Ok(LotRow {
        id: number,
        origin: u32::from(lot.origin().get()),
        device: String::from_str(alloc, lot.device().text())?,
        plant: plant_row(alloc, &plant_of(lot))?,
        first_day: day_string(alloc, lot.first_day())?,
        last_day: day_string(alloc, lot.last_day())?,
        expires_on: maybe_day_string(alloc, lot.expires_on())?,
        issued_on: day_string(alloc, lot.issued_on())?,
        carrier: carrier_string(alloc, lot.carrier())?,
    })
}
