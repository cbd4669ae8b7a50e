//! What devices and lots state of a plant.

ghost use Rattle.std.specs.Prelude.{◌≡◌, is_ok, IfOk};
ghost use Rattle.goo_tables_rows.specs.Rows.{plant_in};
ghost use Rattle.goo_spec_tables.specs.Readable.{is_plant};
ghost use Rattle.goo_store_values.specs.Plants.{IsPlantOf};

use crate::statement_fault::StatementFault;
use crate::{numbers, texts};
use goo_tables_rows::plant::PlantRow;
use goo_types::country::Country;
use goo_types::day::Day;
use goo_types::name::Name;
use goo_types::source_code::SourceCode;
use goo_types::support::Support;
use goo_types::tech_code::TechCode;
use goo_types::watts::Watts;

/// What was registered of a device's plant.
#[derive(Clone, Copy)]
pub struct Plant {
    /// The country of the device.
    pub country: Country,
    /// The name of its site.
    pub site: Name,
    /// Its technology.
    pub tech: TechCode,
    /// Its energy source.
    pub source: SourceCode,
    /// Its capacity, in W.
    pub capacity_w: Watts,
    /// The day on which it began to produce.
    pub commissioned: Day,
    /// The support that it had.
    pub support: Support,
}

/// The plant in a row.
pub fn read_plant(row: &PlantRow) -> Result<Plant, StatementFault>
    ensures value { IfOk result (IsPlantOf (plant_in row.now)) }
    ensures accepts { is_ok result ≡ is_plant (plant_in row.now) }
{
    Ok(Plant {
        country: texts::country(&row.country)?,
        site: texts::name(&row.site)?,
        tech: texts::tech_code(&row.tech)?,
        source: texts::source_code(&row.source)?,
        capacity_w: numbers::watts(row.capacity_w)?,
        commissioned: texts::day(&row.commissioned)?,
        support: texts::support(&row.support)?,
    })
}
