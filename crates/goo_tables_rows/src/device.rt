//! Rows of `device`: production devices.

use crate::from_row::FromRow;
use crate::plant::{PlantRow, plant_at};
use sqlite::{Error, Row};
use std::alloc::Global;

/// A row of `device`.
#[derive(Drop)]
pub struct DeviceRow {
    /// The device's number (GS1 GSRN).
    pub gsrn: String,
    /// The account that gets its certificates.
    pub account: u32,
    /// What was registered of its plant.
    pub plant: PlantRow,
    /// The last day of the last accepted period, if there is one.
    pub last_day: Option<String>,
    /// The energy declared that no certificate stands for yet, in Wh.
    pub carry: u64,
    /// The word for its carrier, where that is another than electricity and was asked for: it
    /// stands in `device_carrier`.
    pub carrier: Option<String>,
}

impl FromRow for DeviceRow {
    ghost use Rattle.goo_tables_rows.specs.Reads.{device_reads};
    ghost use Rattle.goo_tables_rows.specs.Readable.{device_readable};

    ghost reads = { device_reads };

    ghost readable = { device_readable };

    fn from_row(_alloc: Global, row: &Row) -> Result<DeviceRow, Error> {
        Ok(DeviceRow {
            gsrn: row.get(0)?,
            account: row.get(1)?,
            plant: plant_at(row, 2)?,
            last_day: row.get(9)?,
            carry: row.get(10)?,
            carrier: row.get(11)?,
        })
    }
}
