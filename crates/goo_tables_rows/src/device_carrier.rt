//! Rows of `device_carrier`: the carriers of devices that make something other than electricity.

use crate::from_row::FromRow;
use sqlite::{Error, Row};
use std::alloc::Global;

/// A row of `device_carrier`.
#[derive(Drop)]
pub struct DeviceCarrierRow {
    /// The device.
    pub gsrn: String,
    /// The word for its carrier.
    pub carrier: String,
}

impl FromRow for DeviceCarrierRow {
    ghost use Rattle.goo_tables_rows.specs.Reads.{device_carrier_reads};
    ghost use Rattle.goo_tables_rows.specs.Readable.{device_carrier_readable};

    ghost reads = { device_carrier_reads };

    ghost readable = { device_carrier_readable };

    fn from_row(_alloc: Global, row: &Row) -> Result<DeviceCarrierRow, Error> {
        Ok(DeviceCarrierRow {
            gsrn: row.get(0)?,
            carrier: row.get(1)?,
        })
    }
}
