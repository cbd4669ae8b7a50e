//! Rows of `lot_carrier`: the carriers of lots of something other than electricity.

use crate::from_row::FromRow;
use sqlite::{Error, Row};
use std::alloc::Global;

/// A row of `lot_carrier`.
#[derive(Drop)]
pub struct LotCarrierRow {
    /// The lot's number in this database.
    pub lot: u64,
    /// The word for its carrier.
    pub carrier: String,
}

impl FromRow for LotCarrierRow {
    ghost use Rattle.goo_tables_rows.specs.Reads.{lot_carrier_reads};
    ghost use Rattle.goo_tables_rows.specs.Readable.{lot_carrier_readable};

    ghost reads = { lot_carrier_reads };

    ghost readable = { lot_carrier_readable };

    fn from_row(_alloc: Global, row: &Row) -> Result<LotCarrierRow, Error> {
        Ok(LotCarrierRow {
            lot: row.get(0)?,
            carrier: row.get(1)?,
        })
    }
}
