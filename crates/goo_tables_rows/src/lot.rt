//! Rows of `lot`: what certificates of one device and one production period have in common.
ghost use Rattle.std.specs.Prelude.{◌≤◌, IfOk, IfErr};
ghost use Rattle.goo_tables_rows.specs.Reads.{lot_reads};
ghost use Rattle.goo_tables_rows.specs.Readable.{lot_readable, IsUnread};

use crate::from_row::FromRow;
use crate::plant::{PlantRow, plant_at};
use sqlite::{Error, Row};
use std::alloc::Global;

/// A row of `lot`.
#[derive(Drop)]
pub struct LotRow {
    /// Its number in this database.
    pub id: u64,
    /// The code of the registry that issued it.
    pub origin: u32,
    /// The device.
    pub device: String,
    /// What was registered of its plant.
    pub plant: PlantRow,
    /// The first day of the production period.
    pub first_day: String,
    /// The last day of the production period.
    pub last_day: String,
    /// The day after which a certificate that is still held expires; none, where that is past the
    /// calendar.
    pub expires_on: Option<String>,
    /// The day of the issue.
    pub issued_on: String,
    /// The word for its carrier, where that is another than electricity and was asked for: it
    /// stands in `lot_carrier`.
    pub carrier: Option<String>,
}

/// The lot that the columns of a row from a place on state.
///
/// # Errors
///
/// `OutOfMemory` where memory was refused, or else an error of `Row::get` (`InvalidColumnIndex`,
/// `InvalidColumnType`, `IntegralValueOutOfRange`, `Utf8Error`), which comes only where a column is
/// missing or keeps something else.
pub fn lot_at(row: &Row, from: usize) -> Result<LotRow, Error>
    requires { from ≤ 50 }
    ensures reads { IfOk result (lot_reads from row.now) }
    ensures refused { IfErr result (IsUnread (lot_readable from row.now)) }
{
    Ok(LotRow {
        id: row.get(from)?,
        origin: row.get(from + 1)?,
        device: row.get(from + 2)?,
        plant: plant_at(row, from + 3)?,
        first_day: row.get(from + 10)?,
        last_day: row.get(from + 11)?,
        expires_on: row.get(from + 12)?,
        issued_on: row.get(from + 13)?,
        carrier: row.get(from + 14)?,
    })
}

impl FromRow for LotRow {
    ghost use Rattle.goo_tables_rows.specs.Reads.{lot_reads};
    ghost use Rattle.goo_tables_rows.specs.Readable.{lot_readable};

    ghost reads = { lot_reads 0 };

    ghost readable = { lot_readable 0 };

    fn from_row(_alloc: Global, row: &Row) -> Result<LotRow, Error> {
        lot_at(row, 0)
    }
}
