//! The columns of a plant, which `device` and `lot` have in common.
ghost use Rattle.std.specs.Prelude.{◌≤◌, IfOk, IfErr};
ghost use Rattle.goo_tables_rows.specs.Reads.{plant_reads};
ghost use Rattle.goo_tables_rows.specs.Readable.{plant_readable, IsUnread};

use sqlite::{Error, Row};

/// The columns of a device's plant, which each of its lots repeats.
#[derive(Drop)]
pub struct PlantRow {
    /// The country.
    pub country: String,
    /// The name of the site.
    pub site: String,
    /// The code of the technology.
    pub tech: String,
    /// The code of the energy source.
    pub source: String,
    /// The capacity, in W.
    pub capacity_w: u64,
    /// The day on which the plant began to produce.
    pub commissioned: String,
    /// The word for the support that it had.
    pub support: String,
}

/// The plant that the columns of a row from a place on state.
///
/// # Errors
///
/// `OutOfMemory` where memory was refused, or else an error of `Row::get` (`InvalidColumnIndex`,
/// `InvalidColumnType`, `IntegralValueOutOfRange`, `Utf8Error`), which comes only where a column is
/// missing or keeps something else.
pub fn plant_at(row: &Row, from: usize) -> Result<PlantRow, Error>
    requires { from ≤ 100 }
    ensures reads { IfOk result (plant_reads from row.now) }
    ensures refused { IfErr result (IsUnread (plant_readable from row.now)) }
{
    Ok(PlantRow {
        country: row.get(from)?,
        site: row.get(from + 1)?,
        tech: row.get(from + 2)?,
        source: row.get(from + 3)?,
        capacity_w: row.get(from + 4)?,
        commissioned: row.get(from + 5)?,
        support: row.get(from + 6)?,
    })
}
