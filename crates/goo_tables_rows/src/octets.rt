//! Bytes that a column keeps.

ghost use Rattle.std.specs.Prelude.{◌<◌, length, IfOk, IfErr};
ghost use Rattle.sqlite.specs.Order.{column};
ghost use Rattle.goo_tables_rows.specs.Reads.{IsOctets};
ghost use Rattle.goo_tables_rows.specs.Readable.{IsBytes, IsUnread};

use sqlite::types::{Type, ValueRef};
use sqlite::{Error, Row};
use std::alloc::Global;

/// The bytes of a text or of a blob.
///
/// # Errors
///
/// `InvalidColumnType` for a value of another kind, `InvalidColumnIndex` where the row ends before,
/// and `OutOfMemory`.
pub fn octets_at(alloc: Global, row: &Row, at: usize) -> Result<Vec<u8>, Error>
    ensures reads { IfOk result (λ b. IsOctets (column row.now at) b.items) }
    ensures refused { IfErr result
        (IsUnread ((at < length row.now) × IsBytes (column row.now at))) }
{
    let value = row.get_ref(at)?;
    match value {
        ValueRef::Text(bytes) | ValueRef::Blob(bytes) => Ok(Vec::from_slice(alloc, bytes)?),
        _ => Err(Error::InvalidColumnType(at, Type::of(value))),
    }
}
