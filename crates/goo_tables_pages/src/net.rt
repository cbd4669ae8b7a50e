//! The statement on what the rows of `declaration` add to their devices' energy, a page at a time.

ghost use Rattle.std.specs.Prelude.{◌≡◌, All, ◌≤◌, ◌^◌, false, filter, map, nat_le, take};
ghost use Rattle.sqlite.specs.Held.{state};
ghost use Rattle.sqlite.specs.Value.{owned};
ghost use Rattle.sqlite.specs.declared.types.Value.TheVariants.{Int};
ghost use Rattle.goo_tables_pages.specs.NetRows.{before, net_columns, net_in, net_part};
ghost use Rattle.goo_tables_pages.specs.NetRows.{net_readable};
ghost use Rattle.goo_tables_rows.specs.Refused.{FailsByFault, FailsOnlyByFault};
ghost use Rattle.goo_tables_rows.specs.Stands.{Looks};

use goo_tables_rows::ask::ask_all;
use goo_tables_rows::from_row::FromRow;
use goo_tables_rows::values::number;
use sqlite::types::ValueRef;
use sqlite::{Alter, Connection, Error, Row};
use std::alloc::Global;

/// A row of `declaration`, by its energy alone.
#[derive(Drop)]
pub struct NetRow {
    /// Its number, which rises with each declaration.
    pub id: i64,
    /// The device.
    pub device: String,
    /// The energy produced, in Wh.
    pub gross: u64,
    /// The energy that auxiliaries used, in Wh.
    pub aux: u64,
}

impl FromRow for NetRow {
    ghost use Rattle.goo_tables_pages.specs.NetRows.{net_reads, net_readable};

    ghost reads = { net_reads };

    ghost readable = { net_readable };

    fn from_row(_alloc: Global, row: &Row) -> Result<NetRow, Error> {
        Ok(NetRow {
            id: row.get(0)?,
            device: row.get(1)?,
            gross: row.get(2)?,
            aux: row.get(3)?,
        })
    }
}

/// The number before this one, as a column keeps it.
fn number_before<'a>(low: u64) -> ValueRef<'a>
    requires { low ≤ 2 ^ 63 }
    ensures { owned result ≡ Int (before low) }
{
    if low == 0 {
        ValueRef::Int(-1)
    } else {
        number(low - 1)
    }
}

/// The first 256 declarations under the number `low` or a later one, or all of them where there are
/// fewer, in the order in which they came.
///
/// # Errors
///
/// On the tables of a registry: `SqliteFailure` where memory was refused, the disk failed or an
/// earlier failure shut the connection, and an error of reading where a row can't be read. The
/// database stays as it was.
pub fn page_of_declarations<S: Alter>(
    alloc: Global,
    conn: &mut Connection<S>,
    low: u64,
) -> Result<Vec<NetRow>, Error>
    requires { low ≤ 2 ^ 63 }
    ensures looks { Looks (state S.Store conn.old) (state S.Store conn.new) result
        (λ t found. map net_in found.items
        ≡ map net_part (take 256 (filter (λ d. nat_le low d.id) t.declarations))) }
    ensures readable { FailsOnlyByFault (state S.Store conn.old) (state S.Store conn.new) result
        (λ t. All net_readable (map (λ d. net_columns (net_part d)) t.declarations)) }
    ensures refused { FailsByFault (state S.Store conn.old) (state S.Store conn.new) result }
    ensures outside { conn.old.in_transaction ≡ false → conn.new.in_transaction ≡ false }
{
    ask_all(
        alloc,
        conn,
        "SELECT id, device, gross, aux FROM declaration WHERE id > ?1 ORDER BY id LIMIT 256",
        &[number_before(low)],
    )
}
