//! Databases whose tables are not those of a registry: why they are refused.

ghost use Rattle.std.specs.Prelude.{◌≡◌, ◌↔◌, false, IsTrue};
ghost use Rattle.std.specs.List.{AllByRecursion};
ghost use Rattle.sqlite.specs.Held.{state};
ghost use Rattle.sqlite.specs.State.{HasCleanDisk};
ghost use Rattle.sqlite.specs.Tree.{Trees};
ghost use Rattle.goo_tables_rows.specs.Stands.{Rests, IsSettled};
ghost use Rattle.goo_store_open.specs.Foreign.{IsMeta, LacksMeta, IsRowWord, TellsVersion};
ghost use Rattle.goo_store_open.specs.Foreign.{IsForeignWord};

use crate::fault::{OpenFault, fault_of};
use crate::finding::VERSION;
use crate::forms::TableForm;
use crate::matching::is_table;
use crate::registry_form::META;
use sqlite::{Alter, Connection, Error, ErrorCode, Row};
use sqlite_schema::schema::Table;

/// Whether it is a table `meta` with the columns of a registry's, in whatever tree.
fn is_meta(table: &Table) -> bool
    ensures { IsTrue result ↔ IsMeta table.now }
{
    is_table(
        table,
        &TableForm {
            tree: table.tree,
            ..META
        },
    )
}

/// Whether none of the tables is such a `meta`.
fn lack_meta(tables: &[Table]) -> bool
    ensures { IsTrue result ↔ AllByRecursion (λ table. ¬ IsMeta table) tables.now }
{
    match tables {
        [] => true,
        [table, rest @ ..] => !is_meta(table) && lack_meta(rest),
    }
}

/// The word for the rows that tell the version of other tables than those that are read here.
fn version_fault(rows: &[Row]) -> OpenFault
    ensures told { IsRowWord rows.now result }
    ensures word { IsForeignWord result }
{
    let Some(row) = rows.first() else {
        return OpenFault::NotARegistry;
    };
    match row.get::<u32>(0) {
        Ok(version) if version == VERSION => OpenFault::Damaged,
        Ok(version) => OpenFault::Version(version),
        Err(Error::SqliteFailure(ErrorCode::OutOfMemory)) => OpenFault::Memory,
        Err(_) => OpenFault::Damaged,
    }
}

/// The word for what a foreign `meta` tells.
fn ask_version<S: Alter>(conn: &mut Connection<S>) -> OpenFault
    ensures told { HasCleanDisk (state S.Store conn.new)
        → TellsVersion (state S.Store conn.old) (state S.Store conn.new) result }
    ensures word { IsForeignWord result }
    ensures clean { HasCleanDisk (state S.Store conn.new) → HasCleanDisk (state S.Store conn.old) }
    ensures rests { HasCleanDisk (state S.Store conn.new) → IsSettled (state S.Store conn.old)
        → Rests (state S.Store conn.old) (state S.Store conn.new) }
    ensures outside { conn.old.in_transaction ≡ false → conn.new.in_transaction ≡ false }
    ensures crash { HasCleanDisk (state S.Store conn.new) → (db : Trees)
        → (state S.Store conn.new).may_leave db → (state S.Store conn.old).may_leave db }
{
    match conn.query_all("SELECT version FROM meta WHERE id = 1", &[]) {
        Ok(rows) => version_fault(&rows),
        Err(error) => fault_of(error, OpenFault::Damaged),
    }
}

/// Why a database is refused whose tables are not those of a registry: `NotARegistry` where none is
/// its `meta`, and then no call looks at the database; otherwise by the version that the row of
/// `meta` tells, an earlier one of ours too, and `Damaged` for the version that is read here, whose
/// tables are others. `Store` where a call was refused, and `Memory` where memory was.
pub fn foreign_fault<S: Alter>(conn: &mut Connection<S>) -> OpenFault
    ensures lacking { LacksMeta (state S.Store conn.old).now.schema
        → (result ≡ OpenFault.NotARegistry) × (conn.new ≡ conn.old) }
    ensures told { (LacksMeta (state S.Store conn.old).now.schema → ⊥)
        → HasCleanDisk (state S.Store conn.new)
        → TellsVersion (state S.Store conn.old) (state S.Store conn.new) result }
    ensures word { IsForeignWord result }
    ensures clean { HasCleanDisk (state S.Store conn.new) → HasCleanDisk (state S.Store conn.old) }
    ensures rests { HasCleanDisk (state S.Store conn.new) → IsSettled (state S.Store conn.old)
        → Rests (state S.Store conn.old) (state S.Store conn.new) }
    ensures outside { conn.old.in_transaction ≡ false → conn.new.in_transaction ≡ false }
    ensures crash { HasCleanDisk (state S.Store conn.new) → (db : Trees)
        → (state S.Store conn.new).may_leave db → (state S.Store conn.old).may_leave db }
{
    if lack_meta(conn.schema().tables.as_slice()) {
        OpenFault::NotARegistry
    } else {
        ask_version(conn)
    }
}
