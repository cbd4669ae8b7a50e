//! Finding a registry: the row of `meta`, and then the rows of the other tables.

ghost use Rattle.std.specs.Prelude.{◌≡◌, [], ◌∷◌, map, IfOk, IfErr};
ghost use Rattle.sqlite.specs.Held.{state};
ghost use Rattle.goo_tables_rows.specs.Rows.{Meta, Tables, meta_in, numbered_in};
ghost use Rattle.goo_store_open.specs.Layout.{number_of};
ghost use Rattle.goo_store_open.specs.Found.{Finds, IsWord, ShowsMeta, ShowsTables, row_fault};

use crate::fault::{OpenFault, fault_of};
use crate::layout::Layout;
use crate::reading::read_rows;
use crate::rows::AllRows;
use goo_tables::meta::all_meta;
use goo_tables_rows::meta::MetaRow;
use goo_tables_rows::numbered_meta::NumberedMeta;
use sqlite::{Alter, Connection};
use std::alloc::Global;

/// The version of the tables that is written here.
pub const VERSION: u32 = 2;

/// What was read of a registry's tables.
#[derive(Drop)]
pub struct Found {
    pub meta: MetaRow,
    pub rows: AllRows,
}

/// The row of `meta`: the only one, under the number 1, of the version that these tables have.
fn the_row(rows: Vec<NumberedMeta>, layout: Layout) -> Result<MetaRow, OpenFault>
    ensures only { IfOk result
        (λ m. map numbered_in rows.items ≡ record { id = 1; meta = meta_in m } ∷ []) }
    ensures version { IfOk result (λ m. m.version ≡ number_of layout) }
    ensures refused { (m : Meta) → map numbered_in rows.items ≡ record { id = 1; meta = m } ∷ []
        → m.version ≡ number_of layout → IfErr result (λ _. ⊥) }
    ensures told { IfErr result (λ fault. fault ≡ row_fault (map numbered_in rows.items)) }
    ensures unblamed { IfErr result (λ fault. fault ≡ OpenFault.Store → ⊥) }
    ensures words { (t : Tables)
        → map numbered_in rows.items ≡ record { id = 1; meta = t.meta } ∷ []
        → IfErr result (IsWord layout t) }
{
    let mut rows = rows;
    let Some(row) = rows.pop() else {
        return Err(OpenFault::NotARegistry);
    };
    if !rows.is_empty() || row.id != 1 {
        return Err(OpenFault::NotARegistry);
    }
    if row.meta.version != layout.version() {
        return Err(OpenFault::Version(row.meta.version));
    }
    Ok(row.meta)
}

/// The registry's own row.
fn find_registry<S: Alter>(
    alloc: Global,
    conn: &mut Connection<S>,
    layout: Layout,
) -> Result<MetaRow, OpenFault>
    ensures { Finds layout (state S.Store conn.old) (state S.Store conn.new) result
        (ShowsMeta layout) }
{
    match all_meta(alloc, conn) {
        Ok(rows) => the_row(rows, layout),
        Err(error) => Err(fault_of(error, OpenFault::NotARegistry)),
    }
}

/// All that the tables of a registry hold, of either version, whether or not they keep the rules.
///
/// # Errors
///
/// `NotARegistry` and `Version` by the row of `meta`, `Damaged` where a table or a column is
/// missing or a value cannot be read, `Store` and `Memory`.
pub fn find_tables<S: Alter>(
    alloc: Global,
    conn: &mut Connection<S>,
    layout: Layout,
) -> Result<Found, OpenFault>
    ensures { Finds layout (state S.Store conn.old) (state S.Store conn.new) result
        (ShowsTables layout) }
{
    let meta = find_registry(alloc, conn, layout)?;
    match read_rows(alloc, conn, layout) {
        Ok(rows) => Ok(Found { meta, rows }),
        Err(error) => Err(fault_of(error, OpenFault::Damaged)),
    }
}
