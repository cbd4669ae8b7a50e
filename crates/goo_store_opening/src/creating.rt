//! A new registry in an empty database.

ghost use Rattle.std.specs.Prelude.{◌≡◌, ◌↔◌, ◌≤◌, false, None, IsTrue, IfErr, IfOk, OnOk};
ghost use Rattle.std.specs.Prelude.{OnErr};
ghost use Rattle.sqlite_disk.specs.Disk.{MoreFaults};
ghost use Rattle.sqlite.specs.State.{HasCleanDisk, IsLive, KeepsCommit, Survives};
ghost use Rattle.sqlite.specs.Held.{state};
ghost use Rattle.sqlite_trees.specs.View.{doubt};
ghost use Rattle.goo_tables_rows.specs.Columns.{no_schema};
ghost use Rattle.goo_tables_rows.specs.Refused.{IsFault, IsSmall};
ghost use Rattle.goo_tables_rows.specs.Rows.{meta_in, meta_row};
ghost use Rattle.goo_tables_rows.specs.Lives.{IsAlive};
ghost use Rattle.goo_tables_rows.specs.Stands.{Sees, Settled, HoldsOurs};
ghost use Rattle.goo_tables_accounts.specs.Changes.{MetaFits, begun};
ghost use Rattle.goo_store_opening.specs.Creating.{meta_of, IsFirst};

use goo_store_open::finding::VERSION;
use goo_store_values::statement_fault::StatementFault;
use goo_tables::create::create_tables;
use goo_tables::meta::insert_meta;
use goo_tables_rows::meta::MetaRow;
use goo_types::day::Day;
use goo_types::registry_code::RegistryCode;
use goo_types::serial::Serial;
use sqlite::{Alter, Connection, Error, Transaction};
use std::alloc::{AllocError, Global};

/// Whether a database has neither a table nor an index nor a view.
pub fn is_empty<S: Alter>(conn: &Connection<S>) -> bool
    ensures { IsTrue result ↔ ((state S.Store conn.now).now.schema ≡ no_schema) }
{
    let schema = conn.schema();
    schema.tables.as_slice().is_empty()
        && schema.indexes.as_slice().is_empty()
        && schema.views.as_slice().is_empty()
}

/// The row that a new registry has.
fn first_row(
    alloc: Global,
    code: RegistryCode,
    next_serial: Serial,
    today: Day,
) -> Result<MetaRow, AllocError>
    ensures row { IfOk result (λ row. meta_in row ≡ meta_of code today next_serial) }
    ensures limits { IfOk result (λ _. IsFirst code today next_serial) }
{
    Ok(MetaRow {
        version: VERSION,
        code: u32::from(code.get()),
        today: String::from_str(alloc, today.text().as_str())?,
        next_serial: next_serial.get(),
        next_account: 1,
        next_cancellation: 1,
        next_withdrawal: 1,
        next_notice: 1,
    })
}

/// Makes the tables, with the row of the registry.
fn write_tables<S: Alter>(tx: &mut Transaction<'_, S>, meta: &MetaRow) -> Result<usize, Error>
    requires { MetaFits meta.now }
    ensures same_reference { tx.new.conn.ghost_name ≡ tx.old.conn.ghost_name }
    ensures made { HasCleanDisk (state S.Store tx.new.conn.now)
        → IsTrue (state S.Store tx.old.conn.now).in_transaction
        → (state S.Store tx.old.conn.now).now.schema ≡ no_schema
        → OnOk result (Sees (state S.Store tx.new.conn.now) (begun (meta_in meta.now))) }
    ensures refused { HasCleanDisk (state S.Store tx.new.conn.now)
        → IsLive (state S.Store tx.old.conn.now) → (state S.Store tx.old.conn.now).step_limit ≡ None
        → IsTrue (state S.Store tx.old.conn.now).in_transaction
        → (state S.Store tx.old.conn.now).now.schema ≡ no_schema
        → IsSmall (meta_row (meta_in meta.now))
        → IfErr result (IsFault (state S.Store tx.old.conn.now) (state S.Store tx.new.conn.now)) }
    ensures live { HasCleanDisk (state S.Store tx.new.conn.now)
        → IsLive (state S.Store tx.old.conn.now)
        → IsTrue (state S.Store tx.old.conn.now).in_transaction
        → (state S.Store tx.old.conn.now).now.schema ≡ no_schema
        → OnOk result (IsAlive (state S.Store tx.new.conn.now)) }
    ensures uncommitted { HasCleanDisk (state S.Store tx.new.conn.now)
        → KeepsCommit (state S.Store tx.old.conn.now) (state S.Store tx.new.conn.now) }
    ensures survives { Survives (state S.Store tx.old.conn.now) (state S.Store tx.new.conn.now)
        (λ _. ⊥) }
{
    create_tables(tx)?;
    insert_meta(tx, meta)
}

/// Makes the tables with the row of the registry in a database that has none, and commits them, or
/// does nothing.
pub fn commit_tables<S: Alter>(conn: &mut Connection<S>, meta: &MetaRow) -> Result<(), Error>
    requires outside { conn.old.in_transaction ≡ false }
    requires empty { (state S.Store conn.old).now.schema ≡ no_schema }
    requires fits { MetaFits meta.now }
    ensures clean { doubt (state S.Store conn.old).is_clean
        ≤ doubt (state S.Store conn.new).is_clean }
    ensures outside { conn.new.in_transaction ≡ false }
    ensures works { OnOk result (HasCleanDisk (state S.Store conn.new)
        → IsTrue (state S.Store conn.new).is_open) }
    ensures done { HasCleanDisk (state S.Store conn.new)
        → OnOk result (Settled (state S.Store conn.new) (begun (meta_in meta.now))) }
    ensures refused { HasCleanDisk (state S.Store conn.new)
        → (state S.Store conn.old).step_limit ≡ None → IsSmall (meta_row (meta_in meta.now))
        → IfErr result (IsFault (state S.Store conn.old) (state S.Store conn.new)) }
    ensures kept { HasCleanDisk (state S.Store conn.new) → IsTrue (state S.Store conn.new).is_open
        → OnErr result (((state S.Store conn.new).now ≡ (state S.Store conn.old).now)
        × ((state S.Store conn.new).committed ≡ (state S.Store conn.old).committed)) }
    ensures crash { Survives (state S.Store conn.old) (state S.Store conn.new)
        (HoldsOurs (state S.Store conn.old).is_open (begun (meta_in meta.now))) }
{
    let _settled = conn.is_autocommit();
    let _known = conn.schema();
    let mut tx = conn.transaction();
    write_tables(&mut tx, meta)?;
    tx.commit()?;
    Ok(())
}

/// Makes a registry with this code, this next serial and this date in an empty database.
///
/// # Errors
///
/// `Memory` where memory was refused; `Refused`, while the connection works, only where the disk
/// failed.
pub fn begin<S: Alter>(
    alloc: Global,
    conn: &mut Connection<S>,
    code: RegistryCode,
    next_serial: Serial,
    today: Day,
) -> Result<(), StatementFault>
    requires outside { conn.old.in_transaction ≡ false }
    requires empty { (state S.Store conn.old).now.schema ≡ no_schema }
    ensures clean { doubt (state S.Store conn.old).is_clean
        ≤ doubt (state S.Store conn.new).is_clean }
    ensures outside { conn.new.in_transaction ≡ false }
    ensures works { OnOk result (HasCleanDisk (state S.Store conn.new)
        → IsTrue (state S.Store conn.new).is_open) }
    ensures done { HasCleanDisk (state S.Store conn.new)
        → OnOk result (Settled (state S.Store conn.new) (begun (meta_of code today next_serial))) }
    ensures limits { OnOk result (IsFirst code today next_serial) }
    ensures blames { HasCleanDisk (state S.Store conn.new) → IsTrue (state S.Store conn.old).is_open
        → (state S.Store conn.old).step_limit ≡ None
        → IfErr result
        (λ cause. cause ≡ StatementFault.Refused
        → MoreFaults (state S.Store conn.old).faults (state S.Store conn.new).faults) }
    ensures kept { HasCleanDisk (state S.Store conn.new) → IsTrue (state S.Store conn.new).is_open
        → OnErr result (((state S.Store conn.new).now ≡ (state S.Store conn.old).now)
        × ((state S.Store conn.new).committed ≡ (state S.Store conn.old).committed)) }
    ensures crash { Survives (state S.Store conn.old) (state S.Store conn.new)
        (HoldsOurs (state S.Store conn.old).is_open (begun (meta_of code today next_serial))) }
{
    let row = first_row(alloc, code, next_serial, today)?;
    commit_tables(conn, &row)?;
    Ok(())
}
