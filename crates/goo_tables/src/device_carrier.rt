//! The statements on `device_carrier` alone.

ghost use Rattle.std.specs.Prelude.{◌≡◌, None, false, map, find, IfOk, OnOk, All};
ghost use Rattle.sqlite.specs.State.{HasCleanDisk, KeepsCommit, Survives};
ghost use Rattle.sqlite.specs.Held.{state};
ghost use Rattle.sqlite_typed.specs.Tests.{bytes_eq};
ghost use Rattle.goo_tables_rows.specs.Rows.{Tables, device_carrier_in, device_carrier_row};
ghost use Rattle.goo_tables_rows.specs.Rows.{device_carrier_columns};
ghost use Rattle.goo_tables_rows.specs.Readable.{device_carrier_readable};
ghost use Rattle.goo_tables_rows.specs.Refused.{FailsByFault, FailsOnlyByFault, ChangeFailsBy};
ghost use Rattle.goo_tables_rows.specs.Refused.{IsTooBigOrFull, HasRoomFor};
ghost use Rattle.goo_tables_rows.specs.Lives.{LeavesLive};
ghost use Rattle.goo_tables_rows.specs.Stands.{Sees, Looks};
ghost use Rattle.goo_tables_rows.specs.Met.{HasOurTables, KeepsSome};
ghost use Rattle.goo_tables_accounts.specs.Changes.{IsNewDevice};
ghost use Rattle.goo_tables.specs.Carriers.{with_device_carrier, StaysOurs};

use goo_tables_rows::ask::ask_all;
use goo_tables_rows::device_carrier::DeviceCarrierRow;
use goo_tables_rows::put::put;
use goo_tables_rows::values::text;
use sqlite::{Alter, Connection, Error, Transaction};
use std::alloc::Global;

/// Adds the carrier of a device, whose number must be new in both tables.
///
/// # Errors
///
/// In a registry's transaction, where the number is new: a failure of memory or of the disk, or of
/// a connection that an earlier failure shut, or `TooBig` for a row that is too big to be stored,
/// or `NoRowid` where the table has no number left for a row. Nothing is committed.
pub(crate) fn insert_device_carrier<S: Alter>(
    tx: &mut Transaction<'_, S>,
    gsrn: &str,
    carrier: &str,
) -> Result<usize, Error>
    ensures same_reference { tx.new.conn.ghost_name ≡ tx.old.conn.ghost_name }
    ensures changed { HasCleanDisk (state S.Store tx.new.conn.now) → (t : Tables)
        → Sees (state S.Store tx.old.conn.now) t → IsNewDevice t gsrn.now
        → OnOk result
        (Sees (state S.Store tx.new.conn.now)
        (with_device_carrier t (record { gsrn = gsrn.now; carrier = carrier.now }))) }
    ensures refused { ChangeFailsBy IsTooBigOrFull
        (λ t. HasRoomFor device_carrier_row t.device_carriers
        (record { gsrn = gsrn.now; carrier = carrier.now })) (state S.Store tx.old.conn.now)
        (state S.Store tx.new.conn.now) result
        (λ t. find (λ k. bytes_eq k.1.gsrn gsrn.now) t.device_carriers ≡ None) }
    ensures live { LeavesLive (state S.Store tx.old.conn.now)
        (state S.Store tx.new.conn.now) result }
    ensures stays { StaysOurs (state S.Store tx.old.conn.now)
        (state S.Store tx.new.conn.now) result }
    ensures uncommitted { HasCleanDisk (state S.Store tx.new.conn.now)
        → KeepsCommit (state S.Store tx.old.conn.now) (state S.Store tx.new.conn.now) }
    ensures survives { Survives (state S.Store tx.old.conn.now) (state S.Store tx.new.conn.now)
        (λ _. ⊥) }
{
    put(
        tx,
        "INSERT INTO device_carrier (gsrn, carrier) VALUES (?1, ?2)",
        &[text(gsrn), text(carrier)],
    )
}

/// The carriers of all devices that have one other than electricity, in the order in which they
/// came.
///
/// # Errors
///
/// On the tables of a registry: `SqliteFailure` where memory was refused, the disk failed or an
/// earlier failure shut the connection, and an error of reading where a row can't be read. The
/// database stays as it was.
pub fn all_device_carriers<S: Alter>(
    alloc: Global,
    conn: &mut Connection<S>,
) -> Result<Vec<DeviceCarrierRow>, Error>
    ensures looks { Looks (state S.Store conn.old) (state S.Store conn.new) result
        (λ t found. map device_carrier_in found.items ≡ map (λ k. k.1) t.device_carriers) }
    ensures met { HasCleanDisk (state S.Store conn.new) → HasOurTables (state S.Store conn.old).now
        → IfOk result
        (λ found. KeepsSome ((state S.Store conn.old).now.trees 23) device_carrier_row
        (map device_carrier_in found.items)) }
    ensures readable { FailsOnlyByFault (state S.Store conn.old) (state S.Store conn.new) result
        (λ t. All device_carrier_readable
        (map (λ k. device_carrier_columns k.1) t.device_carriers)) }
    ensures refused { FailsByFault (state S.Store conn.old) (state S.Store conn.new) result }
    ensures outside { conn.old.in_transaction ≡ false → conn.new.in_transaction ≡ false }
{
    ask_all(
        alloc,
        conn,
        "SELECT gsrn, carrier FROM device_carrier ORDER BY rowid",
        &[],
    )
}
