//! The statements on `lot_carrier` alone.

ghost use Rattle.std.specs.Prelude.{◌≡◌, ◌<◌, ◌^◌, None, false, pos, map, IfOk, OnOk, All};
ghost use Rattle.sqlite.specs.State.{HasCleanDisk, KeepsCommit, Survives};
ghost use Rattle.sqlite.specs.Held.{state};
ghost use Rattle.sqlite_keyed.specs.Keyed.{get_by};
ghost use Rattle.goo_tables_rows.specs.Rows.{Tables, lot_carrier_in, lot_carrier_key};
ghost use Rattle.goo_tables_rows.specs.Rows.{lot_carrier_row, lot_carrier_columns};
ghost use Rattle.goo_tables_rows.specs.Readable.{lot_carrier_readable};
ghost use Rattle.goo_tables_rows.specs.Refused.{FailsByFault, FailsOnlyByFault, ChangeFailsBy};
ghost use Rattle.goo_tables_rows.specs.Refused.{IsTooBig, IsSmall};
ghost use Rattle.goo_tables_rows.specs.Lives.{LeavesLive};
ghost use Rattle.goo_tables_rows.specs.Stands.{Sees, Looks, Keeps};
ghost use Rattle.goo_tables_rows.specs.Met.{HasOurTables};
ghost use Rattle.goo_tables_accounts.specs.Changes.{IsNewLot};
ghost use Rattle.goo_tables.specs.Carriers.{with_lot_carrier, StaysOurs};

use goo_tables_rows::ask::ask_all;
use goo_tables_rows::lot_carrier::LotCarrierRow;
use goo_tables_rows::put::put;
use goo_tables_rows::values::{number, text};
use sqlite::{Alter, Connection, Error, Transaction};
use std::alloc::Global;

/// Adds the carrier of a lot, whose number must be new in both tables.
///
/// # Errors
///
/// In a registry's transaction, where the number is new: a failure of memory or of the disk, or of
/// a connection that an earlier failure shut, or `TooBig` for a row that is too big to be stored.
/// Nothing is committed.
pub(crate) fn insert_lot_carrier<S: Alter>(
    tx: &mut Transaction<'_, S>,
    lot: u64,
    carrier: &str,
) -> Result<usize, Error>
    requires { lot < 2 ^ 63 }
    ensures same_reference { tx.new.conn.ghost_name ≡ tx.old.conn.ghost_name }
    ensures changed { HasCleanDisk (state S.Store tx.new.conn.now) → (t : Tables)
        → Sees (state S.Store tx.old.conn.now) t → IsNewLot t lot
        → OnOk result
        (Sees (state S.Store tx.new.conn.now)
        (with_lot_carrier t (record { lot = lot; carrier = carrier.now }))) }
    ensures refused { ChangeFailsBy IsTooBig
        (λ _. IsSmall (lot_carrier_row (record { lot = lot; carrier = carrier.now })))
        (state S.Store tx.old.conn.now) (state S.Store tx.new.conn.now) result
        (λ t. get_by lot_carrier_key t.lot_carriers (pos lot) ≡ None) }
    ensures live { LeavesLive (state S.Store tx.old.conn.now)
        (state S.Store tx.new.conn.now) result }
    ensures stays { StaysOurs (state S.Store tx.old.conn.now)
        (state S.Store tx.new.conn.now) result }
    ensures uncommitted { HasCleanDisk (state S.Store tx.new.conn.now)
        → KeepsCommit (state S.Store tx.old.conn.now) (state S.Store tx.new.conn.now) }
    ensures survives { Survives (state S.Store tx.old.conn.now) (state S.Store tx.new.conn.now)
        (λ _. ⊥) }
{
    put(
        tx,
        "INSERT INTO lot_carrier (lot, carrier) VALUES (?1, ?2)",
        &[number(lot), text(carrier)],
    )
}

/// The carriers of all lots that have one other than electricity, by the lots' numbers.
///
/// # Errors
///
/// On the tables of a registry: `SqliteFailure` where memory was refused, the disk failed or an
/// earlier failure shut the connection, and an error of reading where a row can't be read. The
/// database stays as it was.
pub fn all_lot_carriers<S: Alter>(
    alloc: Global,
    conn: &mut Connection<S>,
) -> Result<Vec<LotCarrierRow>, Error>
    ensures looks { Looks (state S.Store conn.old) (state S.Store conn.new) result
        (λ t found. map lot_carrier_in found.items ≡ t.lot_carriers) }
    ensures met { HasCleanDisk (state S.Store conn.new) → HasOurTables (state S.Store conn.old).now
        → IfOk result
        (λ found. Keeps ((state S.Store conn.old).now.trees 25) lot_carrier_row lot_carrier_key
        (map lot_carrier_in found.items)) }
    ensures readable { FailsOnlyByFault (state S.Store conn.old) (state S.Store conn.new) result
        (λ t. All lot_carrier_readable (map lot_carrier_columns t.lot_carriers)) }
    ensures refused { FailsByFault (state S.Store conn.old) (state S.Store conn.new) result }
    ensures outside { conn.old.in_transaction ≡ false → conn.new.in_transaction ≡ false }
{
    ask_all(
        alloc,
        conn,
        "SELECT lot, carrier FROM lot_carrier ORDER BY lot",
        &[],
    )
}
