//! Tables of version 1 made those of the next version, in one transaction.

ghost use Rattle.std.specs.Prelude.{◌≡◌, ◌⊎◌, ◌≤◌, None, false, IsTrue, IfErr, All, OnOk, OnErr};
ghost use Rattle.sqlite.specs.State.{HasCleanDisk, IsLive, KeepsCommit, Survives};
ghost use Rattle.sqlite.specs.Held.{state};
ghost use Rattle.sqlite_trees.specs.View.{doubt};
ghost use Rattle.goo_tables_rows.specs.First.{IsFirst};
ghost use Rattle.goo_tables_rows.specs.Lives.{IsAlive};
ghost use Rattle.goo_tables_rows.specs.Rows.{Tables, meta_row};
ghost use Rattle.goo_tables_rows.specs.Refused.{IsFault, IsTooBigOrFull, IsSmall};
ghost use Rattle.goo_tables_rows.specs.Stands.{Sees, Settled, HoldsOurs};
ghost use Rattle.goo_tables_accounts.specs.Changes.{with_version};
ghost use Rattle.goo_store_changes.specs.Changes.{made_all, ChangeFits, AreFor, AreFree, HaveRoom};
ghost use Rattle.goo_store_changes.specs.Migrated.{SeesFirst, HasRoomToMigrate};

use crate::table_change::{TableChange, make_all};
use goo_tables::create::add_tables;
use goo_tables::meta::set_version;
use sqlite::{Alter, Connection, Error, Transaction};

/// Adds the tables that version 1 lacks, makes all changes, sets the version and commits: all of
/// it, or nothing.
///
/// # Errors
///
/// The first error of a statement, or that of the commit.
pub fn commit_migration<S: Alter>(
    conn: &mut Connection<S>,
    changes: &[TableChange],
    version: u32,
) -> Result<(), Error>
    requires outside { conn.old.in_transaction ≡ false }
    requires fits { All ChangeFits changes.now }
    ensures clean { doubt (state S.Store conn.old).is_clean
        ≤ doubt (state S.Store conn.new).is_clean }
    ensures outside { conn.new.in_transaction ≡ false }
    ensures works { OnOk result
        (HasCleanDisk (state S.Store conn.new) → IsTrue (state S.Store conn.new).is_open) }
    ensures was_open { HasCleanDisk (state S.Store conn.new)
        → IsTrue (state S.Store conn.new).is_open → IsTrue (state S.Store conn.old).is_open }
    ensures done { HasCleanDisk (state S.Store conn.new) → (t : Tables)
        → IsFirst (state S.Store conn.old).now t → AreFor t changes.now
        → OnOk result
        (Settled (state S.Store conn.new) (with_version version (made_all t changes.now))) }
    ensures refused { HasCleanDisk (state S.Store conn.new)
        → (state S.Store conn.old).step_limit ≡ None → (t : Tables)
        → IsFirst (state S.Store conn.old).now t
        → AreFor t changes.now → AreFree t changes.now
        → IfErr result
        (λ e. IsFault (state S.Store conn.old) (state S.Store conn.new) e
        ⊎ (IsTooBigOrFull e × (HasRoomToMigrate t changes.now version → ⊥))) }
    ensures live { HasCleanDisk (state S.Store conn.new) → (t : Tables)
        → IsFirst (state S.Store conn.old).now t → AreFor t changes.now
        → IsLive (state S.Store conn.new) }
    ensures kept { HasCleanDisk (state S.Store conn.new) → IsTrue (state S.Store conn.new).is_open
        → (t : Tables) → IsFirst (state S.Store conn.old).now t → AreFor t changes.now
        → OnErr result
        (((state S.Store conn.new).now ≡ (state S.Store conn.old).now)
        × ((state S.Store conn.new).committed ≡ (state S.Store conn.old).committed)) }
    ensures crash { (t : Tables) → IsFirst (state S.Store conn.old).now t → AreFor t changes.now
        → Survives (state S.Store conn.old) (state S.Store conn.new)
        (HoldsOurs (state S.Store conn.old).is_open
        (with_version version (made_all t changes.now))) }
{
    let _settled = conn.is_autocommit();
    let _known = conn.schema();
    let mut tx = conn.transaction();
    migrate(&mut tx, changes, version)?;
    tx.commit()?;
    Ok(())
}

/// Adds the tables, makes all changes and sets the version. Nothing is committed.
fn migrate<S: Alter>(
    tx: &mut Transaction<'_, S>,
    changes: &[TableChange],
    version: u32,
) -> Result<(), Error>
    requires { All ChangeFits changes.now }
    ensures same_reference { tx.new.conn.ghost_name ≡ tx.old.conn.ghost_name }
    ensures migrated { HasCleanDisk (state S.Store tx.new.conn.now) → (t : Tables)
        → SeesFirst (state S.Store tx.old.conn.now) t → AreFor t changes.now
        → OnOk result
        (Sees (state S.Store tx.new.conn.now) (with_version version (made_all t changes.now))) }
    ensures refused { HasCleanDisk (state S.Store tx.new.conn.now)
        → IsLive (state S.Store tx.old.conn.now) → (state S.Store tx.old.conn.now).step_limit ≡ None
        → (t : Tables) → SeesFirst (state S.Store tx.old.conn.now) t → AreFor t changes.now
        → AreFree t changes.now
        → IfErr result
        (λ e. IsFault (state S.Store tx.old.conn.now) (state S.Store tx.new.conn.now) e
        ⊎ (IsTooBigOrFull e × (HasRoomToMigrate t changes.now version → ⊥))) }
    ensures live { HasCleanDisk (state S.Store tx.new.conn.now)
        → IsLive (state S.Store tx.old.conn.now) → (t : Tables)
        → SeesFirst (state S.Store tx.old.conn.now) t → AreFor t changes.now
        → OnOk result (IsAlive (state S.Store tx.new.conn.now)) }
    ensures uncommitted { HasCleanDisk (state S.Store tx.new.conn.now)
        → KeepsCommit (state S.Store tx.old.conn.now) (state S.Store tx.new.conn.now) }
    ensures survives { Survives (state S.Store tx.old.conn.now) (state S.Store tx.new.conn.now)
        (λ _. ⊥) }
{
    add_tables(tx)?;
    make_all(tx, changes)?;
    set_version(tx, version)?;
    Ok(())
}
