//! Several changes in one transaction.

ghost use Rattle.std.specs.Prelude.{◌≡◌, ◌⊎◌, ◌≤◌, None, false, IsTrue, IfErr, All, OnOk, OnErr};
ghost use Rattle.sqlite.specs.State.{HasCleanDisk, IsLive, Survives};
ghost use Rattle.sqlite.specs.Held.{state};
ghost use Rattle.sqlite_trees.specs.View.{doubt};
ghost use Rattle.goo_tables_rows.specs.Rows.{Tables};
ghost use Rattle.goo_tables_rows.specs.Refused.{IsFault, IsTooBigOrFull};
ghost use Rattle.goo_tables_rows.specs.Stands.{Stands, Settled, HoldsOurs};
ghost use Rattle.goo_store_changes.specs.Changes.{made_all, ChangeFits, AreFor, AreFree, HaveRoom};

use crate::table_change::{TableChange, make_all};
use sqlite::{Alter, Connection, Error};

/// Makes all changes and commits them, or none.
///
/// # Errors
///
/// The first error of a statement, or that of the commit.
pub fn commit_changes<S: Alter>(
    conn: &mut Connection<S>,
    changes: &[TableChange],
) -> Result<(), Error>
    requires outside { conn.old.in_transaction ≡ false }
    requires fits { All ChangeFits changes.now }
    ensures clean { doubt (state S.Store conn.old).is_clean
        ≤ doubt (state S.Store conn.new).is_clean }
    ensures outside { conn.new.in_transaction ≡ false }
    ensures works { OnOk result
        (HasCleanDisk (state S.Store conn.new) → IsTrue (state S.Store conn.new).is_open) }
    ensures was_open { HasCleanDisk (state S.Store conn.new)
        → IsTrue (state S.Store conn.new).is_open → IsTrue (state S.Store conn.old).is_open }
    ensures done { HasCleanDisk (state S.Store conn.new) → (t : Tables)
        → Stands (state S.Store conn.old).now t → AreFor t changes.now
        → OnOk result (Settled (state S.Store conn.new) (made_all t changes.now)) }
    ensures refused { HasCleanDisk (state S.Store conn.new)
        → (state S.Store conn.old).step_limit ≡ None → (t : Tables)
        → Stands (state S.Store conn.old).now t
        → AreFor t changes.now → AreFree t changes.now
        → IfErr result
        (λ e. IsFault (state S.Store conn.old) (state S.Store conn.new) e
        ⊎ (IsTooBigOrFull e × (HaveRoom t changes.now → ⊥))) }
    ensures live { HasCleanDisk (state S.Store conn.new) → (t : Tables)
        → Stands (state S.Store conn.old).now t → AreFor t changes.now
        → IsLive (state S.Store conn.new) }
    ensures kept { HasCleanDisk (state S.Store conn.new) → IsTrue (state S.Store conn.new).is_open
        → (t : Tables) → Stands (state S.Store conn.old).now t → AreFor t changes.now
        → OnErr result
        (((state S.Store conn.new).now ≡ (state S.Store conn.old).now)
        × ((state S.Store conn.new).committed ≡ (state S.Store conn.old).committed)) }
    ensures crash { (t : Tables) → Stands (state S.Store conn.old).now t → AreFor t changes.now
        → Survives (state S.Store conn.old) (state S.Store conn.new)
        (HoldsOurs (state S.Store conn.old).is_open (made_all t changes.now)) }
{
    commit_together(conn, changes)
}

/// Makes all changes in one transaction and commits it.
fn commit_together<S: Alter>(conn: &mut Connection<S>, changes: &[TableChange]) -> Result<(), Error>
    requires outside { conn.old.in_transaction ≡ false }
    requires fits { All ChangeFits changes.now }
    ensures clean { doubt (state S.Store conn.old).is_clean
        ≤ doubt (state S.Store conn.new).is_clean }
    ensures outside { conn.new.in_transaction ≡ false }
    ensures works { OnOk result
        (HasCleanDisk (state S.Store conn.new) → IsTrue (state S.Store conn.new).is_open) }
    ensures was_open { HasCleanDisk (state S.Store conn.new)
        → IsTrue (state S.Store conn.new).is_open → IsTrue (state S.Store conn.old).is_open }
    ensures done { HasCleanDisk (state S.Store conn.new) → (t : Tables)
        → Stands (state S.Store conn.old).now t → AreFor t changes.now
        → OnOk result (Settled (state S.Store conn.new) (made_all t changes.now)) }
    ensures refused { HasCleanDisk (state S.Store conn.new)
        → (state S.Store conn.old).step_limit ≡ None → (t : Tables)
        → Stands (state S.Store conn.old).now t
        → AreFor t changes.now → AreFree t changes.now
        → IfErr result
        (λ e. IsFault (state S.Store conn.old) (state S.Store conn.new) e
        ⊎ (IsTooBigOrFull e × (HaveRoom t changes.now → ⊥))) }
    ensures live { HasCleanDisk (state S.Store conn.new) → (t : Tables)
        → Stands (state S.Store conn.old).now t → AreFor t changes.now
        → IsLive (state S.Store conn.new) }
    ensures kept { HasCleanDisk (state S.Store conn.new) → IsTrue (state S.Store conn.new).is_open
        → (t : Tables) → Stands (state S.Store conn.old).now t → AreFor t changes.now
        → OnErr result
        (((state S.Store conn.new).now ≡ (state S.Store conn.old).now)
        × ((state S.Store conn.new).committed ≡ (state S.Store conn.old).committed)) }
    ensures crash { (t : Tables) → Stands (state S.Store conn.old).now t → AreFor t changes.now
        → Survives (state S.Store conn.old) (state S.Store conn.new)
        (HoldsOurs (state S.Store conn.old).is_open (made_all t changes.now)) }
{
    let _settled = conn.is_autocommit();
    let _known = conn.schema();
    let mut tx = conn.transaction();
    make_all(&mut tx, changes)?;
    tx.commit()?;
    Ok(())
}
