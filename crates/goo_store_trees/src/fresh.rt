//! A store that is opened as a database once more.

ghost use Rattle.std.specs.Prelude.{◌≡◌, ◌≤◌, false, IsTrue, IfOk, IfErr};
ghost use Rattle.sqlite.specs.Held.{IsNew, state};
ghost use Rattle.sqlite.specs.State.{HasCleanDisk, IsLive, Opens};
ghost use Rattle.sqlite.specs.Steps.{IsFresh};
ghost use Rattle.sqlite.specs.Tree.{Trees};
ghost use Rattle.sqlite_trees.specs.View.{doubt, IsClean, IsQuiet};
ghost use Rattle.goo_store_trees.specs.Settled.{IsSettledAs};
ghost use Rattle.goo_tables_rows.specs.Met.{IsInKeyOrder};

use sqlite::{Alter, Connection, Error, ErrorCode};
use std::alloc::Global;

/// The database of a store on which nothing waits for a commit, with the rows of each table in the
/// order of their rowids.
///
/// # Errors
///
/// The store, with `Closed` where it is broken, and else as [`Connection::over`].
pub fn open_fresh<S: Alter + Drop>(alloc: Global, store: S) -> Result<Connection<S>, (S, Error)>
    requires { IsClean (S.Store.view store) → (S.Store.view store).is_broken ≡ false
        → IsFresh (S.Store.view store) }
    ensures trees { IfOk result
        (λ c. HasCleanDisk (state S.Store c)
        → (state S.Store c).now.trees ≡ (S.Store.view store).trees) }
    ensures ordered { IfOk result
        (λ c. HasCleanDisk (state S.Store c) → IsInKeyOrder (state S.Store c).now) }
    ensures opened { IfOk result
        (λ c. HasCleanDisk (state S.Store c) → Opens (state S.Store c) × IsLive (state S.Store c)) }
    ensures whole { IfOk result
        (λ c. HasCleanDisk (state S.Store c) → (S.Store.view store).is_broken ≡ false) }
    ensures fresh { IfOk result IsNew }
    ensures clean { IfOk result
        (λ c. doubt (S.Store.view store).is_clean ≤ doubt (state S.Store c).is_clean) }
    ensures left { IfOk result
        (λ c. HasCleanDisk (state S.Store c) → (db : Trees) → (state S.Store c).may_leave db
        → db ≡ (S.Store.view store).trees) }
    ensures unharmed { IfErr result
        (λ e. IsQuiet S.Store.view S.Store.faults S.Store.recovers S.Store.is_shielded store e.0) }
{
    if store.is_broken() {
        return Err((store, Error::SqliteFailure(ErrorCode::Closed)));
    }
    match Connection::over(alloc, store) {
        Ok(conn) => Ok(conn),
        Err((error, store)) => Err((store, error)),
    }
}

/// The store of a database, with nothing that waits for a commit.
pub fn settled_store<S: Alter + Drop>(conn: Connection<S>) -> S
    ensures settled { IsClean (S.Store.view result) → (S.Store.view result).is_broken ≡ false
        → IsSettledAs (state S.Store conn) (S.Store.view result) }
    ensures numbered { IsClean (S.Store.view result) → IsTrue (S.Store.view result).is_numbered }
    ensures quiet { IsQuiet S.Store.view S.Store.faults S.Store.recovers S.Store.is_shielded
        conn.store result }
{
    conn.into_store()
}
