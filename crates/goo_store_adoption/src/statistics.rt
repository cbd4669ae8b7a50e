//! The tables that `ANALYZE` makes, taken away from a database that holds a registry.

ghost use Rattle.std.specs.Prelude.{◌⊎◌, ◌≤◌, IsTrue, IfOk, IfErr};
ghost use Rattle.sqlite.specs.Held.{state};
ghost use Rattle.sqlite.specs.State.{HasCleanDisk};
ghost use Rattle.sqlite.specs.Tree.{Trees};
ghost use Rattle.sqlite_trees.specs.View.{doubt, IsClean};
ghost use Rattle.goo_store_trees.specs.Less.{IsLessBoth};
ghost use Rattle.goo_store_trees.specs.JustOpened.{IsJustOpened};
ghost use Rattle.goo_store_open.specs.Found.{IsOutside};
ghost use Rattle.goo_store_adoption.specs.Refused.{TellsForm};
ghost use Rattle.goo_store_adoption.specs.Taken.{LessStatistics};

use crate::adopting::examine;
use crate::observer::AdoptionObserver;
use goo_store_open::fault::OpenFault;
use goo_store_trees::dropping::tree_of;
use goo_store_trees::fresh::settled_store;
use goo_store_trees::reopening::reopen_without;
use sqlite::{Alter, Connection, Error, ErrorCode};
use std::alloc::Global;

/// The word for what kept a database from being opened once more.
pub fn word_of_opening(error: Error) -> OpenFault
    ensures { IsOutside result }
{
    match error {
        Error::SqliteFailure(ErrorCode::OutOfMemory) => OpenFault::Memory,
        _ => OpenFault::Store,
    }
}

/// The same database without the tables of these trees.
fn dropped<S: Alter + Drop>(
    alloc: Global,
    conn: Connection<S>,
    one: Option<u32>,
    other: Option<u32>,
) -> Result<Connection<S>, (S, OpenFault)>
    ensures dropped { IfOk result
        (λ c. HasCleanDisk (state S.Store c) → IsTrue (state S.Store conn).is_open
        × IsLessBoth one other (state S.Store conn).committed.trees (state S.Store c).now.trees) }
    ensures opened { IfOk result (IsJustOpened S.Store) }
    ensures clean { IfOk result
        (λ c. doubt (state S.Store conn).is_clean ≤ doubt (state S.Store c).is_clean) }
    ensures lost { IfErr result
        (λ e. doubt (state S.Store conn).is_clean ≤ doubt (S.Store.view e.0).is_clean) }
    ensures left { IfErr result
        (λ e. IsClean (S.Store.view e.0) → (db : Trees) → S.Store.recovers e.0 db
        → (state S.Store conn).may_leave db ⊎ (IsTrue (state S.Store conn).is_open
        × IsLessBoth one other (state S.Store conn).committed.trees db)) }
    ensures word { IfErr result (λ e. IsOutside e.1) }
{
    match reopen_without(alloc, conn, one, other) {
        Ok(conn) => Ok(conn),
        Err((store, error)) => Err((store, word_of_opening(error))),
    }
}

/// The same database without the tables that `ANALYZE` makes, if it has some and else holds a
/// registry. That is committed by itself, which is told before.
///
/// # Errors
///
/// The store of the database, with a word of `adopt`.
pub fn drop_statistics<S: Alter + Drop, A: AdoptionObserver>(
    alloc: Global,
    conn: Connection<S>,
    observer: &mut A,
) -> Result<Connection<S>, (S, OpenFault)>
    requires { IsJustOpened S.Store conn }
    ensures less { IfOk result
        (λ c. HasCleanDisk (state S.Store c)
        → LessStatistics (state S.Store conn).now (state S.Store c).now.trees) }
    ensures opened { IfOk result (IsJustOpened S.Store) }
    ensures clean { IfOk result
        (λ c. doubt (state S.Store conn).is_clean ≤ doubt (state S.Store c).is_clean) }
    ensures lost { IfErr result
        (λ e. doubt (state S.Store conn).is_clean ≤ doubt (S.Store.view e.0).is_clean) }
    ensures left { IfErr result
        (λ e. IsClean (S.Store.view e.0) → (db : Trees) → S.Store.recovers e.0 db
        → (state S.Store conn).may_leave db ⊎ LessStatistics (state S.Store conn).now db) }
    ensures word { IfErr result
        (λ e. IsClean (S.Store.view e.0) → TellsForm (state S.Store conn).now e.1) }
{
    let _settled = conn.is_autocommit();
    let tables = conn.schema().tables.as_slice();
    let one = tree_of(tables, b"sqlite_stat1");
    let other = tree_of(tables, b"sqlite_stat4");
    if one.is_none() && other.is_none() {
        return Ok(conn);
    }
    let mut conn = conn;
    match examine(alloc, &mut conn) {
        Ok(()) => {
            observer.drops_statistics();
            dropped(alloc, conn, one, other)
        }
        Err(fault) => Err((settled_store(conn), fault)),
    }
}
