//! A connection given up, and its database opened once more, as it is or without some of its trees.

ghost use Rattle.std.specs.Prelude.{◌≡◌, ◌⊎◌, ◌≤◌, IsTrue, IfOk, IfErr};
ghost use Rattle.sqlite.specs.Held.{state};
ghost use Rattle.sqlite.specs.State.{HasCleanDisk};
ghost use Rattle.sqlite.specs.Tree.{Trees};
ghost use Rattle.sqlite_trees.specs.View.{doubt, IsClean};
ghost use Rattle.goo_store_trees.specs.JustOpened.{IsJustOpened};
ghost use Rattle.goo_store_trees.specs.Less.{IsLessBoth};

use crate::dropping::drop_trees;
use crate::fresh::{open_fresh, settled_store};
use sqlite::{Alter, Connection, Error, ErrorCode};
use sqlite_trees::error::StoreError;
use std::alloc::Global;

/// The error that tells what a store refused.
fn error_of(error: StoreError) -> Error {
    match error {
        StoreError::OutOfMemory => Error::SqliteFailure(ErrorCode::OutOfMemory),
        _ => Error::SqliteFailure(ErrorCode::SystemIoFailure),
    }
}

/// The database of a connection, opened once more.
///
/// # Errors
///
/// The store, with `Closed` where a fault shut the connection, and else as [`Connection::over`].
pub fn reopen<S: Alter + Drop>(
    alloc: Global,
    conn: Connection<S>,
) -> Result<Connection<S>, (S, Error)>
    ensures same { IfOk result
        (λ c. HasCleanDisk (state S.Store c) → IsTrue (state S.Store conn).is_open
        × ((state S.Store c).now.trees ≡ (state S.Store conn).committed.trees)) }
    ensures opened { IfOk result (IsJustOpened S.Store) }
    ensures clean { IfOk result
        (λ c. doubt (state S.Store conn).is_clean ≤ doubt (state S.Store c).is_clean) }
    ensures lost { IfErr result
        (λ e. doubt (state S.Store conn).is_clean ≤ doubt (S.Store.view e.0).is_clean) }
    ensures left { IfErr result
        (λ e. (db : Trees) → S.Store.recovers e.0 db → (state S.Store conn).may_leave db) }
{
    open_fresh(alloc, settled_store(conn))
}

/// The database of a store without two of its trees.
fn open_store_without<S: Alter + Drop>(
    alloc: Global,
    store: S,
    one: Option<u32>,
    other: Option<u32>,
) -> Result<Connection<S>, (S, Error)>
    requires { IsClean (S.Store.view store) → IsTrue (S.Store.view store).is_numbered }
    ensures dropped { IfOk result
        (λ c. HasCleanDisk (state S.Store c)
        → IsLessBoth one other (S.Store.view store).trees (state S.Store c).now.trees) }
    ensures opened { IfOk result (IsJustOpened S.Store) }
    ensures clean { IfOk result
        (λ c. doubt (S.Store.view store).is_clean ≤ doubt (state S.Store c).is_clean) }
    ensures lost { IfErr result
        (λ e. doubt (S.Store.view store).is_clean ≤ doubt (S.Store.view e.0).is_clean) }
    ensures left { IfErr result
        (λ e. IsClean (S.Store.view e.0) → (db : Trees) → S.Store.recovers e.0 db
        → S.Store.recovers store db
        ⊎ IsLessBoth one other (S.Store.view store).trees db) }
{
    let mut store = store;
    match drop_trees(&mut store, one, other) {
        Ok(()) => open_fresh(alloc, store),
        Err(error) => Err((store, error_of(error))),
    }
}

/// The database of a connection without two of its trees, each if it is a table's, which is
/// committed.
///
/// # Errors
///
/// The store, with an error of `reopen`, or what it refused.
pub fn reopen_without<S: Alter + Drop>(
    alloc: Global,
    conn: Connection<S>,
    one: Option<u32>,
    other: Option<u32>,
) -> Result<Connection<S>, (S, Error)>
    ensures dropped { IfOk result
        (λ c. HasCleanDisk (state S.Store c) → IsTrue (state S.Store conn).is_open
        × IsLessBoth one other (state S.Store conn).committed.trees (state S.Store c).now.trees) }
    ensures opened { IfOk result (IsJustOpened S.Store) }
    ensures clean { IfOk result
        (λ c. doubt (state S.Store conn).is_clean ≤ doubt (state S.Store c).is_clean) }
    ensures lost { IfErr result
        (λ e. doubt (state S.Store conn).is_clean ≤ doubt (S.Store.view e.0).is_clean) }
    ensures left { IfErr result
        (λ e. IsClean (S.Store.view e.0) → (db : Trees) → S.Store.recovers e.0 db
        → (state S.Store conn).may_leave db ⊎ (IsTrue (state S.Store conn).is_open
        × IsLessBoth one other (state S.Store conn).committed.trees db)) }
{
    let store = settled_store(conn);
    if store.is_broken() {
        return Err((store, Error::SqliteFailure(ErrorCode::Closed)));
    }
    open_store_without(alloc, store, one, other)
}
