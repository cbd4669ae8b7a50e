//! A database whose tables are ours: it is so already, or it is made so.

ghost use Rattle.std.specs.Prelude.{◌≡◌, ◌⊎◌, ◌≤◌, IsTrue, IfOk, IfErr, Ok};
ghost use Rattle.sqlite.specs.Held.{state};
ghost use Rattle.sqlite.specs.State.{HasCleanDisk};
ghost use Rattle.sqlite.specs.Tree.{Trees};
ghost use Rattle.sqlite_trees.specs.View.{doubt, IsClean};
ghost use Rattle.goo_store_adoption.specs.Judged.{IsOurs, HoldSame};
ghost use Rattle.goo_store_trees.specs.JustOpened.{IsJustOpened};
ghost use Rattle.goo_store_open.specs.Found.{IsOutside};
ghost use Rattle.goo_store_adoption.specs.Refused.{TellsForm, TellsFormOf};
ghost use Rattle.goo_store_adoption.specs.Taken.{Became};

use crate::adopting::adopt;
use crate::observer::AdoptionObserver;
use crate::statistics::{drop_statistics, word_of_opening};
use goo_store_open::fault::OpenFault;
use goo_store_open::our_schema::{has_first_schema, has_our_schema};
use goo_store_trees::fresh::settled_store;
use goo_store_trees::reopening::reopen;
use sqlite::{Alter, Connection};
use std::alloc::Global;

/// The database whose tables were written anew.
fn reopened<S: Alter + Drop>(
    alloc: Global,
    conn: Connection<S>,
) -> Result<Connection<S>, (S, OpenFault)>
    ensures same { IfOk result
        (λ c. HasCleanDisk (state S.Store c) → IsTrue (state S.Store conn).is_open
        × ((state S.Store c).now.trees ≡ (state S.Store conn).committed.trees)) }
    ensures opened { IfOk result (IsJustOpened S.Store) }
    ensures clean { IfOk result
        (λ c. doubt (state S.Store conn).is_clean ≤ doubt (state S.Store c).is_clean) }
    ensures lost { IfErr result
        (λ e. doubt (state S.Store conn).is_clean ≤ doubt (S.Store.view e.0).is_clean) }
    ensures left { IfErr result
        (λ e. (db : Trees) → S.Store.recovers e.0 db → (state S.Store conn).may_leave db) }
    ensures word { IfErr result (λ e. IsOutside e.1) }
{
    match reopen(alloc, conn) {
        Ok(conn) => Ok(conn),
        Err((store, error)) => Err((store, word_of_opening(error))),
    }
}

/// The database with its tables in our own form, which are written anew where they are not.
fn adopted<S: Alter + Drop, A: AdoptionObserver>(
    alloc: Global,
    conn: Connection<S>,
    observer: &mut A,
) -> Result<Connection<S>, (S, OpenFault)>
    requires { IsJustOpened S.Store conn }
    ensures comes { IfOk result
        (λ c. HasCleanDisk (state S.Store c)
        → ((state S.Store c).now.trees ≡ (state S.Store conn).now.trees)
        ⊎ HoldSame (state S.Store conn).now (state S.Store c).now.trees) }
    ensures opened { IfOk result (IsJustOpened S.Store) }
    ensures clean { IfOk result
        (λ c. doubt (state S.Store conn).is_clean ≤ doubt (state S.Store c).is_clean) }
    ensures lost { IfErr result
        (λ e. doubt (state S.Store conn).is_clean ≤ doubt (S.Store.view e.0).is_clean) }
    ensures left { IfErr result
        (λ e. IsClean (S.Store.view e.0) → (db : Trees) → S.Store.recovers e.0 db
        → (state S.Store conn).may_leave db ⊎ HoldSame (state S.Store conn).now db) }
    ensures word { IfErr result
        (λ e. IsClean (S.Store.view e.0) → TellsForm (state S.Store conn).now e.1) }
{
    let mut conn = conn;
    match adopt(alloc, &mut conn, observer) {
        Ok(None) => Ok(conn),
        Ok(Some(_)) => {
            let _settled = conn.is_autocommit();
            reopened(alloc, conn)
        }
        Err(fault) => Err((settled_store(conn), fault)),
    }
}

/// The database of a registry in tables of our own form. Tables in that form stay as they are,
/// whatever their rows. Of others the tables that `ANALYZE` made are taken away, and where the rest
/// is not ours then, it is written anew, which is told before.
///
/// # Errors
///
/// The store of the database, with the words of `adopt`. The database is unchanged; after a fault
/// of the store or want of memory it may lack the tables that `ANALYZE` made.
pub fn take_over<S: Alter + Drop, A: AdoptionObserver>(
    alloc: Global,
    conn: Connection<S>,
    observer: &mut A,
) -> Result<Connection<S>, (S, OpenFault)>
    requires { IsJustOpened S.Store conn }
    ensures needless { IsOurs (state S.Store conn).now.schema → result ≡ Ok conn }
    ensures became { IfOk result
        (λ c. (c ≡ conn) ⊎ (HasCleanDisk (state S.Store c)
        → Became (state S.Store conn).now (state S.Store c).now.trees)) }
    ensures opened { IfOk result (IsJustOpened S.Store) }
    ensures clean { IfOk result
        (λ c. doubt (state S.Store conn).is_clean ≤ doubt (state S.Store c).is_clean) }
    ensures lost { IfErr result
        (λ e. doubt (state S.Store conn).is_clean ≤ doubt (S.Store.view e.0).is_clean) }
    ensures left { IfErr result
        (λ e. IsClean (S.Store.view e.0) → (db : Trees) → S.Store.recovers e.0 db
        → (state S.Store conn).may_leave db ⊎ Became (state S.Store conn).now db) }
    ensures word { IfErr result
        (λ e. IsClean (S.Store.view e.0) → TellsFormOf (state S.Store conn).now e.1) }
{
    if has_our_schema(&conn) || has_first_schema(&conn) {
        return Ok(conn);
    }
    match drop_statistics(alloc, conn, observer) {
        Ok(conn) => adopted(alloc, conn, observer),
        Err(left) => Err(left),
    }
}
