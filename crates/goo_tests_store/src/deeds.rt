//! What is done to a database on disks, and what that comes to.
//!
//! Whatever is done goes through one function over disks (`does`): each further one that calls what
//! is written over any store costs a check of this crate twenty seconds.

ghost use Rattle.sqlite.specs.Held.{state};
ghost use Rattle.sqlite.specs.State.{HasCleanDisk};
ghost use Rattle.goo_tables_rows.specs.Met.{IsInKeyOrder};

use crate::acts::{Act, Done, done_by_lists, works};
use crate::carriers::finds_carriers;
use crate::claims::holds;
use crate::disks::{FaultyDisks, blank};
use crate::registries::{Entered, begun, opened, opened_again};
use crate::statements::finds_withdrawn;
use goo_store::sql_shelf::SqlShelf;
use goo_store_open::connecting::open_ordered;
use goo_store_open::fault::OpenFault;
use sqlite::{Alter, Connection, Files, Options};
use sqlite_disk::Disk;
use std::alloc::Global;
use std::process::Abort;

/// What is done to a database.
#[derive(Clone, Copy)]
pub enum Deed<'a> {
    /// A registry is begun there with this next serial, and asked.
    Begins(u64, Act<'a>),
    /// The registry that is there is opened, and asked.
    Opens(Act<'a>),
    /// A text is run.
    Edits(&'a str),
    /// The tables are asked for rows after a withdrawal.
    FindsWithdrawn,
    /// The tables of carriers are asked for their rows, which are these.
    FindsCarriers(&'a str),
}

/// A registry that was entered is asked, if it was.
fn works_in<S: Alter + Drop>(
    rt: &impl Abort,
    alloc: Global,
    found: Entered<S>,
    act: &Act<'_>,
) -> (Done, Connection<S>) {
    match found {
        Ok(registry) => {
            let (done, shelf) = works(rt, alloc, registry, act);
            (done, shelf.into_connection())
        }
        Err((conn, fault)) => (Done::Refused(fault), conn),
    }
}

/// A registry that showed something is opened again over its connection, and shows the same.
fn comes_back<S: Alter + Drop>(
    rt: &impl Abort,
    alloc: Global,
    shelf: SqlShelf<S>,
    done: Done,
) -> (Done, Connection<S>) {
    match done {
        Done::Shown(shown) => {
            let (again, conn) = works_in(rt, alloc, opened_again(alloc, shelf), &Act::Rests);
            again.is_shown(rt, &shown);
            (Done::Shown(shown), conn)
        }
        told => (told, shelf.into_connection()),
    }
}

/// A registry is begun in a database, asked, and opened again.
fn begins<S: Alter + Drop>(
    rt: &impl Abort,
    alloc: Global,
    conn: Connection<S>,
    serial: u64,
    act: &Act<'_>,
) -> (Done, Connection<S>) {
    match begun(alloc, conn, serial) {
        Ok(registry) => {
            let (done, shelf) = works(rt, alloc, registry, act);
            comes_back(rt, alloc, shelf, done)
        }
        Err((conn, fault)) => (Done::Refused(fault), conn),
    }
}

/// A text is run on a database.
fn edits<S: Alter>(rt: &impl Abort, conn: &mut Connection<S>, sql: &str) {
    conn.execute_batch(sql).expect(rt, "an edit");
}

/// What is done to a database.
fn performs<S: Alter + Drop>(
    rt: &impl Abort,
    alloc: Global,
    conn: Connection<S>,
    deed: &Deed<'_>,
) -> (Done, Connection<S>)
    requires ordered { HasCleanDisk (state S.Store conn) → IsInKeyOrder (state S.Store conn).now }
{
    match deed {
        Deed::Begins(serial, act) => begins(rt, alloc, conn, *serial, act),
        Deed::Opens(act) => works_in(rt, alloc, opened(alloc, conn), act),
        Deed::Edits(sql) => {
            let mut conn = conn;
            edits(rt, &mut conn, sql);
            (Done::All, conn)
        }
        Deed::FindsWithdrawn => {
            let mut conn = conn;
            finds_withdrawn(rt, alloc, &mut conn);
            (Done::All, conn)
        }
        Deed::FindsCarriers(wanted) => {
            let mut conn = conn;
            finds_carriers(rt, alloc, &mut conn, wanted);
            (Done::All, conn)
        }
    }
}

/// What is done to the database that files hold, and the files as that leaves them.
fn does_on<D: Disk + Drop>(
    rt: &impl Abort,
    alloc: Global,
    files: Files<D>,
    deed: &Deed<'_>,
) -> (Done, Files<D>) {
    if !files.may_be_used() {
        panic!(rt; "disks that may not be used");
    }
    match open_ordered(alloc, files, Options::new(7)) {
        Ok(conn) => {
            let (done, conn) = performs(rt, alloc, conn, deed);
            let files = conn.into_store().close();
            (done, files)
        }
        Err((_, left)) => (Done::Unopened, left.into_files()),
    }
}

/// What is done to the database on disks, and the disks as that leaves them.
pub fn does(
    rt: &impl Abort,
    alloc: Global,
    disks: FaultyDisks,
    deed: &Deed<'_>,
) -> (Done, FaultyDisks) {
    let (done, files) = does_on(rt, alloc, disks.files, deed);
    (done, FaultyDisks { files })
}

/// The disks, after their tables were changed or asked for rows.
pub fn after(rt: &impl Abort, alloc: Global, disks: FaultyDisks, deed: &Deed<'_>) -> FaultyDisks {
    let (done, disks) = does(rt, alloc, disks, deed);
    holds(
        rt,
        matches!(done, Done::All),
        "a database that isn't opened",
    );
    disks
}

/// What the registry on the disks shows, and the disks as that leaves them.
pub fn shown(
    rt: &impl Abort,
    alloc: Global,
    disks: FaultyDisks,
    deed: &Deed<'_>,
) -> (String, FaultyDisks) {
    let (done, disks) = does(rt, alloc, disks, deed);
    (done.into_text(rt), disks)
}

/// The registry on the disks shows this.
pub fn shows(
    rt: &impl Abort,
    alloc: Global,
    disks: FaultyDisks,
    deed: &Deed<'_>,
    wanted: &str,
) -> FaultyDisks {
    let (done, disks) = does(rt, alloc, disks, deed);
    done.is_shown(rt, wanted);
    disks
}

/// Why no registry is opened on the disks, if none is, and the disks as that leaves them.
pub fn judged(
    rt: &impl Abort,
    alloc: Global,
    disks: FaultyDisks,
) -> (Option<OpenFault>, FaultyDisks) {
    let (done, disks) = does(rt, alloc, disks, &Deed::Opens(Act::Rests));
    (done.word(rt), disks)
}

/// A new registry shows the same in tables as in plain lists, once it was asked.
pub fn is_alike(rt: &impl Abort, alloc: Global, serial: u64, act: Act<'_>, name: &str) {
    let wanted = done_by_lists(rt, alloc, serial, &act).into_text(rt);
    let (shown, _disks) = shown(rt, alloc, blank(alloc), &Deed::Begins(serial, act));
    holds(rt, shown.as_str() == wanted.as_str(), name);
}
