//! Registries that are begun, and opened again.

ghost use Rattle.std.specs.Prelude.{◌≡◌, false};
ghost use Rattle.sqlite.specs.Held.{state};
ghost use Rattle.sqlite.specs.State.{HasCleanDisk};
ghost use Rattle.goo_tables_rows.specs.Met.{IsInKeyOrder};

use goo_core_list::list_shelf::ListShelf;
use goo_core_shelf::shelf::Shelf;
use goo_registry::Registry;
use goo_store::sql_shelf::SqlShelf;
use goo_store_open::fault::OpenFault;
use goo_types::day::Day;
use goo_types::registry_code::RegistryCode;
use goo_types::serial::Serial;
use sqlite::{Alter, Connection};
use std::alloc::Global;
use std::process::Abort;

/// What a registry begins with.
#[derive(Clone, Copy)]
struct Beginning {
    code: RegistryCode,
    serial: Serial,
    today: Day,
}

/// Registry 7 on 1 March 2025, with this next serial; none where there is no such serial.
fn in_march(serial: u64) -> Option<Beginning> {
    Some(Beginning {
        code: RegistryCode::new(7)?,
        serial: Serial::new(serial)?,
        today: Day::read(b"2025-03-01").ok()?,
    })
}

/// A registry, or the database that holds none, and why.
pub type Entered<S> = Result<Registry<SqlShelf<S>>, (Connection<S>, OpenFault)>;

/// A new registry in a database: registry 7 on 1 March 2025, with this next serial.
pub fn begun<S: Alter>(alloc: Global, conn: Connection<S>, serial: u64) -> Entered<S> {
    let Some(beginning) = in_march(serial) else {
        return Err((conn, OpenFault::Store));
    };
    if !conn.is_autocommit() {
        return Err((conn, OpenFault::Store));
    }
    match SqlShelf::create(
        alloc,
        conn,
        beginning.code,
        beginning.serial,
        beginning.today,
    ) {
        Ok(shelf) => Ok(Registry::new(shelf)),
        Err(refused) => Err(refused),
    }
}

/// The same in plain lists.
pub fn begun_in_lists(rt: &impl Abort, alloc: Global, serial: u64) -> Registry<ListShelf> {
    let beginning = in_march(serial).expect(rt, "no serial");
    Registry::new(ListShelf::new(alloc, beginning.code, beginning.serial, beginning.today))
}

/// The registry that a database holds.
pub fn opened<S: Alter>(alloc: Global, conn: Connection<S>) -> Entered<S>
    requires ordered { HasCleanDisk (state S.Store conn) → IsInKeyOrder (state S.Store conn).now }
{
    if !conn.is_autocommit() {
        return Err((conn, OpenFault::Store));
    }
    match SqlShelf::open(alloc, conn) {
        Ok(shelf) => Ok(Registry::new(shelf)),
        Err(refused) => Err(refused),
    }
}

/// The registry whose shelf this was, opened again over the same connection.
pub fn opened_again<S: Alter>(alloc: Global, shelf: SqlShelf<S>) -> Entered<S> {
    let mut shelf = shelf;
    match shelf.today() {
        Ok(_) => {
            let conn = shelf.into_connection();
            opened(alloc, conn)
        }
        Err(_) => Err((shelf.into_connection(), OpenFault::Store)),
    }
}
