//! Opening the registry that a database holds.

ghost use Rattle.std.specs.Prelude.{◌≡◌, Err, false, IfOk, IfErr, IsErrAnd};
ghost use Rattle.sqlite.specs.Held.{state as view};
ghost use Rattle.goo_tables_rows.specs.Columns.{no_schema, registry_schema, first_schema};
ghost use Rattle.goo_tables_rows.specs.Met.{IsInKeyOrder};
ghost use Rattle.goo_tables_rows.specs.Stands.{defects};
ghost use Rattle.goo_store_open.specs.Foreign.{LacksMeta, IsForeignWord};
ghost use Rattle.goo_store.specs.Opened.{IsOpened, IsNotOpened};

use crate::sql_shelf::SqlShelf;
use goo_store_open::fault::OpenFault;
use goo_store_opening::renewal::{NoObserver, RenewalObserver};
use goo_store_opening::up_to_date::bring_up_to_date;
use sqlite::{Alter, Connection};
use std::alloc::Global;

impl<S: Alter> SqlShelf<S> {
    /// The registry that a database holds, whatever its tables are. Tables of version 1 that keep
    /// the rules of their version become those of version 2 in one transaction, with the same
    /// state; whoever stops it leaves the ones or the others.
    ///
    /// What a crash left of a registry is opened with a state that the shelf before it said the
    /// crash may find (`again` of `IsOpened`), or refused with `Store` or `Memory` (`never_foreign`
    /// of `IsNotOpened`).
    ///
    /// # Errors
    ///
    /// The database, unchanged, with `NotARegistry`, `Version` or `Damaged` where it holds no
    /// registry whose tables are those that `create` makes, or that it made in version 1, and keep
    /// the rules; with `Store` where a call was refused, and `Memory` where memory was. It is
    /// outside a transaction.
    pub fn open(
        alloc: Global,
        conn: Connection<S>,
    ) -> Result<SqlShelf<S>, (Connection<S>, OpenFault)>
        requires outside { conn.in_transaction ≡ false }
        requires ordered { defects (view S.Store conn) ≡ 0 → IsInKeyOrder (view S.Store conn).now }
        ensures opened { IfOk result (IsOpened (view S.Store conn)) }
        ensures not_opened { IfErr result
            (λ e. IsNotOpened (view S.Store conn) (view S.Store e.0) e.1) }
        ensures foreign { ((view S.Store conn).now.schema ≡ registry_schema → ⊥)
            → ((view S.Store conn).now.schema ≡ first_schema → ⊥)
            → IsErrAnd result (λ e. IsForeignWord e.1) }
        ensures lacking { LacksMeta (view S.Store conn).now.schema
            → result ≡ Err (conn, OpenFault.NotARegistry) }
        ensures empty { (view S.Store conn).now.schema ≡ no_schema
            → result ≡ Err (conn, OpenFault.NotARegistry) }
        ensures outside { IfErr result (λ e. e.0.in_transaction ≡ false) }
    {
        SqlShelf::open_observed(alloc, conn, &mut NoObserver)
    }

    /// The registry that a database holds, as [`SqlShelf::open`] gives it. Before tables of version
    /// 1 become those of version 2 it is told.
    ///
    /// # Errors
    ///
    /// Those of [`SqlShelf::open`].
    pub fn open_observed<N: RenewalObserver>(
        alloc: Global,
        conn: Connection<S>,
        observer: &mut N,
    ) -> Result<SqlShelf<S>, (Connection<S>, OpenFault)>
        requires outside { conn.in_transaction ≡ false }
        requires ordered { defects (view S.Store conn) ≡ 0 → IsInKeyOrder (view S.Store conn).now }
        ensures opened { IfOk result (IsOpened (view S.Store conn)) }
        ensures not_opened { IfErr result
            (λ e. IsNotOpened (view S.Store conn) (view S.Store e.0) e.1) }
        ensures foreign { ((view S.Store conn).now.schema ≡ registry_schema → ⊥)
            → ((view S.Store conn).now.schema ≡ first_schema → ⊥)
            → IsErrAnd result (λ e. IsForeignWord e.1) }
        ensures lacking { LacksMeta (view S.Store conn).now.schema
            → result ≡ Err (conn, OpenFault.NotARegistry) }
        ensures empty { (view S.Store conn).now.schema ≡ no_schema
            → result ≡ Err (conn, OpenFault.NotARegistry) }
        ensures outside { IfErr result (λ e. e.0.in_transaction ≡ false) }
    {
        let mut conn = conn;
        match bring_up_to_date(alloc, &mut conn, observer) {
            Ok(()) => Ok(SqlShelf::over(alloc, conn)),
            Err(fault) => Err((conn, fault)),
        }
    }
}
