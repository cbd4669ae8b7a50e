//! The tables of a database, judged, and renewed where they are of version 1.

ghost use Rattle.std.specs.Prelude.{◌≡◌, Err, false, IfErr, IsErrAnd, OnOk};
ghost use Rattle.sqlite.specs.Held.{state as view};
ghost use Rattle.goo_tables_rows.specs.Columns.{no_schema, registry_schema, first_schema};
ghost use Rattle.goo_tables_rows.specs.Met.{IsInKeyOrder};
ghost use Rattle.goo_tables_rows.specs.Stands.{defects};
ghost use Rattle.goo_store_open.specs.Foreign.{LacksMeta, IsForeignWord};
ghost use Rattle.goo_store_opening.specs.UpToDate.{IsUpToDate, IsNotOpened};

use crate::renewal::RenewalObserver;
use crate::renewing::renew;
use goo_store_judge::judge::judge;
use goo_store_open::fault::OpenFault;
use goo_store_open::foreign::foreign_fault;
use goo_store_open::layout::Layout;
use goo_store_open::our_schema::{has_first_schema, has_our_schema};
use sqlite::{Alter, Connection};
use std::alloc::Global;

/// Judges the tables of a database, whatever they are. Those of version 1 that keep the rules of
/// their version become those of version 2 in one transaction, with the same state, which is told
/// before; whoever stops it leaves the ones or the others.
///
/// What a crash left of a registry is accepted (`again` of `IsUpToDate`), or refused with `Store`
/// or `Memory` (`never_foreign` of `IsNotOpened`).
///
/// # Errors
///
/// `NotARegistry`, `Version` or `Damaged` where it holds no registry whose tables are those that
/// `create` makes, or that it made in version 1, and keep the rules; `Store` where a call was
/// refused, and `Memory` where memory was. The database is unchanged then.
pub fn bring_up_to_date<S: Alter, N: RenewalObserver>(
    alloc: Global,
    conn: &mut Connection<S>,
    observer: &mut N,
) -> Result<(), OpenFault>
    requires outside { conn.old.in_transaction ≡ false }
    requires ordered { defects (view S.Store conn.old) ≡ 0
        → IsInKeyOrder (view S.Store conn.old).now }
    ensures up_to_date { OnOk result (IsUpToDate (view S.Store conn.old) (view S.Store conn.new)) }
    ensures not_opened { IfErr result
        (IsNotOpened (view S.Store conn.old) (view S.Store conn.new)) }
    ensures foreign { ((view S.Store conn.old).now.schema ≡ registry_schema → ⊥)
        → ((view S.Store conn.old).now.schema ≡ first_schema → ⊥)
        → IsErrAnd result IsForeignWord }
    ensures lacking { LacksMeta (view S.Store conn.old).now.schema
        → (result ≡ Err OpenFault.NotARegistry) × (conn.new ≡ conn.old) }
    ensures empty { (view S.Store conn.old).now.schema ≡ no_schema
        → (result ≡ Err OpenFault.NotARegistry) × (conn.new ≡ conn.old) }
    ensures outside { conn.new.in_transaction ≡ false }
{
    let _settled = conn.is_autocommit();
    let _known = conn.schema();
    if has_first_schema(&*conn) {
        return renew(alloc, conn, observer);
    }
    if !has_our_schema(&*conn) {
        return Err(foreign_fault(conn));
    }
    match judge(alloc, conn, Layout::Ours) {
        Ok(_pieces) => Ok(()),
        Err(fault) => Err(fault),
    }
}
