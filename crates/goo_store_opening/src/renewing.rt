//! Tables of version 1, which become those of version 2 when a registry is opened over them.

ghost use Rattle.std.specs.Prelude.{◌≡◌, false};
ghost use Rattle.sqlite.specs.Held.{state as view};
ghost use Rattle.sqlite.specs.State.{HasCleanDisk};
ghost use Rattle.goo_store_open.specs.Reading.{IsMet};
ghost use Rattle.goo_store_opening.specs.FirstTables.{Rewrites, Renews};

use crate::renewal::RenewalObserver;
use goo_store_changes::migrating::commit_migration;
use goo_store_judge::judge::judge;
use goo_store_open::fault::OpenFault;
use goo_store_open::finding::VERSION;
use goo_store_open::layout::Layout;
use goo_store_plans::joining_pieces::joining_changes;
use goo_store_values::statement_fault::StatementFault;
use goo_tables_rows::piece::PieceRow;
use sqlite::{Alter, Connection};
use std::alloc::Global;

/// Joins the pieces of tables of version 1 and makes the tables those of version 2, in one
/// transaction, or does nothing.
///
/// # Errors
///
/// `Memory` where memory was refused, and `Refused` where a call was.
fn rewrite<S: Alter>(
    alloc: Global,
    conn: &mut Connection<S>,
    pieces: &[PieceRow],
) -> Result<(), StatementFault>
    requires outside { conn.old.in_transaction ≡ false }
    ensures { Rewrites (view S.Store conn.old) (view S.Store conn.new) pieces.now result }
{
    let changes = joining_changes(alloc, pieces)?;
    commit_migration(conn, &changes, VERSION)?;
    Ok(())
}

/// Judges tables of version 1 by the rules of their version, and makes them those of version 2,
/// which is told before. The state that they stand for stays.
///
/// # Errors
///
/// Those of the judgment, before anything is changed; then `Store` where a call was refused, and
/// `Memory` where memory was.
pub fn renew<S: Alter, N: RenewalObserver>(
    alloc: Global,
    conn: &mut Connection<S>,
    observer: &mut N,
) -> Result<(), OpenFault>
    requires outside { conn.old.in_transaction ≡ false }
    requires met { HasCleanDisk (view S.Store conn.old)
        → IsMet Layout.First (view S.Store conn.old) }
    ensures { Renews (view S.Store conn.old) (view S.Store conn.new) result }
{
    match judge(alloc, conn, Layout::First) {
        Ok(pieces) => {
            observer.begins(&*conn);
            match rewrite(alloc, conn, &pieces) {
                Ok(()) => Ok(()),
                Err(cause) => Err(OpenFault::from(cause)),
            }
        }
        Err(fault) => Err(fault),
    }
}
