//! The registry's row.

ghost use Rattle.std.specs.Prelude.{◌≡◌, false, IsTrue, OnOk, ⊤};
ghost use Rattle.sqlite.specs.State.{HasCleanDisk};
ghost use Rattle.sqlite.specs.Held.{state as view};
ghost use Rattle.goo_tables_rows.specs.Rows.{meta_in};
ghost use Rattle.goo_store_plans.specs.LookingUp.{LooksUp};
ghost use Rattle.goo_store_plans.specs.Found.{IsRowOf};
ghost use Rattle.goo_store_plans.specs.StoreFaults.{BlamesDisk};

use goo_store_values::registry_row::row;
use goo_store_values::statement_fault::StatementFault;
use goo_tables::meta::find_meta;
use goo_tables_rows::meta::MetaRow;
use sqlite::{Alter, Connection};
use std::alloc::Global;

/// The registry's own row.
fn own_row<S: Alter>(alloc: Global, conn: &mut Connection<S>) -> Result<MetaRow, StatementFault>
    ensures gathers { LooksUp (view S.Store conn.old) (view S.Store conn.new) result
        (λ t row. t.meta ≡ meta_in row) }
    ensures works { OnOk result
        (HasCleanDisk (view S.Store conn.new) → IsTrue (view S.Store conn.new).is_open) }
    ensures blames { BlamesDisk (view S.Store conn.old) (view S.Store conn.new) result (λ _. ⊤) }
    ensures outside { conn.old.in_transaction ≡ false → conn.new.in_transaction ≡ false }
{
    row(find_meta(alloc, conn))
}

/// The registry's row: the one that is kept, where one is.
pub(crate) fn known_row<S: Alter>(
    alloc: Global,
    conn: &mut Connection<S>,
    own: Option<MetaRow>,
) -> Result<MetaRow, StatementFault>
    ensures gathers { LooksUp (view S.Store conn.old) (view S.Store conn.new) result
        (λ t row. IsRowOf own t → t.meta ≡ meta_in row) }
    ensures blames { BlamesDisk (view S.Store conn.old) (view S.Store conn.new) result (λ _. ⊤) }
    ensures outside { conn.old.in_transaction ≡ false → conn.new.in_transaction ≡ false }
{
    match own {
        Some(row) => Ok(row),
        None => own_row(alloc, conn),
    }
}
