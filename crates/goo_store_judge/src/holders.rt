//! Holders, as they are found.

ghost use Rattle.std.specs.Prelude.{◌≡◌, false, pos, IfSome, IsTrue, OnOk, option_map};
ghost use Rattle.std.specs.FinMap.{get};
ghost use Rattle.sqlite.specs.Held.{state as view};
ghost use Rattle.sqlite.specs.State.{HasCleanDisk};
ghost use Rattle.goo_tables_rows.specs.Rows.{holder_in};
ghost use Rattle.goo_tables_rows.specs.Stands.{defects};
ghost use Rattle.goo_core_shelf.specs.Shelf.{Looks};
ghost use Rattle.goo_store_judge.specs.Moments.{IsWell, moment, tables_in};
ghost use Rattle.goo_store_judge.specs.StoreFaults.{BlamesStore};
ghost use Rattle.goo_spec_tables.specs.Readable.{is_holder};
ghost use Rattle.goo_store_values.specs.Passing.{Accepts, Passes};

use goo_store_values::noting::note_fault;
use goo_store_values::statement_fault::StatementFault;
use goo_store_values::texts;
use goo_tables_accounts::holder::find_holder;
use goo_tables_rows::holder::HolderRow;
use goo_types::fault::Fault;
use goo_types::holder_code::HolderCode;
use goo_types::name::Name;
use sqlite::{Alter, Connection, Error};
use std::alloc::Global;

/// The name in the row of a holder.
fn name_in(found: Result<Option<HolderRow>, Error>) -> Result<Option<Name>, StatementFault>
    ensures value { Passes found result
        (λ row name. name ≡ option_map (λ h. h.name) (option_map holder_in row)) }
    ensures accepts { Accepts found result
        (λ row. IfSome row (λ r. IsTrue (is_holder (pos 0, holder_in r)))) }
{
    let Some(row) = found? else {
        return Ok(None);
    };
    Ok(Some(texts::name(&row.name)?))
}

/// The name of a holder, found in the tables of a connection. Once a call was refused for another
/// cause than memory, no statement is made.
///
/// # Errors
///
/// `Store` where a call was refused before, or where this one is; `Memory` where memory was
/// refused.
pub fn name_of<S: Alter>(
    alloc: Global,
    conn: &mut Connection<S>,
    refused: &mut bool,
    code: &HolderCode,
) -> Result<Option<Name>, Fault>
    requires well { IsWell (view S.Store conn.now) }
    ensures looks { Looks (moment (view S.Store conn.old) refused.old)
        (moment (view S.Store conn.new) refused.new) result
        (λ name. name ≡ get (moment (view S.Store conn.old) refused.old).state.holders code.now) }
    ensures store { BlamesStore (view S.Store conn.old) (view S.Store conn.new) refused.old result }
    ensures works { OnOk result
        (HasCleanDisk (view S.Store conn.new) → IsTrue (view S.Store conn.new).is_open) }
    ensures well { IsWell (view S.Store conn.new) }
    ensures same { defects (view S.Store conn.new) ≡ 0 → (defects (view S.Store conn.old) ≡ 0)
        × (tables_in (view S.Store conn.new) ≡ tables_in (view S.Store conn.old)) }
    ensures outside { conn.old.in_transaction ≡ false → conn.new.in_transaction ≡ false }
{
    if *refused {
        return Err(Fault::Store);
    }
    let found = find_holder(alloc, conn, code.text());
    note_fault(name_in(found), refused)
}
