//! Tables that are judged before a registry is opened over them.

ghost use Rattle.std.specs.Prelude.{◌≡◌, true, IfOk};
ghost use Rattle.std.specs.List.{list_all};
ghost use Rattle.sqlite.specs.Held.{state as view};
ghost use Rattle.goo_spec_tables.specs.Readable.{is_piece};
ghost use Rattle.goo_store_judge.specs.Opening.{Judges};

use goo_store_open::fault::OpenFault;
use goo_store_open::finding::{Found, find_tables};
use goo_store_open::layout::Layout;
use goo_store_rules::judging::keeps_rules;
use goo_tables_rows::piece::PieceRow;
use sqlite::{Alter, Connection};
use std::alloc::Global;

/// The pieces of what was found.
fn pieces_of(found: Found) -> Vec<PieceRow>
    ensures { result ≡ found.rows.production.pieces }
{
    let rows = found.rows;
    let production = rows.production;
    production.pieces
}

/// The pieces of a database that holds the tables of a registry which keep the rules of their
/// version: `Damaged` where they break one.
///
/// # Errors
///
/// What finding the tables answers where they can't be read; `Memory` where memory was refused.
pub fn judge<S: Alter>(
    alloc: Global,
    conn: &mut Connection<S>,
    layout: Layout,
) -> Result<Vec<PieceRow>, OpenFault>
    ensures judges { Judges layout (view S.Store conn.old) (view S.Store conn.new) result
        (λ t pieces. pieces.items ≡ t.pieces) }
    ensures readable { IfOk result (λ pieces. list_all is_piece pieces.items ≡ true) }
{
    match find_tables(alloc, conn, layout) {
        Ok(found) => match keeps_rules(alloc, &found, layout.version()) {
            Ok(true) => Ok(pieces_of(found)),
            Ok(false) => Err(OpenFault::Damaged),
            Err(_) => Err(OpenFault::Memory),
        },
        Err(fault) => Err(fault),
    }
}
