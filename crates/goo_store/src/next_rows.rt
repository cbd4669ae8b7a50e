//! Rows that are looked up one at a time: the next one of an account, and the next one that
//! expires.

ghost use Rattle.std.specs.Prelude.{◌≡◌, ◌↔◌, ◌⊎◌, ◌+◌, ◌<◌, ◌^◌, All, false, find, map};
ghost use Rattle.std.specs.Prelude.{option_map, IfSome, IsOkAnd, IsSomeAnd, IsTrue, Some, take};
ghost use Rattle.std.specs.List.{filter};
ghost use Rattle.sqlite.specs.Held.{state as view};
ghost use Rattle.goo_types.specs.Piece.{IsForward};
ghost use Rattle.goo_core_shelf.specs.Rows.{EndsFrom};
ghost use Rattle.goo_core_shelf.specs.Sought.{is_sought};
ghost use Rattle.goo_tables_rows.specs.Beside.{joined_columns, joined_in, pieces_beside};
ghost use Rattle.goo_tables_rows.specs.Readable.{joined_readable, piece_readable};
ghost use Rattle.goo_tables_rows.specs.Rows.{piece_columns};
ghost use Rattle.goo_tables_rows.specs.Refused.{FailsOnlyByFault};
ghost use Rattle.goo_tables_rows.specs.Stands.{Looks};
ghost use Rattle.goo_core_shelf.specs.declared.sought.Sought.TheVariants.{Naming};
ghost use Rattle.goo_store_pieces.specs.Ahead.{is_beyond as names_beyond};
ghost use Rattle.goo_store_pieces.specs.NextRows.{begins_beyond, IsDated, reaching_beyond};

use goo_core_shelf::sought::{Sought, is_sought};
use goo_store_pieces::pieces::is_beyond;
use goo_store_plans::known_rows::Edges;
use goo_store_values::statement_fault::StatementFault;
use goo_tables_accounts::joined::{next_expiring, next_of_account, page_of_account};
use goo_tables_pages::account_pieces::rows_of_account;
use goo_tables_rows::joined::JoinedRow;
use goo_tables_rows::piece::PieceRow;
use goo_types::account_no::AccountNo;
use goo_types::piece::Piece;
use sqlite::{Alter, Connection, Error};
use std::alloc::Global;

/// The row before, where it is looked for and ends above a number.
pub fn reaching_row(before: Option<Piece>, sought: &Sought, after: u64) -> Option<Piece>
    ensures value { IfSome before IsForward
        → result ≡ reaching_beyond (is_sought sought.now) after before }
    ensures ahead { IfSome result (EndsFrom (after + 1)) }
{
    let row = before?;
    if is_sought(&row, sought) && is_beyond(&row, after) {
        Some(row)
    } else {
        None
    }
}

/// The number at which the row ends that was read, if one was.
fn edge_of(row: &Result<Option<Piece>, StatementFault>) -> Option<u64>
    ensures { IfSome result (λ n. IsOkAnd row.now (λ found. IsSomeAnd found (λ p. p.last ≡ n))) }
{
    match row {
        Ok(Some(piece)) => Some(piece.last.get()),
        _ => None,
    }
}

/// Whether a row is known to end at the number.
fn is_edge(edge: Option<u64>, number: u64) -> bool
    ensures { IsTrue result ↔ (edge ≡ Some number) }
{
    match edge {
        Some(end) => end == number,
        None => false,
    }
}

/// Whether a row is known to end at the number, so that none reaches above it from below.
pub fn is_clear(edges: &Edges, number: u64) -> bool
    ensures { IsTrue result → (edges.now.last ≡ Some number) ⊎ (edges.now.asked ≡ Some number) }
{
    is_edge(edges.last, number) || is_edge(edges.asked, number)
}

/// Whether a row is known to end where this one does, so that none reaches above its end from
/// below.
pub fn ends_clear(edges: &Edges, row: &Piece) -> bool
    ensures { IsTrue result → (edges.now.last ≡ Some row.now.last)
        ⊎ (edges.now.asked ≡ Some row.now.last) }
{
    is_clear(edges, row.last.get())
}

/// The number that was asked about, where a row is known to end there, or the one before it.
fn asked_edge(edges: &Edges, after: u64) -> Option<u64>
    ensures { (result ≡ edges.now.last) ⊎ (result ≡ edges.now.asked) }
{
    if is_edge(edges.last, after) {
        edges.last
    } else {
        edges.asked
    }
}

/// Where rows are known to end once a row was read that was asked for by a number.
pub fn edges_after(edges: &Edges, after: u64, row: &Result<Option<Piece>, StatementFault>) -> Edges
    ensures last { IfSome result.last
        (λ n. IsOkAnd row.now (λ found. IsSomeAnd found (λ p. p.last ≡ n))) }
    ensures asked { (result.asked ≡ edges.now.last) ⊎ (result.asked ≡ edges.now.asked) }
{
    let last = edge_of(row);
    let asked = asked_edge(edges, after);
    Edges { last, asked }
}

/// The first piece that is looked for and begins above a number, beside its lot.
pub fn ask_next<S: Alter>(
    alloc: Global,
    conn: &mut Connection<S>,
    sought: &Sought,
    after: u64,
) -> Result<Option<JoinedRow>, Error>
    requires { after < 2 ^ 63 }
    ensures looks { Looks (view S.Store conn.old) (view S.Store conn.new) result
        (λ t found. option_map joined_in found
        ≡ find (begins_beyond sought.now after) (pieces_beside t)) }
    ensures readable { FailsOnlyByFault (view S.Store conn.old) (view S.Store conn.new) result
        (λ t. All joined_readable (map joined_columns (pieces_beside t))) }
    ensures outside { conn.old.in_transaction ≡ false → conn.new.in_transaction ≡ false }
    ensures dated { IsDated sought.now }
{
    match sought {
        Sought::Naming(account) => next_of_account(alloc, conn, account.get(), after),
        Sought::Expiring(day) => {
            let text = day.text();
            next_expiring(alloc, conn, text.as_str(), after)
        }
    }
}

/// The first rows that name an account and begin above the end of one of its rows.
pub fn ask_rows<S: Alter>(
    alloc: Global,
    conn: &mut Connection<S>,
    account: AccountNo,
    row: &Piece,
) -> Result<Vec<PieceRow>, Error>
    ensures looks { Looks (view S.Store conn.old) (view S.Store conn.new) result
        (λ t found. found.items
        ≡ take 256 (filter (names_beyond account row.now.last) t.pieces)) }
    ensures readable { FailsOnlyByFault (view S.Store conn.old) (view S.Store conn.new) result
        (λ t. All piece_readable (map piece_columns t.pieces)) }
    ensures outside { conn.old.in_transaction ≡ false → conn.new.in_transaction ≡ false }
{
    rows_of_account(alloc, conn, account.get(), row.last.get())
}

/// The first rows that name an account and begin above the end of one of its rows, beside their
/// lots.
pub fn ask_pieces<S: Alter>(
    alloc: Global,
    conn: &mut Connection<S>,
    account: AccountNo,
    row: &Piece,
) -> Result<Vec<JoinedRow>, Error>
    ensures looks { Looks (view S.Store conn.old) (view S.Store conn.new) result
        (λ t found. map joined_in found.items
        ≡ take 256 (filter (begins_beyond (Naming account) row.now.last) (pieces_beside t))) }
    ensures readable { FailsOnlyByFault (view S.Store conn.old) (view S.Store conn.new) result
        (λ t. All joined_readable (map joined_columns (pieces_beside t))) }
    ensures outside { conn.old.in_transaction ≡ false → conn.new.in_transaction ≡ false }
{
    page_of_account(alloc, conn, account.get(), row.last.get())
}
