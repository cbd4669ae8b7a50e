//! A database that holds a registry in tables of another form, which become ours.

ghost use Rattle.std.specs.Prelude.{◌≡◌, ◌≤◌, false, None, IfOk, IfErr, IfSome, OnErr, OnOk, IsTrue, length};
ghost use Rattle.sqlite.specs.Held.{state};
ghost use Rattle.sqlite.specs.State.{HasCleanDisk, Survives};
ghost use Rattle.goo_tables_rows.specs.Stands.{Rests, IsSettled};
ghost use Rattle.goo_store_anew.specs.Answered.{IsSameIn, AreAnswers};
ghost use Rattle.goo_store_adoption.specs.Judged.{count_of, IsRegistry, IsOurs, HoldsRegistry};
ghost use Rattle.goo_store_adoption.specs.Judged.{HoldSame};
ghost use Rattle.goo_store_adoption.specs.Refused.{IsBroken, HasMeta, RowsTell, TellsForm};

use crate::beginning::layout_of;
use crate::judging::{judge, read_meta};
use crate::observer::AdoptionObserver;
use crate::room::{Beside, is_free, removals};
use goo_store_anew::answers::Answer;
use goo_store_anew::asking::{ask, ask_tables};
use goo_store_anew::rewriting::write_anew;
use goo_store_open::fault::{OpenFault, fault_of};
use goo_store_open::layout::Layout;
use goo_store_open::our_schema::{has_first_schema, has_our_schema};
use sqlite::{Alter, Connection, Error, ErrorCode, Row};
use std::alloc::Global;

/// The word for an error of a statement that writes the rows anew. The database is as it was, so a
/// statement that it refuses for another cause than memory or the disk tells of a row or a table that
/// has no place among ours.
fn word_of_writing(error: Error) -> OpenFault
    ensures { IsBroken result }
{
    match error {
        Error::SqliteFailure(ErrorCode::OutOfMemory) => OpenFault::Memory,
        Error::SqliteFailure(
            ErrorCode::SystemIoFailure
            | ErrorCode::DatabaseCorrupt
            | ErrorCode::DiskFull
            | ErrorCode::Closed,
        ) => OpenFault::Store,
        _ => OpenFault::Damaged,
    }
}

/// How many tables a registry of the version has.
fn tables_of(layout: Layout) -> usize
    ensures value { result ≡ count_of layout }
    ensures limit { result ≤ 16 }
{
    match layout {
        Layout::First => 13,
        Layout::Ours => 16,
    }
}

/// Of which version tables are whose rows of `meta` are these.
///
/// # Errors
///
/// `NotARegistry` where they are not one, under the number 1; `Version` by that row; `Damaged` where
/// a value of it can't be read; `Memory`.
fn layout_in(alloc: Global, rows: Vec<Row>) -> Result<Layout, OpenFault>
    ensures { IfErr result (RowsTell rows.items) }
{
    let answers = [Answer { rows }];
    layout_of(read_meta(alloc, &answers)?.version)
}

/// Of which version the tables are.
///
/// # Errors
///
/// `NotARegistry` where there is no table `meta` with its columns and its row; `Version` by that row;
/// `Damaged` where a value of it can't be read; `Store` and `Memory`.
fn find_layout<S: Alter>(alloc: Global, conn: &mut Connection<S>) -> Result<Layout, OpenFault>
    ensures met { HasCleanDisk (state S.Store conn.new)
        → OnOk result (HasMeta (state S.Store conn.old).now) }
    ensures word { HasCleanDisk (state S.Store conn.new)
        → IfErr result (TellsForm (state S.Store conn.old).now) }
    ensures rests { HasCleanDisk (state S.Store conn.new) → IsSettled (state S.Store conn.old)
        → Rests (state S.Store conn.old) (state S.Store conn.new) }
    ensures outside { conn.old.in_transaction ≡ false → conn.new.in_transaction ≡ false }
    ensures survives { Survives (state S.Store conn.old) (state S.Store conn.new) (λ _. ⊥) }
{
    match ask(conn, 0) {
        Ok(rows) => layout_in(alloc, rows),
        Err(error) => Err(fault_of(error, OpenFault::NotARegistry)),
    }
}

/// What was answered of a registry before its tables are written anew.
#[derive(Drop)]
struct Kept {
    answers: Vec<Answer>,
    /// What takes its views away.
    views: String,
}

/// The rows of tables of this version, which keep its rules, and how the views are taken away.
///
/// # Errors
///
/// `Damaged` where a table or a column of the version is missing, a value can't be read or a rule is
/// broken, and where a table of another program or a trigger is in the way; `Store` and `Memory`.
fn keep_tables<S: Alter>(
    alloc: Global,
    conn: &mut Connection<S>,
    layout: Layout,
    beside: Beside,
) -> Result<Kept, OpenFault>
    ensures told { HasCleanDisk (state S.Store conn.new) → IsSettled (state S.Store conn.old)
        → IfOk result (λ kept. AreAnswers (count_of layout) (state S.Store conn.old).now
        kept.answers.items) }
    ensures judged { IfOk result (λ kept. IsRegistry layout kept.answers.items) }
    ensures few { IfOk result (λ kept. length kept.answers.items ≤ 16) }
    ensures word { IfErr result IsBroken }
    ensures rests { HasCleanDisk (state S.Store conn.new) → IsSettled (state S.Store conn.old)
        → Rests (state S.Store conn.old) (state S.Store conn.new) }
    ensures works { OnOk result (HasCleanDisk (state S.Store conn.new)
        → IsTrue (state S.Store conn.new).is_open) }
    ensures outside { conn.old.in_transaction ≡ false → conn.new.in_transaction ≡ false }
    ensures survives { Survives (state S.Store conn.old) (state S.Store conn.new) (λ _. ⊥) }
{
    let answers = match ask_tables(alloc, conn, tables_of(layout)) {
        Ok(answers) => answers,
        Err(error) => return Err(fault_of(error, OpenFault::Damaged)),
    };
    judge(alloc, layout, &answers)?;
    let views = views_of(alloc, &*conn, beside)?;
    Ok(Kept { answers, views })
}

/// The statements that take the views away.
///
/// # Errors
///
/// `Damaged` where a view, a table of another program or a trigger is in the way; `Memory`.
fn views_of<S: Alter>(
    alloc: Global,
    conn: &Connection<S>,
    beside: Beside,
) -> Result<String, OpenFault>
    ensures word { IfErr result IsBroken }
{
    if !is_free(conn.schema(), beside) {
        return Err(OpenFault::Damaged);
    }
    match removals(alloc, conn.schema()) {
        Ok(Some(views)) => Ok(views),
        Ok(None) => Err(OpenFault::Damaged),
        Err(_) => Err(OpenFault::Memory),
    }
}

/// Looks whether tables in another form than ours hold a registry that can be written anew. Nothing
/// is changed.
///
/// # Errors
///
/// Those of [`adopt`].
pub fn examine<S: Alter>(alloc: Global, conn: &mut Connection<S>) -> Result<(), OpenFault>
    ensures word { HasCleanDisk (state S.Store conn.new)
        → IfErr result (TellsForm (state S.Store conn.old).now) }
    ensures rests { HasCleanDisk (state S.Store conn.new) → IsSettled (state S.Store conn.old)
        → Rests (state S.Store conn.old) (state S.Store conn.new) }
    ensures outside { conn.old.in_transaction ≡ false → conn.new.in_transaction ≡ false }
    ensures survives { Survives (state S.Store conn.old) (state S.Store conn.new) (λ _. ⊥) }
{
    let layout = find_layout(alloc, conn)?;
    keep_tables(alloc, conn, layout, Beside::Statistics)?;
    Ok(())
}

/// Writes the tables of a registry in another form than ours anew, which is told before. None is
/// told of tables in our own form, which stay as they are, whatever their rows.
///
/// # Errors
///
/// The database, unchanged, with `NotARegistry` where there is no table `meta` with its columns and
/// its row; `Version` by that row; `Damaged` where a table or a column of its version is missing, a
/// value can't be read or a rule is broken, and where a table of another program or a trigger is in
/// the way; `Store` where a call was refused, and `Memory` where memory was.
pub fn adopt<S: Alter, A: AdoptionObserver>(
    alloc: Global,
    conn: &mut Connection<S>,
    observer: &mut A,
) -> Result<Option<Layout>, OpenFault>
    requires outside { conn.old.in_transaction ≡ false }
    ensures outside { conn.new.in_transaction ≡ false }
    ensures same { HasCleanDisk (state S.Store conn.new)
        → IfOk result (λ done. IfSome done (λ layout. IsSameIn (count_of layout)
        (state S.Store conn.old).now (state S.Store conn.new).now)) }
    ensures judged { HasCleanDisk (state S.Store conn.new)
        → IfOk result (λ done. IfSome done (λ layout. HoldsRegistry layout
        (state S.Store conn.old).now)) }
    ensures needless { IsOurs (state S.Store conn.old).now.schema
        → (result ≡ Ok None) × (conn.new ≡ conn.old) }
    ensures other { result ≡ Ok None → IsOurs (state S.Store conn.old).now.schema }
    ensures word { HasCleanDisk (state S.Store conn.new)
        → IfErr result (TellsForm (state S.Store conn.old).now) }
    ensures kept { HasCleanDisk (state S.Store conn.new)
        → OnErr result (Rests (state S.Store conn.old) (state S.Store conn.new)) }
    ensures crash { Survives (state S.Store conn.old) (state S.Store conn.new)
        (HoldSame (state S.Store conn.old).now) }
{
    let _settled = conn.is_autocommit();
    if has_our_schema(&*conn) || has_first_schema(&*conn) {
        return Ok(None);
    }
    let layout = find_layout(alloc, conn)?;
    let kept = keep_tables(alloc, conn, layout, Beside::Views)?;
    observer.adopts();
    match write_anew(alloc, conn, kept.views.as_str(), &kept.answers) {
        Ok(()) => Ok(Some(layout)),
        Err(error) => Err(word_of_writing(error)),
    }
}
