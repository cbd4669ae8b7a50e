//! The numbers of lots in the table.

ghost use Rattle.std.specs.Prelude.{◌≡◌, ◌≢◌, false, All, List, IfOk, IfSome, IsNone, IsSomeAnd};
ghost use Rattle.std.specs.Prelude.{Some, map, option_map};
ghost use Rattle.std.specs.FinMap.{get};
ghost use Rattle.sqlite.specs.Held.{state};
ghost use Rattle.goo_tables_rows.specs.Rows.{Lot as RowOfLot, lot_in};
ghost use Rattle.goo_spec.specs.Lots.{key_of};
ghost use Rattle.goo_spec_tables.specs.States.{state_of};
ghost use Rattle.goo_store_plans.specs.AtHand.{IsAtHand};
ghost use Rattle.goo_store_plans.specs.LookingUp.{LooksUp};
ghost use Rattle.goo_store_plans.specs.LotNumbers.{AreNumbered, AreWith, IsNumberOf, IsRowOfLot};
ghost use Rattle.goo_spec_tables.specs.Places.{lot_of};
ghost use Rattle.goo_store_values.specs.Reading.{IsReadableLot};
ghost use Rattle.goo_store_plans.specs.StoreFaults.{BlamesDisk};
ghost use Rattle.goo_store_values.specs.Passing.{Accepts, Passes};

use goo_store_values::lots::read_lot;
use goo_store_values::statement_fault::StatementFault;
use goo_tables::lot::find_lot;
use goo_tables_rows::lot::LotRow;
use goo_types::lot::Lot;
use sqlite::{Alter, Connection, Error};
use std::alloc::Global;

/// A lot beside its number in the table.
#[derive(Clone, Copy)]
pub struct NumberedLot {
    /// The number of its row.
    pub number: u64,
    /// The lot.
    pub lot: Lot,
}

/// The number in the row that was found for a lot, which must state what the lot does.
fn number_found(found: Result<Option<LotRow>, Error>, lot: &Lot) -> Result<u64, StatementFault>
    ensures value { Passes found result (λ row n. IsRowOfLot (option_map lot_in row) n lot.now) }
    ensures accepts { Accepts found result
        (λ row. IsSomeAnd row (λ r. IsReadableLot (lot_in r) × (lot_of (lot_in r) ≡ lot.now))) }
{
    let Some(row) = found? else {
        return Err(StatementFault::Refused);
    };
    if read_lot(&row)?.is(lot) {
        Ok(row.id)
    } else {
        Err(StatementFault::Refused)
    }
}

/// The number of a lot that is in the table.
fn find_number<S: Alter>(
    alloc: Global,
    conn: &mut Connection<S>,
    lot: &Lot,
) -> Result<u64, StatementFault>
    ensures looks { LooksUp (state S.Store conn.old) (state S.Store conn.new) result
        (λ t n. IsNumberOf t.lots n lot.now) }
    ensures blames { BlamesDisk (state S.Store conn.old) (state S.Store conn.new) result
        (λ t. get (state_of t).lots (key_of lot.now) ≡ Some lot.now) }
    ensures outside { conn.old.in_transaction ≡ false → conn.new.in_transaction ≡ false }
{
    let day = lot.first_day().text();
    let found = find_lot(
        alloc,
        conn,
        u32::from(lot.origin().get()),
        lot.device().text(),
        day.as_str(),
    );
    number_found(found, lot)
}

/// The number of a lot among some.
fn number_among(numbered: &[NumberedLot], lot: &Lot) -> Option<u64>
    ensures value { IfSome result
        (λ n. (lots : List RowOfLot) → AreNumbered lots numbered.now → IsNumberOf lots n lot.now) }
    ensures none { IsNone result → All (λ known. known.lot ≢ lot.now) numbered.now }
{
    for known in numbered {
        if known.lot.is(lot) {
            return Some(known.number);
        }
    }
    None
}

/// The number of a lot that is added, or that is in the table.
fn number_of<S: Alter>(
    alloc: Global,
    conn: &mut Connection<S>,
    added: &[NumberedLot],
    lot: &Lot,
) -> Result<u64, StatementFault>
    ensures looks { LooksUp (state S.Store conn.old) (state S.Store conn.new) result
        (λ t n. (lots : List RowOfLot) → AreWith t.lots added.now lots
        → IsNumberOf lots n lot.now) }
    ensures blames { BlamesDisk (state S.Store conn.old) (state S.Store conn.new) result
        (λ t. IsAtHand added.now t lot.now) }
    ensures outside { conn.old.in_transaction ≡ false → conn.new.in_transaction ≡ false }
{
    match number_among(added, lot) {
        Some(number) => Ok(number),
        None => find_number(alloc, conn, lot),
    }
}

/// The number of each lot: of one that is added, or of one that is in the table, which takes a
/// statement.
///
/// # Errors
///
/// `Refused` where a lot is neither, or its row states another.
pub(crate) fn numbers_of<S: Alter>(
    alloc: Global,
    conn: &mut Connection<S>,
    added: &[NumberedLot],
    lots: &[Lot],
) -> Result<Vec<NumberedLot>, StatementFault>
    ensures looks { LooksUp (state S.Store conn.old) (state S.Store conn.new) result
        (λ t found. (lots : List RowOfLot) → AreWith t.lots added.now lots
        → AreNumbered lots found.items) }
    ensures blames { BlamesDisk (state S.Store conn.old) (state S.Store conn.new) result
        (λ t. All (IsAtHand added.now t) lots.now) }
    ensures each { IfOk result (λ found. map (λ x. x.lot) found.items ≡ lots.now) }
    ensures outside { conn.old.in_transaction ≡ false → conn.new.in_transaction ≡ false }
{
    let mut found = Vec::new(alloc);
    for lot in lots {
        let number = number_of(alloc, conn, added, lot)?;
        found.extend_from_slice(&[NumberedLot { number, lot: *lot }])?;
    }
    Ok(found)
}
