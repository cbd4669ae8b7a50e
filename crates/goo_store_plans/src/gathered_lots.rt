//! The lots that the parts of a notice make known.

ghost use Rattle.std.specs.Prelude.{◌≡◌, ◌≤◌, ◌<◌, ◌+◌, ◌^◌, [], false, pos, All, IfOk, IfSome};
ghost use Rattle.std.specs.Prelude.{IsOkUnless, OnOk, is_some, length, option_map, ⊤};
ghost use Rattle.std.specs.FinMap.{contains_key};
ghost use Rattle.std.specs.Ordering.{eq_by_cmp};
ghost use Rattle.sqlite.specs.Held.{state};
ghost use Rattle.sqlite_keyed.specs.Keyed.{next_key};
ghost use Rattle.goo_spec.specs.Lots.{key_of};
ghost use Rattle.goo_spec.specs.State.{text_cmp};
ghost use Rattle.goo_tables_rows.specs.Rows.{lot_in, lot_key};
ghost use Rattle.goo_store_plans.specs.AtHand.{HasRoom};
ghost use Rattle.goo_store_changes.specs.Changes.{ChangeFits};
ghost use Rattle.goo_store_plans.specs.Found.{AreLots, IsNext};
ghost use Rattle.goo_store_plans.specs.GatheredLots.{AddsLot, ArePutIn, Gathers};
ghost use Rattle.goo_store_plans.specs.LookingUp.{LooksUp};
ghost use Rattle.goo_store_plans.specs.LotRows.{is_among, is_among_missing, next_lot};
ghost use Rattle.goo_store_plans.specs.NewLots.{known_lots};
ghost use Rattle.goo_store_plans.specs.StoreFaults.{BlamesDisk};
ghost use Rattle.goo_store_values.specs.Passing.{Accepts, Passes};
ghost use Rattle.goo_store_values.specs.declared.statement_fault.StatementFault.TheVariants.{Memory};

use crate::known_rows::{KnownLots, LotKey};
use crate::lot_numbers::NumberedLot;
use crate::new_lots::lot_row;
use goo_store_changes::table_change::TableChange;
use goo_store_values::statement_fault::StatementFault;
use goo_tables::lot::{find_lot, last_lot};
use goo_tables_rows::lot::LotRow;
use goo_types::lot::Lot;
use goo_types::part::Part;
use sqlite::{Alter, Connection, Error};
use std::alloc::Global;

/// Changes, and the lots that they put in.
#[derive(Drop)]
pub struct Gathered {
    /// The changes.
    pub changes: Vec<TableChange>,
    /// The lots that they put in, beside the numbers of their rows.
    pub added: Vec<NumberedLot>,
    /// The number that the next lot gets, where lots are put in.
    pub next: u64,
}

/// The number after that of the last row.
fn number_after(found: Result<Option<LotRow>, Error>) -> Result<u64, StatementFault>
    ensures value { Passes found result (λ row n. n ≡ next_lot (option_map lot_in row)) }
    ensures accepts { Accepts found result (λ row. IfSome row (λ r. r.id < 2 ^ 63)) }
{
    let Some(row) = found? else {
        return Ok(1);
    };
    match row.id.checked_add(1) {
        Some(number) => Ok(number),
        None => Err(StatementFault::Refused),
    }
}

/// The number that the next lot gets, as the table shows it.
fn find_lot_number<S: Alter>(alloc: Global, conn: &mut Connection<S>) -> Result<u64, StatementFault>
    ensures looks { LooksUp (state S.Store conn.old) (state S.Store conn.new) result
        (λ t n. pos n ≡ next_key lot_key t.lots) }
    ensures blames { BlamesDisk (state S.Store conn.old) (state S.Store conn.new) result
        (λ t. HasRoom 0 lot_key t.lots) }
    ensures outside { conn.old.in_transaction ≡ false → conn.new.in_transaction ≡ false }
{
    let found = last_lot(alloc, conn);
    number_after(found)
}

/// The number that the next lot gets: the one that is known, where one is.
pub(crate) fn next_lot_number<S: Alter>(
    alloc: Global,
    conn: &mut Connection<S>,
    known: Option<u64>,
) -> Result<u64, StatementFault>
    ensures looks { LooksUp (state S.Store conn.old) (state S.Store conn.new) result
        (λ t n. IsNext known lot_key t.lots → pos n ≡ next_key lot_key t.lots) }
    ensures blames { BlamesDisk (state S.Store conn.old) (state S.Store conn.new) result
        (λ t. HasRoom 0 lot_key t.lots) }
    ensures outside { conn.old.in_transaction ≡ false → conn.new.in_transaction ≡ false }
{
    match known {
        Some(number) => Ok(number),
        None => find_lot_number(alloc, conn),
    }
}

/// Whether there is a row.
fn is_there(found: Result<Option<LotRow>, Error>) -> Result<bool, StatementFault>
    ensures value { Passes found result (λ row there. there ≡ is_some row) }
    ensures accepts { Accepts found result (λ _. ⊤) }
{
    Ok(found?.is_some())
}

/// Whether a lot of this origin, device and first day is in the table.
fn is_in_table<S: Alter>(
    alloc: Global,
    conn: &mut Connection<S>,
    lot: &Lot,
) -> Result<bool, StatementFault>
    ensures looks { LooksUp (state S.Store conn.old) (state S.Store conn.new) result
        (λ t known. known ≡ contains_key (known_lots t.lots) (key_of lot.now)) }
    ensures blames { BlamesDisk (state S.Store conn.old) (state S.Store conn.new) result (λ _. ⊤) }
    ensures outside { conn.old.in_transaction ≡ false → conn.new.in_transaction ≡ false }
{
    let day = lot.first_day().text();
    let found = find_lot(
        alloc,
        conn,
        u32::from(lot.origin().get()),
        lot.device().text(),
        day.as_str(),
    );
    is_there(found)
}

/// Whether both have the same origin, device and first day.
fn is_known_as(known: &NumberedLot, lot: &Lot) -> bool
    ensures { result ≡ eq_by_cmp text_cmp (key_of lot.now) (key_of known.now.lot) }
{
    known.lot.is_known_as(lot)
}

/// Whether a lot of the same origin, device and first day is among some.
fn is_among_lots(lots: &[NumberedLot], lot: &Lot) -> bool
    ensures { result ≡ is_among lots.now (key_of lot.now) }
{
    lots.iter().any(|known| is_known_as(known, lot))
}

/// Whether a lot of the same origin, device and first day is among those that are missing.
fn is_missing(missing: &[LotKey], lot: &Lot) -> bool
    ensures { result ≡ is_among_missing missing.now (key_of lot.now) }
{
    missing.iter().any(|key| key.is_key_of(lot))
}

/// Whether a lot of this origin, device and first day is in the table, as it is kept of some. Any
/// other is looked up.
fn is_there_already<S: Alter>(
    alloc: Global,
    conn: &mut Connection<S>,
    kept: &KnownLots,
    lot: &Lot,
) -> Result<bool, StatementFault>
    ensures looks { LooksUp (state S.Store conn.old) (state S.Store conn.new) result
        (λ t known. AreLots t.lots kept.now
        → known ≡ contains_key (known_lots t.lots) (key_of lot.now)) }
    ensures blames { BlamesDisk (state S.Store conn.old) (state S.Store conn.new) result (λ _. ⊤) }
    ensures outside { conn.old.in_transaction ≡ false → conn.new.in_transaction ≡ false }
{
    let among = is_among_lots(&kept.found, lot);
    if among {
        return Ok(true);
    }
    let missing = is_missing(&kept.missing, lot);
    if missing {
        return Ok(false);
    }
    is_in_table(alloc, conn, lot)
}

/// One lot more, under the next number.
pub fn add_lot(alloc: Global, gathered: &mut Gathered, lot: &Lot) -> Result<(), StatementFault>
    ensures added { OnOk result (AddsLot lot.now gathered.old gathered.new) }
    ensures fits { All ChangeFits gathered.old.changes.items
        → OnOk result (All ChangeFits gathered.new.changes.items) }
    ensures memory { gathered.old.next < 2 ^ 63 → IsOkUnless result Memory }
{
    let number = gathered.next;
    let row = lot_row(alloc, lot, number)?;
    gathered.changes.push(TableChange::AddLot(row))?;
    gathered
        .added
        .extend_from_slice(&[NumberedLot { number, lot: *lot }])?;
    gathered.next = number + 1;
    Ok(())
}

/// Adds the lot of a part, unless it is known by then.
fn gather_lot<S: Alter>(
    alloc: Global,
    conn: &mut Connection<S>,
    kept: &KnownLots,
    gathered: &mut Gathered,
    part: &Part,
) -> Result<(), StatementFault>
    ensures looks { LooksUp (state S.Store conn.old) (state S.Store conn.new) result
        (λ t _. AreLots t.lots kept.now → Gathers t.lots part.now gathered.old gathered.new) }
    ensures blames { BlamesDisk (state S.Store conn.old) (state S.Store conn.new) result
        (λ _. gathered.old.next < 2 ^ 63) }
    ensures counts { OnOk result (gathered.new.next ≤ gathered.old.next + 1) }
    ensures outside { conn.old.in_transaction ≡ false → conn.new.in_transaction ≡ false }
    ensures fits { All ChangeFits gathered.old.changes.items
        → OnOk result (All ChangeFits gathered.new.changes.items) }
{
    let among = is_among_lots(&gathered.added, &part.lot);
    if among {
        return Ok(());
    }
    let known = is_there_already(alloc, conn, kept, &part.lot)?;
    if known {
        return Ok(());
    }
    add_lot(alloc, gathered, &part.lot)
}

/// The lots of the parts that aren't known by then, in turn. Those of which it is kept whether they
/// are in the table aren't looked up, nor is the number of the first where it is known.
pub fn gather_lots<S: Alter>(
    alloc: Global,
    conn: &mut Connection<S>,
    known: Option<u64>,
    kept: &KnownLots,
    parts: &[Part],
) -> Result<Gathered, StatementFault>
    ensures looks { LooksUp (state S.Store conn.old) (state S.Store conn.new) result
        (λ t gathered. IsNext known lot_key t.lots → AreLots t.lots kept.now
        → ArePutIn t.lots parts.now [] gathered) }
    ensures blames { BlamesDisk (state S.Store conn.old) (state S.Store conn.new) result
        (λ t. IsNext known lot_key t.lots × HasRoom (length parts.now) lot_key t.lots) }
    ensures outside { conn.old.in_transaction ≡ false → conn.new.in_transaction ≡ false }
    ensures fits { IfOk result (λ gathered. All ChangeFits gathered.changes.items) }
{
    let next = next_lot_number(alloc, conn, known)?;
    let changes = Vec::new(alloc);
    let added = Vec::new(alloc);
    let mut gathered = Gathered {
        changes,
        added,
        next,
    };
    for part in parts {
        gather_lot(alloc, conn, kept, &mut gathered, part)?;
    }
    Ok(gathered)
}
