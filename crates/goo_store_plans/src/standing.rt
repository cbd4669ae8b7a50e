//! What the tables hold for a declaration, as it is found.

ghost use Rattle.std.specs.Prelude.{◌≡◌, ◌<◌, ◌^◌, false, pos, Some, None, option_map, IfErr, IfOk};
ghost use Rattle.std.specs.Prelude.{IfSome, IsSomeAnd, IsTrue};
ghost use Rattle.std.specs.FinMap.{get};
ghost use Rattle.sqlite.specs.Held.{state};
ghost use Rattle.sqlite_keyed.specs.Keyed.{next_key};
ghost use Rattle.goo_tables_rows.specs.Rows.{declaration_in, declaration_key, device_in};
ghost use Rattle.goo_spec_tables.specs.Devices.{device_of};
ghost use Rattle.goo_spec_tables.specs.Readable.{is_device};
ghost use Rattle.goo_spec_tables.specs.States.{state_of};
ghost use Rattle.goo_store_plans.specs.AtHand.{HasRoom, HasStanding, IsRegistered};
ghost use Rattle.goo_store_plans.specs.Found.{IsBasisOf, IsDeviceOf, IsNext};
ghost use Rattle.goo_store_plans.specs.LookingUp.{LooksUp};
ghost use Rattle.goo_store_plans.specs.LotRows.{next_declaration};
ghost use Rattle.goo_store_plans.specs.Standing.{IsStanding};
ghost use Rattle.goo_store_plans.specs.StoreFaults.{BlamesDisk};
ghost use Rattle.goo_store_values.specs.Passing.{Accepts, Passes};
ghost use Rattle.goo_store_values.specs.declared.statement_fault.StatementFault.TheVariants.{Refused};

use crate::gathered_lots::next_lot_number;
use crate::known_rows::{KnownBasis, KnownDevice};
use goo_core_shelf::device::Device;
use goo_store_values::devices::device_in_row;
use goo_store_values::statement_fault::StatementFault;
use goo_tables::declaration::last_declaration;
use goo_tables::device::find_device;
use goo_tables_rows::declaration::DeclarationRow;
use goo_tables_rows::device::DeviceRow;
use goo_types::gsrn::Gsrn;
use sqlite::{Alter, Connection, Error};
use std::alloc::Global;

/// What the tables hold for a declaration.
#[derive(Clone, Copy)]
pub struct DeclarationBasis {
    /// The device that declares.
    pub device: Device,
    /// The number that the declaration gets.
    pub number: u64,
    /// The number that a lot gets.
    pub next_lot: u64,
}

/// The device in the row that was found.
fn device_found(found: Result<Option<DeviceRow>, Error>) -> Result<Device, StatementFault>
    ensures value { Passes found result
        (λ row device. option_map device_of (option_map device_in row) ≡ Some device) }
    ensures accepts { Accepts found result
        (λ row. IsSomeAnd row (λ r. IsTrue (is_device (pos 0, device_in r)))) }
    ensures missing { IfOk found (λ row. row ≡ None → IfErr result (λ cause. cause ≡ Refused)) }
{
    let Some(row) = found? else {
        return Err(StatementFault::Refused);
    };
    device_in_row(&row)
}

/// A device that is registered.
fn find_registered<S: Alter>(
    alloc: Global,
    conn: &mut Connection<S>,
    gsrn: &Gsrn,
) -> Result<Device, StatementFault>
    ensures looks { LooksUp (state S.Store conn.old) (state S.Store conn.new) result
        (λ t device. get (state_of t).devices gsrn.now ≡ Some device) }
    ensures blames { BlamesDisk (state S.Store conn.old) (state S.Store conn.new) result
        (λ t. IsRegistered t gsrn.now) }
    ensures outside { conn.old.in_transaction ≡ false → conn.new.in_transaction ≡ false }
{
    let found = find_device(alloc, conn, gsrn.text());
    device_found(found)
}

/// A device that is registered: the one that is kept, where it has the number.
fn known_registered<S: Alter>(
    alloc: Global,
    conn: &mut Connection<S>,
    kept: Option<KnownDevice>,
    gsrn: &Gsrn,
) -> Result<Device, StatementFault>
    ensures looks { LooksUp (state S.Store conn.old) (state S.Store conn.new) result
        (λ t device. IsDeviceOf kept t → get (state_of t).devices gsrn.now ≡ Some device) }
    ensures blames { BlamesDisk (state S.Store conn.old) (state S.Store conn.new) result
        (λ t. IsRegistered t gsrn.now) }
    ensures outside { conn.old.in_transaction ≡ false → conn.new.in_transaction ≡ false }
{
    match kept {
        Some(known) if known.gsrn == *gsrn => Ok(known.device),
        _ => find_registered(alloc, conn, gsrn),
    }
}

/// The number after that of the last row.
fn number_after(found: Result<Option<DeclarationRow>, Error>) -> Result<u64, StatementFault>
    ensures value { Passes found result
        (λ row n. n ≡ next_declaration (option_map declaration_in row)) }
    ensures accepts { Accepts found result (λ row. IfSome row (λ r. r.id < 2 ^ 63)) }
{
    let Some(row) = found? else {
        return Ok(1);
    };
    match row.id.checked_add(1) {
        Some(number) => Ok(number),
        None => Err(StatementFault::Refused),
    }
}

/// The number that the next declaration gets, as the table shows it.
fn find_declaration_number<S: Alter>(
    alloc: Global,
    conn: &mut Connection<S>,
) -> Result<u64, StatementFault>
    ensures looks { LooksUp (state S.Store conn.old) (state S.Store conn.new) result
        (λ t n. pos n ≡ next_key declaration_key t.declarations) }
    ensures blames { BlamesDisk (state S.Store conn.old) (state S.Store conn.new) result
        (λ t. HasRoom 0 declaration_key t.declarations) }
    ensures outside { conn.old.in_transaction ≡ false → conn.new.in_transaction ≡ false }
{
    let found = last_declaration(alloc, conn);
    number_after(found)
}

/// The number that the next declaration gets: the one that is known, where one is.
pub(crate) fn next_declaration_number<S: Alter>(
    alloc: Global,
    conn: &mut Connection<S>,
    known: Option<u64>,
) -> Result<u64, StatementFault>
    ensures looks { LooksUp (state S.Store conn.old) (state S.Store conn.new) result
        (λ t n. IsNext known declaration_key t.declarations
        → pos n ≡ next_key declaration_key t.declarations) }
    ensures blames { BlamesDisk (state S.Store conn.old) (state S.Store conn.new) result
        (λ t. HasRoom 0 declaration_key t.declarations) }
    ensures outside { conn.old.in_transaction ≡ false → conn.new.in_transaction ≡ false }
{
    match known {
        Some(number) => Ok(number),
        None => find_declaration_number(alloc, conn),
    }
}

/// What the tables hold for a declaration of a device. What is known isn't looked up.
///
/// # Errors
///
/// `Refused` where the device isn't registered, `Memory`, and the errors of the statements.
pub fn find_standing<S: Alter>(
    alloc: Global,
    conn: &mut Connection<S>,
    known: KnownBasis,
    gsrn: &Gsrn,
) -> Result<DeclarationBasis, StatementFault>
    ensures looks { LooksUp (state S.Store conn.old) (state S.Store conn.new) result
        (λ t standing. IsBasisOf known t → IsStanding t gsrn.now standing) }
    ensures blames { BlamesDisk (state S.Store conn.old) (state S.Store conn.new) result
        (λ t. HasStanding t gsrn.now) }
    ensures outside { conn.old.in_transaction ≡ false → conn.new.in_transaction ≡ false }
{
    let device = known_registered(alloc, conn, known.device, gsrn)?;
    let number = next_declaration_number(alloc, conn, known.number)?;
    let next_lot = next_lot_number(alloc, conn, known.next_lot)?;
    Ok(DeclarationBasis {
        device,
        number,
        next_lot,
    })
}
