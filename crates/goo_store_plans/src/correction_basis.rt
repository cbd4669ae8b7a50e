//! What the tables hold for a correction, as it is found.

ghost use Rattle.std.specs.Prelude.{◌≡◌, ◌<◌, ◌^◌, false, pos, Some, option_map, IfSome};
ghost use Rattle.sqlite.specs.Held.{state};
ghost use Rattle.sqlite_keyed.specs.Keyed.{next_key};
ghost use Rattle.goo_tables_rows.specs.Rows.{Tables, correction_in, correction_key};
ghost use Rattle.goo_spec_tables.specs.Devices.{device_row, progress_in};
ghost use Rattle.goo_store_plans.specs.AtHand.{HasRoom};
ghost use Rattle.goo_store_plans.specs.Correcting.{HasBasis, IsBasis};
ghost use Rattle.goo_store_plans.specs.Found.{IsBasisOf, IsDeviceOf, IsNext};
ghost use Rattle.goo_store_plans.specs.LookingUp.{LooksUp};
ghost use Rattle.goo_store_plans.specs.LotRows.{next_correction};
ghost use Rattle.goo_store_plans.specs.Progressing.{HasEnded};
ghost use Rattle.goo_store_plans.specs.StoreFaults.{BlamesDisk};
ghost use Rattle.goo_store_values.specs.Passing.{Accepts, Passes};

use crate::device_progress::find_last_day;
use crate::known_rows::{KnownBasis, KnownDevice};
use goo_store_values::statement_fault::StatementFault;
use goo_tables::correction::last_correction;
use goo_tables_rows::correction::CorrectionRow;
use goo_types::day::Day;
use goo_types::gsrn::Gsrn;
use sqlite::{Alter, Connection, Error};
use std::alloc::Global;

/// What the tables hold for a correction.
#[derive(Clone, Copy)]
pub struct CorrectionBasis {
    /// The last day of the device's last accepted period, which stays.
    pub last_day: Day,
    /// The number that the correction gets.
    pub number: u64,
}

/// The number after that of the last row.
fn number_after(found: Result<Option<CorrectionRow>, Error>) -> Result<u64, StatementFault>
    ensures value { Passes found result
        (λ row n. n ≡ next_correction (option_map correction_in row)) }
    ensures accepts { Accepts found result (λ row. IfSome row (λ r. r.id < 2 ^ 63)) }
{
    let Some(row) = found? else {
        return Ok(1);
    };
    match row.id.checked_add(1) {
        Some(number) => Ok(number),
        None => Err(StatementFault::Refused),
    }
}

/// The number that the next correction gets, as the table shows it.
fn find_correction_number<S: Alter>(
    alloc: Global,
    conn: &mut Connection<S>,
) -> Result<u64, StatementFault>
    ensures looks { LooksUp (state S.Store conn.old) (state S.Store conn.new) result
        (λ t n. pos n ≡ next_key correction_key t.corrections) }
    ensures blames { BlamesDisk (state S.Store conn.old) (state S.Store conn.new) result
        (λ t. HasRoom 0 correction_key t.corrections) }
    ensures outside { conn.old.in_transaction ≡ false → conn.new.in_transaction ≡ false }
{
    let found = last_correction(alloc, conn);
    number_after(found)
}

/// The number that the next correction gets: the one that is known, where one is.
pub(crate) fn next_correction_number<S: Alter>(
    alloc: Global,
    conn: &mut Connection<S>,
    known: Option<u64>,
) -> Result<u64, StatementFault>
    ensures looks { LooksUp (state S.Store conn.old) (state S.Store conn.new) result
        (λ t n. IsNext known correction_key t.corrections
        → pos n ≡ next_key correction_key t.corrections) }
    ensures blames { BlamesDisk (state S.Store conn.old) (state S.Store conn.new) result
        (λ t. HasRoom 0 correction_key t.corrections) }
    ensures outside { conn.old.in_transaction ≡ false → conn.new.in_transaction ≡ false }
{
    match known {
        Some(number) => Ok(number),
        None => find_correction_number(alloc, conn),
    }
}

/// The last day of a device's last accepted period, where it is kept.
fn last_day_kept(kept: Option<KnownDevice>, device: &Gsrn) -> Option<Day>
    ensures { IfSome result
        (λ day. (t : Tables) → IsDeviceOf kept t
        → (progress_in (device_row t.devices device.now)).last_day ≡ Some day) }
{
    match kept {
        Some(known) if known.gsrn == *device => known.last_day,
        _ => None,
    }
}

/// The last day of a device's last accepted period: the one that is kept, where one is.
fn known_last_day<S: Alter>(
    alloc: Global,
    conn: &mut Connection<S>,
    kept: Option<KnownDevice>,
    device: &Gsrn,
) -> Result<Day, StatementFault>
    ensures looks { LooksUp (state S.Store conn.old) (state S.Store conn.new) result
        (λ t day. IsDeviceOf kept t
        → (progress_in (device_row t.devices device.now)).last_day ≡ Some day) }
    ensures blames { BlamesDisk (state S.Store conn.old) (state S.Store conn.new) result
        (λ t. HasEnded t device.now) }
    ensures outside { conn.old.in_transaction ≡ false → conn.new.in_transaction ≡ false }
{
    match last_day_kept(kept, device) {
        Some(day) => Ok(day),
        None => find_last_day(alloc, conn, device),
    }
}

/// What the tables hold for a correction of a device's declaration. What is known isn't looked up.
///
/// # Errors
///
/// `Refused` where the device isn't registered or has no accepted period, `Memory`, and the errors
/// of the statements.
pub fn find_basis<S: Alter>(
    alloc: Global,
    conn: &mut Connection<S>,
    known: KnownBasis,
    device: &Gsrn,
) -> Result<CorrectionBasis, StatementFault>
    ensures looks { LooksUp (state S.Store conn.old) (state S.Store conn.new) result
        (λ t basis. IsBasisOf known t → IsBasis t device.now basis) }
    ensures blames { BlamesDisk (state S.Store conn.old) (state S.Store conn.new) result
        (λ t. HasBasis t device.now) }
    ensures outside { conn.old.in_transaction ≡ false → conn.new.in_transaction ≡ false }
{
    let last_day = known_last_day(alloc, conn, known.device, device)?;
    let number = next_correction_number(alloc, conn, known.correction)?;
    Ok(CorrectionBasis { last_day, number })
}
