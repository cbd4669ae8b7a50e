//! The last accepted period of a device and its carry, which its row keeps: how they are found, and
//! how they are set.

ghost use Rattle.std.specs.Prelude.{◌≡◌, ◌<◌, ◌^◌, false, pos, Some, option_map, string_bytes};
ghost use Rattle.std.specs.Prelude.{IfOk, IsOk, IsOkUnless, IsSome, IsSomeAnd, IsTrue};
ghost use Rattle.sqlite.specs.Held.{state};
ghost use Rattle.goo_tables_rows.specs.Rows.{device_in};
ghost use Rattle.goo_spec_tables.specs.Devices.{device_row, progress_in};
ghost use Rattle.goo_spec_tables.specs.Readable.{is_device, is_maybe_day};
ghost use Rattle.goo_spec_tables.specs.Texts.{day_of};
ghost use Rattle.goo_store_changes.specs.Changes.{ChangeFits};
ghost use Rattle.goo_store_plans.specs.LookingUp.{LooksUp};
ghost use Rattle.goo_store_plans.specs.Progressing.{HasEnded, SetsProgress};
ghost use Rattle.goo_store_plans.specs.StoreFaults.{BlamesDisk};
ghost use Rattle.goo_store_values.specs.Passing.{Accepts, Passes};
ghost use Rattle.goo_store_values.specs.declared.statement_fault.StatementFault.TheVariants.{Memory};

use crate::new_rows::day_string;
use goo_store_changes::table_change::TableChange;
use goo_store_values::statement_fault::StatementFault;
use goo_store_values::texts;
use goo_tables::device::find_device;
use goo_tables_rows::device::DeviceRow;
use goo_types::day::Day;
use goo_types::gsrn::Gsrn;
use sqlite::{Alter, Connection, Error};
use std::alloc::Global;

/// The change that sets the last day of a device's last accepted period, and its carry in Wh.
pub fn progress_change(
    alloc: Global,
    device: &Gsrn,
    last_day: Day,
    carry: u64,
) -> Result<TableChange, StatementFault>
    ensures sets { IfOk result (SetsProgress device.now last_day carry) }
    ensures fits { IfOk result ChangeFits }
    ensures memory { carry < 2 ^ 63 → IsOkUnless result Memory }
{
    if carry >= 1 << 63 {
        return Err(StatementFault::Refused);
    }
    let device = String::from_str(alloc, device.text())?;
    let last_day = day_string(alloc, last_day)?;
    Ok(TableChange::SetProgress {
        device,
        last_day,
        carry,
    })
}

/// A day that must be there.
fn day_there(text: &Option<String>) -> Result<Day, StatementFault>
    ensures value { IfOk result
        (λ day. option_map day_of (option_map string_bytes text.now) ≡ Some day) }
    ensures accepts { IsTrue (is_maybe_day (option_map string_bytes text.now))
        → IsSome (option_map string_bytes text.now) → IsOk result }
{
    match text {
        Some(text) => texts::day(text),
        None => Err(StatementFault::Refused),
    }
}

/// The last day of the last accepted period, in the row that was found.
fn last_day_found(found: Result<Option<DeviceRow>, Error>) -> Result<Day, StatementFault>
    ensures value { Passes found result
        (λ row day. (progress_in (option_map device_in row)).last_day ≡ Some day) }
    ensures accepts { Accepts found result
        (λ row. IsSomeAnd row
        (λ r. IsTrue (is_device (pos 0, device_in r)) × IsSome (device_in r).last_day)) }
{
    let Some(row) = found? else {
        return Err(StatementFault::Refused);
    };
    day_there(&row.last_day)
}

/// The last day of a device's last accepted period.
///
/// # Errors
///
/// `Refused` where the device isn't registered or has no accepted period, `Memory`, and the errors
/// of the statement.
pub fn find_last_day<S: Alter>(
    alloc: Global,
    conn: &mut Connection<S>,
    device: &Gsrn,
) -> Result<Day, StatementFault>
    ensures looks { LooksUp (state S.Store conn.old) (state S.Store conn.new) result
        (λ t day. (progress_in (device_row t.devices device.now)).last_day ≡ Some day) }
    ensures blames { BlamesDisk (state S.Store conn.old) (state S.Store conn.new) result
        (λ t. HasEnded t device.now) }
    ensures outside { conn.old.in_transaction ≡ false → conn.new.in_transaction ≡ false }
{
    let found = find_device(alloc, conn, device.text());
    last_day_found(found)
}
