//! Devices, as they are found.

ghost use Rattle.std.specs.Prelude.{◌≡◌, pos, is_ok, Some, IfOk, IfSome, IsOk, IsTrue, option_map};
ghost use Rattle.std.specs.Prelude.{string_bytes};
ghost use Rattle.goo_tables_rows.specs.Rows.{device_in};
ghost use Rattle.goo_spec_tables.specs.Devices.{device_of, progress_in, record_in};
ghost use Rattle.goo_store_pieces.specs.Found.{KeepsDevice};
ghost use Rattle.goo_spec_tables.specs.Readable.{is_device, is_maybe_day};
ghost use Rattle.goo_store_values.specs.Passing.{Accepts, Passes};
ghost use Rattle.goo_spec_tables.specs.Texts.{day_of};

use goo_core_shelf::device::Device;
use goo_core_shelf::found::{DeviceRecord, Progress};
use goo_store_plans::known_rows::KnownDevice;
use goo_store_values::devices::device_in_row;
use goo_store_values::statement_fault::StatementFault;
use goo_store_values::{numbers, texts};
use goo_tables_rows::device::DeviceRow;
use goo_types::day::Day;
use goo_types::gsrn::Gsrn;
use sqlite::Error;

/// The device, if there is one.
pub(crate) fn read_device(
    found: Result<Option<DeviceRow>, Error>,
) -> Result<Option<Device>, StatementFault>
    ensures value { Passes found result
        (λ row device. device ≡ option_map device_of (option_map device_in row)) }
    ensures accepts { Accepts found result
        (λ row. IfSome row (λ r. IsTrue (is_device (pos 0, device_in r)))) }
{
    match found? {
        Some(row) => Ok(Some(device_in_row(&row)?)),
        None => Ok(None),
    }
}

/// A day, where there is one.
fn maybe_day(text: &Option<String>) -> Result<Option<Day>, StatementFault>
    ensures value { IfOk result
        (λ day. day ≡ option_map day_of (option_map string_bytes text.now)) }
    ensures accepts { is_ok result ≡ is_maybe_day (option_map string_bytes text.now) }
{
    match text {
        Some(text) => Ok(Some(texts::day(text)?)),
        None => Ok(None),
    }
}

/// The last accepted period's end and the carry in the row of a device.
fn progress_in_row(row: &DeviceRow) -> Result<Progress, StatementFault>
    ensures value { IfOk result (λ progress. progress ≡ progress_in (Some (device_in row.now))) }
    ensures accepts { IsTrue (is_device (pos 0, device_in row.now)) → IsOk result }
{
    Ok(Progress {
        last_day: maybe_day(&row.last_day)?,
        carry: numbers::wh(row.carry)?,
    })
}

/// The last accepted period's end and the carry in the row of a device; neither is there without a
/// row.
pub(crate) fn read_progress(
    found: Result<Option<DeviceRow>, Error>,
) -> Result<Progress, StatementFault>
    ensures value { Passes found result
        (λ row progress. progress ≡ progress_in (option_map device_in row)) }
    ensures accepts { Accepts found result
        (λ row. IfSome row (λ r. IsTrue (is_device (pos 0, device_in r)))) }
{
    let Some(row) = found? else {
        return Ok(Progress {
            last_day: None,
            carry: numbers::wh(0)?,
        });
    };
    progress_in_row(&row)
}

/// The device with its progress, if there is one. The device is kept then, under the number that it
/// was looked up by.
pub(crate) fn read_record(
    found: Result<Option<DeviceRow>, Error>,
    gsrn: &Gsrn,
    kept: &mut Option<KnownDevice>,
) -> Result<Option<DeviceRecord>, StatementFault>
    ensures value { Passes found result
        (λ row found. found ≡ record_in (option_map device_in row)) }
    ensures accepts { Accepts found result
        (λ row. IfSome row (λ r. IsTrue (is_device (pos 0, device_in r)))) }
    ensures kept { KeepsDevice found gsrn.now kept.old kept.new }
{
    let Some(row) = found? else {
        return Ok(None);
    };
    let device = device_in_row(&row)?;
    let progress = progress_in_row(&row)?;
    *kept = Some(KnownDevice {
        gsrn: *gsrn,
        device,
        last_day: progress.last_day,
    });
    Ok(Some(DeviceRecord { device, progress }))
}
