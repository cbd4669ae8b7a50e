//! Devices, as rows state them.

ghost use Rattle.std.specs.Prelude.{◌≡◌, pos, IfOk, IsOk, IsTrue};
ghost use Rattle.goo_tables_rows.specs.Rows.{device_in};
ghost use Rattle.goo_spec_tables.specs.Devices.{device_of};
ghost use Rattle.goo_spec_tables.specs.Readable.{is_device};

use crate::plants::read_plant;
use crate::statement_fault::StatementFault;
use crate::{numbers, texts};
use goo_core_shelf::device::Device;
use goo_tables_rows::device::DeviceRow;
use goo_types::command::RegisterDevice;

/// The device in its row.
///
/// # Errors
///
/// `Refused` where a column holds no such value.
pub fn device_in_row(row: &DeviceRow) -> Result<Device, StatementFault>
    ensures value { IfOk result (λ device. device ≡ device_of (device_in row.now)) }
    ensures accepts { IsTrue (is_device (pos 0, device_in row.now)) → IsOk result }
{
    let plant = read_plant(&row.plant)?;
    Ok(Device::of(&RegisterDevice {
        device: texts::gsrn(&row.gsrn)?,
        account: numbers::account_no(row.account)?,
        country: plant.country,
        site: plant.site,
        tech: plant.tech,
        source: plant.source,
        capacity_w: plant.capacity_w,
        commissioned: plant.commissioned,
        support: plant.support,
        carrier: texts::carrier(&row.carrier)?,
    }))
}
