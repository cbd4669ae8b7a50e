//! The rows of devices that are registered.

ghost use Rattle.std.specs.Prelude.{◌≡◌, true, pos, Some, None, IfOk};
ghost use Rattle.goo_spec.specs.RegisterDevice.{device_of};
ghost use Rattle.goo_tables_rows.specs.Rows.{device_in, plant_in};
ghost use Rattle.goo_tables_accounts.specs.Changes.{DeviceFits};
ghost use Rattle.goo_spec_tables.specs.Devices.{progress_in};
ghost use Rattle.goo_store_plans.specs.Plants.{IsRegistered};
ghost use Rattle.goo_spec_tables.specs.Readable.{is_device, is_plant};
ghost use Rattle.goo_spec_tables.specs.States.{known_device};

use crate::new_rows::{carrier_string, day_string};
use goo_tables_rows::device::DeviceRow;
use goo_tables_rows::plant::PlantRow;
use goo_types::command::RegisterDevice;
use std::alloc::{AllocError, Global};

/// What is registered of a device's plant.
fn plant_row(alloc: Global, registered: &RegisterDevice) -> Result<PlantRow, AllocError>
    ensures states { IfOk result (λ row. IsRegistered (plant_in row) registered.now) }
    ensures reads { IfOk result (λ row. is_plant (plant_in row) ≡ true) }
{
    Ok(PlantRow {
        country: String::from_str(alloc, registered.country.text())?,
        site: String::from_str(alloc, registered.site.text())?,
        tech: String::from_str(alloc, registered.tech.text())?,
        source: String::from_str(alloc, registered.source.text())?,
        capacity_w: registered.capacity_w.get(),
        commissioned: day_string(alloc, registered.commissioned)?,
        support: String::from_str(alloc, registered.support.word())?,
    })
}

/// The row of a new device, which has declared nothing.
pub fn device_row(alloc: Global, registered: &RegisterDevice) -> Result<DeviceRow, AllocError>
    ensures states { IfOk result
        (λ row. known_device (pos 0, device_in row)
        ≡ (registered.now.device, device_of registered.now)) }
    ensures begins { IfOk result (λ row. progress_in (Some (device_in row)) ≡ progress_in None) }
    ensures reads { IfOk result (λ row. is_device (pos 0, device_in row) ≡ true) }
    ensures fits { IfOk result DeviceFits }
{
    Ok(DeviceRow {
        gsrn: String::from_str(alloc, registered.device.text())?,
        account: registered.account.get(),
        plant: plant_row(alloc, registered)?,
        last_day: None,
        carry: 0,
        carrier: carrier_string(alloc, registered.carrier)?,
    })
}
