//! What the rows of devices keep of their declarations.

ghost use Rattle.std.specs.Prelude.{◌≡◌, ◌↔◌, true, All, map, option_map, string_bytes, IsTrue};
ghost use Rattle.std.specs.Prelude.{pos};
ghost use Rattle.std.specs.BTreeMap.{get};
ghost use Rattle.std.specs.List.{list_all};
ghost use Rattle.goo_tables_rows.specs.Rows.{device_in};
ghost use Rattle.goo_spec.specs.Energy.{certificate};
ghost use Rattle.goo_spec.specs.State.{text_cmp};
ghost use Rattle.goo_spec_tables.specs.Readable.{is_device, is_maybe_day, reads};
ghost use Rattle.goo_types.specs.Day.{day_reading};
ghost use Rattle.goo_spec_tables.specs.Texts.{day_of};
ghost use Rattle.goo_store_rules.specs.Production.{HasProgress};
ghost use Rattle.goo_store_rules.specs.Summing.{left_at};

use crate::declares::gsrn_in;
use crate::energy::{Energy, left_for};
use crate::periods::last_day_of;
use goo_store_receipts::numbers::CERTIFICATE;
use goo_tables_rows::device::DeviceRow;
use goo_types::day::Day;
use goo_types::gsrn::Gsrn;
use std::collections::BTreeMap;

/// Whether a text states this day.
fn states(text: &str, day: Day) -> bool
    ensures { reads (day_reading text.now) ≡ true → IsTrue result ↔ (day_of text.now ≡ day) }
{
    match Day::read(text.as_bytes()) {
        Ok(stated) => stated == day,
        Err(_) => false,
    }
}

/// Whether a text, where there is one, states the day that there is.
fn states_last(text: &Option<String>, day: Option<Day>) -> bool
    ensures { is_maybe_day (option_map string_bytes text.now) ≡ true → IsTrue result
        ↔ (option_map day_of (option_map string_bytes text.now) ≡ day) }
{
    match (text, day) {
        (Some(text), Some(day)) => states(text, day),
        (None, None) => true,
        _ => false,
    }
}

/// Whether the row of a device keeps the end of its last period and the energy left over, by these
/// ends and sums.
fn keeps_progress(row: &DeviceRow, ends: &BTreeMap<Gsrn, Day>, energy: &Energy) -> bool
    ensures { is_device (pos 0, device_in row.now) ≡ true → IsTrue result
        ↔ HasProgress (get text_cmp ends.now) (left_at energy.now) (device_in row.now) }
{
    match gsrn_in(&row.gsrn) {
        Some(device) => {
            states_last(&row.last_day, last_day_of(ends, &device))
                && u128::from(row.carry) == left_for(energy, &device) % CERTIFICATE
        }
        None => false,
    }
}

/// Whether each row does.
pub fn keep_progress(rows: &[DeviceRow], ends: &BTreeMap<Gsrn, Day>, energy: &Energy) -> bool
    ensures kept { list_all (λ row. is_device (pos 0, device_in row)) rows.now ≡ true
        → IsTrue result
        → All (λ row. HasProgress (get text_cmp ends.now) (left_at energy.now) (device_in row))
        rows.now }
    ensures refused { list_all (λ row. is_device (pos 0, device_in row)) rows.now ≡ true
        → All (λ row. HasProgress (get text_cmp ends.now) (left_at energy.now) (device_in row))
        rows.now → IsTrue result }
{
    for row in rows {
        if !keeps_progress(row, ends, energy) {
            return false;
        }
    }
    true
}
