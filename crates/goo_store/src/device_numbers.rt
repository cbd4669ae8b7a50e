//! The numbers of all devices, sorted.

ghost use Rattle.std.specs.Prelude.{◌≡◌, ℕ, ◌++◌, [], ◌∷◌, None, pos, IfOk, IsOkUnless, IsTrue};
ghost use Rattle.std.specs.Prelude.{OnOk, List, map};
ghost use Rattle.std.specs.FinMap.{get, from_entries, keys as keys_of};
ghost use Rattle.std.specs.BTreeMap.{keys as tree_keys, IsOrdered};
ghost use Rattle.goo_spec.specs.State.{text_cmp, Device as Known};
ghost use Rattle.goo_tables_rows.specs.Rows.{device_in};
ghost use Rattle.goo_core_shelf.specs.Maps.{map_of};
ghost use Rattle.goo_core_shelf.specs.Shelf.{Looks};
ghost use Rattle.goo_spec_tables.specs.Devices.{device_entry};
ghost use Rattle.goo_spec_tables.specs.Readable.{is_device};
ghost use Rattle.goo_store_pieces.specs.Reading.{AreReadableDevices};
ghost use Rattle.goo_store_values.specs.Passing.{Accepts, Passes};
ghost use Rattle.goo_store_values.specs.declared.statement_fault.StatementFault.TheVariants.{Memory};
ghost use Rattle.goo_store.specs.Seen.{Blames, seen_by};

use crate::sql_shelf::SqlShelf;
use goo_core_shelf::device::Device;
use goo_store_values::devices::device_in_row;
use goo_store_values::noting::note_fault;
use goo_store_values::statement_fault::StatementFault;
use goo_store_values::texts;
use goo_tables::device::all_devices;
use goo_tables_rows::device::DeviceRow;
use goo_types::fault::Fault;
use goo_types::gsrn::Gsrn;
use sqlite::{Alter, Error};
use std::alloc::Global;
use std::collections::BTreeMap;

/// One device more. A number that is there already is refused.
fn note(known: &mut BTreeMap<Gsrn, Device>, row: &DeviceRow) -> Result<(), StatementFault>
    ensures noted { OnOk result ((es : List (List ℕ × Known))
        → map_of text_cmp known.old ≡ from_entries es
        → map_of text_cmp known.new ≡ from_entries (es ++ device_entry (device_in row.now) ∷ [])) }
    ensures accepts { IsTrue (is_device (pos 0, device_in row.now))
        → get (map_of text_cmp known.old) (device_in row.now).gsrn ≡ None
        → IsOkUnless result Memory }
{
    let number = texts::gsrn(&row.gsrn)?;
    let device = device_in_row(row)?;
    match known.insert(number, device)? {
        None => Ok(()),
        Some(_) => Err(StatementFault::Refused),
    }
}

/// The devices by their numbers, without their carriers.
fn note_each(alloc: Global, rows: &[DeviceRow]) -> Result<BTreeMap<Gsrn, Device>, StatementFault>
    ensures noted { IfOk result
        (λ known. map_of text_cmp known
        ≡ from_entries (map device_entry (map device_in rows.now))) }
    ensures accepts { AreReadableDevices rows.now → IsOkUnless result Memory }
{
    let mut known = BTreeMap::new(alloc);
    for row in rows {
        note(&mut known, row)?;
    }
    Ok(known)
}

/// The numbers in a tree, sorted.
fn sorted(alloc: Global, known: &BTreeMap<Gsrn, Device>) -> Result<Vec<Gsrn>, StatementFault>
    ensures keys { IfOk result (λ numbers. numbers.items ≡ tree_keys known.now) }
    ensures ordered { IsOrdered text_cmp known.now }
    ensures memory { IsOkUnless result Memory }
{
    let numbers = known.keys();
    Ok(numbers.copied().collect(alloc)?)
}

/// The numbers of the devices in rows, sorted.
fn numbers_in(alloc: Global, rows: &[DeviceRow]) -> Result<Vec<Gsrn>, StatementFault>
    ensures value { IfOk result
        (λ numbers. numbers.items
        ≡ keys_of (from_entries {R = text_cmp} (map device_entry (map device_in rows.now)))) }
    ensures accepts { AreReadableDevices rows.now → IsOkUnless result Memory }
{
    let known = note_each(alloc, rows)?;
    sorted(alloc, &known)
}

/// The numbers of the devices, sorted.
fn sorted_numbers(
    alloc: Global,
    found: Result<Vec<DeviceRow>, Error>,
) -> Result<Vec<Gsrn>, StatementFault>
    ensures value { Passes found result
        (λ rows numbers. numbers.items
        ≡ keys_of (from_entries {R = text_cmp} (map device_entry (map device_in rows.items)))) }
    ensures accepts { Accepts found result (λ rows. AreReadableDevices rows.items) }
{
    numbers_in(alloc, &found?)
}

impl<S: Alter> SqlShelf<S> {
    /// The numbers of the devices, sorted.
    pub(crate) fn device_numbers(&mut self, alloc: Global) -> Result<Vec<Gsrn>, Fault>
        ensures looks { Looks (seen_by self.old) (seen_by self.new) result
            (λ numbers. numbers.items ≡ keys_of (seen_by self.old).state.devices) }
        ensures store { Blames self.old self.new result }
    {
        if self.refused {
            return Err(Fault::Store);
        }
        let found = all_devices(alloc, &mut self.conn);
        self.cache.answered = found.is_ok();
        note_fault(sorted_numbers(alloc, found), &mut self.refused)
    }
}
