//! What rows name by a text: the sets of what is there.

ghost use Rattle.std.specs.Prelude.{◌≡◌, map, string_bytes, IfOk};
ghost use Rattle.std.specs.Prelude.{String as Text};
ghost use Rattle.std.specs.declared.alloc.Global.{Global as Memory};
ghost use Rattle.std.specs.BTreeSet.{contains};
ghost use Rattle.goo_spec.specs.State.{text_cmp};
ghost use Rattle.goo_tables_rows.specs.Rows.{holder_in, device_in, lot_in, correction_in};
ghost use Rattle.goo_store_rules.specs.WellKept.{has_holder, has_device};
ghost use Rattle.goo_store_rules.specs.WellKept.{has_lot_device, has_corrected};

use goo_tables_rows::correction::CorrectionRow;
use goo_tables_rows::device::DeviceRow;
use goo_tables_rows::holder::HolderRow;
use goo_tables_rows::lot::LotRow;
use std::alloc::{AllocError, Global};
use std::collections::BTreeSet;

/// The codes of the holders.
///
/// # Errors
///
/// Where an allocation is refused.
pub fn holder_codes(alloc: Global, rows: &[HolderRow]) -> Result<BTreeSet<String>, AllocError>
    ensures { IfOk result
        (λ set. (text : Text Memory)
        → contains (λ a b. text_cmp (string_bytes a) (string_bytes b)) set text
        ≡ has_holder (map holder_in rows.now) (string_bytes text)) }
{
    let mut set = BTreeSet::new(alloc);
    for row in rows {
        set.insert(row.code.clone()?)?;
    }
    Ok(set)
}

/// The numbers of the devices (GS1 GSRN).
///
/// # Errors
///
/// Where an allocation is refused.
pub fn device_gsrns(alloc: Global, rows: &[DeviceRow]) -> Result<BTreeSet<String>, AllocError>
    ensures { IfOk result
        (λ set. (text : Text Memory)
        → contains (λ a b. text_cmp (string_bytes a) (string_bytes b)) set text
        ≡ has_device (map device_in rows.now) (string_bytes text)) }
{
    let mut set = BTreeSet::new(alloc);
    for row in rows {
        set.insert(row.gsrn.clone()?)?;
    }
    Ok(set)
}

/// The devices of the lots.
///
/// # Errors
///
/// Where an allocation is refused.
pub fn devices_with_lots(alloc: Global, rows: &[LotRow]) -> Result<BTreeSet<String>, AllocError>
    ensures { IfOk result
        (λ set. (text : Text Memory)
        → contains (λ a b. text_cmp (string_bytes a) (string_bytes b)) set text
        ≡ has_lot_device (map lot_in rows.now) (string_bytes text)) }
{
    let mut set = BTreeSet::new(alloc);
    for row in rows {
        set.insert(row.device.clone()?)?;
    }
    Ok(set)
}

/// The devices of the corrections.
///
/// # Errors
///
/// Where an allocation is refused.
pub fn corrected_devices(
    alloc: Global,
    rows: &[CorrectionRow],
) -> Result<BTreeSet<String>, AllocError>
    ensures { IfOk result
        (λ set. (text : Text Memory)
        → contains (λ a b. text_cmp (string_bytes a) (string_bytes b)) set text
        ≡ has_corrected (map correction_in rows.now) (string_bytes text)) }
{
    let mut set = BTreeSet::new(alloc);
    for row in rows {
        set.insert(row.device.clone()?)?;
    }
    Ok(set)
}
