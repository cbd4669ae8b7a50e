//! Whether the declarations that rows name are there.

ghost use Rattle.std.specs.Prelude.{◌≡◌, ◌&&◌, String as Text, map, string_bytes, IfOk};
ghost use Rattle.std.specs.List.{list_all};
ghost use Rattle.std.specs.BTreeSet.{contains};
ghost use Rattle.std.specs.declared.alloc.Global.{Global as Memory};
ghost use Rattle.goo_tables_rows.specs.Rows.{declaration_in, lot_in};
ghost use Rattle.goo_store_rules.specs.WellKept.{has_declaration, text_pair_cmp, bytes_pair};
ghost use Rattle.goo_store_rules.specs.WellKept.{has_text, has_pair, is_declared};

use crate::keys::has;
use goo_tables_rows::correction::CorrectionRow;
use goo_tables_rows::declaration::DeclarationRow;
use goo_tables_rows::lot::LotRow;
use std::alloc::{AllocError, Global};
use std::collections::BTreeSet;

/// The devices and first days of the declarations of these devices.
///
/// # Errors
///
/// Where an allocation is refused.
pub fn periods_of(
    alloc: Global,
    devices: &BTreeSet<String>,
    rows: &[DeclarationRow],
) -> Result<BTreeSet<(String, String)>, AllocError>
    ensures { IfOk result
        (λ set. (device first_day : Text Memory)
        → contains (λ a b. text_pair_cmp (bytes_pair a) (bytes_pair b)) set (device, first_day)
        ≡ (has_text devices.now (string_bytes device) && has_declaration
        (map declaration_in rows.now) (string_bytes device) (string_bytes first_day))) }
{
    let mut set = BTreeSet::new(alloc);
    for row in rows {
        if has(devices, &row.device) {
            set.insert((row.device.clone()?, row.first_day.clone()?))?;
        }
    }
    Ok(set)
}

/// Whether each lot of the registry of this code has a declaration of its device with its first
/// day.
///
/// # Errors
///
/// Where an allocation is refused.
pub fn own_lots_are_declared(
    own: u32,
    rows: &[LotRow],
    periods: &BTreeSet<(String, String)>,
) -> Result<bool, AllocError>
    ensures { IfOk result
        (λ yes. yes
        ≡ list_all (λ row. is_declared (has_pair periods.now) own (lot_in row)) rows.now) }
{
    for row in rows {
        if row.origin == own {
            let period = (row.device.clone()?, row.first_day.clone()?);
            if !has(periods, &period) {
                return Ok(false);
            }
        }
    }
    Ok(true)
}

/// Whether each correction is of a declaration.
///
/// # Errors
///
/// Where an allocation is refused.
pub fn corrections_are_declared(
    rows: &[CorrectionRow],
    periods: &BTreeSet<(String, String)>,
) -> Result<bool, AllocError>
    ensures { IfOk result
        (λ yes. yes
        ≡ list_all
        (λ row. has_pair periods.now (string_bytes row.device) (string_bytes row.first_day))
        rows.now) }
{
    for row in rows {
        let declaration = (row.device.clone()?, row.first_day.clone()?);
        if !has(periods, &declaration) {
            return Ok(false);
        }
    }
    Ok(true)
}
