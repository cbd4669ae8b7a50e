//! The known lots.
ghost use Rattle.std.specs.Prelude.{◌≡◌, IfErr, OnOk, OnErr};
ghost use Rattle.goo_types.specs.declared.fault.Fault.TheVariants.{Memory};
ghost use Rattle.goo_spec.specs.State.{text_cmp};
ghost use Rattle.goo_spec.specs.Lots.{key_of};
ghost use Rattle.goo_spec.specs.Import.{with_lots};
ghost use Rattle.goo_core_shelf.specs.Maps.{map_of};

use crate::lot_key::LotKey;
use crate::maps::{put, put_back};
use goo_types::fault::Fault;
use goo_types::lot::Lot;
use goo_types::part::Part;
use std::collections::BTreeMap;

/// What a lot is known by.
pub fn key_of_lot(lot: &Lot) -> LotKey
    ensures { result ≡ key_of lot.now }
{
    LotKey::new(lot.origin(), lot.device(), lot.first_day())
}

/// Makes the lots of some parts known.
///
/// # Errors
///
/// `Memory` where an allocation was refused; none of the lots is made known then.
pub fn add_lots(lots: &mut BTreeMap<LotKey, Lot>, parts: &[Part]) -> Result<(), Fault>
    ensures done { OnOk result
        (map_of text_cmp lots.new ≡ with_lots parts.now (map_of text_cmp lots.old)) }
    ensures undone { OnErr result (map_of text_cmp lots.new ≡ map_of text_cmp lots.old) }
    ensures memory { IfErr result (λ fault. fault ≡ Memory) }
{
    let [part, rest @ ..] = parts else {
        return Ok(());
    };
    let key = key_of_lot(&part.lot);
    let before = put(lots, key, part.lot)?;
    if let Err(fault) = add_lots(lots, rest) {
        put_back(lots, key, before);
        return Err(fault);
    }
    Ok(())
}
