//! Carriers in texts: where they are stated, and how they are written.
ghost use Rattle.std.specs.Prelude.{◌≡◌, IfOk};
ghost use Rattle.serde_json.specs.Data.{Members};
ghost use Rattle.serde_json.specs.View.{view, members_view};
ghost use Rattle.goo_notice_json.specs.Lot.{is_other as other_test, with_carrier as carrier_put};
ghost use Rattle.goo_notice_json.specs.Parts.{is_carried as carried_test};

use crate::object::with_text;
use goo_types::carrier::Carrier;
use serde_json::{Map, Value};
use std::alloc::{AllocError, Global};

/// Whether it is another carrier than electricity, which a text may leave out.
pub fn is_other(carrier: Carrier) -> bool
    ensures { result ≡ other_test carrier }
{
    match carrier {
        Carrier::Electricity => false,
        Carrier::Gas | Carrier::Hydrogen | Carrier::HeatingCooling => true,
    }
}

/// The members and the carrier, where it is stated.
///
/// # Errors
///
/// `AllocError` where memory was refused, here or at a step before. The members are dropped.
pub fn with_carrier(
    alloc: Global,
    members: Result<Map<String, Value>, AllocError>,
    carried: bool,
    carrier: Carrier,
) -> Result<Map<String, Value>, AllocError>
    ensures { (ms : Members) → IfOk members (λ old. members_view old.entries ≡ ms)
        → IfOk result (λ new. members_view new.entries ≡ carrier_put carried carrier ms) }
{
    if carried {
        with_text(alloc, members, "carrier", carrier.word())
    } else {
        members
    }
}

/// Whether a lot states its carrier: as its text's version says, or else as the lot itself does.
pub(crate) fn is_carried(carried: Option<bool>, lot: &Value) -> bool
    ensures { result ≡ carried_test carried (view lot.now) }
{
    match carried {
        Some(carried) => carried,
        None => lot.get("carrier").is_some(),
    }
}
