//! A certificate as JSON.
ghost use Rattle.std.specs.Prelude.{◌≡◌, IfOk, codes};
ghost use Rattle.serde_json.specs.Data.{Members, put as with_member};
ghost use Rattle.serde_json.specs.View.{view, members_view};
ghost use Rattle.goo_notice_json.specs.Lot.{is_other as other_test, lot_data};
ghost use Rattle.goo_desk_backend.specs.Certificates.{act_of as act_stated};
ghost use Rattle.goo_desk_backend.specs.Certificates.{place_word as word_stated, certificate_data};
ghost use Rattle.goo_desk_backend.specs.Certificates.{certificate_text as text_stated};

use goo_notice_json::carriers::is_other;
use goo_notice_json::lot_value::lot_value;
use goo_notice_json::object::{nothing, object_of, with_integer, with_text};
use goo_types::lot::Lot;
use goo_types::number::Number;
use goo_types::place::Place;
use serde_json::{Map, Value, put};
use std::alloc::{AllocError, Global};

/// The number of the act that took a certificate out of circulation, or 0.
fn act_of(place: &Place) -> u64
    ensures { result ≡ act_stated place.now }
{
    match place {
        Place::Held(_) => 0,
        Place::Expired(_) => 0,
        Place::Cancelled(_, act) => u64::from(act.get()),
        Place::Withdrawn(_, act) => u64::from(act.get()),
        Place::Exported(_, act) => u64::from(act.get()),
    }
}

/// The word for a place.
fn place_word(place: &Place) -> &'static str
    ensures { result.now ≡ word_stated place.now }
{
    match place {
        Place::Held(_) => "held",
        Place::Cancelled(_, _) => "cancelled",
        Place::Expired(_) => "expired",
        Place::Withdrawn(_, _) => "withdrawn",
        Place::Exported(_, _) => "exported",
    }
}

/// The members with one more, the certificate's lot, which states its carrier unless that is
/// electricity.
fn with_lot(
    alloc: Global,
    members: Result<Map<String, Value>, AllocError>,
    lot: &Lot,
) -> Result<Map<String, Value>, AllocError>
    ensures { (ms : Members) → IfOk members (λ old. members_view old.entries ≡ ms)
        → IfOk result
        (λ new. members_view new.entries
        ≡ with_member (codes "lot") (lot_data (other_test lot.now.carrier) lot.now) ms) }
{
    let mut members = members?;
    put(
        &mut members,
        alloc,
        "lot",
        lot_value(alloc, lot, is_other(lot.carrier()))?,
    )?;
    Ok(members)
}

/// The JSON object of a certificate.
#[tactic(auto, unfolding(crate::specs::Certificates::certificate_data))]
fn certificate_value(
    alloc: Global,
    number: Number,
    lot: &Lot,
    place: &Place,
) -> Result<Value, AllocError>
    ensures { IfOk result (λ value. view value ≡ certificate_data number lot.now place.now) }
{
    let text = number.text();
    let members = nothing(alloc);
    let members = with_integer(alloc, members, "account", u64::from(place.account().get()));
    let members = with_integer(alloc, members, "act", act_of(place));
    let members = with_lot(alloc, members, lot);
    let members = with_text(alloc, members, "number", text.as_str());
    let members = with_text(alloc, members, "place", place_word(place));
    object_of(members)
}

/// The compact JSON text of a certificate: its account and its act, its lot, its number and its
/// place.
///
/// # Errors
///
/// Where an allocation is refused.
#[tactic(auto, unfolding(crate::specs::Certificates::certificate_text))]
pub(crate) fn certificate_text(
    alloc: Global,
    number: Number,
    lot: &Lot,
    place: &Place,
) -> Result<Vec<u8>, AllocError>
    ensures { IfOk result (λ bytes. bytes.items ≡ text_stated number lot.now place.now) }
{
    certificate_value(alloc, number, lot, place)?.to_vec(alloc)
}
