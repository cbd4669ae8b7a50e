//! The JSON object of a lot, written and read.
ghost use Rattle.std.specs.Prelude.{◌≡◌, ◌↔◌, IfOk, IsTrue};
ghost use Rattle.serde_json.specs.View.{view};
ghost use Rattle.goo_types.specs.Lot.{IsLot};
ghost use Rattle.goo_notice_json.specs.Faults.{Gives};
ghost use Rattle.goo_notice_json.specs.Lot.{lot_data, IsStatedLot, carrier_shape, plant_shape};
ghost use Rattle.goo_notice_json.specs.Lot.{lot_shape, carrier_of, lot_rest_of, lot_fields_of};
ghost use Rattle.goo_notice_json.specs.Lot.{lot_of};

use crate::carriers::with_carrier;
use crate::lot_members::{
    capacity_at, carrier_at, commissioned_at, country_at, device_at, first_day_at, issued_on_at,
    last_day_at, origin_at, site_at, source_at, support_at, tech_at,
};
use crate::members::{integer_at, of_size, string_at};
use crate::object::{nothing, object_of, with_integer, with_text};
use crate::value_fault::ValueFault;
use goo_types::carrier::Carrier;
use goo_types::country::Country;
use goo_types::gsrn::Gsrn;
use goo_types::lot::Lot;
use goo_types::lot_fields::LotFields;
use goo_types::name::Name;
use goo_types::registry_code::RegistryCode;
use goo_types::source_code::SourceCode;
use goo_types::tech_code::TechCode;
use serde_json::Value;
use std::alloc::{AllocError, Global};

/// The JSON object of a lot's fields, with the carrier or without.
#[tactic(auto, unfolding(crate::specs::Lot::lot_data))]
fn fields_value(alloc: Global, lot: &LotFields, carried: bool) -> Result<Value, AllocError>
    ensures value { IfOk result (λ value. view value ≡ lot_data carried lot.now) }
    ensures limits { IfOk result (λ _. IsLot lot.now → IsStatedLot lot.now) }
{
    let commissioned = lot.commissioned.text();
    let first_day = lot.first_day.text();
    let issued_on = lot.issued_on.text();
    let last_day = lot.last_day.text();
    let members = nothing(alloc);
    let members = with_integer(alloc, members, "capacity_w", lot.capacity_w.get());
    let members = with_text(alloc, members, "commissioned", commissioned.as_str());
    let members = with_text(alloc, members, "country", lot.country.text());
    let members = with_text(alloc, members, "device", lot.device.text());
    let members = with_text(alloc, members, "first_day", first_day.as_str());
    let members = with_text(alloc, members, "issued_on", issued_on.as_str());
    let members = with_text(alloc, members, "last_day", last_day.as_str());
    let members = with_integer(alloc, members, "origin", u64::from(lot.origin.get()));
    let members = with_text(alloc, members, "site", lot.site.text());
    let members = with_text(alloc, members, "source", lot.source.text());
    let members = with_text(alloc, members, "support", lot.support.word());
    let members = with_text(alloc, members, "tech", lot.tech.text());
    let members = with_carrier(alloc, members, carried, lot.carrier);
    object_of(members)
}

/// The JSON object of a lot, which states the carrier where `carried` says so.
///
/// # Errors
///
/// `AllocError` where memory was refused.
pub fn lot_value(alloc: Global, lot: &Lot, carried: bool) -> Result<Value, AllocError>
    ensures value { IfOk result (λ value. view value ≡ lot_data carried lot.now) }
    ensures limits { IfOk result (λ _. IsStatedLot lot.now) }
{
    fields_value(alloc, lot.fields(), carried)
}

/// Checks that a value has the keys that tell of the plant, with their kinds, and gives how many
/// these are.
#[tactic(auto, unfolding(crate::specs::Lot::plant_shape))]
fn check_plant(value: &Value) -> Result<usize, ValueFault>
    ensures { Gives (λ n. n) result (plant_shape (view value.now)) }
{
    integer_at(value, "capacity_w")?;
    string_at(value, "commissioned")?;
    string_at(value, "country")?;
    string_at(value, "site")?;
    string_at(value, "source")?;
    string_at(value, "support")?;
    string_at(value, "tech")?;
    Ok(7)
}

/// Checks that a value has the carrier's key, where lots state it, and gives how many keys a lot
/// has.
#[tactic(auto, unfolding(crate::specs::Lot::carrier_shape))]
fn check_carrier(value: &Value, carried: bool) -> Result<usize, ValueFault>
    ensures { Gives (λ n. n) result (carrier_shape carried (view value.now)) }
{
    if !carried {
        return Ok(12);
    }
    string_at(value, "carrier")?;
    Ok(13)
}

/// Checks that a value has the keys of a lot, with their kinds, and gives how many these are. Lots
/// state their carrier where `carried` says so.
#[tactic(auto, unfolding(crate::specs::Lot::lot_shape))]
pub(crate) fn check_lot(value: &Value, carried: bool) -> Result<usize, ValueFault>
    ensures { Gives (λ n. n) result (lot_shape carried (view value.now)) }
{
    let count = check_carrier(value, carried)?;
    let size = of_size(value, count)?;
    check_plant(value)?;
    string_at(value, "device")?;
    string_at(value, "first_day")?;
    string_at(value, "issued_on")?;
    string_at(value, "last_day")?;
    integer_at(value, "origin")?;
    Ok(size)
}

/// The carrier that a value states; electricity where lots don't state it.
#[tactic(auto, unfolding(crate::specs::Lot::carrier_of))]
fn carrier_of(value: &Value, carried: bool) -> Result<Carrier, ValueFault>
    ensures { Gives (λ carrier. carrier) result (carrier_of carried (view value.now)) }
{
    if carried {
        carrier_at(value)
    } else {
        Ok(Carrier::Electricity)
    }
}

/// The fields of a lot: those that are given, and the others, which the value states.
#[tactic(auto, unfolding(crate::specs::Lot::lot_rest_of))]
fn lot_rest(
    value: &Value,
    carried: bool,
    origin: RegistryCode,
    device: Gsrn,
    country: Country,
    site: Name,
    tech: TechCode,
    source: SourceCode,
) -> Result<LotFields, ValueFault>
    ensures { Gives (λ fields. fields) result
        (lot_rest_of carried origin device country site tech source (view value.now)) }
{
    Ok(LotFields {
        origin,
        device,
        country,
        site,
        tech,
        source,
        capacity_w: capacity_at(value)?,
        commissioned: commissioned_at(value)?,
        support: support_at(value)?,
        first_day: first_day_at(value)?,
        last_day: last_day_at(value)?,
        issued_on: issued_on_at(value)?,
        carrier: carrier_of(value, carried)?,
    })
}

/// The fields of a lot that a value states.
#[tactic(auto, unfolding(crate::specs::Lot::lot_fields_of))]
fn lot_fields(value: &Value, carried: bool) -> Result<LotFields, ValueFault>
    ensures { Gives (λ fields. fields) result (lot_fields_of carried (view value.now)) }
{
    let origin = origin_at(value)?;
    let device = device_at(value)?;
    let country = country_at(value)?;
    let site = site_at(value)?;
    let tech = tech_at(value)?;
    let source = source_at(value)?;
    lot_rest(value, carried, origin, device, country, site, tech, source)
}

/// The lot that a value of that shape states, with its carrier or without.
#[tactic(auto, unfolding(crate::specs::Lot::lot_of, crate::specs::Lot::is_lot))]
pub(crate) fn lot(value: &Value, carried: bool) -> Result<Lot, ValueFault>
    ensures { Gives (λ lot. lot) result (lot_of carried (view value.now)) }
{
    Lot::new(lot_fields(value, carried)?).ok_or(ValueFault::Field)
}
