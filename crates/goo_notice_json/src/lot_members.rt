//! The members of a lot's JSON object.

ghost use Rattle.std.specs.Prelude.{◌≡◌};
ghost use Rattle.serde_json.specs.View.{view};
ghost use Rattle.goo_notice_json.specs.Faults.{Gives};
ghost use Rattle.goo_notice_json.specs.LotMembers.{origin_at, device_at, country_at, site_at};
ghost use Rattle.goo_notice_json.specs.LotMembers.{tech_at, source_at, capacity_at, support_at};
ghost use Rattle.goo_notice_json.specs.LotMembers.{commissioned_at, first_day_at, last_day_at};
ghost use Rattle.goo_notice_json.specs.LotMembers.{issued_on_at, carrier_at};

use crate::fields::{registry_code, watts};
use crate::members::{integer_at, string_at};
use crate::value_fault::ValueFault;
use goo_types::carrier::Carrier;
use goo_types::country::Country;
use goo_types::day::Day;
use goo_types::gsrn::Gsrn;
use goo_types::name::Name;
use goo_types::registry_code::RegistryCode;
use goo_types::source_code::SourceCode;
use goo_types::support::Support;
use goo_types::tech_code::TechCode;
use goo_types::watts::Watts;
use serde_json::Value;

/// The code of the registry that issued the lot.
#[tactic(auto, unfolding(crate::specs::LotMembers::origin_at))]
pub(crate) fn origin_at(lot: &Value) -> Result<RegistryCode, ValueFault>
    ensures { Gives (λ x. x) result (origin_at (view lot.now)) }
{
    registry_code(integer_at(lot, "origin")?)
}

/// The production device.
#[tactic(auto, unfolding(crate::specs::LotMembers::device_at))]
pub(crate) fn device_at(lot: &Value) -> Result<Gsrn, ValueFault>
    ensures { Gives (λ x. x) result (device_at (view lot.now)) }
{
    Ok(Gsrn::read(string_at(lot, "device")?.as_bytes())?)
}

/// The country of the device.
#[tactic(auto, unfolding(crate::specs::LotMembers::country_at))]
pub(crate) fn country_at(lot: &Value) -> Result<Country, ValueFault>
    ensures { Gives (λ x. x) result (country_at (view lot.now)) }
{
    Ok(Country::read(string_at(lot, "country")?.as_bytes())?)
}

/// The name of the site.
#[tactic(auto, unfolding(crate::specs::LotMembers::site_at))]
pub(crate) fn site_at(lot: &Value) -> Result<Name, ValueFault>
    ensures { Gives (λ x. x) result (site_at (view lot.now)) }
{
    Ok(Name::read(string_at(lot, "site")?.as_bytes())?)
}

/// The technology.
#[tactic(auto, unfolding(crate::specs::LotMembers::tech_at))]
pub(crate) fn tech_at(lot: &Value) -> Result<TechCode, ValueFault>
    ensures { Gives (λ x. x) result (tech_at (view lot.now)) }
{
    Ok(TechCode::read(string_at(lot, "tech")?.as_bytes())?)
}

/// The energy source.
#[tactic(auto, unfolding(crate::specs::LotMembers::source_at))]
pub(crate) fn source_at(lot: &Value) -> Result<SourceCode, ValueFault>
    ensures { Gives (λ x. x) result (source_at (view lot.now)) }
{
    Ok(SourceCode::read(string_at(lot, "source")?.as_bytes())?)
}

/// The capacity of the device.
#[tactic(auto, unfolding(crate::specs::LotMembers::capacity_at))]
pub(crate) fn capacity_at(lot: &Value) -> Result<Watts, ValueFault>
    ensures { Gives (λ x. x) result (capacity_at (view lot.now)) }
{
    watts(integer_at(lot, "capacity_w")?)
}

/// The support that the device had.
#[tactic(auto, unfolding(crate::specs::LotMembers::support_at))]
pub(crate) fn support_at(lot: &Value) -> Result<Support, ValueFault>
    ensures { Gives (λ x. x) result (support_at (view lot.now)) }
{
    Ok(Support::read(string_at(lot, "support")?.as_bytes())?)
}

/// The day on which the device began to produce.
#[tactic(auto, unfolding(crate::specs::LotMembers::commissioned_at))]
pub(crate) fn commissioned_at(lot: &Value) -> Result<Day, ValueFault>
    ensures { Gives (λ x. x) result (commissioned_at (view lot.now)) }
{
    Ok(Day::read(string_at(lot, "commissioned")?.as_bytes())?)
}

/// The first day of the period.
#[tactic(auto, unfolding(crate::specs::LotMembers::first_day_at))]
pub(crate) fn first_day_at(lot: &Value) -> Result<Day, ValueFault>
    ensures { Gives (λ x. x) result (first_day_at (view lot.now)) }
{
    Ok(Day::read(string_at(lot, "first_day")?.as_bytes())?)
}

/// The last day of the period.
#[tactic(auto, unfolding(crate::specs::LotMembers::last_day_at))]
pub(crate) fn last_day_at(lot: &Value) -> Result<Day, ValueFault>
    ensures { Gives (λ x. x) result (last_day_at (view lot.now)) }
{
    Ok(Day::read(string_at(lot, "last_day")?.as_bytes())?)
}

/// The day of the issue.
#[tactic(auto, unfolding(crate::specs::LotMembers::issued_on_at))]
pub(crate) fn issued_on_at(lot: &Value) -> Result<Day, ValueFault>
    ensures { Gives (λ x. x) result (issued_on_at (view lot.now)) }
{
    Ok(Day::read(string_at(lot, "issued_on")?.as_bytes())?)
}

/// What carries the energy.
#[tactic(auto, unfolding(crate::specs::LotMembers::carrier_at))]
pub(crate) fn carrier_at(lot: &Value) -> Result<Carrier, ValueFault>
    ensures { Gives (λ x. x) result (carrier_at (view lot.now)) }
{
    Ok(Carrier::read(string_at(lot, "carrier")?.as_bytes())?)
}
