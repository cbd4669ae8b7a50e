//! The body of registering a device.
ghost use Rattle.std.specs.Prelude.{◌≡◌, ◌+◌, is_some, codes};
ghost use Rattle.serde_json.specs.Find.{get, as_object};
ghost use Rattle.serde_json.specs.View.{view};
ghost use Rattle.goo_notice_json.specs.Faults.{Gives};
ghost use Rattle.goo_notice_json.specs.Members.{of_size as of_size_stated};
ghost use Rattle.goo_notice.specs.RegisterDevice.{carrier_text as carrier_stated, members_with};
ghost use Rattle.goo_notice.specs.RegisterDevice.{device_of_members, register_device_of};

use goo_notice_json::fields::{account_no, watts};
use goo_notice_json::members::{integer_at, of_size, string_at};
use goo_notice_json::value_fault::ValueFault;
use goo_types::carrier::Carrier;
use goo_types::command::RegisterDevice;
use goo_types::country::Country;
use goo_types::day::Day;
use goo_types::gsrn::Gsrn;
use goo_types::name::Name;
use goo_types::source_code::SourceCode;
use goo_types::support::Support;
use goo_types::tech_code::TechCode;
use serde_json::Value;

/// The registration of a device that its members state.
fn device_of_members(
    account: i128,
    capacity_w: i128,
    carrier: &str,
    commissioned: &str,
    country: &str,
    device: &str,
    site: &str,
    source: &str,
    support: &str,
    tech: &str,
) -> Result<RegisterDevice, ValueFault>
    ensures { Gives
        (λ c. c) result
        (device_of_members account capacity_w carrier.now commissioned.now country.now device.now
        site.now source.now support.now tech.now) }
{
    Ok(RegisterDevice {
        device: Gsrn::read(device.as_bytes())?,
        account: account_no(account)?,
        country: Country::read(country.as_bytes())?,
        site: Name::read(site.as_bytes())?,
        tech: TechCode::read(tech.as_bytes())?,
        source: SourceCode::read(source.as_bytes())?,
        capacity_w: watts(capacity_w)?,
        commissioned: Day::read(commissioned.as_bytes())?,
        support: Support::read(support.as_bytes())?,
        carrier: Carrier::read(carrier.as_bytes())?,
    })
}

/// Whether a body states what carries the energy.
fn states_carrier(body: &Value) -> bool
    ensures { result ≡ is_some (get (codes "carrier") (view body.now)) }
{
    body.get("carrier").is_some()
}

/// The count of a body's members, where it is that of a registration with its carrier or without.
fn of_device_size(body: &Value) -> Result<usize, ValueFault>
    ensures { Gives
        (λ n. n) result
        (of_size_stated (members_with (is_some (get (codes "carrier") (view body.now))) + 1)
        (as_object (view body.now))) }
{
    if states_carrier(body) {
        of_size(body, 12)
    } else {
        of_size(body, 11)
    }
}

/// The word for what carries the energy: `electricity` where the body doesn't state it.
fn carrier_text(body: &Value) -> Result<&str, ValueFault>
    ensures { Gives
        (λ text. text.now) result
        (carrier_stated (is_some (get (codes "carrier") (view body.now))) (view body.now)) }
{
    if states_carrier(body) {
        string_at(body, "carrier")
    } else {
        Ok("electricity")
    }
}

/// The registration of a device that a body states.
#[tactic(auto, unfolding(goo_notice::specs::RegisterDevice::register_device_of))]
pub(crate) fn register_device(body: &Value) -> Result<RegisterDevice, ValueFault>
    ensures { Gives (λ c. c) result (register_device_of 1 (view body.now)) }
{
    of_device_size(body)?;
    let account = integer_at(body, "account")?;
    let capacity_w = integer_at(body, "capacity_w")?;
    let carrier = carrier_text(body)?;
    let commissioned = string_at(body, "commissioned")?;
    let country = string_at(body, "country")?;
    let device = string_at(body, "device")?;
    let site = string_at(body, "site")?;
    let source = string_at(body, "source")?;
    let support = string_at(body, "support")?;
    let tech = string_at(body, "tech")?;
    device_of_members(
        account,
        capacity_w,
        carrier,
        commissioned,
        country,
        device,
        site,
        source,
        support,
        tech,
    )
}
