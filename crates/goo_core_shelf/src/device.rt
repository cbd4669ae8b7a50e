//! Production devices, as a shelf keeps them.
ghost use Rattle.std.specs.Prelude.{◌≡◌};

use goo_types::account_no::AccountNo;
use goo_types::carrier::Carrier;
use goo_types::command::{Declare, RegisterDevice};
use goo_types::country::Country;
use goo_types::day::Day;
use goo_types::lot_fields::LotFields;
use goo_types::name::Name;
use goo_types::registry_code::RegistryCode;
use goo_types::source_code::SourceCode;
use goo_types::support::Support;
use goo_types::tech_code::TechCode;
use goo_types::watts::Watts;
use std::marker::Model;

/// A production device, as a shelf keeps it.
#[derive(Clone, Copy)]
pub struct Device {
    account: AccountNo,
    country: Country,
    site: Name,
    tech: TechCode,
    source: SourceCode,
    capacity_w: Watts,
    commissioned: Day,
    support: Support,
    carrier: Carrier,
}

impl Model for Device {
    ghost use Rattle.goo_spec.specs.State.{Device as Known};

    ghost Value = { Known };

    ghost view = { λ d. record {
      account = d.account;
      country = d.country;
      site = d.site;
      tech = d.tech;
      source = d.source;
      capacity_w = d.capacity_w;
      commissioned = d.commissioned;
      support = d.support;
      carrier = d.carrier;
    } };

    ghost inverse = { λ d. record {
      account = d.account;
      country = d.country;
      site = d.site;
      tech = d.tech;
      source = d.source;
      capacity_w = d.capacity_w;
      commissioned = d.commissioned;
      support = d.support;
      carrier = d.carrier;
    } };
}

impl Device {
    ghost use Rattle.goo_spec.specs.RegisterDevice.{device_of};
    ghost use Rattle.goo_spec.specs.Declare.{lot_on};

    /// The device that a registration makes known.
    pub fn of(registration: &RegisterDevice) -> Device
        ensures { result ≡ device_of registration.now }
    {
        Device {
            account: registration.account,
            country: registration.country,
            site: registration.site,
            tech: registration.tech,
            source: registration.source,
            capacity_w: registration.capacity_w,
            commissioned: registration.commissioned,
            support: registration.support,
            carrier: registration.carrier,
        }
    }

    /// The account that its certificates are issued to.
    pub fn account(&self) -> AccountNo
        ensures { result ≡ self.now.account }
    {
        self.account
    }

    /// The country that it stands in.
    pub fn country(&self) -> Country
        ensures { result ≡ self.now.country }
    {
        self.country
    }

    /// The name of its site.
    pub fn site(&self) -> Name
        ensures { result ≡ self.now.site }
    {
        self.site
    }

    /// Its technology.
    pub fn tech(&self) -> TechCode
        ensures { result ≡ self.now.tech }
    {
        self.tech
    }

    /// Its energy source.
    pub fn source(&self) -> SourceCode
        ensures { result ≡ self.now.source }
    {
        self.source
    }

    /// Its capacity in W.
    pub fn capacity_w(&self) -> Watts
        ensures { result ≡ self.now.capacity_w }
    {
        self.capacity_w
    }

    /// The day on which it began to produce.
    pub fn commissioned(&self) -> Day
        ensures { result ≡ self.now.commissioned }
    {
        self.commissioned
    }

    /// The support that it had.
    pub fn support(&self) -> Support
        ensures { result ≡ self.now.support }
    {
        self.support
    }

    /// What carries the energy that it makes.
    pub fn carrier(&self) -> Carrier
        ensures { result ≡ self.now.carrier }
    {
        self.carrier
    }

    /// What the certificates that a declaration earns have in common, of a registry that issues
    /// them on a day.
    pub fn lot_fields(&self, own: RegistryCode, declared: &Declare, today: Day) -> LotFields
        ensures { result ≡ lot_on own today declared.now self.now }
    {
        LotFields {
            origin: own,
            device: declared.device,
            country: self.country,
            site: self.site,
            tech: self.tech,
            source: self.source,
            capacity_w: self.capacity_w,
            commissioned: self.commissioned,
            support: self.support,
            first_day: declared.first_day,
            last_day: declared.last_day,
            issued_on: today,
            carrier: self.carrier,
        }
    }
}
