//! The lots of certificates.

use crate::values::{code_of, day_of};
use goo_types::carrier::Carrier;
use goo_types::country::Country;
use goo_types::gsrn::Gsrn;
use goo_types::lot::Lot;
use goo_types::lot_fields::LotFields;
use goo_types::name::Name;
use goo_types::source_code::SourceCode;
use goo_types::support::Support;
use goo_types::tech_code::TechCode;
use goo_types::watts::Watts;
use std::process::Abort;

/// What a lot is told apart by in these examples: all else is the device's. It was issued on 1
/// March 2025.
#[derive(Clone, Copy)]
pub struct Batch {
    /// The registry that issued it.
    pub origin: u8,
    /// The first day of its period.
    pub first: &'static str,
    /// The last day.
    pub last: &'static str,
    /// The carrier.
    pub carrier: Carrier,
}

/// January 2025, as registry 7 issued it.
pub const JANUARY: Batch = Batch {
    origin: 7,
    first: "2025-01-01",
    last: "2025-01-31",
    carrier: Carrier::Electricity,
};

/// The lot of a batch.
pub fn lot_of(rt: &impl Abort, batch: &Batch) -> Lot {
    let fields = LotFields {
        origin: code_of(rt, batch.origin),
        device: Gsrn::read(b"500000000000000012").expect(rt, "a device"),
        country: Country::read(b"DE").expect(rt, "a country"),
        site: Name::read(b"North field").expect(rt, "a site"),
        tech: TechCode::read(b"T010000").expect(rt, "a technology"),
        source: SourceCode::read(b"F01010100").expect(rt, "a source"),
        capacity_w: Watts::new(2_000_000).expect(rt, "no capacity"),
        commissioned: day_of(rt, "2020-06-15"),
        support: Support::None,
        first_day: day_of(rt, batch.first),
        last_day: day_of(rt, batch.last),
        issued_on: day_of(rt, "2025-03-01"),
        carrier: batch.carrier,
    };
    Lot::new(fields).expect(rt, "no lot")
}
