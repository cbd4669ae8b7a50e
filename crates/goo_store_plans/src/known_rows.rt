//! What a shelf keeps of its look-ups for the next commit.

ghost use Rattle.std.specs.Prelude.{◌≡◌, ◌↔◌, IsTrue};
ghost use Rattle.std.specs.Ordering.{eq_by_cmp};
ghost use Rattle.goo_spec.specs.Lots.{key_of};
ghost use Rattle.goo_spec.specs.State.{text_cmp};
ghost use Rattle.goo_store_plans.specs.Found.{AreNone, AreNoLots, IsKeyOf, IsNoBasis, key_in};

use crate::lot_numbers::NumberedLot;
use goo_core_shelf::device::Device;
use goo_tables_rows::meta::MetaRow;
use goo_types::day::Day;
use goo_types::gsrn::Gsrn;
use goo_types::lot::Lot;
use goo_types::registry_code::RegistryCode;
use std::alloc::Global;

/// A device that is registered, beside its number.
#[derive(Clone, Copy)]
pub struct KnownDevice {
    /// Its number.
    pub gsrn: Gsrn,
    /// The device.
    pub device: Device,
    /// The last day of its last accepted period, if it has one.
    pub last_day: Option<Day>,
}

/// What is known of the basis of a declaration or of a correction before it is looked up.
#[derive(Clone, Copy)]
pub struct KnownBasis {
    /// The device whose record was found last.
    pub device: Option<KnownDevice>,
    /// The number that the next declaration gets.
    pub number: Option<u64>,
    /// The number that the next lot gets.
    pub next_lot: Option<u64>,
    /// The number that the next correction gets.
    pub correction: Option<u64>,
}

/// What a lot is known by.
#[derive(Clone, Copy)]
pub struct LotKey {
    /// The code of the registry that issued its certificates.
    pub origin: RegistryCode,
    /// The number of its device.
    pub device: Gsrn,
    /// The first day of its production period.
    pub first_day: Day,
}

/// Lots that were looked for, or that stand beside rows which were found.
#[derive(Drop)]
pub struct KnownLots {
    /// Some of those that are in the table, under their numbers.
    pub found: Vec<NumberedLot>,
    /// Some of those that are not.
    pub missing: Vec<LotKey>,
}

/// Numbers at which rows are known to end: no row reaches above one of them from below.
#[derive(Clone, Copy)]
pub struct Edges {
    /// Where the row ends that was found last.
    pub last: Option<u64>,
    /// Where the one before it ends, by which it was asked for.
    pub asked: Option<u64>,
}

/// What look-ups and commits found that a commit needs. All of it is so in the tables; what isn't
/// here, the commit looks up itself.
#[derive(Drop)]
pub struct KnownRows {
    /// The registry's row.
    pub own: Option<MetaRow>,
    /// What is known of the basis of a declaration or of a correction.
    pub basis: KnownBasis,
    /// Some lots that are in the table, and some that are not.
    pub lots: KnownLots,
    /// Where rows are known to end.
    pub edges: Edges,
}

impl KnownBasis {
    /// Nothing is known.
    pub fn none() -> KnownBasis
        ensures { IsNoBasis result }
    {
        KnownBasis {
            device: None,
            number: None,
            next_lot: None,
            correction: None,
        }
    }
}

impl LotKey {
    /// Whether the lot has this origin, device and first day.
    fn is_shared_by(&self, lot: &Lot) -> bool
        ensures { IsTrue result ↔ IsKeyOf self.now lot.now }
    {
        self.origin == lot.origin()
            && self.device == lot.device()
            && self.first_day == lot.first_day()
    }

    /// Whether the lot is known by this.
    pub(crate) fn is_key_of(&self, lot: &Lot) -> bool
        ensures { result ≡ eq_by_cmp text_cmp (key_of lot.now) (key_in self.now) }
    {
        self.is_shared_by(lot)
    }
}

impl KnownLots {
    /// No lot is kept.
    pub fn none(alloc: Global) -> KnownLots
        ensures { AreNoLots result }
    {
        KnownLots {
            found: Vec::new(alloc),
            missing: Vec::new(alloc),
        }
    }
}

impl KnownRows {
    /// Nothing is kept.
    pub fn none(alloc: Global) -> KnownRows
        ensures { AreNone result }
    {
        KnownRows {
            own: None,
            basis: KnownBasis::none(),
            lots: KnownLots::none(alloc),
            edges: Edges {
                last: None,
                asked: None,
            },
        }
    }
}
