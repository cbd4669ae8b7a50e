//! The key that a lot is known by: its origin, first day and device.
ghost use Rattle.std.specs.Prelude.{nat_eq, Some, refl};
ghost use Rattle.std.specs.Cmp.{partial_equiv_from_equiv};
ghost use Rattle.std.specs.Cmp.Lexicographic.{pointwise, slice_cmp, nat_list_cmp_total};
ghost use Rattle.std.specs.Cmp.Lexicographic.{nat_list_eq_equiv, texts_po, texts_ties};
ghost use Rattle.std.specs.FinMap.{nat_cmp-IsAntisymmetric, slice_cmp-IsAntisymmetric};
ghost use Rattle.std.specs.Ordering.{nat_cmp};

use crate::map_key::MapKey;
use goo_types::day::Day;
use goo_types::gsrn::Gsrn;
use goo_types::registry_code::RegistryCode;
use std::cmp::Ordering;
use std::marker::Model;

/// What a lot is known by: its origin, its first day and its device, in this order.
#[derive(Clone, Copy)]
pub struct LotKey {
    origin: RegistryCode,
    first_day: Day,
    device: Gsrn,
}

impl Model for LotKey {
    ghost use Rattle.std.specs.Prelude.{ℕ, List};
    ghost use Rattle.goo_spec.specs.Lots.{lot_key};

    ghost Value = { List ℕ };

    ghost view = { λ k. lot_key k.origin k.device k.first_day };

    ghost use Rattle.goo_core_shelf.specs.LotKeys.{origin_in, first_day_in, device_in};

    ghost inverse = { λ t. record { origin = origin_in t; first_day = first_day_in t; device = device_in t } };
}

impl LotKey {
    ghost use Rattle.std.specs.Prelude.{◌≡◌};
    ghost use Rattle.goo_spec.specs.Lots.{lot_key};

    /// The key of the lots of an origin, a device and a first day.
    pub fn new(origin: RegistryCode, device: Gsrn, first_day: Day) -> LotKey
        ensures { result ≡ lot_key origin device first_day }
    {
        LotKey {
            origin,
            first_day,
            device,
        }
    }
}

impl PartialEq for LotKey {
    ghost eq = { pointwise nat_eq };

    ghost laws = { partial_equiv_from_equiv nat_list_eq_equiv };

    fn eq(&self, other: &Self) -> bool {
        self.cmp(other).is_eq()
    }
}

impl Eq for LotKey {
    ghost laws = { nat_list_eq_equiv };
}

impl PartialOrd for LotKey {
    ghost partial_cmp = { λ s t. Some (slice_cmp nat_cmp s t) };

    ghost laws = { texts_po };

    fn partial_cmp(&self, other: &Self) -> Option<Ordering> {
        Some(self.cmp(other))
    }
}

impl Ord for LotKey {
    ghost cmp = { slice_cmp nat_cmp };

    ghost total = { nat_list_cmp_total };

    ghost matches_partial_cmp = { λ s t. refl };

    ghost matches_eq = { texts_ties };

    fn cmp(&self, other: &Self) -> Ordering {
        self.origin
            .cmp(&other.origin)
            .then(self.first_day.cmp(&other.first_day))
            .then(self.device.cmp(&other.device))
    }
}

impl MapKey for LotKey {
    ghost tells_apart = { slice_cmp-IsAntisymmetric nat_cmp-IsAntisymmetric };
}
