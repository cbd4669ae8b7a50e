//! Keys of trees, whose order tells any two of them apart.
ghost use Rattle.std.specs.FinMap.{nat_cmp-IsAntisymmetric, slice_cmp-IsAntisymmetric};
ghost use Rattle.goo_core_shelf.specs.Maps.{pair-IsAntisymmetric};

use goo_types::account_no::AccountNo;
use goo_types::act_no::ActNo;
use goo_types::gsrn::Gsrn;
use goo_types::holder_code::HolderCode;
use goo_types::key::Key;
use goo_types::registry_code::RegistryCode;

/// The key of a map: its order tells any two keys apart.
pub trait MapKey: Ord + Copy + Drop {
    ghost use Rattle.std.specs.FinMap.{IsAntisymmetric};

    ghost tells_apart: { IsAntisymmetric Self.cmp };
}

impl MapKey for HolderCode {
    ghost tells_apart = { slice_cmp-IsAntisymmetric nat_cmp-IsAntisymmetric };
}

impl MapKey for Key {
    ghost tells_apart = { slice_cmp-IsAntisymmetric nat_cmp-IsAntisymmetric };
}

impl MapKey for Gsrn {
    ghost tells_apart = { slice_cmp-IsAntisymmetric nat_cmp-IsAntisymmetric };
}

impl MapKey for AccountNo {
    ghost tells_apart = { nat_cmp-IsAntisymmetric };
}

impl MapKey for ActNo {
    ghost tells_apart = { nat_cmp-IsAntisymmetric };
}

impl MapKey for RegistryCode {
    ghost tells_apart = { nat_cmp-IsAntisymmetric };
}

impl<A: MapKey, B: MapKey> MapKey for (A, B) {
    ghost tells_apart = { pair-IsAntisymmetric A.tells_apart B.tells_apart };
}
