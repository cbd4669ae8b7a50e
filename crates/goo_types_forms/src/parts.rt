//! The order of a notice's parts.
ghost use Rattle.std.specs.Prelude.{◌<◌, ◌↔◌, IsTrue};

/// Whether certificates up to the number `last` may stand before those from the number `first` on,
/// where `known` tells whether their lots are known as one, and `same` whether the lots are equal.
pub fn may_stand_before(last: u64, first: u64, known: bool, same: bool) -> bool
    ensures { IsTrue result ↔ ((last < first) × (IsTrue known → IsTrue same)) }
{
    last < first && (!known || same)
}
