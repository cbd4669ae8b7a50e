//! What a correction takes off, by its device's carry.

ghost use Rattle.std.specs.Prelude.{◌≡◌, ◌+◌, ◌-◌, ◌*◌, ◌/◌};
ghost use Rattle.goo_spec.specs.Energy.{certificate};

use goo_types::limits::CERTIFICATE;
use goo_types::wh::Wh;

/// What a correction takes out, and what it leaves.
#[derive(Clone, Copy)]
pub struct Lowering {
    /// How many certificates are then in excess.
    pub count: u64,
    /// The Wh that are carried then.
    pub carry: u64,
}

/// What taking so much off leaves of a device with this carry: a certificate is in excess for each
/// MWh that the carry doesn't cover, a part of one counted whole.
pub fn lower(carry: Wh, less: Wh) -> Lowering
    ensures count { result.count ≡ (less + 999_999 - carry) / certificate }
    ensures carry { result.carry ≡ carry + result.count * certificate - less }
{
    let beyond = (less.get() + (CERTIFICATE - 1)).saturating_sub(carry.get());
    let count = beyond / CERTIFICATE;
    Lowering {
        count,
        carry: (carry.get() + count * CERTIFICATE).saturating_sub(less.get()),
    }
}
