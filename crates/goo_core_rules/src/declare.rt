//! What a declaration earns, by the energy that it adds to its device's carry.

ghost use Rattle.std.specs.Prelude.{◌≡◌, ◌≤◌, ◌+◌, ◌/◌, ◌%◌};
ghost use Rattle.goo_spec.specs.Energy.{certificate, net};

use goo_types::command::Declare;
use goo_types::limits::CERTIFICATE;
use goo_types::wh::Wh;

/// What a declaration earns, and what it leaves.
#[derive(Clone, Copy)]
pub struct Earnings {
    /// How many certificates it earns.
    pub count: u64,
    /// The Wh that are carried to the next one.
    pub carry: u64,
}

/// What a declaration earns of a device with this carry: a certificate for each whole MWh of the
/// net energy with the carry (Directive (EU) 2018/2001, Article 19(2)).
pub fn earn(carry: Wh, declaration: &Declare) -> Earnings
    requires { declaration.now.aux ≤ declaration.now.gross }
    ensures count { result.count ≡ (carry + net declaration.now) / certificate }
    ensures carry { result.carry ≡ (carry + net declaration.now) % certificate }
    ensures limit { result.count ≤ 2_000_000_000 }
{
    let net = declaration.gross.get() - declaration.aux.get();
    let energy = carry.get() + net;
    Earnings {
        count: energy / CERTIFICATE,
        carry: energy % CERTIFICATE,
    }
}
