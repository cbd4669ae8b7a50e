//! Certificate numbers.
ghost use Rattle.std.specs.Prelude.{◌↔◌, IsTrue};
ghost use Rattle.goo_types_forms.specs.Numbers.{IsNumber};

/// How many serials a registry has, with 0, which is given to no certificate.
pub const SERIALS: u64 = 1_000_000_000_000;

/// Whether this is the number of a certificate: a code from 1 to 99, and behind it twelve digits of
/// a serial that is not 0.
pub fn is_number(value: u64) -> bool
    ensures { IsTrue result ↔ IsNumber value }
{
    value >= SERIALS && value < 100 * SERIALS && value % SERIALS != 0
}
