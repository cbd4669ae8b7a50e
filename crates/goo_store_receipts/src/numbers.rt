//! Whether numbers are within the limits of the registry's values.

ghost use Rattle.std.specs.Prelude.{◌≡◌};
ghost use Rattle.goo_types.specs.Number.{is_number as is_certificate};
ghost use Rattle.goo_spec_tables.specs.Readable.{is_code, is_act, is_maybe_act, is_next, is_wh};
ghost use Rattle.goo_spec_tables.specs.Readable.{are_ends, names_act};

use goo_types::limits::{self, LAST_ACT, LAST_REGISTRY, MOST_WH, SERIALS};

/// The watt hours of a certificate, as a number in which the sums of all declarations find room.
pub const CERTIFICATE: u128 = limits::CERTIFICATE as u128;

/// The code of an issuing body.
pub fn is_registry(n: u32) -> bool
    ensures { result ≡ is_code n }
{
    n >= 1 && n <= u32::from(LAST_REGISTRY)
}

/// The number of an account or of an act.
pub fn is_given(n: u32) -> bool
    ensures { result ≡ is_act n }
{
    is_given_long(u64::from(n))
}

/// The same of a number of 64 bits.
pub fn is_given_long(n: u64) -> bool
    ensures { result ≡ is_act n }
{
    1 <= n && n <= u64::from(LAST_ACT)
}

/// The number of an act, or 0 for none.
pub fn is_given_or_none(n: u64) -> bool
    ensures { result ≡ is_maybe_act n }
{
    n == 0 || is_given_long(n)
}

/// The next number of an account or of an act.
pub fn is_free(n: u32) -> bool
    ensures { result ≡ is_next n }
{
    1 <= n && n <= LAST_ACT + 1
}

/// An amount of energy in a declaration, in Wh.
pub fn is_energy(n: u64) -> bool
    ensures { result ≡ is_wh n }
{
    n <= MOST_WH
}

/// The number of a certificate.
pub fn is_number(n: u64) -> bool
    ensures { result ≡ is_certificate n }
{
    let code = n / SERIALS;
    1 <= code && code <= u64::from(LAST_REGISTRY) && 1 <= n % SERIALS
}

/// The first and the last number of a range.
pub fn is_range(first: u64, last: u64) -> bool
    ensures { result ≡ are_ends first last }
{
    is_number(first) && is_number(last) && first <= last && first / SERIALS == last / SERIALS
}

/// Whether certificates of this kind of place name this act: held and expired ones name none.
pub fn has_act(kind: u32, act: u32) -> bool
    ensures { result ≡ names_act kind act }
{
    if kind == 1 || kind == 3 {
        act == 0
    } else {
        2 <= kind && kind <= 5 && is_given(act)
    }
}
