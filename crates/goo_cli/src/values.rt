//! The values of the options.
ghost use Rattle.std.specs.Prelude.{◌≡◌, ◌≤◌, ◌<◌, ◌^◌, IfSome};
ghost use Rattle.std.specs.Result.{result_ok};
ghost use Rattle.goo_types.specs.Day.{day_reading};
ghost use Rattle.goo_cli.specs.Values.{is_number, number_in, code_in, serial_in, account_in};
ghost use Rattle.goo_cli.specs.Values.{port_in, count_in};

use goo_types::account_no::AccountNo;
use goo_types::day::Day;
use goo_types::digits::are_digits;
use goo_types::limits::{LAST_ACT, LAST_REGISTRY, SERIALS};
use goo_types::registry_code::RegistryCode;
use goo_types::serial::Serial;

/// Whether a text is decimal digits, one at least. A sign is none.
/// Rust's reader of numbers takes a sign, so the digits are looked at first.
fn is_number(text: &str) -> bool
    ensures { result ≡ is_number text.now }
{
    !text.is_empty() && are_digits(text.as_bytes())
}

/// The number that a text of digits states, where it lies between two.
fn number_in(text: &str, least: u64, most: u64) -> Option<u64>
    ensures value { result ≡ number_in least most text.now }
    ensures within { IfSome result (λ n. n ≤ most) }
{
    if !is_number(text) {
        return None;
    }
    match text.parse::<u64>() {
        Ok(number) if least <= number && number <= most => Some(number),
        Ok(_) => None,
        Err(_) => None,
    }
}

/// The code of a registry, 1 to 99 in decimal digits.
pub fn code_in(text: &str) -> Option<RegistryCode>
    ensures { result ≡ code_in text.now }
{
    RegistryCode::new(number_in(text, 1, u64::from(LAST_REGISTRY))? as u8)
}

/// A serial, 1 to 999,999,999,999 in decimal digits.
pub fn serial_in(text: &str) -> Option<Serial>
    ensures { result ≡ serial_in text.now }
{
    Serial::new(number_in(text, 1, SERIALS - 1)?)
}

/// The number of an account, 1 to 999,999,999 in decimal digits.
pub fn account_in(text: &str) -> Option<AccountNo>
    ensures { result ≡ account_in text.now }
{
    AccountNo::new(number_in(text, 1, u64::from(LAST_ACT))? as u32)
}

/// A port, 1 to 65535 in decimal digits.
pub fn port_in(text: &str) -> Option<u16>
    ensures { result ≡ port_in text.now }
{
    Some(number_in(text, 1, 65_535)? as u16)
}

/// A count of connections, 0 to 1,000,000,000 in decimal digits.
pub fn count_in(text: &str) -> Option<u32>
    ensures { result ≡ count_in text.now }
{
    Some(number_in(text, 0, 1_000_000_000)? as u32)
}

/// A day, as `2025-03-01`.
pub fn day_in(text: &str) -> Option<Day>
    ensures { result ≡ result_ok (day_reading text.now) }
{
    Day::read(text.as_bytes()).ok()
}
