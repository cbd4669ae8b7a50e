//! Values written in a test: numbers of certificates, accounts and acts, holders, days and
//! registries.

ghost use Rattle.std.specs.Prelude.{◌≤◌, ◌<◌};

use goo_types::account_no::AccountNo;
use goo_types::act_no::ActNo;
use goo_types::day::Day;
use goo_types::holder_code::HolderCode;
use goo_types::number::Number;
use goo_types::range::Range;
use goo_types::registry_code::RegistryCode;
use std::process::Abort;

/// The certificate of this serial among those of registry 7.
pub fn number(serial: u64) -> Number
    requires above { 1 ≤ serial }
    requires below { serial < 1_000_000_000_000 }
{
    Number::new(7, serial).unwrap()
}

/// The certificates of registry 7 from one serial to another, both counted.
pub fn serials(first: u64, last: u64) -> Range
    requires above { 1 ≤ first }
    requires order { first ≤ last }
    requires below { last < 1_000_000_000_000 }
{
    let seven = RegistryCode::new(7).unwrap();
    Range::of_serials(seven, first, last - first + 1).unwrap()
}

/// The account of this number.
pub fn account(number: u32) -> AccountNo
    requires above { 1 ≤ number }
    requires below { number < 1_000_000_000 }
{
    AccountNo::new(number).unwrap()
}

/// The act of this number.
pub fn act(number: u32) -> ActNo
    requires above { 1 ≤ number }
    requires below { number < 1_000_000_000 }
{
    ActNo::new(number).unwrap()
}

/// The holder of a code.
pub fn holder_of(rt: &impl Abort, text: &str) -> HolderCode {
    HolderCode::read(text.as_bytes()).expect(rt, "a holder")
}

/// The day of a text.
pub fn day_of(rt: &impl Abort, text: &str) -> Day {
    Day::read(text.as_bytes()).expect(rt, "a day")
}

/// The account of a number that may be none.
pub fn account_of(rt: &impl Abort, number: u32) -> AccountNo {
    AccountNo::new(number).expect(rt, "no account")
}

/// The act of a number that may be none.
pub fn act_of(rt: &impl Abort, number: u32) -> ActNo {
    ActNo::new(number).expect(rt, "no act")
}

/// The certificate of a registry and a serial that may be none.
pub fn number_of(rt: &impl Abort, code: u8, serial: u64) -> Number {
    Number::new(code, serial).expect(rt, "no number")
}

/// The certificates of a registry from one serial to another.
pub fn range_of(rt: &impl Abort, code: u8, first: u64, last: u64) -> Range {
    let first = number_of(rt, code, first);
    let last = number_of(rt, code, last);
    Range::new(first, last).expect(rt, "no range")
}

/// The registry of a code.
pub fn code_of(rt: &impl Abort, code: u8) -> RegistryCode {
    RegistryCode::new(code).expect(rt, "no code")
}
