//! The fields that JSON strings and integers state.

ghost use Rattle.std.specs.Prelude.{◌≡◌, ℤ};
ghost use Rattle.goo_notice_json.specs.Faults.{Gives};
ghost use Rattle.goo_notice_json.specs.Fields.{integer_in, range_of};

use crate::value_fault::ValueFault;
use goo_types::account_no::AccountNo;
use goo_types::act_no::ActNo;
use goo_types::number::Number;
use goo_types::range::Range;
use goo_types::registry_code::RegistryCode;
use goo_types::watts::Watts;
use goo_types::wh::Wh;

/// The account with a number, 1 to 999,999,999.
///
/// # Errors
///
/// `Field` for any other number.
pub fn account_no(number: i128) -> Result<AccountNo, ValueFault>
    ensures { Gives (λ a. a) result (integer_in 1 999_999_999 number) }
{
    let Ok(number) = u32::try_from(number) else {
        return Err(ValueFault::Field);
    };
    AccountNo::new(number).ok_or(ValueFault::Field)
}

/// The act with a number, 1 to 999,999,999.
///
/// # Errors
///
/// `Field` for any other number.
pub fn act_no(number: i128) -> Result<ActNo, ValueFault>
    ensures { Gives (λ a. a) result (integer_in 1 999_999_999 number) }
{
    let Ok(number) = u32::try_from(number) else {
        return Err(ValueFault::Field);
    };
    ActNo::new(number).ok_or(ValueFault::Field)
}

/// The registry with a code, 1 to 99.
///
/// # Errors
///
/// `Field` for any other number.
pub fn registry_code(number: i128) -> Result<RegistryCode, ValueFault>
    ensures { Gives (λ a. a) result (integer_in 1 99 number) }
{
    let Ok(number) = u8::try_from(number) else {
        return Err(ValueFault::Field);
    };
    RegistryCode::new(number).ok_or(ValueFault::Field)
}

/// A capacity in W, 1 to 100,000,000,000.
///
/// # Errors
///
/// `Field` for any other number.
pub fn watts(number: i128) -> Result<Watts, ValueFault>
    ensures { Gives (λ a. a) result (integer_in 1 100_000_000_000 number) }
{
    let Ok(number) = u64::try_from(number) else {
        return Err(ValueFault::Field);
    };
    Watts::new(number).ok_or(ValueFault::Field)
}

/// An amount of energy in Wh, 0 to 1,000,000,000,000,000.
///
/// # Errors
///
/// `Field` for any other number.
pub fn wh(number: i128) -> Result<Wh, ValueFault>
    ensures { Gives (λ a. a) result (integer_in 0 1_000_000_000_000_000 number) }
{
    let Ok(number) = u64::try_from(number) else {
        return Err(ValueFault::Field);
    };
    Wh::new(number).ok_or(ValueFault::Field)
}

/// The range from the number that one text states to that of the other, which has the same code and
/// isn't below it.
///
/// # Errors
///
/// `Field` where a text is no certificate number, the codes differ, or `last` is the lower number.
#[tactic(auto, unfolding(crate::specs::Fields::range_of))]
pub fn range(first: &str, last: &str) -> Result<Range, ValueFault>
    ensures { Gives (λ r. r) result (range_of first.now last.now) }
{
    let first = Number::read(first.as_bytes())?;
    let last = Number::read(last.as_bytes())?;
    Range::new(first, last).ok_or(ValueFault::Field)
}
