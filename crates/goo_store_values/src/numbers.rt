//! Numbers that columns keep, as values. One that is none such is `Refused`.

ghost use Rattle.std.specs.Prelude.{◌≡◌, is_ok, nat_le, IfErr, IfOk};
ghost use Rattle.goo_types.specs.Number.{is_number};
ghost use Rattle.goo_types.specs.Range.{Numbers};
ghost use Rattle.goo_spec_tables.specs.Readable.{is_code, is_act, is_maybe_act, is_between, is_wh};
ghost use Rattle.goo_spec_tables.specs.Readable.{are_ends};
ghost use Rattle.goo_spec_tables.specs.Records.{act_or_none as act_in};
ghost use Rattle.goo_store_values.specs.declared.statement_fault.StatementFault.TheVariants.{Refused};

use crate::statement_fault::StatementFault;
use goo_types::account_no::AccountNo;
use goo_types::act_no::ActNo;
use goo_types::limits::{LAST_ACT, LAST_REGISTRY, SERIALS};
use goo_types::number::Number;
use goo_types::range::Range;
use goo_types::registry_code::RegistryCode;
use goo_types::watts::Watts;
use goo_types::wh::Wh;

/// The code of a registry.
pub fn registry_code(code: u32) -> Result<RegistryCode, StatementFault>
    ensures value { IfOk result (λ c. c ≡ code) }
    ensures accepts { is_ok result ≡ is_code code }
    ensures cause { IfErr result (λ cause. cause ≡ Refused) }
{
    if code > u32::from(LAST_REGISTRY) {
        return Err(StatementFault::Refused);
    }
    match RegistryCode::new(code as u8) {
        Some(code) => Ok(code),
        None => Err(StatementFault::Refused),
    }
}

/// The number of an account.
pub fn account_no(number: u32) -> Result<AccountNo, StatementFault>
    ensures value { IfOk result (λ n. n ≡ number) }
    ensures accepts { is_ok result ≡ is_act number }
    ensures cause { IfErr result (λ cause. cause ≡ Refused) }
{
    match AccountNo::new(number) {
        Some(number) => Ok(number),
        None => Err(StatementFault::Refused),
    }
}

/// The number of an act.
pub fn act_no(number: u32) -> Result<ActNo, StatementFault>
    ensures value { IfOk result (λ n. n ≡ number) }
    ensures accepts { is_ok result ≡ is_act number }
    ensures cause { IfErr result (λ cause. cause ≡ Refused) }
{
    match ActNo::new(number) {
        Some(number) => Ok(number),
        None => Err(StatementFault::Refused),
    }
}

/// The number of an act, where 0 stands for none.
pub fn act_or_none(number: u32) -> Result<Option<ActNo>, StatementFault>
    ensures value { IfOk result (λ act. act ≡ act_in number) }
    ensures accepts { is_ok result ≡ is_maybe_act number }
    ensures cause { IfErr result (λ cause. cause ≡ Refused) }
{
    if number == 0 {
        return Ok(None);
    }
    Ok(Some(act_no(number)?))
}

/// A capacity in W.
pub(crate) fn watts(value: u64) -> Result<Watts, StatementFault>
    ensures value { IfOk result (λ w. w ≡ value) }
    ensures accepts { is_ok result ≡ is_between 1 100_000_000_000 value }
    ensures cause { IfErr result (λ cause. cause ≡ Refused) }
{
    match Watts::new(value) {
        Some(watts) => Ok(watts),
        None => Err(StatementFault::Refused),
    }
}

/// An amount of energy in Wh.
pub fn wh(value: u64) -> Result<Wh, StatementFault>
    ensures value { IfOk result (λ w. w ≡ value) }
    ensures accepts { is_ok result ≡ is_wh value }
    ensures cause { IfErr result (λ cause. cause ≡ Refused) }
{
    match Wh::new(value) {
        Some(wh) => Ok(wh),
        None => Err(StatementFault::Refused),
    }
}

/// The number of a certificate.
pub fn number(value: u64) -> Result<Number, StatementFault>
    ensures value { IfOk result (λ n. n ≡ value) }
    ensures accepts { is_ok result ≡ is_number value }
    ensures cause { IfErr result (λ cause. cause ≡ Refused) }
{
    if value / SERIALS > u64::from(LAST_REGISTRY) {
        return Err(StatementFault::Refused);
    }
    match Number::new((value / SERIALS) as u8, value % SERIALS) {
        Some(number) => Ok(number),
        None => Err(StatementFault::Refused),
    }
}

/// The range between two numbers of certificates, both counted.
pub fn range(first: u64, last: u64) -> Result<Range, StatementFault>
    ensures value { IfOk result (λ r. r ≡ record { first = first; last = last }) }
    ensures accepts { is_ok result ≡ are_ends first last }
    ensures cause { IfErr result (λ cause. cause ≡ Refused) }
{
    match Range::new(number(first)?, number(last)?) {
        Some(range) => Ok(range),
        None => Err(StatementFault::Refused),
    }
}

/// A number of an account or an act, as short as those are.
pub fn small(value: u64) -> Result<u32, StatementFault>
    ensures value { IfOk result (λ n. n ≡ value) }
    ensures accepts { is_ok result ≡ nat_le value 999_999_999 }
    ensures cause { IfErr result (λ cause. cause ≡ Refused) }
{
    if value > u64::from(LAST_ACT) {
        return Err(StatementFault::Refused);
    }
    Ok(value as u32)
}
