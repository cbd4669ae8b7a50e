//! Periods: whether those of each device rise, and the end of its last one.

ghost use Rattle.std.specs.Prelude.{◌≡◌, ◌↔◌, ℕ, List, Some, None, cond};
ghost use Rattle.std.specs.Prelude.{IsSome, IfSome, IfOk, OnOk};
ghost use Rattle.std.specs.Ordering.{eq_by_cmp};
ghost use Rattle.std.specs.BTreeMap.{get};
ghost use Rattle.goo_spec.specs.Declare.{declared_by, last_end};
ghost use Rattle.goo_spec.specs.State.{text_cmp};
ghost use Rattle.goo_store_rules.specs.Production.{follows, DoPeriodsRise};

use goo_types::command::Declare;
use goo_types::day::Day;
use goo_types::gsrn::Gsrn;
use std::alloc::{AllocError, Global};
use std::collections::BTreeMap;

/// The end of a device's last period, if there is one.
pub fn last_day_of(ends: &BTreeMap<Gsrn, Day>, device: &Gsrn) -> Option<Day>
    ensures { result ≡ get text_cmp ends.now device.now }
{
    ends.get(device).copied()
}

/// Whether a period begins after the end of the one before, and doesn't end before it begins.
fn is_next(before: Option<Day>, period: &Declare) -> bool
    ensures { result ≡ follows before period.now }
{
    match before {
        Some(before) => {
            before.is_before(period.first_day) && !period.last_day.is_before(period.first_day)
        }
        None => !period.last_day.is_before(period.first_day),
    }
}

/// Takes a period in as the last one of its device; whether it begins after the end of the one
/// before. The device is looked up once where it has a period already.
///
/// # Errors
///
/// Where an allocation is refused.
fn take_in(ends: &mut BTreeMap<Gsrn, Day>, period: &Declare) -> Result<bool, AllocError>
    ensures next { IfOk result
        (λ yes. yes ≡ follows (get text_cmp ends.old period.now.device) period.now) }
    ensures taken { OnOk result
        ((q : List ℕ)
        → get text_cmp ends.new q
        ≡ cond (eq_by_cmp text_cmp period.now.device q) (Some period.now.last_day)
        (get text_cmp ends.old q)) }
{
    if let Some(last_day) = ends.get_mut(&period.device) {
        let next = is_next(Some(*last_day), period);
        *last_day = period.last_day;
        return Ok(next);
    }
    ends.insert(period.device, period.last_day)?;
    Ok(is_next(None, period))
}

/// The end of each device's last period; none where the periods of a device don't rise.
///
/// # Errors
///
/// Where an allocation is refused.
pub fn last_days(
    alloc: Global,
    declared: &[Declare],
) -> Result<Option<BTreeMap<Gsrn, Day>>, AllocError>
    ensures ends { IfOk result
        (λ o. IfSome o
        (λ ends. (q : List ℕ) → get text_cmp ends q ≡ last_end None (declared_by q declared.now))) }
    ensures rising { IfOk result (λ o. IsSome o ↔ DoPeriodsRise declared.now) }
{
    let mut ends = BTreeMap::new(alloc);
    for period in declared {
        if !take_in(&mut ends, period)? {
            return Ok(None);
        }
    }
    Ok(Some(ends))
}
