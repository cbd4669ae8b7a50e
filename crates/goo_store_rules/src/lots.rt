//! Lots: their days, and the day after which held certificates expire.

ghost use Rattle.std.specs.Prelude.{◌≡◌, ◌↔◌, true, Some, All, option_map, string_bytes, IsTrue};
ghost use Rattle.std.specs.Prelude.{IsSome, IfSome};
ghost use Rattle.goo_types.specs.Day.{months_after};
ghost use Rattle.goo_types.specs.Lot.{IsLot};
ghost use Rattle.goo_types.specs.Texts.{day_text as day_written};
ghost use Rattle.goo_tables_rows.specs.Rows.{lot_in};
ghost use Rattle.goo_spec_tables.specs.Places.{lot_of};
ghost use Rattle.goo_spec_tables.specs.Readable.{is_lot};
ghost use Rattle.goo_spec_tables.specs.Texts.{day_of};
ghost use Rattle.goo_store_rules.specs.Lots.{AreDaysOf, IsGoodLot};

use crate::values::accepts_lot;
use goo_tables_rows::lot::LotRow;
use goo_types::day::Day;

/// The days of a lot.
#[derive(Clone, Copy)]
pub struct LotDays {
    /// The day on which the device began to produce.
    pub commissioned: Day,
    /// The first day of the period.
    pub first_day: Day,
    /// The last day of the period.
    pub last_day: Day,
    /// The day of the issue.
    pub issued_on: Day,
}

/// The days in a row, where each is one.
fn days_in(row: &LotRow) -> Option<LotDays>
    ensures value { IfSome result (AreDaysOf (lot_of (lot_in row.now))) }
    ensures readable { is_lot (lot_in row.now) ≡ true → IsSome result }
{
    Some(LotDays {
        commissioned: Day::read(row.plant.commissioned.as_bytes()).ok()?,
        first_day: Day::read(row.first_day.as_bytes()).ok()?,
        last_day: Day::read(row.last_day.as_bytes()).ok()?,
        issued_on: Day::read(row.issued_on.as_bytes()).ok()?,
    })
}

/// Whether the device was commissioned on the first day at the latest, the period is in one month,
/// and the issue came after it.
fn are_in_order(days: &LotDays) -> bool
    ensures { (l : _) → AreDaysOf l days.now → IsTrue result ↔ IsLot l }
{
    !days.first_day.is_before(days.commissioned)
        && !days.last_day.is_before(days.first_day)
        && days.last_day.is_before(days.issued_on)
        && days.first_day.is_in_month_of(days.last_day)
}

/// Whether a lot's days are in order.
pub fn has_days_in_order(row: &LotRow) -> bool
    ensures { is_lot (lot_in row.now) ≡ true → IsTrue result ↔ IsLot (lot_of (lot_in row.now)) }
{
    match days_in(row) {
        Some(days) => are_in_order(&days),
        None => false,
    }
}

/// Whether this is the text of the day 18 months after the period, or nothing where the calendar
/// has no such day.
fn is_expiry(text: &Option<String>, last_day: Day) -> bool
    ensures { IsTrue result
        ↔ (option_map string_bytes text.now ≡ option_map day_written (months_after last_day 18)) }
{
    match (text, last_day.add_months(18)) {
        (Some(text), Some(day)) => text.as_bytes() == day.text().as_bytes(),
        (None, None) => true,
        _ => false,
    }
}

/// Whether a lot's expiry is that of its period.
pub fn has_its_expiry(row: &LotRow) -> bool
    ensures { is_lot (lot_in row.now) ≡ true
        → IsTrue result
        ↔ ((lot_in row.now).expires_on
        ≡ option_map day_written (months_after (day_of (lot_in row.now).last_day) 18)) }
{
    match Day::read(row.last_day.as_bytes()) {
        Ok(last_day) => is_expiry(&row.expires_on, last_day),
        Err(_) => false,
    }
}

/// Whether a lot's values are accepted, its days are in order, and its expiry is that of its
/// period.
pub fn is_good(row: &LotRow) -> bool
    ensures { IsTrue result ↔ IsGoodLot (lot_in row.now) }
{
    accepts_lot(row) && has_days_in_order(row) && has_its_expiry(row)
}

/// Whether each lot is one.
pub fn are_good(rows: &[LotRow]) -> bool
    ensures good { IsTrue result → All (λ row. IsGoodLot (lot_in row)) rows.now }
    ensures refused { All (λ row. IsGoodLot (lot_in row)) rows.now → IsTrue result }
{
    for row in rows {
        if !is_good(row) {
            return false;
        }
    }
    true
}
