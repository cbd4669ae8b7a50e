//! Days by their year, month and day of the month.
ghost use Rattle.std.specs.Prelude.{◌≡◌, ◌+◌, ◌<◌, ◌≤◌, ◌↔◌, IsTrue, pos};
ghost use Rattle.jiff_core.specs.Date.{IsYmd};
ghost use Rattle.goo_types_forms.specs.Days.{IsDay, IsMoved, month_number, day_in_month};
ghost use Rattle.goo_types_forms.specs.Days.{day_number};

use jiff::ToSpan;
use jiff::civil::{self, Date};

/// The date of the whole calendar with these parts.
fn date_on(year: u16, month: u8, day: u8) -> Date
    requires { IsDay (record { year = year; month = month; day = day }) }
    ensures { IsYmd (pos year) (pos month) (pos day) result }
{
    civil::date(year as i16, month as i8, day as i8)
}

/// The date `months` months later: the same day of the month, or the last one where the month is
/// shorter.
fn moved(year: u16, month: u8, day: u8, months: u8) -> Date
    requires { IsDay (record { year = year; month = month; day = day }) }
    ensures { IsMoved (record { year = year; month = month; day = day }) months result }
{
    date_on(year, month, day)
        .checked_add((months as i64).months())
        .unwrap()
}

/// The year, the month and the day of the month `months` months later: the same day of the month,
/// or the last one where the month is shorter.
pub fn months_later(year: u16, month: u8, day: u8, months: u8) -> (u16, u8, u8)
    requires { IsDay (record { year = year; month = month; day = day }) }
    ensures { record { year = result.0; month = result.1; day = result.2 }
        ≡ day_in_month
        (month_number (record { year = year; month = month; day = day }) + months) day }
{
    let moved = moved(year, month, day, months);
    (moved.year() as u16, moved.month() as u8, moved.day() as u8)
}

/// The number of a day: consecutive days have consecutive numbers.
pub fn day_number(year: u16, month: u8, day: u8) -> u32
    requires { IsDay (record { year = year; month = month; day = day }) }
    ensures value { result ≡ day_number (record { year = year; month = month; day = day }) }
    ensures small { result < 10_000_000 }
{
    date_on(year, month, day).to_plain().days_since_min() + 366
}

/// Whether both are one month of one year.
pub fn is_one_month(year: u16, month: u8, other_year: u16, other_month: u8) -> bool
    ensures { IsTrue result ↔ ((year ≡ other_year) × (month ≡ other_month)) }
{
    year == other_year && month == other_month
}

/// Whether a device was commissioned on the first day of a period at the latest, the period doesn't
/// run backwards, and the issue came after its last day. The days are told by their numbers.
pub fn are_in_order(commissioned: u32, first: u32, last: u32, issued_on: u32) -> bool
    ensures { IsTrue result ↔ ((commissioned ≤ first) × (first ≤ last) × (last < issued_on)) }
{
    commissioned <= first && first <= last && last < issued_on
}
