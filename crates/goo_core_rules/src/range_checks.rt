//! Checks over the numbers of a range, on a book of the rows that it meets.

ghost use Rattle.std.specs.Prelude.{◌≡◌, not};
ghost use Rattle.goo_types.specs.Piece.{at_of};
ghost use Rattle.goo_spec.specs.Days.{is_closed as closed_test};
ghost use Rattle.goo_spec.specs.Lots.{is_held_by as held_by_test};
ghost use Rattle.goo_spec.specs.Maps.{each, least_absent, least_failing};
ghost use Rattle.goo_spec.specs.Checks.{first_refusal};
ghost use Rattle.goo_core_rules.specs.Trade.{trade_checks};

use crate::days::is_closed;
use goo_ranges::Book;
use goo_types::account_no::AccountNo;
use goo_types::day::Day;
use goo_types::number::Number;
use goo_types::place::Place;
use goo_types::range::Range;
use goo_types::refusal::Refusal;

/// Whether a place is this account, which holds.
pub fn is_held_by(account: AccountNo, place: Place) -> bool
    ensures { result ≡ held_by_test account place }
{
    match place {
        Place::Held(holder) => holder == account,
        _ => false,
    }
}

/// The least number of the range that is there and that the account doesn't hold.
pub fn least_not_held_by(book: &Book, range: Range, account: AccountNo) -> Option<Number>
    ensures { result
        ≡ least_failing (λ lot place. held_by_test account place) (at_of book.now) (each range) }
{
    book.least_not(
        range,
        move |_, place| -> bool
            ensures { result ≡ held_by_test account place }
        { is_held_by(account, place) },
    )
}

/// The least number of the range that is there and whose trade is closed.
pub fn least_closed(book: &Book, range: Range, today: Day) -> Option<Number>
    ensures { result
        ≡ least_failing (λ lot place. not (closed_test lot today)) (at_of book.now) (each range) }
{
    book.least_not(
        range,
        move |lot, _| -> bool
            ensures { result ≡ not (closed_test lot today) }
        { !is_closed(&lot, today) },
    )
}

/// The least number of the range that isn't there.
fn least_missing(book: &Book, range: Range) -> Option<Number>
    ensures { result ≡ least_absent (at_of book.now) (each range) }
{
    book.least_missing(range)
}

/// The first check that fails of those over a range whose certificates an account gives away: each
/// is there, it holds each, and the trade in none is closed.
pub fn trade_refusal(book: &Book, range: Range, giver: AccountNo, today: Day) -> Option<Refusal>
    ensures { result ≡ first_refusal (trade_checks (at_of book.now) range giver today) }
{
    if let Some(number) = least_missing(book, range) {
        return Some(Refusal::UnknownNumber(number));
    }
    if let Some(number) = least_not_held_by(book, range, giver) {
        return Some(Refusal::NotHeld(number));
    }
    if let Some(number) = least_closed(book, range, today) {
        return Some(Refusal::TradeClosed(number));
    }
    None
}
