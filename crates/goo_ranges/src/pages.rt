//! Look-ups in pieces that are kept in pages.

ghost use Rattle.std.specs.Prelude.{◌≡◌, ◌+◌, ◌<◌, ◌≤◌, [], length, take, drop, get_or, find};
ghost use Rattle.std.specs.Prelude.{is_some, suc, Bool, IfOk};
ghost use Rattle.goo_types.specs.declared.lot_fields.LotFields.{LotFields};
ghost use Rattle.goo_types.specs.declared.place.Place.{Place};
ghost use Rattle.goo_types.specs.Number.{code_of};
ghost use Rattle.goo_types.specs.Piece.{at_of, IsRising, IsRisingFrom};
ghost use Rattle.goo_spec.specs.Maps.{least_absent, least_failing};
ghost use Rattle.goo_ranges.specs.Paging.{joined, AreFilled, IsLeft};
ghost use Rattle.goo_ranges_pieces.specs.Walk.{end_of, span};

use crate::page::Page;
use goo_types::lot::Lot;
use goo_types::number::Number;
use goo_types::place::Place;
use std::alloc::{AllocError, Global};

mod changes;

pub use changes::{add_in, pages_of, reassign_in};

/// How many pages end so far before a number that no piece of theirs is next to it.
fn count_before(pages: &[Page], number: u64) -> usize
    requires some { 1 ≤ number }
    requires filled { AreFilled pages.now }
    requires rising { IsRising (joined pages.now) }
    ensures bound { result ≤ length pages.now }
    ensures below { end_of 0 (joined (take result pages.now)) < number }
    ensures reaches { result < length pages.now → number ≤ end_of 0 (get_or pages.now result []) }
{
    pages.partition_point(|page| page.ends_before(number))
}

/// How many pages begin at a number or before it.
fn count_begun(pages: &[Page], number: u64) -> usize
    requires filled { AreFilled pages.now }
    requires rising { IsRising (joined pages.now) }
    ensures bound { result ≤ length pages.now }
    ensures above { IsRisingFrom (number + 1) (joined (drop result pages.now)) }
{
    pages.partition_point(|page| page.begins_by(number))
}

/// The pieces of all pages in one page.
///
/// # Errors
///
/// `AllocError` where memory was refused.
pub fn joined_page(alloc: Global, pages: &[Page]) -> Result<Page, AllocError>
    requires { IsRising (joined pages.now) }
    ensures { IfOk result (λ page. page ≡ joined pages.now) }
{
    let mut all = Vec::new(alloc);
    for page in pages {
        all.extend_from_slice(page.pieces())?;
    }
    Ok(Page::of_rows(all))
}

/// The pages from the first one on that reaches a number.
fn reaching(pages: &[Page], number: Number) -> &[Page]
    requires filled { AreFilled pages.now }
    requires rising { IsRising (joined pages.now) }
    ensures { IsLeft (joined pages.now) (joined result.now) number }
{
    let begin = count_before(pages, number.get() + 1);
    &pages[begin..]
}

/// The lot and the place of a number; None where the pages lack it.
pub fn at_in(pages: &[Page], number: Number) -> Option<(Lot, Place)>
    requires filled { AreFilled pages.now }
    requires rising { IsRising (joined pages.now) }
    ensures { result ≡ at_of (joined pages.now) number }
{
    let index = count_before(pages, number.get() + 1);
    if index == pages.len() {
        return None;
    }
    pages[index].at(number)
}

/// The least number from `first` to `last` that the pages lack.
pub fn least_missing_in(pages: &[Page], first: Number, last: Number) -> Option<Number>
    requires filled { AreFilled pages.now }
    requires rising { IsRising (joined pages.now) }
    requires forward { first ≤ last }
    requires one_code { code_of first ≡ code_of last }
    ensures { result ≡ least_absent (at_of (joined pages.now)) (span first (suc last)) }
{
    let mut from = first;
    for page in reaching(pages, first) {
        let Some(next) = page.least_missing_between(from, last) else {
            return None;
        };
        if !page.ends_before(next.get() + 1) {
            return Some(next);
        }
        from = next;
    }
    Some(from)
}

/// The least number from `first` to `last` that the pages have.
pub fn least_present_in(pages: &[Page], first: Number, last: Number) -> Option<Number>
    requires filled { AreFilled pages.now }
    requires rising { IsRising (joined pages.now) }
    requires forward { first ≤ last }
    requires one_code { code_of first ≡ code_of last }
    ensures { result ≡ find (λ n. is_some (at_of (joined pages.now) n)) (span first (suc last)) }
{
    least_not_in(pages, first, last, |_, _| false)
}

/// The least number from `first` to `last` whose lot and place fail the test.
pub fn least_not_in<F: Fn(Lot, Place) -> bool + Drop>(
    pages: &[Page],
    first: Number,
    last: Number,
    test: F,
) -> Option<Number>
    requires filled { AreFilled pages.now }
    requires rising { IsRising (joined pages.now) }
    requires forward { first ≤ last }
    requires callable { F.IsAlwaysCallable test }
    ensures { (passes : LotFields → Place → Bool)
        → ((lot : LotFields) (place : Place) (answer : Bool) → F.post test lot place answer
        → answer ≡ passes lot place)
        → result ≡ least_failing passes (at_of (joined pages.now)) (span first (suc last)) }
{
    for page in reaching(pages, first) {
        if !page.begins_by(last.get()) {
            return None;
        }
        if let Some(number) = page.least_not_between(first, last, &test) {
            return Some(number);
        }
    }
    None
}
