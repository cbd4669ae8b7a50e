//! What a book is asked for single numbers, against what is wanted.
use crate::examples::{held, number, range};
use goo_ranges::Book;
use goo_types::lot::Lot;
use goo_types::number::Number;
use goo_types::place::Place;
use std::process::Abort;

/// What was found is the number with this serial.
fn is_found(rt: &impl Abort, found: Option<Number>, wanted: u64) {
    assert!(rt;
        found == Some(number(rt, wanted)),
        "{found:?} in place of {wanted}"
    );
}

/// A serial of the book is held by an account.
pub fn is_held(rt: &impl Abort, book: &Book, serial: u64, account: u32) {
    let (_, place) = book
        .at(number(rt, serial))
        .expect(rt, "a number of the book");
    assert!(rt; place == held(rt, account), "{serial} at {place:?}");
}

/// The least number of some serials that the book lacks.
pub fn lacks_first(rt: &impl Abort, book: &Book, serials: (u64, u64), wanted: u64) {
    let range = range(rt, serials.0, serials.1);
    is_found(rt, book.least_missing(range), wanted)
}

/// The least number of some serials that the book has.
pub fn has_first(rt: &impl Abort, book: &Book, serials: (u64, u64), wanted: u64) {
    let range = range(rt, serials.0, serials.1);
    is_found(rt, book.least_present(range), wanted)
}

/// Whether a place is in the hand of account 1.
fn is_in_first(_lot: Lot, place: Place) -> bool {
    matches!(place, Place::Held(account) if account.get() == 1)
}

/// The least number of some serials that isn't held by account 1.
pub fn leaves_first(rt: &impl Abort, book: &Book, serials: (u64, u64), wanted: u64) {
    let range = range(rt, serials.0, serials.1);
    is_found(rt, book.least_not(range, is_in_first), wanted)
}
