//! Numbers, pieces and books of the January of one device of registry 7.
use crate::lots::{january, lot_of};
use goo_ranges::{Book, Piece};
use goo_types::account_no::AccountNo;
use goo_types::lot::Lot;
use goo_types::number::Number;
use goo_types::place::Place;
use goo_types::range::Range;
use std::alloc::Global;
use std::process::Abort;

/// The one lot of all pieces.
pub fn lot(rt: &impl Abort) -> Lot {
    lot_of(rt, january(rt))
}

/// The number of registry 7 with this serial.
pub fn number(rt: &impl Abort, serial: u64) -> Number {
    Number::new(7, serial).expect(rt, "a number")
}

/// The numbers of registry 7 with the serials from the first to the last.
pub fn range(rt: &impl Abort, first: u64, last: u64) -> Range {
    Range::new(number(rt, first), number(rt, last)).expect(rt, "a range")
}

/// The account of this number.
pub fn account(rt: &impl Abort, number: u32) -> AccountNo {
    AccountNo::new(number).expect(rt, "an account")
}

/// In circulation, in this account.
pub fn held(rt: &impl Abort, number: u32) -> Place {
    Place::Held(account(rt, number))
}

/// The numbers from the first to the last, held by an account.
pub fn row(lot: &Lot, first: Number, last: Number, account: AccountNo) -> Piece {
    Piece {
        first,
        last,
        lot: *lot,
        place: Place::Held(account),
    }
}

/// The numbers with the serials from the first to the last, held by an account.
pub fn piece(rt: &impl Abort, first: u64, last: u64, holder: u32) -> Piece {
    let (first, last) = (number(rt, first), number(rt, last));
    row(&lot(rt), first, last, account(rt, holder))
}

/// Pieces by their first serial, their last one and their account.
pub fn pieces(rt: &impl Abort, alloc: Global, rows: &[(u64, u64, u32)]) -> Vec<Piece> {
    let mut pieces = Vec::new(alloc);
    for (first, last, holder) in rows {
        let piece = piece(rt, *first, *last, *holder);
        pieces.push(piece).expect(rt, "memory");
    }
    pieces
}

/// The book of pieces by their first serial, their last one and their account.
pub fn book(rt: &impl Abort, alloc: Global, rows: &[(u64, u64, u32)]) -> Book {
    Book::new(pieces(rt, alloc, rows)).expect(rt, "a book")
}
