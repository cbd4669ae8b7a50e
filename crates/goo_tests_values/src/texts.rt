//! Pieces and edits as texts, and books against them.
//!
//! A piece is its serials and its place, as `5-15@2` of account 2 or `4-6@1c1` of account 1,
//! cancelled by act 1. A code other than 7 stands before a serial, a `?` before a piece of another
//! lot. An edit is what it deletes, as `-1`, and what it inserts, as `+1-4@1`.
use crate::examples::{held, lot, range};
use goo_ranges::{Book, Edit, Piece};
use goo_types::number::Number;
use goo_types::place::Place;
use std::alloc::{AllocError, Global};
use std::process::Abort;

/// A serial, after its code where that isn't 7.
fn number_text(alloc: Global, number: Number) -> Result<String, AllocError> {
    match number.code() {
        7 => format!(in alloc; "{}", number.serial()),
        code => format!(in alloc; "{code}:{}", number.serial()),
    }
}

/// An account, and what took the certificates out of it.
fn place_text(alloc: Global, place: Place) -> Result<String, AllocError> {
    match place {
        Place::Held(account) => format!(in alloc; "@{}", account.get()),
        Place::Expired(account) => format!(in alloc; "@{}x", account.get()),
        Place::Cancelled(account, act) => format!(in alloc; "@{}c{}", account.get(), act.get()),
        Place::Withdrawn(account, act) => format!(in alloc; "@{}w{}", account.get(), act.get()),
        Place::Exported(account, act) => format!(in alloc; "@{}e{}", account.get(), act.get()),
    }
}

/// Adds a word after a space, but for the first one.
fn push_word(text: &mut String, sign: &str, word: &str) -> Result<(), AllocError> {
    if !text.is_empty() {
        text.push_str(" ")?;
    }
    text.push_str(sign)?;
    text.push_str(word)
}

/// One piece: the serials, and the place.
fn piece_text(alloc: Global, piece: &Piece) -> Result<String, AllocError> {
    let first = number_text(alloc, piece.first)?;
    let last = number_text(alloc, piece.last)?;
    let place = place_text(alloc, piece.place)?;
    format!(in alloc; "{first}-{last}{place}")
}

/// Adds a word for each number.
fn tell_numbers(rt: &impl Abort, alloc: Global, numbers: &[Number], text: &mut String) {
    for number in numbers {
        let word = number_text(alloc, *number).expect(rt, "memory");
        push_word(text, "-", word.as_str()).expect(rt, "memory");
    }
}

/// Adds a word for each piece.
fn tell_pieces(rt: &impl Abort, alloc: Global, sign: &str, pieces: &[Piece], text: &mut String) {
    let lot = lot(rt);
    for piece in pieces {
        let sign = if piece.lot.is(&lot) { sign } else { "?" };
        let word = piece_text(alloc, piece).expect(rt, "memory");
        push_word(text, sign, word.as_str()).expect(rt, "memory");
    }
}

/// A text is the one that is wanted; else both are told.
fn reads(rt: &impl Abort, text: &str, wanted: &str) {
    assert!(rt; text == wanted, "{text} in place of {wanted}");
}

/// The pieces are those of a text.
pub fn pieces_are(rt: &impl Abort, alloc: Global, pieces: &[Piece], wanted: &str) {
    let mut text = String::new(alloc);
    tell_pieces(rt, alloc, "", pieces, &mut text);
    reads(rt, &text, wanted)
}

/// The edit is that of a text.
pub fn edit_is(rt: &impl Abort, alloc: Global, edit: &Edit, wanted: &str) {
    let mut text = String::new(alloc);
    tell_numbers(rt, alloc, &edit.delete, &mut text);
    tell_pieces(rt, alloc, "+", &edit.insert, &mut text);
    reads(rt, &text, wanted)
}

/// The runs of a book are those of a text.
pub fn runs_are(rt: &impl Abort, alloc: Global, book: &Book, wanted: &str) {
    let runs = book.runs().expect(rt, "memory");
    pieces_are(rt, alloc, &runs, wanted)
}

/// An account is given the serials from the first to the last, by the edit of a text.
pub fn moves(
    rt: &impl Abort,
    alloc: Global,
    book: &mut Book,
    serials: (u64, u64),
    account: u32,
    wanted: &str,
) {
    let range = range(rt, serials.0, serials.1);
    let edit = book
        .reassign(range, held(rt, account))
        .expect(rt, "an edit");
    edit_is(rt, alloc, &edit, wanted)
}

/// The serials from the first to the last are issued to an account, by the edit of a text.
pub fn adds(
    rt: &impl Abort,
    alloc: Global,
    book: &mut Book,
    serials: (u64, u64),
    account: u32,
    wanted: &str,
) {
    let range = range(rt, serials.0, serials.1);
    let edit = book
        .add(range, lot(rt), held(rt, account))
        .expect(rt, "an edit");
    edit_is(rt, alloc, &edit, wanted)
}
