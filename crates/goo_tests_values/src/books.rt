//! Two joined pieces that are moved, added to and looked up, the edges of one row of ten numbers,
//! runs of one account, and lists of pieces that make no book.
use crate::claims::holds;
use crate::examples::{account, book, piece, pieces};
use crate::lookups::{has_first, is_held, lacks_first, leaves_first};
use crate::texts::{adds, moves, pieces_are, runs_are};
use goo_ranges::{Book, BookFault, Piece};
use goo_types::act_no::ActNo;
use goo_types::place::Place;
use std::alloc::Global;
use std::process::Abort;

/// Twenty numbers of account 1, as two pieces.
const TWO_JOINED: [(u64, u64, u32); 2] = [(1, 10, 1), (11, 20, 1)];

/// Those with the middle given to account 2.
fn cut_in_three(rt: &impl Abort, alloc: Global) -> Book {
    let mut book = book(rt, alloc, &TWO_JOINED);
    let edit = "-1 -11 +1-4@1 +5-15@2 +16-20@1";
    moves(rt, alloc, &mut book, (5, 15), 2, edit);
    book
}

#[test]
fn two_joined_pieces_cut(rt: HostRuntime) {
    let alloc = rt.alloc();
    runs_are(&rt, alloc, &book(&rt, alloc, &TWO_JOINED), "1-20@1");
    runs_are(
        &rt,
        alloc,
        &cut_in_three(&rt, alloc),
        "1-4@1 5-15@2 16-20@1",
    )
}

#[test]
fn two_joined_pieces_looked_up(rt: HostRuntime) {
    let book = cut_in_three(&rt, rt.alloc());
    leaves_first(&rt, &book, (1, 20), 5);
    is_held(&rt, &book, 16, 1)
}

#[test]
fn two_joined_pieces_added_to(rt: HostRuntime) {
    let alloc = rt.alloc();
    let mut book = cut_in_three(&rt, alloc);
    adds(&rt, alloc, &mut book, (21, 21), 1, "-16 +16-21@1");
    lacks_first(&rt, &book, (15, 25), 22);
    has_first(&rt, &book, (15, 25), 15)
}

/// Of ten numbers of account 1 some are given to account 2, which makes the runs of a text.
fn becomes(rt: &impl Abort, alloc: Global, serials: (u64, u64), edit: &str, runs: &str) {
    let mut book = book(rt, alloc, &[(1, 10, 1)]);
    moves(rt, alloc, &mut book, serials, 2, edit);
    runs_are(rt, alloc, &book, runs)
}

#[test]
fn edges_of_one_row(rt: HostRuntime) {
    let alloc = rt.alloc();
    becomes(&rt, alloc, (1, 1), "-1 +1-1@2 +2-10@1", "1-1@2 2-10@1");
    becomes(&rt, alloc, (10, 10), "-1 +1-9@1 +10-10@2", "1-9@1 10-10@2");
    becomes(&rt, alloc, (1, 10), "-1 +1-10@2", "1-10@2")
}

#[test]
fn a_number_moved_and_moved_back(rt: HostRuntime) {
    let alloc = rt.alloc();
    let mut book = book(&rt, alloc, &[(1, 10, 1)]);
    moves(&rt, alloc, &mut book, (5, 5), 2, "-1 +1-4@1 +5-5@2 +6-10@1");
    runs_are(&rt, alloc, &book, "1-4@1 5-5@2 6-10@1");
    moves(&rt, alloc, &mut book, (5, 5), 1, "-1 -5 -6 +1-10@1")
}

/// Three numbers of account 1 that it cancelled.
fn cancelled(rt: &impl Abort) -> Piece {
    let act = ActNo::new(1).expect(rt, "an act");
    Piece {
        place: Place::Cancelled(account(rt, 1), act),
        ..piece(rt, 4, 6, 1)
    }
}

/// Three numbers of account 1, three that it cancelled, and three of account 2.
fn partly_cancelled(rt: &impl Abort, alloc: Global) -> Book {
    let mut rows = pieces(rt, alloc, &[(1, 3, 1)]);
    rows.push(cancelled(rt)).expect(rt, "memory");
    rows.push(piece(rt, 7, 9, 2)).expect(rt, "memory");
    Book::new(rows).expect(rt, "a book")
}

#[test]
fn runs_of_one_account(rt: HostRuntime) {
    let alloc = rt.alloc();
    let book = partly_cancelled(&rt, alloc);
    runs_are(&rt, alloc, &book, "1-3@1 4-6@1c1 7-9@2");
    let runs = book.account_runs().expect(&rt, "memory");
    pieces_are(&rt, alloc, &runs, "1-6@1 7-9@2")
}

/// Pieces make no book, for this reason.
fn is_no_book(rt: &impl Abort, alloc: Global, rows: &[(u64, u64, u32)], wanted: BookFault) {
    holds(
        rt,
        Book::new(pieces(rt, alloc, rows)).err() == Some(wanted),
        "why a list is no book",
    );
}

#[test]
fn pieces_that_make_no_book(rt: HostRuntime) {
    let alloc = rt.alloc();
    let overlapping = [(1, 10, 1), (10, 12, 1)];
    is_no_book(&rt, alloc, &overlapping, BookFault::Overlap(1));
    is_no_book(&rt, alloc, &[(5, 4, 1)], BookFault::Backwards(0));
}
