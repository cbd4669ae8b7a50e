//! A book that is long enough for pages, edited, looked up and put into one hand.
use crate::claims::holds;
use crate::examples::{book, held, range};
use crate::lookups::{has_first, is_held, lacks_first, leaves_first};
use crate::texts::{adds, moves, runs_are};
use goo_ranges::Book;
use std::alloc::Global;
use std::process::Abort;

/// Six hundred rows of five numbers each, of two accounts in turn: more than stay in one list.
fn many_rows(rt: &impl Abort, alloc: Global) -> Book {
    let mut book = book(rt, alloc, &[(1, 3000, 1)]);
    for i in 0..300u64 {
        let range = range(rt, 10 * i + 6, 10 * i + 10);
        book.reassign(range, held(rt, 2)).expect(rt, "an edit");
    }
    book
}

/// The same with ten numbers in a third hand.
fn many_edited(rt: &impl Abort, alloc: Global) -> Book {
    let mut book = many_rows(rt, alloc);
    let edit = "-1001 -1006 -1011 +1001-1003@1 +1004-1013@3 +1014-1015@1";
    moves(rt, alloc, &mut book, (1004, 1013), 3, edit);
    book
}

#[test]
fn a_long_book_edited(rt: HostRuntime) {
    let book = many_edited(&rt, rt.alloc());
    holds(
        &rt,
        book.to_pieces().expect(&rt, "memory").len() == 600,
        "how many pieces",
    );
}

#[test]
fn a_long_book_looked_up(rt: HostRuntime) {
    let book = many_edited(&rt, rt.alloc());
    is_held(&rt, &book, 2995, 1);
    lacks_first(&rt, &book, (1001, 3005), 3001);
    has_first(&rt, &book, (2996, 5000), 2996);
    leaves_first(&rt, &book, (1001, 3000), 1004)
}

/// The same with ten more numbers, that join the last row.
fn many_added_to(rt: &impl Abort, alloc: Global) -> Book {
    let mut book = many_rows(rt, alloc);
    adds(rt, alloc, &mut book, (3001, 3010), 2, "-2996 +2996-3010@2");
    book
}

#[test]
fn a_long_book_added_to(rt: HostRuntime) {
    let book = many_added_to(&rt, rt.alloc());
    holds(
        &rt,
        book.account_runs().expect(&rt, "memory").len() == 600,
        "how many runs",
    );
}

#[test]
fn a_long_book_in_one_hand(rt: HostRuntime) {
    let alloc = rt.alloc();
    let mut book = many_added_to(&rt, alloc);
    let edit = book
        .reassign(range(&rt, 1, 3010), held(&rt, 1))
        .expect(&rt, "an edit");
    holds(&rt, edit.delete.len() == 600, "how many rows are deleted");
    runs_are(&rt, alloc, &book, "1-3010@1")
}
