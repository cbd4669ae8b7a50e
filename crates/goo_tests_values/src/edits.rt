//! A row that is moved whole, and a row near a range, before and after an edit that puts it
//! elsewhere.
use crate::examples::{book, held, piece, range};
use crate::texts::{edit_is, pieces_are};
use goo_ranges::Edit;
use goo_ranges_rows::near_after;
use std::alloc::Global;
use std::process::Abort;

/// The edit that gives some numbers of account 1 to account 2.
fn moved(rt: &impl Abort, alloc: Global, first: u64, last: u64) -> Edit {
    let row = piece(rt, first, last, 1);
    Edit::of_move(alloc, &row, held(rt, 2)).expect(rt, "memory")
}

#[test]
fn a_row_moved_whole(rt: HostRuntime) {
    let alloc = rt.alloc();
    edit_is(&rt, alloc, &moved(&rt, alloc, 1, 10), "-1 +1-10@2")
}

#[test]
fn a_row_that_was_put_elsewhere(rt: HostRuntime) {
    let alloc = rt.alloc();
    let near = book(&rt, alloc, &[(1, 4, 1), (8, 9, 1)])
        .runs()
        .expect(&rt, "memory");
    let mut edits = Vec::new(alloc);
    edits.push(moved(&rt, alloc, 1, 4)).expect(&rt, "memory");
    edits.push(moved(&rt, alloc, 20, 29)).expect(&rt, "memory");
    let after = near_after(near, &edits, &range(&rt, 5, 7)).expect(&rt, "memory");
    pieces_are(&rt, alloc, &after, "1-4@2 8-9@1")
}
