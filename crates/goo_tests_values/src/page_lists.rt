//! Rows put into pages and taken out again, and pages without rows. Rows over several pages are
//! tested where plans are made.
use crate::claims::holds;
use crate::examples::{account, lot, number, range, row};
use goo_core_pages::paged::Pages;

#[test]
fn rows_put_in_and_taken_out(rt: HostRuntime) {
    let (first, third) = (number(&rt, 1), number(&rt, 3));
    let (lot, account) = (lot(&rt), account(&rt, 1));
    let mut pages = Pages::new(rt.alloc());
    pages.make_room(2).expect(&rt, "memory");
    pages.put_in(row(&lot, third, third, account));
    pages.put_in(row(&lot, first, first, account));
    holds(&rt, pages.pages().len() == 1, "one page");
    pages.take_out(third);
    holds(&rt, pages.pages().len() == 1, "still one page");
    pages.take_out(first);
    holds(&rt, pages.pages().is_empty(), "no page");
}

#[test]
fn nothing_is_near_where_there_are_no_rows(rt: HostRuntime) {
    let pages = Pages::new(rt.alloc());
    let near = pages
        .meeting(rt.alloc(), range(&rt, 1, 9))
        .expect(&rt, "memory");
    holds(&rt, near.is_empty(), "no rows");
}
