//! Rows by rising first numbers, kept in pages: an edit moves the rows of a page at most, and the
//! list of pages.
#![tactic(auto)]

mod near;
pub mod page;
pub mod paged;
