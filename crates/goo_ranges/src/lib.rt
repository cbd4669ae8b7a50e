//! A book that says for each number its lot and its place, kept as ranges.
#![tactic(auto)]

mod books;
mod cutting;
mod edits;
mod faults;
mod page;
mod pages;

pub use books::Book;
pub use edits::Edit;
pub use faults::BookFault;
pub use goo_types::piece::Piece;
