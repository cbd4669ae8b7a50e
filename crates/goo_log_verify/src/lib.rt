//! A journal is verified: each line, from the first byte to the last, without changing anything.
//!
//! The months of a journal are read one after another, in pieces. What is said of them is one
//! verdict: they are whole, their last line has no end, or the line of a number is bad.
#![tactic(auto)]

mod verdict;
mod verifier;

pub use verdict::Verdict;
pub use verifier::{MOST_LINE, verify};
