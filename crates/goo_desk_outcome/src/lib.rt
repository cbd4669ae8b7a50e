//! The texts of outcomes: compact JSON (RFC 8259) of at most 256 bytes, made in place without
//! memory.
#![tactic(auto)]

mod outcome;
mod pushes;
mod refusal;
mod reply;
mod unreadable;

pub use outcome::outcome_text;
pub use unreadable::{Unreadable, unreadable_text};
