//! Rows of `piece` read as pieces, and what a shelf keeps of its look-ups: lots beside their numbers,
//! accounts, and rows that are read ahead.
#![tactic(auto)]

pub mod ahead;
pub mod cache;
pub mod kept_lots;
pub mod pieces;
pub mod room;
