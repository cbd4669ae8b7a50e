//! Lists of pieces of consecutive numbers, rising: looked up, cut and joined.
#![tactic(auto)]

pub mod joined;
pub mod lookups;
pub mod parts;
