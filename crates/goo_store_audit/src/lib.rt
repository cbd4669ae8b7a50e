//! What an audit adds up: certificates, net energy and what corrections took off, by device, from a
//! page of rows at a time.
#![tactic(auto)]

pub mod nets;
pub mod sums;
pub mod taken;
pub mod tallies;
