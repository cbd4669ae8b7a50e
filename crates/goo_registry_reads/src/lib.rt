//! What is read of an account: its row, and its certificates run by run, each to whom it is shown.
#![tactic(auto)]

pub mod access;
pub mod account_reads;
pub mod heading;
