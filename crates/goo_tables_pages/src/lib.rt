//! The statements that show a table a page at a time: by what is added up of it, and the rows of an
//! account.
#![tactic(auto)]

pub mod account_pieces;
pub mod device_pieces;
pub mod net;
