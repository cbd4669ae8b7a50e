//! The store below a connection: a tree is taken away, and the database is opened once more.
#![tactic(auto)]

pub mod dropping;
pub mod fresh;
pub mod reopening;
