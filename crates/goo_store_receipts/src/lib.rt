//! Receipts and cancellations, each judged as it is read, and the tests of texts and numbers that the
//! rules of the other tables use too.
#![tactic(auto)]

pub mod cancellations;
pub mod numbers;
pub mod receipts;
pub mod texts;
