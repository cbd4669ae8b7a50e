//! The tests of form that certificates, days and codes have to pass, over plain numbers and bytes.
//!
//! The types of the registry's values stand on them: each type keeps the rule that its test checks.
#![tactic(auto)]

pub mod check_digit;
pub mod days;
pub mod edges;
pub mod numbers;
pub mod parts;
