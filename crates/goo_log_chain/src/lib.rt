//! The chain of outcomes: the hash of each with the chain before, over what of an outcome is the
//! same whenever its entry is applied.
#![tactic(auto)]

mod comparison;
mod rows;

pub use comparison::{chained, comparable};
