//! Values that rows and columns of the tables hold, read: numbers, texts, plants, devices, lots
//! and the registry's own row; why reading one fails, and what a caller is told of it.
#![tactic(auto)]

pub mod devices;
pub mod lots;
pub mod noting;
pub mod numbers;
pub mod plants;
pub mod registry_row;
pub mod statement_fault;
pub mod texts;
