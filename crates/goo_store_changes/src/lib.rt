//! Changes of the tables of a registry, made all in one transaction or none.
#![tactic(auto)]

pub mod committing;
pub mod migrating;
mod once;
pub mod table_change;
