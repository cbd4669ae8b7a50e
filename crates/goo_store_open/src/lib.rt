//! Opening the tables of a registry: finding them, and reading them whole.
#![tactic(auto)]

pub mod connecting;
pub mod fault;
pub mod finding;
pub mod foreign;
pub mod forms;
pub mod layout;
pub mod matching;
pub mod our_schema;
pub mod reading;
pub mod registry_form;
pub mod rows;
