//! The backend of the HTTP desk: a registry that applies requests, shows what it knows as texts,
//! and takes in declarations in CSV.
#![tactic(auto)]

mod backend;
mod certificate;
mod importing;
mod law;
mod registry;
mod showing;

pub use backend::{Backend, Imported, Shown};
pub use law::imports_are_runs;
