//! The commands `declare`, `statement`, `audit` and `serve` over files: the registry that they hold
//! is opened, worked with, and closed.
#![tactic(auto)]

mod serve_registry;
mod serving;
mod texts;

pub use serving::{serve_in_files, serve_new};
pub use texts::{audit_in_files, declare_in_files, statement_in_files};
