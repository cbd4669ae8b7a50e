//! What the program does for the issuing body with a registry that is open: it imports
//! declarations, and writes statements and the audit.
#![tactic(auto)]

mod declaring;
mod issuer;
mod progress_line;
mod showing;

pub use declaring::declare;
pub use progress_line::ProgressLine;
pub use showing::{show_audit, show_statement};
