//! The lines of a journal: `{"entry":TEXT,"mac":"HASH"}` and `{"outcome":TEXT,"mac":"HASH"}`, each
//! with the keyed hash of its text.
#![tactic(auto)]

mod frame;
mod line;

pub use line::{Line, line_of_entry, line_of_outcome, read_line};
