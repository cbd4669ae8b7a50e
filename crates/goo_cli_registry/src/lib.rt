//! A registry in memory or in files, without streams, words and paths: it is made or opened, answers
//! a whole input, and is closed.
//!
//! What `run_in_memory` and `run_in_files` come to is an [`Ending`](goo_cli_ending::Ending), which
//! the program shows.
#![tactic(auto)]

pub mod closing;
pub mod first_page;
pub mod in_memory;
pub mod memory_file;
pub mod opening;
pub mod renewal_line;
pub mod running;
