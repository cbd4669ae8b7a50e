//! Entries of the log of requests and their outcomes: each has one text, and is read from no other.
//!
//! An entry is a request as it came, with who sent it, when and where, and the hash of the line of
//! the entry before. An outcome is what the registry answered to it.
#![tactic(auto)]

mod body;
mod entry;
mod entry_text;
mod law;
mod members;
mod outcome;
mod outcome_text;
mod text_fault;

pub use entry::{Entry, HttpRequest, Sender};
pub use entry_text::{read_entry, text_of_entry};
pub use law::entry_texts_differ;
pub use outcome::Outcome;
pub use outcome_text::{read_outcome, text_of_outcome};
pub use text_fault::TextFault;
