//! What calls of the files of a registry come to: the word for what kept them from being opened, and
//! whether their log may be removed once nobody works with them.
#![tactic(auto)]

pub mod file_fault;
pub mod settling;
