//! One judge for each command, over any shelf: [`decide`] decides on a request and changes nothing.
#![tactic(auto)]

mod add_peer;
mod close_account;
mod correct;
pub mod decision;
mod declare;
mod export;
mod import;
mod issue;
mod open_account;
mod open_holder;
mod parts;
mod register_device;
mod taking;
mod verdict;

pub use decision::decide;
