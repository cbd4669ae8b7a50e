//! The bodies of requests, JSON texts (RFC 8259): which request the bytes of a body state.
//!
//! There is one reader for each command. The definition in goo_notice says what the command's JSON
//! object states.
#![tactic(auto)]

mod add_peer;
mod advance;
mod body_fault;
mod cancel;
mod close_account;
mod command;
mod correct;
mod declare;
mod export;
mod import;
mod open_account;
mod open_holder;
mod register_device;
mod request;
mod transfer;
mod withdraw;

pub use body_fault::BodyFault;
pub use request::read_command;
