//! The JSON value (RFC 8259) of a notice, and its one text: what registries send one another.
//!
//! [`write`] makes the text; [`read`] and [`from_value`] give the notice back. No two notices share
//! a text, and no other bytes are read as a notice: a law of `goo_notice`, over the definitions
//! here.
#![tactic(auto)]

pub mod notice_fault;
mod notice_text;
pub mod notice_value;

pub use notice_fault::NoticeFault;
pub use notice_text::{from_value, read, write};
pub use notice_value::stated_notice;
