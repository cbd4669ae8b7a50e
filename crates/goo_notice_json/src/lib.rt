//! What a JSON value (RFC 8259) states: members of an object, fields, and the lots and parts of a
//! notice; and how these are written.
//!
//! A reader looks at all keys and kinds (`Shape`) before it looks at any value (`Field`). Notices
//! stand above (`goo_notice_text`), and so do commands (`goo_notice`).
#![tactic(auto)]

pub mod carriers;
pub mod fields;
pub mod json_bytes;
mod lot_members;
pub mod lot_value;
pub mod members;
pub mod object;
pub mod part_value;
pub mod value_fault;

pub use value_fault::ValueFault;
