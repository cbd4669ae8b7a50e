//! The judges of what moves certificates: transfer, cancellation, withdrawal and the date. With them
//! the checks over the numbers that a notice brings, and the edits of rows that these and others make.
#![tactic(auto)]

pub mod advance;
pub mod arriving;
pub mod cancel;
pub mod edits;
pub mod range_checks;
pub mod transfer;
pub mod withdraw;
